ghost use Rattle.std.specs.Prelude.{◌≡◌, IfOk, map};
ghost use Rattle.pt_feasible.specs.Route.{stops_of};
ghost use Rattle.pt_desk_scheduling.specs.Plan.{planned_stop, without};

use pt_base_records::{Key, Keyed};
use pt_base_values::{Day, TripId, VehicleId};
use pt_feasible::{Route, Stop, StopKind, Stops};
use std::alloc::{AllocError, Global};
use std::marker::Model;

/// A stop of a vehicle's route. Its other fields come from its trip.
#[derive(Clone, Copy, PartialEq, Eq)]
pub struct PlannedStop {
    pub trip: TripId,
    pub kind: StopKind,
}

/// The route of a vehicle on a day: its stops, without the depot at either end.
#[derive(Drop)]
pub struct Plan {
    pub vehicle: VehicleId,
    pub day: Day,
    pub stops: Vec<PlannedStop>,
}

impl Model for Plan {
    ghost use Rattle.pt_desk_scheduling.specs.Plan.{Plan};

    ghost Value = { Plan };

    ghost view = { λ route. record {
      vehicle = route.vehicle;
      day = route.day;
      stops = route.stops.items;
    } };
}

impl Plan {
    ghost use Rattle.pt_desk_scheduling.specs.Plan.{without};

    /// A copy.
    pub fn copy(&self, alloc: Global) -> Result<Self, AllocError>
        ensures value { IfOk result (λ copy. copy ≡ self.now) }
    {
        Ok(Plan {
            vehicle: self.vehicle,
            day: self.day,
            stops: Vec::from_slice(alloc, &self.stops)?,
        })
    }

    /// The stops of the other trips.
    pub fn stops_without(&self, alloc: Global, trip: TripId) -> Result<Vec<PlannedStop>, AllocError>
        ensures value { IfOk result (λ rest. rest.items ≡ without trip self.now.stops) }
    {
        stops_without(alloc, &self.stops, trip)
    }
}

/// The stops of the other trips.
pub(crate) fn stops_without(
    alloc: Global,
    stops: &[PlannedStop],
    trip: TripId,
) -> Result<Vec<PlannedStop>, AllocError>
    ensures value { IfOk result (λ rest. rest.items ≡ without trip stops.now) }
{
    let mut rest = Vec::new(alloc);
    for stop in stops {
        if stop.trip != trip {
            rest.push(*stop)?;
        }
    }
    Ok(rest)
}

/// The stops of a route, each by its trip.
pub(crate) fn planned_stops(alloc: Global, route: &Route) -> Result<Vec<PlannedStop>, AllocError>
    ensures value { IfOk result (λ stops. stops.items ≡ map planned_stop (stops_of route.now)) }
{
    let mut stops = Vec::new(alloc);
    for k in 0..route.len() {
        let Stop { trip, kind, .. } = route.stop(k);
        stops.push(PlannedStop { trip, kind })?;
    }
    Ok(stops)
}

impl Keyed for Plan {
    ghost use Rattle.pt_desk_scheduling.specs.Plan.{plan_key};

    ghost key = { plan_key };

    fn key(&self) -> Key {
        Key::pair(self.vehicle.number(), self.day.number())
    }
}
