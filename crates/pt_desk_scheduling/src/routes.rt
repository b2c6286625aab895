ghost use Rattle.std.specs.Prelude.{◌≡◌, ◌++◌, [], ◌∷◌, ℕ, map, All, IfOk, IfSome, IfNone, OnOk};
ghost use Rattle.pt_feasible.specs.Route.{stops_of};
ghost use Rattle.pt_base_records.specs.Records.{IsInOrder};
ghost use Rattle.pt_desk_booking.specs.Planning.{on_duty};
ghost use Rattle.pt_desk_scheduling.specs.Plan.{after_stop, stops_among, planned_stops, trip_stop};
ghost use Rattle.pt_desk_scheduling.specs.Routes.{IsRoute, day_route, routes_without, stops_on, stops_without};

use crate::planned::stops_without;
use crate::{DayPlans, Plan, PlannedStop};
use pt_base_records::{Key, Rows, find_record};
use pt_base_values::{Day, Trip, TripId, Vehicle, VehicleId};
use pt_desk_booking::asked_of;
use pt_feasible::{Route, Stop, StopKind};
use pt_insertion_search::Duty;
use std::alloc::{AllocError, Global};

/// A vehicle on duty, and its route of the day.
#[derive(Drop)]
pub struct DayRoute {
    pub vehicle: Vehicle,
    pub route: Route,
}

/// A trip's stop of this kind.
fn trip_stop(kind: StopKind, trip: &Trip) -> Stop
    ensures { result ≡ trip_stop kind trip.now }
{
    let asked = asked_of(trip);
    match kind {
        StopKind::Pickup => asked.pickup_stop(),
        StopKind::Drop => asked.drop_stop(),
    }
}

/// The planned stops whose trips are in the list, with all their fields.
pub fn stops_among(
    alloc: Global,
    trips: &[Trip],
    planned: &[PlannedStop],
) -> Result<Vec<Stop>, AllocError>
    requires order { IsInOrder (λ trip. trip.id) trips.now }
    ensures { IfOk result (λ stops. stops.items ≡ stops_among trips.now planned.now) }
{
    let mut stops = Vec::new(alloc);
    for stop in planned {
        if let Some(trip) = find_record(trips, &Key::of(stop.trip.number())) {
            stops.push(trip_stop(stop.kind, trip))?;
        }
    }
    Ok(stops)
}

/// The stops of a vehicle on a day, as they are stored.
fn planned_stops(plans: &Rows<Plan>, vehicle: VehicleId, day: Day) -> &[PlannedStop]
    ensures { result.now ≡ planned_stops vehicle day plans.now }
{
    match plans.find(&Key::pair(vehicle.number(), day.number())) {
        Some(plan) => &plan.stops,
        None => &[],
    }
}

/// The route of a vehicle on a day; `None` if its stops do not form a route.
pub fn route_on(
    alloc: Global,
    day: Day,
    trips: &Rows<Trip>,
    plans: &Rows<Plan>,
    vehicle: VehicleId,
) -> Result<Option<Route>, AllocError>
    ensures route { IfOk result (λ found. IfSome found (λ route.
        stops_of route ≡ stops_on day trips.now plans.now vehicle)) }
    ensures none { IfOk result (λ found. IfNone found (¬ IsRoute (stops_on day trips.now plans.now vehicle))) }
{
    let planned = planned_stops(plans, vehicle, day);
    Ok(Route::of(stops_among(alloc, trips.as_slice(), planned)?))
}

/// The route of a vehicle on a day without this trip; `None` if its stops do not form a route.
fn route_without(
    alloc: Global,
    trip: TripId,
    day: Day,
    plans: &DayPlans<'_>,
    vehicle: VehicleId,
) -> Result<Option<Route>, AllocError>
    ensures route { IfOk result (λ found. IfSome found (λ route.
        stops_of route ≡ stops_without trip day plans.now.trips.now plans.now.plans.now vehicle)) }
    ensures none { IfOk result (λ found. IfNone found
        (¬ IsRoute (stops_without trip day plans.now.trips.now plans.now.plans.now vehicle))) }
{
    let planned = stops_without(alloc, planned_stops(plans.plans, vehicle, day), trip)?;
    let trips = plans.trips.as_slice();
    Ok(Route::of(stops_among(alloc, trips, &planned)?))
}

/// The routes of a day's vehicles without this trip; `None` if the stops of one do not form a route.
pub fn routes_without(
    alloc: Global,
    trip: TripId,
    day: Day,
    plans: &DayPlans<'_>,
) -> Result<Option<Vec<DayRoute>>, AllocError>
    ensures routes { IfOk result (λ found. IfSome found (λ routes. map day_route routes.items
        ≡ routes_without trip day plans.now.trips.now plans.now.plans.now plans.now.vehicles.now)) }
    ensures none { IfOk result (λ found. IfNone found (¬ All (λ duty. IsRoute duty.stops)
        (routes_without trip day plans.now.trips.now plans.now.plans.now plans.now.vehicles.now))) }
{
    let mut routes = Vec::new(alloc);
    for vehicle in plans.vehicles {
        match route_without(alloc, trip, day, plans, vehicle.id)? {
            Some(route) => routes.push(DayRoute {
                vehicle: *vehicle,
                route,
            })?,
            None => return Ok(None),
        }
    }
    Ok(Some(routes))
}

/// The routes, borrowed as duties.
pub fn duties_of<'a>(alloc: Global, routes: &'a [DayRoute]) -> Result<Vec<Duty<'a>>, AllocError>
    ensures { IfOk result (λ duties. on_duty duties.items ≡ map day_route routes.now) }
{
    let mut duties = Vec::new(alloc);
    for day_route in routes {
        duties.push(Duty {
            vehicle: &day_route.vehicle,
            route: &day_route.route,
        })?;
    }
    Ok(duties)
}
