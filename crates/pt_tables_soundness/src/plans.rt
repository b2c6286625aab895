ghost use Rattle.std.specs.Prelude.{◌≡◌, ◌==◌, ◌↔◌, IsTrue};
ghost use Rattle.std.specs.List.{list_any};
ghost use Rattle.pt_base_values.specs.TripStatus.{stands};
ghost use Rattle.pt_base_records.specs.Keys.{pair_key};
ghost use Rattle.pt_base_records.specs.Records.{Each};
ghost use Rattle.pt_desk_scheduling.specs.Plan.{plan_key};
ghost use Rattle.pt_desk_rules.specs.Sound.{HasStandingTrips, IsPlanned, StandsIn};
ghost use Rattle.pt_tables_soundness.specs.Tables.{AreSoundPlans};

use crate::pairs::are_route_plans;
use pt_base_records::{Key, Keyed, Table};
use pt_base_values::{Trip, TripId};
use pt_desk_rules::have_stops;
use pt_desk_scheduling::{Plan, PlannedStop};
use std::cmp::Ordering;

/// Whether a trip is not cancelled, and is in the vehicle and on the day of a plan.
fn is_standing_in(plan: &Plan, trip: &Trip) -> bool
    ensures { IsTrue result ↔ (IsTrue (stands trip.now.status)
        × (pair_key trip.now.vehicle trip.now.wish.day ≡ plan_key plan.now)) }
{
    let key = Key::pair(trip.vehicle.number(), trip.wish.day.number());
    trip.status.stands() && key.compare(&plan.key()) == Ordering::Equal
}

/// Whether the trip of a stop is not cancelled, and is in the vehicle and on the day of the plan.
fn stands_in(trips: &Table<Trip>, plan: &Plan, stop: &PlannedStop) -> bool
    ensures { IsTrue result ↔ StandsIn trips.now.items (plan_key plan.now) stop.now.trip }
{
    match trips.find(&Key::of(stop.trip.number())) {
        Some(trip) => is_standing_in(plan, trip),
        None => false,
    }
}

/// Whether the trips of these stops are not cancelled, and are in the vehicle and on the day of the plan.
fn stand_in(trips: &Table<Trip>, plan: &Plan, stops: &[PlannedStop]) -> bool
    ensures { IsTrue result ↔ Each (λ stop. StandsIn trips.now.items (plan_key plan.now) stop.trip) stops.now }
{
    for stop in stops {
        if !stands_in(trips, plan, stop) {
            return false;
        }
    }
    true
}

/// Whether the stops of a plan are those of trips in its vehicle on its day that are not cancelled.
fn has_standing_trips(trips: &Table<Trip>, plan: &Plan) -> bool
    ensures { IsTrue result ↔ HasStandingTrips trips.now.items plan.now }
{
    stand_in(trips, plan, &plan.stops)
}

/// Whether some stop is one of this trip.
fn has_trip(stops: &[PlannedStop], trip: TripId) -> bool
    ensures { result ≡ list_any (λ stop. stop.trip == trip) stops.now }
{
    stops.iter().any(|stop| stop.trip == trip)
}

/// Whether the trip, if it is not cancelled, is in the plan of its vehicle on its day.
fn is_planned(plans: &Table<Plan>, trip: &Trip) -> bool
    ensures { IsTrue result ↔ IsPlanned plans.now.items trip.now }
{
    if !trip.status.stands() {
        return true;
    }
    match plans.find(&Key::pair(trip.vehicle.number(), trip.wish.day.number())) {
        Some(plan) => has_trip(&plan.stops, trip.id),
        None => false,
    }
}

/// Whether the stops of each plan are those of trips in its vehicle on its day that are not cancelled.
fn have_standing_trips(trips: &Table<Trip>, plans: &[Plan]) -> bool
    ensures { IsTrue result ↔ Each (HasStandingTrips trips.now.items) plans.now }
{
    plans.iter().all(|plan| has_standing_trips(trips, plan))
}

/// Whether the trips that are not cancelled are planned.
fn are_planned(plans: &Table<Plan>, trips: &[Trip]) -> bool
    ensures { IsTrue result ↔ Each (IsPlanned plans.now.items) trips.now }
{
    trips.iter().all(|trip| is_planned(plans, trip))
}

/// Whether the plans are those of a sound state with these trips, as far as no travel table matters.
pub(crate) fn are_sound_plans(trips: &Table<Trip>, plans: &Table<Plan>) -> bool
    ensures { IsTrue result ↔ AreSoundPlans trips.now.items plans.now.items }
{
    let routes = plans.as_slice();
    are_route_plans(routes)
        && have_standing_trips(trips, routes)
        && have_stops(routes)
        && are_planned(plans, trips.as_slice())
}
