//! The facts for the manifest of one vehicle, by the keys of its plan and of the trips at the plan's stops.
ghost use Rattle.std.specs.Prelude.{◌≡◌, ◌==◌, IfOk, IfSome, [], ◌∷◌};
ghost use Rattle.std.specs.List.{list_any};
ghost use Rattle.pt_desk_rules.specs.State.{trip_key};
ghost use Rattle.pt_base_records.specs.Records.{edited};
ghost use Rattle.pt_desk_requests.specs.declared.request.Read.TheVariants.{Manifest};
ghost use Rattle.pt_desk_store.specs.Enough.{are_met, is_met, tour_by, AreTripsIn, IsEnough, IsEnoughBy, IsTripIn};
ghost use Rattle.pt_desk_store.specs.Store.{Store, Reads, ReadsSome};

use crate::{Keeper, StoreFault};
use pt_base_records::{Edits, Key, Keyed, Rows, Table};
use pt_base_values::{Day, Trip, TripId, VehicleId};
use pt_desk_rules::{DayFacts, ReadFacts};
use pt_desk_scheduling::{Plan, PlannedStop};
use std::alloc::{AllocError, Global};

/// Whether a trip of this number is among these.
fn has_trip(trips: &[Trip], id: TripId) -> bool
    ensures { result ≡ list_any (λ trip. trip.id == id) trips.now }
{
    for trip in trips {
        if trip.id == id {
            return true;
        }
    }
    false
}

/// The trip of this number, if it is not among those that were found.
fn gather_other<K: Keeper>(
    keeper: &mut K,
    found: &[Trip],
    id: TripId,
) -> Result<Option<Trip>, StoreFault>
    ensures reads { ReadsSome (K.store keeper.old) (K.store keeper.new) (λ s other. IfSome other (IsTripIn s)) result }
{
    if has_trip(found, id) {
        return Ok(None);
    }
    keeper.trip(id)
}

/// The trips of the stops.
fn gather_trips<K: Keeper>(
    alloc: Global,
    keeper: &mut K,
    stops: &[PlannedStop],
) -> Result<Edits<Trip>, StoreFault>
    ensures reads { ReadsSome (K.store keeper.old) (K.store keeper.new)
        (λ s found. AreTripsIn s (edited trip_key found [])) result }
{
    let mut found = Edits::none(alloc);
    for stop in stops {
        if let Some(trip) = gather_other(keeper, found.puts(), stop.trip)? {
            found.put(trip)?;
        }
    }
    Ok(found)
}

/// The records in the order of their keys.
pub(crate) fn in_order<T: Keyed>(alloc: Global, found: Edits<T>) -> Result<Rows<T>, AllocError>
    ensures { IfOk result (λ rows. rows ≡ edited T.key found []) }
{
    let mut records = Table::none(alloc);
    records.reserve(&found)?;
    records.edit(found);
    Ok(records.into_rows())
}

/// Whether the stop's trip is among these, and is on the day.
fn is_met(day: Day, trips: &Rows<Trip>, stop: &PlannedStop) -> bool
    ensures { result ≡ is_met day trips.now stop.now }
{
    match trips.find(&Key::of(stop.trip.number())) {
        Some(trip) => trip.wish.day == day,
        None => false,
    }
}

/// Whether the trip of each stop is among these, and is on the day.
fn are_met(day: Day, trips: &Rows<Trip>, stops: &[PlannedStop]) -> bool
    ensures { result ≡ are_met day trips.now stops.now }
{
    for stop in stops {
        if !is_met(day, trips, stop) {
            return false;
        }
    }
    true
}

/// The plan and no other.
fn alone(alloc: Global, plan: Plan) -> Result<Rows<Plan>, AllocError>
    ensures { IfOk result (λ plans. plans ≡ plan ∷ []) }
{
    let mut plans = Vec::new(alloc);
    plans.push(plan)?;
    Ok(Rows::of(plans))
}

/// The facts for manifests on a day, with these plans and trips.
fn gather_tour<K: Keeper>(
    alloc: Global,
    keeper: &mut K,
    day: Day,
    plans: Rows<Plan>,
    trips: Rows<Trip>,
) -> Result<ReadFacts, StoreFault>
    ensures reads { Reads (K.store keeper.old) (K.store keeper.new) (tour_by day plans trips) result }
{
    let vehicles = keeper.vehicles(alloc)?;
    let travel = keeper.travel_on(alloc, day)?;
    let day = DayFacts {
        travel,
        trips,
        plans,
    };
    Ok(ReadFacts {
        vehicles,
        day,
        ..ReadFacts::none(alloc)
    })
}

/// The facts for the manifest of the vehicle that has this plan. `None` if the trip of a stop is not on the day.
fn gather_planned<K: Keeper>(
    alloc: Global,
    keeper: &mut K,
    day: Day,
    plan: Plan,
) -> Result<Option<ReadFacts>, StoreFault>
    ensures reads { ReadsSome (K.store keeper.old) (K.store keeper.new)
        (λ s found. IfSome found (IsEnoughBy day plan s)) result }
{
    let found = gather_trips(alloc, keeper, &plan.stops)?;
    let trips = in_order(alloc, found)?;
    if plan.day != day || !are_met(day, &trips, &plan.stops) {
        return Ok(None);
    }
    let plans = alone(alloc, plan)?;
    Ok(Some(gather_tour(alloc, keeper, day, plans, trips)?))
}

/// The facts for the manifest of a vehicle. `None` if the trip of a stop is not on the day; no sound state has such a
/// stop.
pub(crate) fn gather_manifest<K: Keeper>(
    alloc: Global,
    keeper: &mut K,
    vehicle: VehicleId,
    day: Day,
) -> Result<Option<ReadFacts>, StoreFault>
    ensures reads { ReadsSome (K.store keeper.old) (K.store keeper.new)
        (λ s found. IfSome found (IsEnough (Manifest vehicle day) s)) result }
{
    match keeper.planned_route(alloc, vehicle, day)? {
        Some(plan) => gather_planned(alloc, keeper, day, plan),
        None => Ok(Some(gather_tour(alloc, keeper, day, Rows::none(alloc), Rows::none(alloc))?)),
    }
}
