//! What a booking needs of its day: the plans of the vehicles that work in the wished window, or nothing but driving
//! times where a rule of the rider's denies it.
ghost use Rattle.std.specs.Prelude.{◌≡◌, ◌==◌, ◌↔◌, IfOk, IsTrue, []};
ghost use Rattle.pt_base_values.specs.Day.{IsDay};
ghost use Rattle.pt_desk_rules.specs.Booking.{IsAsking};
ghost use Rattle.pt_desk_store.specs.Store.{Reads, ReadsSome};
ghost use Rattle.pt_desk_store.specs.Wished.{plan_on, plans_found, plans_of, vehicles_for, works_in_window};
ghost use Rattle.pt_desk_store.specs.Wished.{plans_if, travel_facts, with_day, with_plans, AreWished, IsDeniedToRider};

use crate::manifests::in_order;
use crate::{Keeper, StoreFault};
use pt_base_records::{Edits, Rows};
use pt_base_values::{Day, Trip, TripId, Vehicle, VehicleId, Wish};
use pt_desk_booking::{riders_denial, wished_window};
use pt_desk_rules::{Asking, DayFacts, WishFacts, on_duty, uses_of};
use pt_desk_scheduling::Plan;
use std::alloc::{AllocError, Global};

/// Whether the vehicle's hours and the wished window of the pickup have a minute in common.
fn works_in_window(wish: &Wish, vehicle: &Vehicle) -> bool
    ensures { result ≡ works_in_window wish.now vehicle.now }
{
    let window = wished_window(wish.pickup);
    vehicle.opens <= window.to && window.from <= vehicle.closes
}

/// The vehicles on duty on the wished day that work in the window. The error is out of memory.
fn vehicles_for(
    alloc: Global,
    vehicles: &[Vehicle],
    wish: &Wish,
) -> Result<Vec<Vehicle>, AllocError>
    ensures { IfOk result (λ found. found.items ≡ vehicles_for wish.now vehicles.now) }
{
    let on_duty = on_duty(alloc, vehicles, wish.day)?;
    let mut found = Vec::new(alloc);
    for vehicle in &on_duty {
        if works_in_window(wish, vehicle) {
            found.push(*vehicle)?;
        }
    }
    Ok(found)
}

/// Whether the plan is on the day.
fn is_on(day: Day, plan: &Plan) -> bool
    ensures value { result ≡ (plan.now.day == day) }
    ensures ranges { IsDay plan.now.day × IsDay day }
{
    plan.day.number() == day.number()
}

/// The plan of a vehicle among those of the day.
fn gather_plan_on<K: Keeper>(
    alloc: Global,
    keeper: &mut K,
    vehicle: VehicleId,
    day: Day,
) -> Result<Option<Plan>, StoreFault>
    ensures reads { Reads (K.store keeper.old) (K.store keeper.new) (λ s. plan_on day s.planned vehicle) result }
{
    let Some(plan) = keeper.planned_route(alloc, vehicle, day)? else {
        return Ok(None);
    };
    if !is_on(day, &plan) {
        return Ok(None);
    }
    Ok(Some(plan))
}

/// The plans of these vehicles on a day.
fn gather_found<K: Keeper>(
    alloc: Global,
    keeper: &mut K,
    vehicles: &[Vehicle],
    day: Day,
) -> Result<Edits<Plan>, StoreFault>
    ensures reads { Reads (K.store keeper.old) (K.store keeper.new)
        (λ s. record { away = []; puts = plans_found day s.planned vehicles.now }) result }
{
    let mut found = Edits::none(alloc);
    for vehicle in vehicles {
        if let Some(plan) = gather_plan_on(alloc, keeper, vehicle.id, day)? {
            found.put(plan)?;
        }
    }
    Ok(found)
}

/// The plans of these vehicles on a day, in the order of their keys.
fn gather_plans<K: Keeper>(
    alloc: Global,
    keeper: &mut K,
    vehicles: &[Vehicle],
    day: Day,
) -> Result<Rows<Plan>, StoreFault>
    ensures reads { Reads (K.store keeper.old) (K.store keeper.new)
        (λ s. plans_of day vehicles.now s.planned) result }
{
    let found = gather_found(alloc, keeper, vehicles, day)?;
    Ok(in_order(alloc, found)?)
}

/// The facts with these about the day.
pub(crate) fn with_day(facts: WishFacts, day: DayFacts) -> WishFacts
    ensures { result ≡ with_day facts day }
{
    let mut facts = facts;
    facts.booking.day = day;
    facts
}

/// The facts with the travel table that holds on the wished day.
fn gather_travel_for<K: Keeper>(
    alloc: Global,
    keeper: &mut K,
    facts: WishFacts,
    wish: &Wish,
) -> Result<WishFacts, StoreFault>
    ensures reads { Reads (K.store keeper.old) (K.store keeper.new) (travel_facts facts wish.now) result }
{
    let travel = keeper.travel_on(alloc, wish.day)?;
    let day = DayFacts {
        travel,
        ..DayFacts::none(alloc)
    };
    Ok(with_day(facts, day))
}

/// Whether a rule that asks nothing of vehicles denies the wish. The error is out of memory.
fn is_denied_to_rider(
    alloc: Global,
    facts: &WishFacts,
    asking: &Asking,
    number: TripId,
    left_out: &Option<TripId>,
    today: Day,
    wish: &Wish,
) -> Result<bool, AllocError>
    ensures value { IsAsking wish.now facts.now asking.now → IfOk result (λ denied. IsTrue denied
        ↔ IsDeniedToRider number left_out.now today wish.now facts.now) }
{
    let uses = uses_of(alloc, facts, left_out)?;
    let request = asking.request(facts, &uses, number, today, wish);
    Ok(riders_denial(&request).is_some())
}

/// The plans of the vehicles that work in the wished window, if the wished day has these trips; none if it has no trip.
fn gather_plans_if<K: Keeper>(
    alloc: Global,
    keeper: &mut K,
    trips: &[Trip],
    vehicles: &[Vehicle],
    wish: &Wish,
) -> Result<Rows<Plan>, StoreFault>
    ensures reads { Reads (K.store keeper.old) (K.store keeper.new)
        (λ s. plans_if trips.now (plans_of wish.now.day (vehicles_for wish.now vehicles.now) s.planned)) result }
{
    if trips.is_empty() {
        return Ok(Rows::none(alloc));
    }
    let vehicles = vehicles_for(alloc, vehicles, wish)?;
    gather_plans(alloc, keeper, &vehicles, wish.day)
}

/// The facts with the trips of the wished day and the plans of the vehicles that work in the wished window.
fn gather_plans_for<K: Keeper>(
    alloc: Global,
    keeper: &mut K,
    facts: WishFacts,
    wish: &Wish,
) -> Result<WishFacts, StoreFault>
    ensures reads { Reads (K.store keeper.old) (K.store keeper.new) (with_plans facts wish.now) result }
{
    let trips = keeper.trips_on(alloc, wish.day)?;
    let vehicles = facts.vehicles.as_slice();
    let plans = gather_plans_if(alloc, keeper, trips.as_slice(), vehicles, wish)?;
    let mut facts = facts;
    facts.booking.day.trips = trips;
    facts.booking.day.plans = plans;
    Ok(facts)
}

/// The facts with what a wish for a trip of this number needs of its day. The trip `left_out` makes no day of use.
pub(crate) fn gather_wished<K: Keeper>(
    alloc: Global,
    keeper: &mut K,
    facts: WishFacts,
    asking: &Asking,
    number: TripId,
    left_out: &Option<TripId>,
    today: Day,
    wish: &Wish,
) -> Result<WishFacts, StoreFault>
    ensures reads { IsAsking wish.now facts asking.now → ReadsSome (K.store keeper.old) (K.store keeper.new)
        (AreWished number left_out.now today wish.now facts) result }
{
    let facts = gather_travel_for(alloc, keeper, facts, wish)?;
    if is_denied_to_rider(alloc, &facts, asking, number, left_out, today, wish)? {
        return Ok(facts);
    }
    gather_plans_for(alloc, keeper, facts, wish)
}
