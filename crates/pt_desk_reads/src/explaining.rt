ghost use Rattle.std.specs.Prelude.{◌≡◌, ◌<◌, All, AllPairs, None, Some, IfErr, IfOk};
ghost use Rattle.pt_base_values.specs.Fault.{fault};
ghost use Rattle.pt_base_values.specs.declared.fault.Cause.TheVariants as cause;
ghost use Rattle.pt_desk_booking.specs.Planning.{on_duty};
ghost use Rattle.pt_feasible.specs.Route.{stops_of};
ghost use Rattle.pt_insertion_search.specs.Insertion.{IsWithout};
ghost use Rattle.pt_rights_files.specs.Rules.{first_failing};
ghost use Rattle.pt_travel.specs.Times.{time_in};
ghost use Rattle.pt_desk_rules.specs.Booking.{AreTimes, IsAsking, rows_of};
ghost use Rattle.pt_desk_rules.specs.Explaining.{next_trip, IsExplained, IsToldPossible};
ghost use Rattle.pt_desk_reads.specs.Inquiry.{AreRoutesOf, IsInquiry, IsInquiryAfter};
ghost use Rattle.pt_desk_rules.specs.Rules.{explain_rules};

use pt_base_values::{Day, Fault, Moment, Rule, TripId, Wish};
use pt_desk_booking::{asked_for, riders_denial};
use pt_desk_requests::{Answer, Caller};
use pt_desk_rules::{
    Asking, TravelTable, WishFacts, answer_wish, is_dispatcher, new_trip, on_duty, uses_of,
};
use pt_desk_scheduling::{
    DayPlans, DayRoute, Scheduled, are_without_trip, duties_of, routes_without,
};
use pt_insertion_search::{Asked, Duty};
use pt_travel::Closed;
use std::alloc::{AllocError, Global};
use std::marker::Model;

/// The facts of a refusal.
///
/// A contract sees the vehicles on duty on the wish's day, by rising number, with their stops; the trip that they are
/// asked for; and the rows of driving times for the day.
#[derive(Drop)]
pub struct Facts {
    routes: Vec<DayRoute>,
    asked: Asked,
    table: TravelTable,
}

impl Model for Facts {
    ghost use Rattle.std.specs.Prelude.{map};
    ghost use Rattle.pt_desk_reads.specs.Refusal.{AreWithout, Refusal};
    ghost use Rattle.pt_desk_scheduling.specs.Routes.{day_route};

    ghost Value = { Refusal };

    ghost view = { λ found. record {
      vehicles = map day_route found.routes.items;
      asked = found.asked;
      rows = found.table.rows;
    } };

    ghost invariant = { λ found. AreWithout found.asked.trip (map day_route found.routes.items) };
}

impl Facts {
    /// The vehicles on duty with their routes, by rising number. No route has a stop of the asked trip. The fault is
    /// out of memory.
    pub fn duties(&self, alloc: Global) -> Result<Vec<Duty<'_>>, Fault>
        ensures vehicles { IfOk result (λ duties. on_duty duties.items ≡ self.now.vehicles) }
        ensures rising { IfOk result (λ duties.
            AllPairs (λ first second. first.vehicle.now.id < second.vehicle.now.id) duties.items) }
        ensures new_trip { IfOk result (λ duties.
            All (λ duty. IsWithout self.now.asked.trip (stops_of duty.route.now)) duties.items) }
        ensures memory { IfErr result (λ refused. refused ≡ fault cause.Memory) }
    {
        Ok(duties_of(alloc, &self.routes)?)
    }

    /// The trip that the vehicles are asked for, under the number that it would get.
    pub fn asked(&self) -> &Asked
        ensures value { result.now ≡ self.now.asked }
    {
        &self.asked
    }

    /// The least driving times on the day.
    pub fn times(&self) -> &Closed
        ensures least { AreTimes self.now.rows (time_in result.now) }
    {
        self.table.times()
    }
}

/// The result of asking for the facts of a refusal.
#[derive(Drop)]
pub enum Inquiry {
    /// The facts, if the wish is refused because no vehicle can serve it.
    Facts(Facts),
    /// The first rule to fail before any vehicle is looked at.
    Denied(Rule),
}

/// What a dispatcher asks of a new trip, and its number; otherwise the first rule that denies the question before the
/// rules of the trip itself.
fn trip_to_explain(facts: &WishFacts, me: &Caller, wish: &Wish) -> Result<(Asking, TripId), Rule>
    ensures denied { IfErr result (λ rule. first_failing (explain_rules wish.now me.now facts.now) ≡ Some rule) }
    ensures allowed { IfOk result (λ found. first_failing (explain_rules wish.now me.now facts.now) ≡ None) }
    ensures asking { IfOk result (λ found. IsAsking wish.now facts.now found.0) }
    ensures number { IfOk result (λ found. found.1 ≡ next_trip facts.now) }
{
    if !is_dispatcher(me.role) {
        return Err(Rule::Caller);
    }
    new_trip(facts, wish)
}

/// The answer, if a booking would end like this.
fn told_of(found: &Scheduled) -> Answer
    ensures { IsToldPossible found.now result }
{
    match found {
        Scheduled::Denied(rule) => Answer::Denied(*rule),
        Scheduled::Booked { .. } => Answer::Possible,
    }
}

/// Says whether a rider's wish could be booked at the moment `now`, or which rule would deny it. The error is out of
/// memory.
pub fn explain(
    alloc: Global,
    facts: &WishFacts,
    me: &Caller,
    now: Moment,
    wish: &Wish,
) -> Result<Answer, AllocError>
    ensures value { IfOk result (λ told. IsExplained wish.now me.now now facts.now told) }
{
    match trip_to_explain(facts, me, wish) {
        Ok((asking, trip)) => {
            let found = answer_wish(alloc, facts, &asking, trip, &None, now.0, wish)?;
            Ok(told_of(&found))
        }
        Err(rule) => Ok(Answer::Denied(rule)),
    }
}

/// The driving times that the facts give.
fn table_of(alloc: Global, facts: &WishFacts, day: Day) -> Result<TravelTable, AllocError>
    ensures { IfOk result (λ table. table.rows ≡ rows_of facts.now.booking.day.travel) }
{
    match &facts.booking.day.travel {
        Some(table) => table.copy(alloc),
        None => TravelTable::none(alloc, day),
    }
}

/// The vehicles on duty on the wish's day with their routes without this trip; `None` if the stops of one are not a
/// route.
fn routes_of(
    alloc: Global,
    facts: &WishFacts,
    trip: TripId,
    wish: &Wish,
) -> Result<Option<Vec<DayRoute>>, AllocError>
    ensures { IfOk result (λ found. AreRoutesOf facts.now trip wish.now found) }
{
    let vehicles = on_duty(alloc, facts.vehicles.as_slice(), wish.day)?;
    let plans = DayPlans {
        vehicles: &vehicles,
        trips: &facts.booking.day.trips,
        plans: &facts.booking.day.plans,
    };
    let Some(routes) = routes_without(alloc, trip, wish.day, &plans)? else {
        return Ok(None);
    };
    if !are_without_trip(&duties_of(alloc, &routes)?, trip) {
        return Ok(None);
    }
    Ok(Some(routes))
}

/// The facts of a refusal of a wish under this number, or the first rule of the rider that denies it.
fn inquire(
    alloc: Global,
    facts: &WishFacts,
    asking: &Asking,
    trip: TripId,
    today: Day,
    wish: &Wish,
) -> Result<Inquiry, AllocError>
    ensures { IsAsking wish.now facts.now asking.now → trip ≡ next_trip facts.now
        → IfOk result (IsInquiryAfter wish.now today facts.now) }
{
    let table = table_of(alloc, facts, wish.day)?;
    let times = table.times();
    let uses = uses_of(alloc, facts, &None)?;
    let request = asking.request(facts, &uses, trip, today, wish);
    if let Some(rule) = riders_denial(&request) {
        return Ok(Inquiry::Denied(rule));
    }
    let asked = asked_for(&request, times);
    match routes_of(alloc, facts, trip, wish)? {
        Some(routes) => Ok(Inquiry::Facts(Facts {
            routes,
            asked,
            table,
        })),
        None => Ok(Inquiry::Denied(Rule::NoVehicle)),
    }
}

/// The facts of a refusal of a rider's wish at the moment `now`, or the first rule that denies the wish before any
/// vehicle is looked at. The error is out of memory.
pub fn refusal_facts(
    alloc: Global,
    facts: &WishFacts,
    me: &Caller,
    now: Moment,
    wish: &Wish,
) -> Result<Inquiry, AllocError>
    ensures value { IfOk result (λ found. IsInquiry wish.now me.now now facts.now found) }
{
    match trip_to_explain(facts, me, wish) {
        Ok((asking, trip)) => inquire(alloc, facts, &asking, trip, now.0, wish),
        Err(rule) => Ok(Inquiry::Denied(rule)),
    }
}
