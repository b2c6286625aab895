ghost use Rattle.std.specs.Prelude.{◌≡◌, ℕ, ◌&&◌, nat_lt, Option, None, Some, is_some, IfErr, IfOk, IfSome};
ghost use Rattle.std.specs.List.Sorted.{IsStrictlyIncreasing};
ghost use Rattle.pt_desk_booking.specs.Request.{request_of};
ghost use Rattle.pt_rights_files.specs.Rules.{first_failing};
ghost use Rattle.pt_desk_scheduling.specs.Routes.{routes_without};
ghost use Rattle.pt_desk_scheduling.specs.Uses.{AreUses};
ghost use Rattle.pt_desk_rules.specs.Booking.{IsAnswered, IsAsking, IsBooking, IsRequestBy, IsScheduledBy, rows_of};
ghost use Rattle.pt_desk_rules.specs.Deciding.{booked, changed, given_up, IsRuling};
ghost use Rattle.pt_desk_rules.specs.Explaining.{next_trip};
ghost use Rattle.pt_desk_rules.specs.Rules.{rules_of, wish_rules};
ghost use Rattle.pt_desk_rules.specs.declared.deciding.Decision.TheVariants.{Accepted};
ghost use Rattle.pt_base_values.specs.Moment.{Moment};
ghost use Rattle.pt_desk_requests.specs.declared.request.Answer.TheVariants.{Booked, Done};
ghost use Rattle.pt_desk_requests.specs.declared.request.Confirmation.{Confirmation};
ghost use Rattle.pt_desk_requests.specs.declared.request.Write.TheVariants as write;
ghost use Rattle.pt_desk_rules.specs.State.{last_trip_number, place_key};
ghost use Rattle.pt_desk_rules.specs.Trips.{has_ends, IsConfirmation};
ghost use Rattle.pt_base_records.specs.Records.{record_at};

use crate::change::one;
use crate::limits::LAST_TRIP_NUMBER;
use crate::permission::{may_alter, may_book};
use crate::trips::{
    cancelled_trip, confirmation_of, giving_up, is_cancellable, is_changeable, moving,
};
use crate::{CancelFacts, Change, DayFacts, Decision, TravelTable, WishFacts, on_duty};
use pt_base_records::{Key, Rows, Table};
use pt_base_values::{
    Day, Moment, Place, PlaceId, Rider, RiderId, Rule, Trip, TripId, Vehicle, Wish,
};
use pt_desk_booking::TripRequest;
use pt_desk_requests::{Answer, Caller};
use pt_desk_scheduling::{DayPlans, Plan, Scheduled, days_of_use, schedule};
use std::alloc::{AllocError, Global};

/// Schedules a request over the plans of its day. The error is out of memory.
fn schedule_on(
    alloc: Global,
    day: &DayFacts,
    vehicles: &[Vehicle],
    request: &TripRequest<'_>,
) -> Result<Scheduled, AllocError>
    requires uses { IsStrictlyIncreasing request.now.uses.now }
    ensures { IfOk result (λ scheduled. IsScheduledBy (rows_of day.now.travel)
        (routes_without request.now.trip request.now.wish.day day.now.trips day.now.plans vehicles.now)
        (request_of request.now) scheduled) }
{
    let plans = DayPlans {
        vehicles,
        trips: &day.trips,
        plans: &day.plans,
    };
    if let Some(table) = &day.travel {
        return schedule(alloc, request, &plans, table.times());
    }
    let table = TravelTable::none(alloc, request.wish.day)?;
    schedule(alloc, request, &plans, table.times())
}

/// The place of this number.
fn place_at(id: PlaceId, places: &Rows<Place>) -> Option<Place>
    ensures { result ≡ record_at place_key id places.now }
{
    places.find(&Key::of(id.number())).copied()
}

/// The rider and both places of a wish.
#[derive(Drop)]
pub struct Asking {
    pub rider: Rider,
    pub from: Place,
    pub to: Place,
}

impl Asking {
    /// `None` if the rider or a place does not exist.
    pub fn of(facts: &WishFacts, wish: &Wish) -> Option<Self>
        ensures exists { is_some result ≡ (is_some facts.now.rider && has_ends wish.now facts.now.places) }
        ensures value { IfSome result (IsAsking wish.now facts.now) }
    {
        let rider = facts.rider?;
        let from = place_at(wish.from, &facts.places)?;
        let to = place_at(wish.to, &facts.places)?;
        Some(Asking { rider, from, to })
    }

    /// The request that the facts make of the wish, for a trip of this number. `uses` are a visitor's days of use.
    pub fn request<'a>(
        &'a self,
        facts: &'a WishFacts,
        uses: &'a Table<Day>,
        trip: TripId,
        today: Day,
        wish: &Wish,
    ) -> TripRequest<'a>
        ensures value { (left_out : Option ℕ) → IsAsking wish.now facts.now self.now
            → AreUses left_out facts.now.booking.trips uses.now.items
            → IsRequestBy facts.now trip left_out today wish.now (request_of result) }
        ensures uses { result.uses.now ≡ uses.now.items }
        ensures trip { result.trip ≡ trip }
    {
        TripRequest {
            trip,
            rider: &self.rider,
            file: &facts.file,
            uses: uses.as_slice(),
            policy: &facts.policy,
            routes: facts.booking.routes.as_slice(),
            from: &self.from,
            to: &self.to,
            today,
            wish: *wish,
        }
    }
}

/// A visitor's days of use, in order, each day once. The trip `left_out` makes none. The error is out of memory.
pub fn uses_of(
    alloc: Global,
    facts: &WishFacts,
    left_out: &Option<TripId>,
) -> Result<Table<Day>, AllocError>
    ensures value { IfOk result (λ uses. AreUses left_out.now facts.now.booking.trips uses.items) }
{
    days_of_use(alloc, facts.booking.trips.as_slice(), left_out)
}

/// The number that a new trip would get; `None` after the last.
fn next_trip(facts: &WishFacts) -> Option<TripId>
    ensures room { is_some result ≡ nat_lt facts.now.booking.last_trip last_trip_number }
    ensures value { IfSome result (λ number. number ≡ next_trip facts.now) }
{
    if facts.booking.last_trip >= LAST_TRIP_NUMBER {
        return None;
    }
    TripId::of(facts.booking.last_trip + 1)
}

/// What is asked of a new trip, and its number; otherwise the first rule that denies the wish before the trip's own.
pub fn new_trip(facts: &WishFacts, wish: &Wish) -> Result<(Asking, TripId), Rule>
    ensures denied { IfErr result (λ rule. first_failing (wish_rules wish.now facts.now) ≡ Some rule) }
    ensures allowed { IfOk result (λ found. first_failing (wish_rules wish.now facts.now) ≡ None) }
    ensures asking { IfOk result (λ found. IsAsking wish.now facts.now found.0) }
    ensures number { IfOk result (λ found. found.1 ≡ next_trip facts.now) }
{
    let Some(asking) = Asking::of(facts, wish) else {
        return Err(Rule::Unknown);
    };
    let Some(number) = next_trip(facts) else {
        return Err(Rule::Full);
    };
    Ok((asking, number))
}

/// What a booking asks, and its trip's number; otherwise the first of the write's own rules that denies it.
pub fn asked_booking(
    facts: &WishFacts,
    me: &Caller,
    rider: RiderId,
    wish: &Wish,
) -> Result<(Asking, TripId), Rule>
    ensures denied { (now : Moment) → IfErr result (λ rule.
        first_failing (rules_of (write.Book rider wish.now) me.now now facts.now) ≡ Some rule) }
    ensures allowed { (now : Moment) → IfOk result (λ found.
        first_failing (rules_of (write.Book rider wish.now) me.now now facts.now) ≡ None) }
    ensures asking { IfOk result (λ found. IsAsking wish.now facts.now found.0) }
    ensures number { IfOk result (λ found. found.1 ≡ next_trip facts.now) }
{
    if !may_book(me.role, rider, &facts.rider) {
        return Err(Rule::Caller);
    }
    new_trip(facts, wish)
}

/// Schedules a wish for a trip of this number. The trip `left_out` makes no day of use. The error is out of memory.
pub fn answer_wish(
    alloc: Global,
    facts: &WishFacts,
    asking: &Asking,
    trip: TripId,
    left_out: &Option<TripId>,
    today: Day,
    wish: &Wish,
) -> Result<Scheduled, AllocError>
    ensures value { IsAsking wish.now facts.now asking.now
        → IfOk result (λ scheduled. IsAnswered trip left_out.now today wish.now facts.now scheduled) }
{
    let uses = uses_of(alloc, facts, left_out)?;
    let vehicles = on_duty(alloc, facts.vehicles.as_slice(), wish.day)?;
    let request = asking.request(facts, &uses, trip, today, wish);
    schedule_on(alloc, &facts.booking.day, &vehicles, &request)
}

/// Accepts with the confirmation of a booked trip.
fn confirm(trip: &Trip, change: Change) -> Decision
    ensures { (told : Confirmation) × IsConfirmation trip.now told × (result ≡ Accepted (Booked told) change) }
{
    Decision::Accepted {
        answer: Answer::Booked(confirmation_of(trip)),
        change,
    }
}

/// Books a new trip under this number, or denies it by the first of its rules that fails.
fn book(
    alloc: Global,
    facts: &WishFacts,
    asking: &Asking,
    number: TripId,
    today: Day,
    wish: &Wish,
) -> Result<Decision, AllocError>
    ensures { IsAsking wish.now facts.now asking.now
        → IfOk result (IsBooking booked number None today wish.now facts.now) }
{
    match answer_wish(alloc, facts, asking, number, &None, today, wish)? {
        Scheduled::Denied(rule) => Ok(Decision::Denied(rule)),
        Scheduled::Booked { trip, plan } => {
            let planned = one(alloc, plan)?;
            let trips = one(alloc, trip)?;
            let change = Change {
                trips,
                planned,
                last_trip: Some(trip.id),
                ..Change::none(alloc)
            };
            Ok(confirm(&trip, change))
        }
    }
}

/// Rules on a booking: its trip gets the next number. The error is out of memory.
pub fn decide_booking(
    alloc: Global,
    facts: &WishFacts,
    me: &Caller,
    now: Moment,
    rider: RiderId,
    wish: &Wish,
) -> Result<Decision, AllocError>
    ensures ruling { IfOk result (IsRuling (write.Book rider wish.now) me.now now facts.now) }
{
    match asked_booking(facts, me, rider, wish) {
        Ok((asking, number)) => book(alloc, facts, &asking, number, now.0, wish),
        Err(rule) => Ok(Decision::Denied(rule)),
    }
}

/// Books a trip again under its number, as if it were not booked, or denies it by the first of its rules that fails.
fn rebook(
    alloc: Global,
    facts: &WishFacts,
    old: &Trip,
    asking: &Asking,
    today: Day,
    wish: &Wish,
) -> Result<Decision, AllocError>
    ensures { IsAsking wish.now facts.now asking.now → IfOk result (IsBooking
        (changed old.now facts.now.booking.plan) old.now.id (Some old.now.id) today wish.now facts.now) }
{
    match answer_wish(alloc, facts, asking, old.id, &Some(old.id), today, wish)? {
        Scheduled::Denied(rule) => Ok(Decision::Denied(rule)),
        Scheduled::Booked { trip, plan } => {
            let planned = moving(alloc, old, &facts.booking.plan, plan)?;
            let trips = one(alloc, trip)?;
            let change = Change {
                trips,
                planned,
                ..Change::none(alloc)
            };
            Ok(confirm(&trip, change))
        }
    }
}

/// What a change asks, and the trip that it changes; otherwise the first of the write's own rules that denies it.
pub fn asked_change(
    facts: &WishFacts,
    me: &Caller,
    now: Moment,
    wish: &Wish,
) -> Result<(Asking, Trip), Rule>
    ensures denied { (trip : ℕ) → IfErr result (λ rule.
        first_failing (rules_of (write.Change trip wish.now) me.now now facts.now) ≡ Some rule) }
    ensures allowed { (trip : ℕ) → IfOk result (λ found.
        first_failing (rules_of (write.Change trip wish.now) me.now now facts.now) ≡ None) }
    ensures asking { IfOk result (λ found. IsAsking wish.now facts.now found.0) }
    ensures trip { IfOk result (λ found. facts.now.booking.trip ≡ Some found.1) }
{
    if !may_alter(me.role, &facts.booking.trip, &facts.rider) {
        return Err(Rule::Caller);
    }
    let Some(old) = &facts.booking.trip else {
        return Err(Rule::Unknown);
    };
    let Some(asking) = Asking::of(facts, wish) else {
        return Err(Rule::Unknown);
    };
    if !is_changeable(now.0, old) {
        return Err(Rule::Over);
    }
    Ok((asking, *old))
}

/// Rules on the change of a trip. The error is out of memory.
pub fn decide_change(
    alloc: Global,
    facts: &WishFacts,
    me: &Caller,
    now: Moment,
    wish: &Wish,
) -> Result<Decision, AllocError>
    ensures ruling { (trip : ℕ) → IfOk result (IsRuling (write.Change trip wish.now) me.now now facts.now) }
{
    let today = now.0;
    match asked_change(facts, me, now, wish) {
        Ok((asking, old)) => rebook(alloc, facts, &old, &asking, today, wish),
        Err(rule) => Ok(Decision::Denied(rule)),
    }
}

/// Cancels a trip.
fn cancel(alloc: Global, trip: &Trip, plan: &Option<Plan>) -> Result<Decision, AllocError>
    ensures { IfOk result (λ decided. decided ≡ Accepted Done (given_up trip.now plan.now)) }
{
    let wish: Wish = trip.wish;
    let trips = one(alloc, cancelled_trip(trip, wish))?;
    let planned = giving_up(alloc, trip, plan)?;
    Ok(Decision::Accepted {
        answer: Answer::Done,
        change: Change {
            trips,
            planned,
            ..Change::none(alloc)
        },
    })
}

/// Rules on the cancellation of a trip. The error is out of memory.
pub fn decide_cancel(
    alloc: Global,
    facts: &CancelFacts,
    me: &Caller,
    now: Moment,
) -> Result<Decision, AllocError>
    ensures ruling { (trip : ℕ) → IfOk result (IsRuling (write.Cancel trip) me.now now facts.now) }
{
    if !may_alter(me.role, &facts.trip, &facts.rider) {
        return Ok(Decision::Denied(Rule::Caller));
    }
    let Some(trip) = &facts.trip else {
        return Ok(Decision::Denied(Rule::Unknown));
    };
    if !is_cancellable(now, trip) {
        return Ok(Decision::Denied(Rule::Over));
    }
    cancel(alloc, trip, &facts.plan)
}
