ghost use Rattle.std.specs.Prelude.{◌≡◌, IfOk};
ghost use Rattle.pt_base_values.specs.Day.{IsDay};
ghost use Rattle.pt_base_values.specs.Moment.{Moment};
ghost use Rattle.pt_desk_rules.specs.Deciding.{kept_of, with_kept};
ghost use Rattle.pt_desk_rules.specs.Deciding.{IsDecision, IsRuling, PutsInRangeIf};
ghost use Rattle.pt_desk_rules.specs.Facts.{FactsOf};
ghost use Rattle.pt_desk_rules.specs.declared.deciding.Decision.TheVariants.{Accepted};
ghost use Rattle.pt_desk_requests.specs.declared.request.Answer.TheVariants.{Done};
ghost use Rattle.pt_desk_requests.specs.declared.request.Write.{Write};
ghost use Rattle.pt_desk_requests.specs.declared.request.Write.TheVariants.{Enter, PutCaller, PutPlace, PutPolicy};
ghost use Rattle.pt_desk_requests.specs.declared.request.Write.TheVariants.{PutRider, PutRoute, PutVehicle, Travel};
ghost use Rattle.pt_desk_rules.specs.State.{versions_from, tables_from};

use crate::change::{one, replacing};
use crate::denying::{
    are_there, entry_denial, has_room_for, is_nobody_else, is_nobody_of_another_kind,
};
use crate::limits::{MOST_CALLERS, MOST_PLACES, MOST_RIDERS, MOST_ROUTES, MOST_TABLES};
use crate::permission::{is_admin, is_clerk, is_dispatcher};
use crate::ranges::puts_in_range;
use crate::{
    CallerFacts, Change, EntryFacts, FiledEntry, Kept, PlaceFacts, RiderFacts, RouteFacts, Sent,
    TravelFacts, TravelTable, VehicleFacts,
};
use pt_base_records::{Edits, Key, Span};
use pt_base_values::{CallerId, Day, Moment, Place, Policy, Rider, RiderId, Rule, Vehicle};
use pt_corridor::FixedRoute;
use pt_desk_booking::first_failing;
use pt_desk_requests::{Answer, Caller};
use pt_desk_spelling::KeptReply;
use pt_rights_files::{Entered, Entry};
use pt_travel::Raw;
use std::alloc::{AllocError, Global};

/// The rules' decision on a write. A ruling is a decision without the kept request of the write.
#[derive(Drop)]
pub enum Decision {
    /// The first rule that it breaks.
    Denied(Rule),
    /// Its answer, and its change of the tables.
    Accepted { answer: Answer, change: Change },
}

/// The keys of a vehicle's versions that a new one replaces.
fn versions_from(new: &Vehicle) -> Span
    ensures value { result ≡ versions_from new.now.id new.now.from_day }
    ensures day { IsDay new.now.from_day }
{
    Span {
        from: Key::pair(new.id.number(), new.from_day.number()),
        to: Key::pair(new.id.number(), u32::MAX),
    }
}

/// The keys of the travel tables that a table of this day replaces.
fn tables_from(day: Day) -> Span
    ensures value { result ≡ tables_from day }
    ensures day { IsDay day }
{
    Span {
        from: Key::of(day.number()),
        to: Key::of(u32::MAX),
    }
}

/// Accepts a write whose answer is just `Done`.
fn done(change: Change) -> Decision
    ensures { result ≡ Accepted Done change }
{
    Decision::Accepted {
        answer: Answer::Done,
        change,
    }
}

/// Rules on the record of a caller, which is new or takes the place of an older one. The error is out of memory.
pub fn put_caller(
    alloc: Global,
    facts: &CallerFacts,
    me: &Caller,
    new: &Caller,
) -> Result<Decision, AllocError>
    ensures ruling { (now : Moment) → IfOk result (IsRuling (PutCaller new.now) me.now now facts.now) }
{
    let denied = first_failing(&[
        (Rule::Caller, is_admin(me.role)),
        (Rule::Unknown, facts.has_subject),
        (Rule::Exists, is_nobody_else(new.id, facts.holder)),
        (
            Rule::Full,
            facts.caller.is_some() || facts.caller_count < MOST_CALLERS,
        ),
    ]);
    if let Some(rule) = denied {
        return Ok(Decision::Denied(rule));
    }
    let Caller { id, role, digest } = new.copy();
    let callers = one(alloc, Caller { id, role, digest })?;
    Ok(done(Change {
        callers,
        ..Change::none(alloc)
    }))
}

/// Rules on the policy.
pub fn put_policy(alloc: Global, me: &Caller, new: &Policy) -> Decision
    ensures ruling { (now : Moment) → IsRuling (PutPolicy new.now) me.now now tt result }
{
    if !is_admin(me.role) {
        return Decision::Denied(Rule::Caller);
    }
    done(Change {
        policy: Some(*new),
        ..Change::none(alloc)
    })
}

/// Rules on a new place. The error is out of memory.
pub fn put_place(
    alloc: Global,
    facts: &PlaceFacts,
    me: &Caller,
    new: &Place,
) -> Result<Decision, AllocError>
    ensures ruling { (now : Moment) → IfOk result (IsRuling (PutPlace new.now) me.now now facts.now) }
{
    let denied = first_failing(&[
        (Rule::Caller, is_admin(me.role)),
        (Rule::Exists, !facts.has_place),
        (Rule::Full, facts.place_count < MOST_PLACES),
    ]);
    if let Some(rule) = denied {
        return Ok(Decision::Denied(rule));
    }
    let places = one(alloc, *new)?;
    Ok(done(Change {
        places,
        ..Change::none(alloc)
    }))
}

/// Rules on a fixed route, which is new or takes the place of an older one. The error is out of memory.
pub fn put_route(
    alloc: Global,
    facts: &RouteFacts,
    me: &Caller,
    new: &FixedRoute,
) -> Result<Decision, AllocError>
    ensures ruling { (now : Moment) → IfOk result (IsRuling (PutRoute new.now) me.now now facts.now) }
{
    let denied = first_failing(&[
        (Rule::Caller, is_admin(me.role)),
        (
            Rule::Full,
            facts.has_route || facts.route_count < MOST_ROUTES,
        ),
    ]);
    if let Some(rule) = denied {
        return Ok(Decision::Denied(rule));
    }
    let routes = one(alloc, new.clone()?)?;
    Ok(done(Change {
        routes,
        ..Change::none(alloc)
    }))
}

/// Rules on the record of a rider, which is new or takes the place of an older one. The error is out of memory.
pub fn put_rider(
    alloc: Global,
    facts: &RiderFacts,
    me: &Caller,
    new: &Rider,
) -> Result<Decision, AllocError>
    ensures ruling { (now : Moment) → IfOk result (IsRuling (PutRider new.now) me.now now facts.now) }
{
    let denied = first_failing(&[
        (Rule::Caller, is_clerk(me.role)),
        (
            Rule::Exists,
            is_nobody_of_another_kind(new.kind, facts.rider),
        ),
        (
            Rule::Full,
            facts.rider.is_some() || facts.rider_count < MOST_RIDERS,
        ),
    ]);
    if let Some(rule) = denied {
        return Ok(Decision::Denied(rule));
    }
    let riders = one(alloc, *new)?;
    Ok(done(Change {
        riders,
        ..Change::none(alloc)
    }))
}

/// Rules on the next entry of a rider's case file. The error is out of memory.
pub fn enter(
    alloc: Global,
    facts: &EntryFacts,
    me: &Caller,
    now: Moment,
    rider: RiderId,
    entry: &Entry,
) -> Result<Decision, AllocError>
    ensures ruling { IfOk result (IsRuling (Enter rider entry.now) me.now now facts.now) }
{
    if let Some(rule) = entry_denial(facts, me, now, rider, entry) {
        return Ok(Decision::Denied(rule));
    }
    let position = facts.file.len() as u32;
    let filed = FiledEntry {
        rider,
        position,
        entered: Entered {
            entry: entry.clone()?,
            day: now.0,
            author: me.id,
        },
    };
    let entries = one(alloc, filed)?;
    Ok(Decision::Accepted {
        answer: Answer::Entered(position),
        change: Change {
            entries,
            ..Change::none(alloc)
        },
    })
}

/// Rules on a version of a vehicle. It takes the place of the versions from its day on. The error is out of memory.
pub fn put_vehicle(
    alloc: Global,
    facts: &VehicleFacts,
    me: &Caller,
    new: &Vehicle,
) -> Result<Decision, AllocError>
    ensures ruling { (now : Moment) → IfOk result (IsRuling (PutVehicle new.now) me.now now facts.now) }
{
    let denied = first_failing(&[
        (Rule::Caller, is_dispatcher(me.role)),
        (Rule::Unknown, facts.has_depot),
        (Rule::Booked, !facts.is_booked),
        (Rule::Full, has_room_for(new, facts.vehicles.as_slice())),
    ]);
    if let Some(rule) = denied {
        return Ok(Decision::Denied(rule));
    }
    let vehicles = replacing(alloc, versions_from(new), *new)?;
    Ok(done(Change {
        vehicles,
        ..Change::none(alloc)
    }))
}

/// Rules on a travel table. It takes the place of the tables from its day on. The error is out of memory.
pub fn put_travel(
    alloc: Global,
    facts: &TravelFacts,
    me: &Caller,
    day: Day,
    rows: &Raw,
) -> Result<Decision, AllocError>
    ensures ruling { (now : Moment) → IfOk result (IsRuling (Travel day rows.now) me.now now facts.now) }
{
    let denied = first_failing(&[
        (Rule::Caller, is_dispatcher(me.role)),
        (Rule::Unknown, are_there(rows.rows(), &facts.places)),
        (Rule::Booked, !facts.is_booked),
        (Rule::Full, facts.tables_before < MOST_TABLES),
    ]);
    if let Some(rule) = denied {
        return Ok(Decision::Denied(rule));
    }
    let table = TravelTable::of(alloc, day, rows.copy(alloc)?)?;
    let travel = replacing(alloc, tables_from(day), table)?;
    Ok(done(Change {
        travel,
        ..Change::none(alloc)
    }))
}

/// The edit that stores the kept request of a write with this answer.
fn kept_of(
    alloc: Global,
    answer: &Answer,
    me: CallerId,
    sent: Sent,
) -> Result<Edits<Kept>, AllocError>
    ensures { IfOk result (λ kept. kept ≡ kept_of me sent answer.now) }
{
    let reply = KeptReply::of(answer).unwrap_or(KeptReply::Done);
    one(alloc, sent.into_kept(me, reply))
}

/// The decision together with the kept request of the write, if it is accepted.
fn with_kept(
    alloc: Global,
    made: Decision,
    me: CallerId,
    sent: Sent,
) -> Result<Decision, AllocError>
    ensures { IfOk result (λ decided. decided ≡ with_kept me sent made) }
{
    match made {
        Decision::Denied(rule) => Ok(Decision::Denied(rule)),
        Decision::Accepted { answer, change } => {
            let kept = kept_of(alloc, &answer, me, sent)?;
            Ok(Decision::Accepted {
                answer,
                change: Change { kept, ..change },
            })
        }
    }
}

/// Shows that the records of an accepted write are in their ranges, which their types ensure.
fn puts_in_range_if(decided: &Decision)
    ensures { PutsInRangeIf decided.now }
{
    if let Decision::Accepted { answer: _, change } = decided {
        puts_in_range(change);
    }
}

/// Makes a decision of the ruling on a write with a new number. The error is out of memory.
pub fn decide(
    alloc: Global,
    ruling: Decision,
    me: &Caller,
    sent: Sent,
) -> Result<Decision, AllocError>
    ensures decided { (asked : Write) (now : Moment) (facts : FactsOf asked) → IsRuling asked me.now now facts ruling
        → IfOk result (IsDecision asked me.now now sent facts) }
    ensures ranges { IfOk result PutsInRangeIf }
{
    let decided = with_kept(alloc, ruling, me.id, sent)?;
    puts_in_range_if(&decided);
    Ok(decided)
}
