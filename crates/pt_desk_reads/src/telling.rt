ghost use Rattle.std.specs.Prelude.{◌↔◌, ℕ, IsTrue, List, None, IfOk};
ghost use Rattle.pt_base_values.specs.Moment.{Moment};
ghost use Rattle.pt_desk_scheduling.specs.Uses.{AreUses};
ghost use Rattle.pt_rights_visitors.specs.Periods.{MayUse};
ghost use Rattle.pt_desk_requests.specs.declared.request.Read.TheVariants.{Export, Standing, Trips};
ghost use Rattle.pt_desk_rules.specs.Deciding.{IsToldOfKind, IsTold};

use crate::letters::tell_letter;
use crate::tours::{tell_day_sheet, tell_manifest};
use pt_base_values::{Day, Moment, Residence, RiderId, Rule, Trip};
use pt_desk_requests::{Answer, Caller, Read};
use pt_desk_rules::{ReadFacts, is_dispatcher, may_book, may_see_standing};
use pt_desk_scheduling::days_of_use;
use pt_rights_visitors::visitor_may;
use std::alloc::{AllocError, Global};

/// Whether a visitor with these trips may use the day.
fn visitor_may_use(alloc: Global, trips: &[Trip], day: Day) -> Result<bool, AllocError>
    ensures { IfOk result (λ may_use.
        (uses : List ℕ) × AreUses None trips.now uses × (IsTrue may_use ↔ MayUse uses day)) }
{
    let uses = days_of_use(alloc, trips, &None)?;
    Ok(visitor_may(uses.as_slice(), day))
}

/// The answer about a rider of this kind on a day.
fn told_of_kind(
    alloc: Global,
    kind: Residence,
    facts: &ReadFacts,
    today: Day,
    day: Day,
) -> Result<Answer, AllocError>
    ensures { IfOk result (λ told. IsToldOfKind kind facts.now.file facts.now.trips today day told) }
{
    match kind {
        Residence::Visitor => Ok(Answer::Visitor {
            may_use: visitor_may_use(alloc, facts.trips.as_slice(), day)?,
        }),
        Residence::Resident => Ok(Answer::Standing {
            standing: facts.file.standing(today, day),
            suspended: facts.file.suspended(day),
        }),
    }
}

/// The answer about the rider's standing on a day.
fn tell_standing(
    alloc: Global,
    facts: &ReadFacts,
    me: &Caller,
    now: Moment,
    rider: RiderId,
    day: Day,
) -> Result<Answer, AllocError>
    ensures { IfOk result (λ told. IsTold (Standing rider day) me.now now facts.now told) }
{
    if !may_see_standing(me.role, rider, &facts.rider) {
        return Ok(Answer::Denied(Rule::Caller));
    }
    match &facts.rider {
        Some(there) => told_of_kind(alloc, there.kind, facts, now.0, day),
        None => Ok(Answer::Denied(Rule::Unknown)),
    }
}

/// The answer about the rider's trips.
fn tell_trips(facts: ReadFacts, me: &Caller, rider: RiderId) -> Answer
    ensures { (now : Moment) → IsTold (Trips rider) me.now now facts result }
{
    if !may_book(me.role, rider, &facts.rider) {
        return Answer::Denied(Rule::Caller);
    }
    match facts.rider {
        Some(_) => Answer::Trips(facts.trips),
        None => Answer::Denied(Rule::Unknown),
    }
}

/// The answer about the trips of a day.
fn tell_export(facts: ReadFacts, me: &Caller) -> Answer
    ensures { (now : Moment) (day : ℕ) → IsTold (Export day) me.now now facts result }
{
    if !is_dispatcher(me.role) {
        return Answer::Denied(Rule::Caller);
    }
    Answer::Export(facts.trips)
}

/// The answer to a read by this caller at the moment `now`. The error is out of memory.
pub fn tell(
    alloc: Global,
    facts: ReadFacts,
    me: &Caller,
    now: Moment,
    read: &Read,
) -> Result<Answer, AllocError>
    ensures value { IfOk result (λ told. IsTold read.now me.now now facts told) }
{
    match *read {
        Read::Standing { rider, day } => tell_standing(alloc, &facts, me, now, rider, day),
        Read::Trips(rider) => Ok(tell_trips(facts, me, rider)),
        Read::Letter { rider, position } => tell_letter(&facts, me, rider, position),
        Read::Manifest { vehicle, day } => tell_manifest(alloc, &facts, me, vehicle, day),
        Read::DaySheet(day) => tell_day_sheet(alloc, &facts, me, day),
        Read::Export(_) => Ok(tell_export(facts, me)),
    }
}
