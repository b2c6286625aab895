ghost use Rattle.std.specs.Prelude.{◌≡◌, ℕ, Some, IfOk};
ghost use Rattle.pt_desk_rules.specs.Deciding.{no_change, IsRuling};
ghost use Rattle.pt_desk_rules.specs.Outcomes.{awaits_outcome, ended, has_come, status_of};
ghost use Rattle.pt_desk_rules.specs.State.{puts_one};
ghost use Rattle.pt_desk_rules.specs.declared.deciding.Decision.TheVariants.{Accepted};
ghost use Rattle.pt_desk_requests.specs.declared.request.Answer.TheVariants.{Done};
ghost use Rattle.pt_desk_requests.specs.declared.request.Write.TheVariants as write;

use crate::change::one;
use crate::permission::may_end;
use crate::{Change, Decision};
use pt_base_values::{Day, Moment, Rule, Trip, TripStatus, Wish};
use pt_desk_requests::{Answer, Caller};
use pt_rights_files::Outcome;
use std::alloc::{AllocError, Global};

/// Whether the trip is booked, so that it has no outcome yet.
fn awaits_outcome(trip: &Trip) -> bool
    ensures { result ≡ awaits_outcome (Some trip.now) }
{
    trip.status == TripStatus::Booked
}

/// Whether the trip's day has come.
fn has_come(today: Day, trip: &Trip) -> bool
    ensures { result ≡ has_come today (Some trip.now) }
{
    trip.wish.day <= today
}

/// The status of a trip with this outcome.
fn status_of(outcome: Outcome) -> TripStatus
    ensures { result ≡ status_of outcome }
{
    match outcome {
        Outcome::Ridden => TripStatus::Ridden,
        Outcome::MissedRider => TripStatus::MissedRider,
        Outcome::MissedOperator => TripStatus::MissedOperator,
    }
}

/// The trip with this outcome.
fn with_outcome(trip: &Trip, wish: Wish, outcome: Outcome) -> Trip
    requires { wish ≡ trip.now.wish }
    ensures { result ≡ ended outcome trip.now }
{
    Trip {
        id: trip.id,
        rider: trip.rider,
        wish,
        wheelchair: trip.wheelchair,
        fare: trip.fare,
        service: trip.service,
        ride: trip.ride,
        vehicle: trip.vehicle,
        window_from: trip.window_from,
        window_to: trip.window_to,
        status: status_of(outcome),
    }
}

/// Gives a trip this outcome.
fn end(alloc: Global, trip: &Trip, outcome: Outcome) -> Result<Decision, AllocError>
    ensures { IfOk result (λ decided. decided
        ≡ Accepted Done (record no_change { trips = puts_one (ended outcome trip.now) })) }
{
    let wish: Wish = trip.wish;
    let trips = one(alloc, with_outcome(trip, wish, outcome))?;
    Ok(Decision::Accepted {
        answer: Answer::Done,
        change: Change {
            trips,
            ..Change::none(alloc)
        },
    })
}

/// Rules on the outcome of the trip that was found, if any. The error is out of memory.
pub fn decide_outcome(
    alloc: Global,
    found: &Option<Trip>,
    me: &Caller,
    now: Moment,
    outcome: Outcome,
) -> Result<Decision, AllocError>
    ensures ruling { (trip : ℕ) → IfOk result (IsRuling (write.Outcome trip outcome) me.now now found.now) }
{
    if !may_end(me.role, found) {
        return Ok(Decision::Denied(Rule::Caller));
    }
    let Some(trip) = found else {
        return Ok(Decision::Denied(Rule::Unknown));
    };
    if !awaits_outcome(trip) {
        return Ok(Decision::Denied(Rule::Over));
    }
    if !has_come(now.0, trip) {
        return Ok(Decision::Denied(Rule::Early));
    }
    end(alloc, trip, outcome)
}
