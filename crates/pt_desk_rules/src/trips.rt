ghost use Rattle.std.specs.Prelude.{◌≡◌, ◌==◌, ◌&&◌, ◌||◌, ◌↔◌, nat_lt, Some, IfOk, IsTrue};
ghost use Rattle.pt_desk_rules.specs.Sound.{HasStops};
ghost use Rattle.pt_desk_rules.specs.Trips.{has_ends, is_cancellable, is_changeable, cancelled, plan_span};
ghost use Rattle.pt_desk_rules.specs.Trips.{gives_up, moves_to, IsConfirmation};
ghost use Rattle.pt_base_records.specs.Records.{Each};

use crate::denying::is_there;
use pt_base_records::{Edits, Key, Rows, Span};
use pt_base_values::{Day, Moment, Place, Trip, TripStatus, Wish};
use pt_desk_booking::party_of;
use pt_desk_requests::Confirmation;
use pt_desk_scheduling::Plan;
use pt_party::due;
use std::alloc::{AllocError, Global};

/// Whether both places of the wish exist.
pub fn has_ends(wish: &Wish, places: &Rows<Place>) -> bool
    ensures value { result ≡ has_ends wish.now places.now }
{
    is_there(wish.from, places) && is_there(wish.to, places)
}

/// Whether the trip may be changed today.
pub(crate) fn is_changeable(today: Day, trip: &Trip) -> bool
    ensures { result ≡ is_changeable today (Some trip.now) }
{
    trip.status == TripStatus::Booked && today < trip.wish.day
}

/// Whether the trip may be cancelled at the moment `now`.
pub(crate) fn is_cancellable(now: Moment, trip: &Trip) -> bool
    ensures { result ≡ is_cancellable now (Some trip.now) }
{
    trip.status == TripStatus::Booked && is_to_come(now, trip)
}

/// Whether the trip's promised window has not begun.
fn is_to_come(now: Moment, trip: &Trip) -> bool
    ensures { result ≡ (nat_lt now.0 trip.now.wish.day
        || (now.0 == trip.now.wish.day && nat_lt now.1 trip.now.window_from)) }
{
    let (day, minute) = now;
    day < trip.wish.day || (day == trip.wish.day && minute < trip.window_from)
}

/// The confirmation of a booked trip.
pub(crate) fn confirmation_of(trip: &Trip) -> Confirmation
    ensures { IsConfirmation trip.now result }
{
    Confirmation {
        trip: trip.id,
        vehicle: trip.vehicle,
        window_from: trip.window_from,
        window_to: trip.window_to,
        fare: trip.fare,
        due: due(trip.fare, party_of(&trip.wish)),
    }
}

/// The trip with the status cancelled. `wish` is the trip's own wish.
pub(crate) fn cancelled_trip(trip: &Trip, wish: Wish) -> Trip
    requires { wish ≡ trip.now.wish }
    ensures { result ≡ cancelled trip.now }
{
    Trip {
        id: trip.id,
        rider: trip.rider,
        wish,
        wheelchair: trip.wheelchair,
        fare: trip.fare,
        service: trip.service,
        ride: trip.ride,
        vehicle: trip.vehicle,
        window_from: trip.window_from,
        window_to: trip.window_to,
        status: TripStatus::Cancelled,
    }
}

/// The key of the plan that has the trip's stops, as a span.
fn plan_span(trip: &Trip) -> Span
    ensures { result ≡ plan_span trip.now }
{
    Span {
        from: Key::pair(trip.vehicle.number(), trip.wish.day.number()),
        to: Key::pair(trip.vehicle.number(), trip.wish.day.number()),
    }
}

/// An edit that removes the trip's stops from their plan. The error is out of memory.
pub(crate) fn giving_up(
    alloc: Global,
    trip: &Trip,
    plan: &Option<Plan>,
) -> Result<Edits<Plan>, AllocError>
    ensures value { IfOk result (λ edits. edits ≡ gives_up trip.now plan.now) }
{
    let mut edits = Edits::none(alloc);
    edits.take_away(plan_span(trip))?;
    if let Some(there) = plan {
        let stops = there.stops_without(alloc, trip.id)?;
        if !stops.is_empty() {
            edits.put(Plan {
                vehicle: trip.vehicle,
                day: trip.wish.day,
                stops,
            })?;
        }
    }
    Ok(edits)
}

/// An edit that removes the trip's stops from their plan, and puts a new plan. The error is out of memory.
pub(crate) fn moving(
    alloc: Global,
    trip: &Trip,
    plan: &Option<Plan>,
    new: Plan,
) -> Result<Edits<Plan>, AllocError>
    ensures value { IfOk result (λ edits. edits ≡ moves_to trip.now plan.now new) }
{
    let mut edits = giving_up(alloc, trip, plan)?;
    edits.put(new)?;
    Ok(edits)
}

/// Whether the plan has stops.
fn has_stops(plan: &Plan) -> bool
    ensures { IsTrue result ↔ HasStops plan.now }
{
    !plan.stops.is_empty()
}

/// Whether the plans have stops.
pub fn have_stops(plans: &[Plan]) -> bool
    ensures { IsTrue result ↔ Each HasStops plans.now }
{
    plans.iter().all(has_stops)
}
