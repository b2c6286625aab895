ghost use Rattle.std.specs.Prelude.{◌≡◌, ◌≤◌, unwrap_or};
ghost use Rattle.pt_base_values.specs.Ranges.{last_minute};
ghost use Rattle.pt_desk_booking.specs.Request.{request_of};
ghost use Rattle.pt_desk_booking.specs.Planning as spec;

use crate::{TripRequest, party_of, wished_window};
use pt_base_values::{LAST_MINUTE, Minute, Trip, Wish};
use pt_insertion_search::Asked;
use pt_party::load;
use pt_travel::Times;

/// What is asked of the vehicles on duty: the trip with its pickup in the wished window.
pub fn asked_for<T: Times>(request: &TripRequest<'_>, times: &T) -> Asked
    ensures { result ≡ spec.asked_for (T.minutes times.now) (request_of request.now) }
{
    let wish = &request.wish;
    let window = wished_window(wish.pickup);
    Asked {
        trip: request.trip,
        origin: wish.from,
        goal: wish.to,
        lo: window.from,
        hi: window.to,
        latest: latest_drop(wish),
        service: request.policy.service,
        ride: ride_limit(request, times),
        load: load(party_of(wish), request.rider.wheelchair),
    }
}

/// A booked trip as its vehicle's route has it, its pickup in the promised window.
pub fn asked_of(trip: &Trip) -> Asked
    ensures { result ≡ spec.asked_of trip.now }
{
    Asked {
        trip: trip.id,
        origin: trip.wish.from,
        goal: trip.wish.to,
        lo: trip.window_from,
        hi: trip.window_to,
        latest: latest_drop(&trip.wish),
        service: trip.service,
        ride: trip.ride,
        load: load(party_of(&trip.wish), trip.wheelchair),
    }
}

/// The latest minute of the day at which the drop may begin.
fn latest_drop(wish: &Wish) -> Minute
    ensures { result ≡ unwrap_or wish.now.by last_minute }
{
    wish.by.unwrap_or(Minute::of(LAST_MINUTE).unwrap())
}

/// The most minutes that the ride may take.
pub(crate) fn ride_limit<T: Times>(request: &TripRequest<'_>, times: &T) -> u16
    ensures value { result ≡ spec.ride_limit (T.minutes times.now) (request_of request.now) }
    ensures in_range { result ≤ 1_679 }
{
    let direct = times.minutes(request.wish.from, request.wish.to);
    direct.unwrap_or(0) + request.policy.extra_ride
}
