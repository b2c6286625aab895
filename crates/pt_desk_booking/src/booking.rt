ghost use Rattle.std.specs.Prelude.{◌≡◌, ◌≢◌, ◌+◌, ◌<◌, ◌≤◌, ◌↔◌, All, AllPairs, Any, Contains, IfSome, IfNone};
ghost use Rattle.std.specs.Prelude.{IfOk, None, Some, length, slice_index};
ghost use Rattle.std.specs.List.Sorted.{IsStrictlyIncreasing};
ghost use Rattle.pt_base_values.specs.Ranges.{highest_fare, last_minute};
ghost use Rattle.pt_base_values.specs.declared.rule.Rule.{Rule};
ghost use Rattle.pt_feasible.specs.Route.{stops_of};
ghost use Rattle.pt_insertion_search.specs.Choice.{IsChosenIn};
ghost use Rattle.pt_insertion_search.specs.Insertion.{IsWithout};
ghost use Rattle.pt_party.specs.Party.{MayTravel};
ghost use Rattle.pt_desk_booking.specs.Booking as spec;
ghost use Rattle.pt_desk_booking.specs.Planning.{asked_for, booking_rules, on_duty, IsBestPlace};
ghost use Rattle.pt_desk_booking.specs.Request.{party_of, request_of};
ghost use Rattle.pt_desk_booking.specs.Rules.{IsFirstFailing};

use crate::planning::ride_limit;
use crate::{TripRequest, asked_for, asked_of, promised_window, riders_denial, wished_window};
use pt_base_values::{Minute, Rule, Trip, TripStatus, VehicleId, Window};
use pt_corridor::one_route;
use pt_feasible::Route;
use pt_insertion_search::{Chosen, Duty, RouteEdits, best};
use pt_party::fare;
use pt_travel::Times;
use std::alloc::{AllocError, Global};

/// A trip that is booked.
#[derive(Drop)]
pub struct Booking {
    pub trip: Trip,
    /// Its place in its vehicle's old route, and the least service times of the new one.
    pub chosen: Chosen,
    /// Its vehicle's new route.
    pub route: Route,
}

/// The decision on a request.
#[derive(Drop)]
pub enum BookingDecision {
    /// The trip is booked.
    Booked(Booking),
    /// The first rule that fails.
    Denied(Rule),
}

/// Books the trip at the best place in the routes of the vehicles on duty on its day, or denies it by the first rule
/// that fails.
///
/// It takes memory only for the new route of a trip that can be booked.
pub fn book<T: Times>(
    alloc: Global,
    request: &TripRequest<'_>,
    duties: &[Duty<'_>],
    times: &T,
) -> Result<BookingDecision, AllocError>
    requires uses { IsStrictlyIncreasing request.now.uses.now }
    requires rising { AllPairs (λ first second. first.vehicle.now.id < second.vehicle.now.id) duties.now }
    requires new_trip { All (λ duty. IsWithout request.now.trip (stops_of duty.route.now)) duties.now }

    // `NoVehicle` is the last of the rules: it says that nothing is possible in any route.
    ensures denied { (rule : Rule) → (result ≡ Ok (BookingDecision.Denied rule)) ↔ IsFirstFailing
        (booking_rules (T.minutes times.now) (on_duty duties.now) (request_of request.now)) (Some rule) }
    ensures allowed { spec.IsAllowed result ↔ IsFirstFailing
        (booking_rules (T.minutes times.now) (on_duty duties.now) (request_of request.now)) None }

    ensures place { spec.IfBooked result (λ booking. IsBestPlace (T.minutes times.now) (on_duty duties.now)
        (asked_for (T.minutes times.now) (request_of request.now)) booking.chosen) }
    ensures trip { spec.IfBooked result (λ booking.
        spec.IsTripOf (T.minutes times.now) (request_of request.now) booking.chosen booking.trip) }
    ensures route { spec.IfBooked result (λ booking. Any (λ duty. spec.IsNewRoute
        (T.minutes times.now) duty booking.trip booking.chosen (stops_of booking.route)) (on_duty duties.now)) }
{
    if let Some(rule) = riders_denial(request) {
        return Ok(BookingDecision::Denied(rule));
    }
    match best(duties, &asked_for(request, times), times) {
        Some(chosen) => {
            let (trip, route) = placed_at(alloc, request, duties, times, &chosen)?;
            Ok(BookingDecision::Booked(Booking {
                trip,
                chosen,
                route,
            }))
        }
        None => Ok(BookingDecision::Denied(Rule::NoVehicle)),
    }
}

/// The trip that is booked at the best place, and its vehicle's new route.
fn placed_at<T: Times>(
    alloc: Global,
    request: &TripRequest<'_>,
    duties: &[Duty<'_>],
    times: &T,
    chosen: &Chosen,
) -> Result<(Trip, Route), AllocError>
    requires rising { AllPairs (λ first second. first.vehicle.now.id < second.vehicle.now.id) duties.now }
    requires new_trip { All (λ duty. IsWithout request.now.trip (stops_of duty.route.now)) duties.now }
    requires party { MayTravel request.now.rider.now (party_of request.now.wish) }
    requires place { Any (λ duty. IsChosenIn (T.minutes times.now) duty.vehicle.now (stops_of duty.route.now)
        (asked_for (T.minutes times.now) (request_of request.now)) chosen.now) duties.now }
    ensures trip { IfOk result (λ placed.
        spec.IsTripOf (T.minutes times.now) (request_of request.now) chosen.now placed.0) }
    ensures route { IfOk result (λ placed. Any (λ duty. spec.IsNewRoute
        (T.minutes times.now) duty placed.0 chosen.now (stops_of placed.1)) (on_duty duties.now)) }
{
    let duty = duty_of(duties, chosen.vehicle).unwrap();
    let promised = promised_at(request, chosen);
    let trip = trip_at(request, times, chosen.vehicle, &promised);
    let Ok(route) = duty.route.inserted(alloc, &asked_of(&trip), chosen) else {
        return Err(AllocError);
    };
    Ok((trip, route))
}

/// The trip in this vehicle's route, with this window promised.
fn trip_at<T: Times>(
    request: &TripRequest<'_>,
    times: &T,
    vehicle: VehicleId,
    promised: &Window,
) -> Trip
    requires { MayTravel request.now.rider.now (party_of request.now.wish) }
    ensures { spec.IsTripIn (T.minutes times.now) (request_of request.now) vehicle promised.now result }
{
    Trip {
        id: request.trip,
        rider: request.rider.id,
        wish: request.wish,
        wheelchair: request.rider.wheelchair,
        fare: fare_of(request),
        service: request.policy.service,
        ride: ride_limit(request, times),
        vehicle,
        window_from: promised.from,
        window_to: promised.to,
        status: TripStatus::Booked,
    }
}

/// The vehicle of this number, with its route.
fn duty_of<'a>(duties: &[Duty<'a>], vehicle: VehicleId) -> Option<Duty<'a>>
    ensures found { IfSome result (λ duty. Contains duties.now duty × (duty.vehicle.now.id ≡ vehicle)) }
    ensures none { IfNone result (All (λ duty. duty.vehicle.now.id ≢ vehicle) duties.now) }
{
    for duty in duties {
        if duty.vehicle.id == vehicle {
            return Some(*duty);
        }
    }
    None
}

/// The window that is promised at the chosen place.
fn promised_at(request: &TripRequest<'_>, chosen: &Chosen) -> Window
    requires there { chosen.now.i + 1 < length chosen.now.schedule.items }
    requires within_a_day { slice_index chosen.now.schedule.items (chosen.now.i + 1) ≤ last_minute }
    ensures { result ≡ spec.promised_at (request_of request.now) chosen.now }
{
    let planned = chosen.schedule.as_slice()[chosen.i + 1];
    let pickup = Minute::of(u32::from(planned)).unwrap();
    promised_window(wished_window(request.wish.pickup), pickup)
}

/// The fare of one person, in cents.
fn fare_of(request: &TripRequest<'_>) -> u32
    ensures value { spec.IsFare (request_of request.now) result }
    ensures in_range { result ≤ highest_fare }
{
    let wish = request.wish;
    let joined = one_route(
        request.routes,
        request.from,
        request.to,
        wish.day,
        wish.pickup,
    );
    fare(request.policy, joined)
}
