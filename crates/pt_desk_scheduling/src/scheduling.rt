ghost use Rattle.std.specs.Prelude.{◌≡◌, ◌<◌, ◌↔◌, All, AllPairs, IsTrue, IfOk, map};
ghost use Rattle.pt_insertion_search.specs.Insertion.{IsWithout};
ghost use Rattle.pt_feasible.specs.Route.{stops_of};
ghost use Rattle.pt_desk_scheduling.specs.Plan.{planned_stop};
ghost use Rattle.std.specs.List.Sorted.{IsStrictlyIncreasing};
ghost use Rattle.pt_desk_booking.specs.Planning.{on_duty};
ghost use Rattle.pt_desk_booking.specs.Request.{request_of};
ghost use Rattle.pt_desk_scheduling.specs.Routes.{routes_without};
ghost use Rattle.pt_desk_scheduling.specs.Scheduling.{IsScheduled};

use crate::Plan;
use crate::planned::planned_stops;
use crate::routes::{duties_of, routes_without};
use pt_base_records::Rows;
use pt_base_values::{Rule, Trip, TripId, Vehicle};
use pt_desk_booking::{Booking, BookingDecision, TripRequest, book};
use pt_insertion_search::{Duty, are_rising, are_without};
use pt_travel::Times;
use std::alloc::{AllocError, Global};

/// What is planned for a day.
#[derive(Clone, Copy)]
pub struct DayPlans<'a> {
    /// The vehicles on duty, by rising number.
    pub vehicles: &'a [Vehicle],
    /// The trips of the day.
    pub trips: &'a Rows<Trip>,
    /// The routes of the vehicles that have stops.
    pub plans: &'a Rows<Plan>,
}

/// The result of a request for a trip.
#[derive(Drop)]
pub enum Scheduled {
    /// The trip, and its vehicle's new route.
    Booked { trip: Trip, plan: Plan },
    /// The first rule that fails.
    Denied(Rule),
}

/// The route of a booked trip's vehicle, as it is stored.
fn plan_of(alloc: Global, booking: &Booking) -> Result<Plan, AllocError>
    ensures { IfOk result (λ plan. plan ≡ record {
      vehicle = booking.now.trip.vehicle;
      day = booking.now.trip.wish.day;
      stops = map planned_stop (stops_of booking.now.route);
    }) }
{
    Ok(Plan {
        vehicle: booking.trip.vehicle,
        day: booking.trip.wish.day,
        stops: planned_stops(alloc, &booking.route)?,
    })
}

/// Whether the vehicles' numbers rise, and none of the routes has a stop of the trip.
pub fn are_without_trip(duties: &[Duty<'_>], trip: TripId) -> bool
    ensures { IsTrue result ↔ (AllPairs (λ first second. first.vehicle.now.id < second.vehicle.now.id) duties.now
        × All (λ duty. IsWithout trip (stops_of duty.route.now)) duties.now) }
{
    are_rising(duties) && are_without(duties, trip)
}

/// Books the trip in one of these routes, or denies it.
fn book_in<T: Times>(
    alloc: Global,
    request: &TripRequest<'_>,
    duties: &[Duty<'_>],
    times: &T,
) -> Result<Scheduled, AllocError>
    requires uses { IsStrictlyIncreasing request.now.uses.now }
    ensures { IfOk result (λ scheduled.
        IsScheduled (T.minutes times.now) (on_duty duties.now) (request_of request.now) scheduled) }
{
    if !are_without_trip(duties, request.trip) {
        return Ok(Scheduled::Denied(Rule::NoVehicle));
    }
    match book(alloc, request, duties, times)? {
        BookingDecision::Booked(booking) => Ok(Scheduled::Booked {
            plan: plan_of(alloc, &booking)?,
            trip: booking.trip,
        }),
        BookingDecision::Denied(rule) => Ok(Scheduled::Denied(rule)),
    }
}

/// Puts the trip at the best place in the routes of the day without it, or denies it by the first rule that fails.
///
/// Stops that the trip has already are left out. If the stops of the day do not form routes, the rule is `NoVehicle`.
pub fn schedule<T: Times>(
    alloc: Global,
    request: &TripRequest<'_>,
    plans: &DayPlans<'_>,
    times: &T,
) -> Result<Scheduled, AllocError>
    requires uses { IsStrictlyIncreasing request.now.uses.now }
    ensures scheduled { let routes = routes_without request.now.trip request.now.wish.day
        plans.now.trips.now plans.now.plans.now plans.now.vehicles.now in IfOk result (λ scheduled.
        IsScheduled (T.minutes times.now) routes (request_of request.now) scheduled) }
{
    let Some(routes) = routes_without(alloc, request.trip, request.wish.day, plans)? else {
        return Ok(Scheduled::Denied(Rule::NoVehicle));
    };
    let duties = duties_of(alloc, &routes)?;
    book_in(alloc, request, &duties, times)
}
