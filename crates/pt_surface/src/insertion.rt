//! `pt_insertion`: places in routes, and logs of refusals.
ghost use Rattle.std.specs.Prelude.{◌+◌, ◌<◌, ◌≤◌, All, AllPairs, length};
ghost use Rattle.pt_audit.specs.RightLog.{IsNowherePossible};
ghost use Rattle.pt_feasible.specs.Pairing.{most_stops};
ghost use Rattle.pt_feasible.specs.Route.{stops_of};
ghost use Rattle.pt_insertion.specs.Insertion.{IsWithout};

use pt_base::{Fault, Load, Minute, PlaceId, TripId, Vehicle, VehicleId};
use pt_feasible::{Route, Schedule};
use pt_insertion::{Asked, Chosen, Duty, RouteEdits, Spliced, best, explain};
use pt_travel::Times;
use std::alloc::Global;
use std::io::Write;

pub fn asked(
    trip: TripId,
    origin: PlaceId,
    goal: PlaceId,
    lo: Minute,
    hi: Minute,
    latest: Minute,
    service: u16,
    ride: u16,
    load: Load,
) -> Asked {
    Asked {
        trip,
        origin,
        goal,
        lo,
        hi,
        latest,
        service,
        ride,
        load,
    }
}

pub fn duty<'a>(vehicle: &'a Vehicle, route: &'a Route) -> Duty<'a> {
    Duty { vehicle, route }
}

pub fn spliced<'a>(route: &'a Route, asked: &'a Asked, i: usize, j: usize) -> Spliced<'a>
    requires drop_later { i ≤ j }
    requires among { j ≤ length (stops_of route.now) }
    requires new_trip { IsWithout asked.now.trip (stops_of route.now) }
{
    Spliced::of(route, asked, i, j)
}

pub fn chosen<T: Times>(duties: &[Duty<'_>], asked: &Asked, times: &T) -> Option<Chosen>
    requires rising { AllPairs (λ first second. first.vehicle.now.id < second.vehicle.now.id) duties.now }
    requires new_trip { All (λ duty. IsWithout asked.now.trip (stops_of duty.route.now)) duties.now }
{
    best(duties, asked, times)
}

pub fn place_in(chosen: &Chosen) -> (VehicleId, usize, usize, &Schedule, u32) {
    (
        chosen.vehicle,
        chosen.i,
        chosen.j,
        &chosen.schedule,
        chosen.added,
    )
}

pub fn with_trip(
    alloc: Global,
    route: &Route,
    asked: &Asked,
    chosen: &Chosen,
) -> Result<Route, Fault>
    requires drop_later { chosen.now.i ≤ chosen.now.j }
    requires among { chosen.now.j ≤ length (stops_of route.now) }
    requires room { length (stops_of route.now) + 2 ≤ most_stops }
    requires new_trip { IsWithout asked.now.trip (stops_of route.now) }
{
    route.inserted(alloc, asked, chosen)
}

pub fn without_trip(alloc: Global, route: &Route, trip: TripId) -> Result<Route, Fault> {
    route.removed(alloc, trip)
}

pub fn log_of_refusal<T: Times, W: Write>(
    duties: &[Duty<'_>],
    asked: &Asked,
    times: &T,
    out: &mut W,
) -> Result<(), Fault>
    requires new_trip { All (λ duty. IsWithout asked.now.trip (stops_of duty.route.now)) duties.now }
    requires nowhere { IsNowherePossible (T.minutes times.now) duties.now asked.now }
{
    explain(duties, asked, times, out)
}
