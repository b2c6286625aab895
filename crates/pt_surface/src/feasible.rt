//! `pt_feasible`: routes and their service times.
ghost use Rattle.std.specs.Prelude.{◌≡◌, ℕ, ◌<◌, ◌≤◌, List, length};
ghost use Rattle.pt_feasible.specs.Pairing.{most_stops};
ghost use Rattle.pt_feasible.specs.ServiceTimes.{IsNeverLater, TimesFit};

use arrayvec::ArrayVec;
use pt_base::{Load, Minute, PlaceId, TripId, Vehicle};
use pt_feasible::{
    Passes, Route, Schedule, Stop, StopKind, Stops, loads_fit, settle, settle_counted, settle_from,
};
use pt_travel::Times;
use std::sync::ledger::{Blank, Ledger};

pub fn stop(
    trip: TripId,
    kind: StopKind,
    place: PlaceId,
    lo: Minute,
    hi: Minute,
    service: u16,
    load: Load,
    ride: u16,
) -> Stop {
    Stop {
        trip,
        kind,
        place,
        lo,
        hi,
        service,
        load,
        ride,
    }
}

pub fn route_of(stops: Vec<Stop>) -> Option<Route> {
    Route::of(stops)
}

pub fn count_of<S: Stops>(stops: &S) -> usize {
    stops.len()
}

pub fn stop_of<S: Stops>(stops: &S, k: usize) -> Stop
    requires { k < length (S.stops stops.now) }
{
    stops.stop(k)
}

pub fn fits<S: Stops>(stops: &S, vehicle: &Vehicle) -> bool
    requires { length (S.stops stops.now) ≤ most_stops }
{
    loads_fit(stops, vehicle)
}

pub fn settled<S: Stops, T: Times>(
    stops: &S,
    times: &T,
    vehicle: &Vehicle,
) -> Option<ArrayVec<u16, 102>>
    requires { length (S.stops stops.now) ≤ most_stops }
{
    settle(stops, times, vehicle)
}

pub fn settled_from<S: Stops, T: Times>(
    stops: &S,
    times: &T,
    vehicle: &Vehicle,
    floor: &Schedule,
) -> Option<Schedule>
    requires few { length (S.stops stops.now) ≤ most_stops }
    requires floor { (b : List ℕ) → TimesFit (T.minutes times.now) vehicle.now (S.stops stops.now) b
        → IsNeverLater floor.now.items b }
{
    settle_from(stops, times, vehicle, floor)
}

pub fn settled_counted<L: Ledger, S: Stops, T: Times>(
    stops: &S,
    times: &T,
    vehicle: &Vehicle,
    passes: &mut Passes<L>,
) -> Option<Schedule>
    requires { length (S.stops stops.now) ≤ most_stops }
{
    settle_counted(stops, times, vehicle, passes)
}

pub fn no_pass<L: Ledger>(blank: Blank) -> Passes<L>
    requires name { blank.name ≡ L.name }
    requires parts { blank.parts ≡ L.parts }
    requires some { 0 < L.parts }
{
    Passes::new(blank)
}
