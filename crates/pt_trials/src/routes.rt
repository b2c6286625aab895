//! Routes with their times, as examples.
ghost use Rattle.std.specs.Prelude.{◌≡◌, ◌+◌, ◌<◌, ◌≤◌, length};
ghost use Rattle.std.specs.Int.{IsInRange};
ghost use Rattle.pt_base_values.specs.Ranges.{last_minute};
ghost use Rattle.pt_feasible.specs.Route.{stops_of};

use crate::four_places::Place::{A, Away, B, Depot, Far};
use crate::four_places::{Place, seated, vehicle};
use crate::numbers::minute;
use crate::times::Plain;
use pt_base_values::{Minute, TripId, Vehicle};
use pt_feasible::{
    Passes, Route, Stop, StopKind, Stops, earliest_times, latest_times, loads_fit, settle,
    settle_counted, settle_from,
};
use std::alloc::{AllocError, Global};
use std::marker::Brand;
use std::sync::ledger::{Blank, Ledger};
use std::test::Fail;

/// A vehicle of four seats with this route duration.
fn lasting(duration: u16, closes: u32) -> Vehicle
    requires duration { IsInRange 1 1_439 duration }
    requires closes { IsInRange 480 last_minute closes }
{
    let mut vehicle = vehicle(4, closes);
    vehicle.duration = duration;
    vehicle
}

/// A stop for one person with 2 minutes of service.
fn stop(trip: u32, kind: StopKind, place: Place, window: (u32, u32), ride: u16) -> Stop
    requires { 1 ≤ trip }
{
    Stop {
        trip: TripId::of(trip).unwrap(),
        kind,
        place: place.id(),
        lo: minute(window.0),
        hi: minute(window.1),
        service: 2,
        load: seated(1),
        ride,
    }
}

fn pickup(trip: u32, place: Place, window: (u32, u32), ride: u16) -> Stop
    requires { 1 ≤ trip }
{
    stop(trip, StopKind::Pickup, place, window, ride)
}

fn drop(trip: u32, place: Place, ride: u16) -> Stop
    requires { 1 ≤ trip }
{
    stop(trip, StopKind::Drop, place, (0, 1439), ride)
}

/// The route from one stop to the other.
fn route_of(alloc: Global, pickup: Stop, drop: Stop) -> Result<Route, Fail> {
    let stops = vec![in alloc; pickup, drop]?;
    Ok(Route::of(stops).ok_or("no route")?)
}

#[test]
fn settles_from_a_floor(rt: HostRuntime) -> Result<(), Fail> {
    let route = route_of(rt.alloc(), pickup(1, A, (540, 660), 50), drop(1, B, 50))?;
    let vehicle = lasting(100, 1020);
    let Some(earliest) = earliest_times(&route, &Plain, &vehicle) else {
        return Err(Fail::new("no floor"));
    };
    assert_eq!(rt; earliest.times.as_slice(), [480, 540, 572, 614].as_slice());
    let latest = latest_times(&route, &vehicle, earliest.steps.as_slice());
    assert_eq!(rt;
        (latest[0], latest[1], latest[2], latest[3]),
        (640, 660, 978, 1020)
    );
    let schedule = settle_from(&route, &Plain, &vehicle, &earliest.times).ok_or("no schedule")?;
    assert_eq!(rt; schedule.as_slice(), [514, 540, 572, 614].as_slice());
    Ok(())
}

/// Whether some times fit a route of two stops, in five passes at most.
fn fits_in_five_passes<L: Ledger>(route: &Route, vehicle: &Vehicle, passes: &mut Passes<L>) -> bool
    requires { length (stops_of route.now) ≡ 2 }
    ensures few { passes.new ≤ passes.old + 5 }
{
    settle_counted(route, &Plain, vehicle, passes).is_some()
}

fn fits<L: Ledger>(route: &Route, vehicle: &Vehicle, blank: Blank) -> bool
    requires name { blank.name ≡ L.name }
    requires parts { blank.parts ≡ L.parts }
    requires some { 0 < L.parts }
    requires two { length (stops_of route.now) ≡ 2 }
{
    fits_in_five_passes(route, vehicle, &mut Passes::<L>::new(blank))
}

#[test]
fn gives_up_a_ride_that_takes_a_minute_too_long(rt: HostRuntime) -> Result<(), Fail> {
    let mut vehicle = lasting(1439, 1439);
    vehicle.opens = Minute::of(0).unwrap();
    for (ride, is_enough) in [(700, true), (699, false)] {
        let (pickup, drop) = (pickup(1, Depot, (0, 1439), ride), drop(1, Far, ride));
        let route = route_of(rt.alloc(), pickup, drop)?;
        assert_eq!(rt; route.len(), 2);
        let settled = fits::<Brand>(&route, &vehicle, Blank::new(1));
        assert_eq!(rt; settled, is_enough, "with a ride limit of {ride}");
    }
    Ok(())
}

#[test]
fn tells_what_does_not_fit(rt: HostRuntime) -> Result<(), Fail> {
    let just_enough = lasting(94, 574);
    let a_minute_less = lasting(93, 574);
    let back_a_minute_before = lasting(94, 573);
    let whole_day = lasting(480, 1020);
    for (vehicle, window, goal, ride, fits) in [
        (&just_enough, (480, 600), B, 30, true),
        (&a_minute_less, (480, 600), B, 30, false),
        (&back_a_minute_before, (480, 600), B, 30, false),
        (&whole_day, (480, 600), B, 29, false),
        (&whole_day, (480, 600), Away, 50, false),
        (&whole_day, (500, 500), B, 50, true),
        (&whole_day, (499, 499), B, 50, false),
        (&whole_day, (501, 500), B, 50, false),
        (&whole_day, (945, 946), B, 50, true),
    ] {
        let route = route_of(rt.alloc(), pickup(1, A, window, ride), drop(1, goal, ride))?;
        let schedule = settle(&route, &Plain, vehicle);
        assert_eq!(rt;
            schedule.is_some(),
            fits,
            "at {} {} {window:?} {ride}",
            vehicle.duration,
            vehicle.closes.number()
        );
    }
    Ok(())
}

/// Lets a person of each of these trips come aboard at A.
fn board(stops: &mut Vec<Stop>, first: u32, end: u32) -> Result<(), AllocError>
    requires { 1 ≤ first }
{
    for trip in first..end {
        stops.push(pickup(trip, A, (480, 600), 50))?;
    }
    Ok(())
}

/// Lets the person of each of these trips leave at B.
fn leave(stops: &mut Vec<Stop>, first: u32, end: u32) -> Result<(), AllocError>
    requires { 1 ≤ first }
{
    for trip in first..end {
        stops.push(drop(trip, B, 50))?;
    }
    Ok(())
}

/// A route on which `before` persons come aboard before the first of them leaves, and `after` persons after it.
fn shared(alloc: Global, before: u32, after: u32) -> Result<Vec<Stop>, AllocError> {
    let (end, later_end) = (before.saturating_add(1), after.saturating_add(10));
    let mut stops = Vec::new(alloc);
    board(&mut stops, 1, end)?;
    leave(&mut stops, 1, 2)?;
    board(&mut stops, 10, later_end)?;
    leave(&mut stops, 2, end)?;
    leave(&mut stops, 10, later_end)?;
    Ok(stops)
}

#[test]
fn counts_loads(rt: HostRuntime) -> Result<(), Fail> {
    let vehicle = vehicle(4, 1020);
    for (before, after, fits) in [(4, 0, true), (5, 0, false), (4, 1, true), (4, 2, false)] {
        let stops = shared(rt.alloc(), before, after)?;
        let route = Route::of(stops).ok_or("no route")?;
        assert_eq!(rt; loads_fit(&route, &vehicle), fits, "at {before} {after}");
    }
    Ok(())
}
