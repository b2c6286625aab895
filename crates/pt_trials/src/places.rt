//! The best places of trips in small routes, as examples.
ghost use Rattle.std.specs.Prelude.{◌≤◌, IsTrue};

use crate::asking::choose;
use crate::four_places::Place::{A, Away, B, C, Depot};
use crate::four_places::{asked, empty, seated, vehicle};
use crate::insertion::fitting;
use pt_base_values::{Load, Vehicle};
use pt_feasible::{MAX_STOPS, Route, Stops};
use pt_insertion_search::{Asked, Chosen, Duty, RouteEdits};
use std::alloc::Global;
use std::process::Abort;
use std::test::Fail;

/// The route with the trip at the chosen place, if it may be put there.
fn insert(alloc: Global, route: &Route, asked: &Asked, chosen: &Chosen) -> Result<Route, Fail> {
    if route.len() > MAX_STOPS - 2
        || chosen.j > route.len()
        || chosen.i > chosen.j
        || !route.is_without(asked.trip)
    {
        return Err(Fail::new("not to be put in"));
    }
    Ok(route.inserted(alloc, asked, chosen)?)
}

/// The route with one trip.
fn route_of(alloc: Global, trip: &Asked) -> Result<Route, Fail> {
    let stops = vec![in alloc; trip.pickup_stop(), trip.drop_stop()]?;
    Ok(Route::of(stops).ok_or("no route")?)
}

/// The best place of a trip that has one.
fn place_of(duties: &[Duty<'_>], asked: &Asked) -> Result<Chosen, Fail> {
    Ok(choose(duties, asked)?.ok_or("no place")?)
}

#[test]
fn takes_an_empty_route(rt: HostRuntime) -> Result<(), Fail> {
    let vehicle = vehicle(4, 1020);
    let route = empty(rt.alloc());
    let duties = [Duty {
        vehicle: &vehicle,
        route: &route,
    }];
    let chosen = place_of(&duties, &asked(1, (A, B), (480, 600), seated(1)))?;
    assert_eq!(rt;
        (chosen.vehicle.number(), chosen.i, chosen.j, chosen.added),
        (1, 0, 0, 90)
    );
    assert_eq!(rt; chosen.schedule.as_slice(), [480, 500, 532, 574].as_slice());

    let promised = asked(1, (A, B), (485, 515), seated(1));
    let longer = insert(rt.alloc(), &route, &promised, &chosen)?;
    assert_goes(&rt, &longer, &promised);
    Ok(())
}

/// Asserts that the route has the stops of the trip, and no other.
fn assert_goes(rt: &impl Abort, route: &Route, trip: &Asked) {
    assert_eq!(rt; route.len(), 2);
    assert!(rt; route.stop(0) == trip.pickup_stop());
    assert!(rt; route.stop(1) == trip.drop_stop());
}

#[test]
fn takes_the_place_with_the_least_added_driving(rt: HostRuntime) -> Result<(), Fail> {
    let vehicle = vehicle(4, 1020);
    let route = route_of(rt.alloc(), &asked(1, (A, B), (485, 515), seated(1)))?;
    let duties = [Duty {
        vehicle: &vehicle,
        route: &route,
    }];
    for (window, place, times) in [
        ((535, 655), (1, 1, 5), [480, 512, 535, 562, 564, 606]),
        ((560, 680), (2, 2, 50), [480, 500, 532, 560, 587, 629]),
    ] {
        let chosen = place_of(&duties, &asked(2, (C, B), window, seated(1)))?;
        assert_eq!(rt; (chosen.i, chosen.j, chosen.added), place);
        assert_eq!(rt; chosen.schedule.as_slice(), times.as_slice());
    }
    Ok(())
}

#[test]
fn takes_a_trip_out_again(rt: HostRuntime) -> Result<(), Fail> {
    let vehicle = vehicle(4, 1020);
    let first = asked(1, (A, B), (485, 515), seated(1));
    let route = route_of(rt.alloc(), &first)?;
    let second = asked(2, (C, B), (535, 655), seated(1));
    let duties = [Duty {
        vehicle: &vehicle,
        route: &route,
    }];
    let longer = insert(rt.alloc(), &route, &second, &place_of(&duties, &second)?)?;
    assert_eq!(rt; longer.len(), 4);
    let shorter = longer.removed(rt.alloc(), second.trip)?;
    assert_goes(&rt, &shorter, &first);
    let schedule = fitting(&shorter, &vehicle).ok_or("no schedule")?;
    assert_eq!(rt; schedule.as_slice(), [480, 500, 532, 574].as_slice());
    Ok(())
}

#[test]
fn takes_nobody_where_nothing_is_possible(rt: HostRuntime) -> Result<(), Fail> {
    let one_seat = vehicle(1, 1020);
    let route = empty(rt.alloc());
    let duties = [Duty {
        vehicle: &one_seat,
        route: &route,
    }];
    for (goal, persons, is_possible) in [(B, 1, true), (B, 2, false), (Away, 1, false)] {
        let wished = asked(1, (A, goal), (480, 600), seated(persons));
        assert_eq!(rt;
            choose(&duties, &wished)?.is_some(),
            is_possible,
            "{persons} persons"
        );
    }
    let wished = asked(1, (A, B), (480, 600), seated(1));
    assert_eq!(rt; choose(&[], &wished)?.is_some(), false);
    Ok(())
}

/// The party of a rider in a wheelchair, who comes alone.
const WHEELCHAIR: Load = Load {
    seats: 0,
    chairs: 1,
};

/// The best place of a rider in a wheelchair from C to B, in a vehicle with this many wheelchair places that takes
/// another one from A to B. It returns the places of the stops, what they add, and when the pickup begins.
fn second_wheelchair(route: &Route, chairs: u16) -> Result<Option<(usize, usize, u32, u16)>, Fail> {
    let mut vehicle = vehicle(4, 1020);
    vehicle.chairs = chairs.min(10);
    let duties = [Duty {
        vehicle: &vehicle,
        route,
    }];
    let second = asked(2, (C, B), (535, 655), WHEELCHAIR);
    Ok(choose(&duties, &second)?.map(|chosen| {
        let times = chosen.schedule.as_slice();
        let begins = times.get(chosen.i.saturating_add(1)).copied();
        (chosen.i, chosen.j, chosen.added, begins.unwrap_or(0))
    }))
}

#[test]
fn takes_as_many_wheelchairs_as_it_has_places_for(rt: HostRuntime) -> Result<(), Fail> {
    let route = route_of(rt.alloc(), &asked(1, (A, B), (485, 515), WHEELCHAIR))?;
    assert_eq!(rt; second_wheelchair(&route, 0)?, None);
    assert_eq!(rt; second_wheelchair(&route, 1)?, Some((2, 2, 50, 559)));
    assert_eq!(rt; second_wheelchair(&route, 2)?, Some((1, 1, 5, 535)));
    Ok(())
}

/// The route with one more trip, which stays at the depot, if there is a place for it.
fn with_stay(
    alloc: Global,
    vehicle: &Vehicle,
    route: &Route,
    trip: u32,
) -> Result<Option<Route>, Fail>
    requires { 1 ≤ trip }
{
    let mut wished = asked(trip, (Depot, Depot), (540, 660), seated(1));
    wished.service = 0;
    wished.ride = 0;
    match choose(&[Duty { vehicle, route }], &wished)? {
        Some(chosen) => Ok(Some(insert(alloc, route, &wished, &chosen)?)),
        None => Ok(None),
    }
}

#[test]
fn takes_fifty_trips_and_no_more(rt: HostRuntime) -> Result<(), Fail> {
    let vehicle = vehicle(30, 1020);
    let mut route = empty(rt.alloc());
    for trip in 1..52 {
        match with_stay(rt.alloc(), &vehicle, &route, trip)? {
            Some(longer) => route = longer,
            None => assert_eq!(rt; trip, 51),
        }
    }
    assert_eq!(rt; route.len(), 100);
    Ok(())
}
