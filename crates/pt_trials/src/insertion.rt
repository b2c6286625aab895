//! The best place of random trips in random routes, by `best` and by a plain search of all places.
use crate::asking::choose;
use crate::dice::Dice;
use crate::instances::{Shape, asked, route, vehicle};
use crate::plain::stops_with;
use crate::times::Plain;
use pt_base_values::Vehicle;
use pt_feasible::{MAX_STOPS, Route, Schedule, Stops, loads_fit, settle};
use pt_insertion_search::{Asked, Chosen, Duty};
use pt_travel::Times;
use std::alloc::Global;
use std::test::Fail;

const SEED: u64 = 20_250_402;

const CASES: u32 = 300;

/// The shape of the routes of some cases. The number is how many cases at least must have a possible place, and how
/// many at least must have none.
const SHAPES: [(Shape, u32); 3] = [
    (
        Shape {
            trips: 4,
            apart: 60,
            side: 40,
            away: 400,
        },
        60,
    ),
    (
        Shape {
            trips: 10,
            apart: 45,
            side: 12,
            away: 400,
        },
        30,
    ),
    (
        Shape {
            trips: 29,
            apart: 18,
            side: 3,
            away: 400,
        },
        30,
    ),
];

/// The driving minutes of a route; `None` if there is no way.
fn driving(route: &Route, vehicle: &Vehicle) -> Option<i64> {
    let mut place = vehicle.depot;
    let mut total = 0i64;
    for k in 0..route.len() {
        let next = route.stop(k).place;
        total = total.saturating_add(i64::from(Plain.minutes(place, next)?));
        place = next;
    }
    Some(total.saturating_add(i64::from(Plain.minutes(place, vehicle.depot)?)))
}

/// A place that the plain search found possible.
#[derive(Drop)]
struct Found {
    added: i64,
    vehicle: u32,
    i: usize,
    j: usize,
    schedule: Schedule,
}

/// The schedule of a route that fits the vehicle.
pub fn fitting(route: &Route, vehicle: &Vehicle) -> Option<Schedule> {
    if route.len() > MAX_STOPS || !loads_fit(route, vehicle) {
        return None;
    }
    settle(route, &Plain, vehicle)
}

/// What the trip adds to the driving of a route; `None` if there is no way.
fn added(with_trip: &Route, duty: &Duty<'_>) -> Option<i64> {
    let without = driving(duty.route, duty.vehicle)?;
    Some(driving(with_trip, duty.vehicle)?.saturating_sub(without))
}

/// The result of putting the trip in at one place.
fn try_place(
    alloc: Global,
    duty: &Duty<'_>,
    asked: &Asked,
    i: usize,
    j: usize,
) -> Result<Option<Found>, Fail> {
    let stops = stops_with(alloc, duty.route, asked, i, j)?;
    let route = Route::of(stops).ok_or("not in pairs")?;
    let Some(schedule) = fitting(&route, duty.vehicle) else {
        return Ok(None);
    };
    Ok(Some(Found {
        added: added(&route, duty).ok_or("no way")?,
        vehicle: duty.vehicle.id.number(),
        i,
        j,
        schedule,
    }))
}

/// Whether there is no best yet, or the place comes before it.
fn comes_first(found: &Found, best: &Option<Found>) -> bool {
    match best {
        Some(best) => (found.added, found.vehicle, found.i, found.j)
            < (best.added, best.vehicle, best.i, best.j),
        None => true,
    }
}

/// The plain search. It tries the later places of a vehicle first, so that only the order decides ties.
fn second_way(alloc: Global, duties: &[Duty<'_>], asked: &Asked) -> Result<Option<Found>, Fail> {
    let mut best: Option<Found> = None;
    for duty in duties.iter().rev() {
        for i in (0..duty.route.len() + 1).rev() {
            for j in i..duty.route.len() + 1 {
                if let Some(found) = try_place(alloc, duty, asked, i, j)? {
                    if comes_first(&found, &best) {
                        best = Some(found);
                    }
                }
            }
        }
    }
    Ok(best)
}

fn same(chosen: &Chosen, found: &Found) -> bool {
    (
        i64::from(chosen.added),
        chosen.vehicle.number(),
        chosen.i,
        chosen.j,
    ) == (found.added, found.vehicle, found.i, found.j)
        && chosen.schedule.as_slice() == found.schedule.as_slice()
}

/// Whether both ways agree, and whether a place is possible.
fn agree(alloc: Global, duties: &[Duty<'_>], asked: &Asked) -> Result<(bool, bool), Fail> {
    let second = second_way(alloc, duties, asked)?;
    let first = choose(duties, asked)?;
    let agree = match (&first, &second) {
        (Some(chosen), Some(found)) => same(chosen, found),
        (None, None) => true,
        _ => false,
    };
    Ok((agree, first.is_some()))
}

/// Both ways on a random trip, in up to three random routes.
fn compare(alloc: Global, dice: &mut Dice, shape: Shape) -> Result<(bool, bool), Fail> {
    let vehicles = [vehicle(dice, 2), vehicle(dice, 5), vehicle(dice, 9)];
    let first = route(alloc, dice, shape, 100)?;
    let second = route(alloc, dice, shape, 200)?;
    let third = route(alloc, dice, shape, 300)?;
    let duties = [
        Duty {
            vehicle: &vehicles[0],
            route: &first,
        },
        Duty {
            vehicle: &vehicles[1],
            route: &second,
        },
        Duty {
            vehicle: &vehicles[2],
            route: &third,
        },
    ];
    let on_duty = dice.throw(4) as usize;
    let about = 330 + dice.throw(300);
    let asked = asked(dice, shape, 99, about);
    agree(alloc, &duties[..on_duty], &asked)
}

#[test]
fn chooses_as_the_second_way_does(rt: HostRuntime) -> Result<(), Fail> {
    let mut dice = Dice { state: SEED };
    for (shape, often) in SHAPES {
        let mut possible = 0;
        for case in 0..CASES {
            let (agree, found) = compare(rt.alloc(), &mut dice, shape)?;
            assert_eq!(rt;
                agree,
                true,
                "seed {SEED}, {} trips, case {case}",
                shape.trips
            );
            if found && possible < CASES {
                possible += 1;
            }
        }
        // Both outcomes must occur often.
        let often = often.min(CASES);
        assert_eq!(rt;
            often <= possible && possible <= CASES - often,
            true,
            "{possible} possible"
        );
    }
    Ok(())
}
