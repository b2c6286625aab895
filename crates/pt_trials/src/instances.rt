//! Random places, vehicles, trips and routes.
ghost use Rattle.std.specs.Prelude.{◌≤◌};

use crate::dice::Dice;
use crate::numbers::minute;
use pt_base_values::{Day, Load, Minute, PlaceId, TripId, Vehicle, VehicleId, Weekdays};
use pt_feasible::{Route, Stop};
use pt_insertion_search::Asked;
use std::alloc::{AllocError, Global};
use std::test::Fail;

/// The shape of random routes.
#[derive(Clone, Copy)]
pub struct Shape {
    /// The most trips of a route.
    pub trips: u32,
    /// The minutes between two pickups.
    pub apart: u32,
    /// The number of places on a side of the plain; on a small plain many drives take no time, and many places tie.
    pub side: u32,
    /// One place in this many is on another plain.
    pub away: u32,
}

/// A place of a plain with `side` places on a side; one time in `away` it is on another plain.
pub fn place(dice: &mut Dice, side: u32, away: u32) -> PlaceId {
    let plain = if dice.throw(away.max(1)) == 0 {
        1_000_000
    } else {
        0
    };
    let side = side.clamp(1, 40);
    let number = plain + 1_001 * (1 + dice.throw(side)) + dice.throw(side);
    PlaceId::of(number).unwrap()
}

/// A vehicle on duty.
pub fn vehicle(dice: &mut Dice, id: u32) -> Vehicle
    requires { 1 ≤ id }
{
    let opens = 300 + dice.throw(100);
    let closes = opens + 300 + dice.throw(500);
    Vehicle {
        id: VehicleId::of(id).unwrap(),
        from_day: Day::of(20_000).unwrap(),
        days: Weekdays::all(),
        depot: PlaceId::of(20_020).unwrap(),
        capacity: 3,
        chairs: dice.throw(3) as u16,
        opens: Minute::of(opens).unwrap(),
        closes: Minute::of(closes).unwrap(),
        duration: (250 + dice.throw(500)) as u16,
    }
}

/// A rider alone or with another person, one time in three in a wheelchair.
pub fn party(dice: &mut Dice) -> Load {
    let others = dice.throw(2) as u16;
    if dice.throw(3) == 0 {
        return Load {
            seats: others,
            chairs: 1,
        };
    }
    Load {
        seats: 1 + others,
        chairs: 0,
    }
}

/// A trip with its pickup at about the minute `about`.
pub fn asked(dice: &mut Dice, shape: Shape, trip: u32, about: u32) -> Asked
    requires { 1 ≤ trip }
{
    let lo = about.min(1_000) + dice.throw(60);
    Asked {
        trip: TripId::of(trip).unwrap(),
        origin: place(dice, shape.side, shape.away),
        goal: place(dice, shape.side, shape.away),
        lo: minute(lo),
        hi: minute(lo + 30 + dice.throw(120)),
        latest: minute(lo + 150 + dice.throw(400)),
        service: dice.throw(4) as u16,
        ride: (30 + dice.throw(90)) as u16,
        load: party(dice),
    }
}

/// The stops of some trips, one after the other or one within the other.
fn stops(alloc: Global, dice: &mut Dice, shape: Shape, first: u32) -> Result<Vec<Stop>, AllocError>
    requires { 1 ≤ first }
{
    let mut stops = Vec::new(alloc);
    let mut riding: Option<Asked> = None;
    let mut about = 330;
    let trips = dice.throw(shape.trips.min(29) + 1);
    for trip in first..first.saturating_add(trips) {
        let next = asked(dice, shape, trip, about);
        stops.push(next.pickup_stop())?;
        about = about.saturating_add(shape.apart).min(900);
        if let Some(other) = riding {
            stops.push(other.drop_stop())?;
        }
        riding = Some(next);
        if dice.throw(2) == 0 {
            stops.push(next.drop_stop())?;
            riding = None;
        }
    }
    if let Some(other) = riding {
        stops.push(other.drop_stop())?;
    }
    Ok(stops)
}

/// A route of some trips, the first of them with this number.
pub fn route(alloc: Global, dice: &mut Dice, shape: Shape, first: u32) -> Result<Route, Fail>
    requires { 1 ≤ first }
{
    let stops = stops(alloc, dice, shape, first)?;
    Ok(Route::of(stops).ok_or("not in pairs")?)
}
