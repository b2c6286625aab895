//! Four places, a vehicle there, and trips between them. From the depot it is 20 minutes to A, 40 to B and 30 to C.
//! From A it is 30 to B and 10 to C; from B it is 25 to C.
ghost use Rattle.std.specs.Prelude.{◌≤◌};
ghost use Rattle.std.specs.Int.{IsInRange};
ghost use Rattle.pt_base_values.specs.Ranges.{last_minute};

use crate::numbers::minute;
use crate::times::Plain;
use pt_base_values::{Day, Load, Minute, PlaceId, TripId, Vehicle, VehicleId, Weekdays};
use pt_feasible::Route;
use pt_insertion_search::Asked;
use pt_travel::Times;
use std::alloc::Global;

/// One of the four places, or another one.
#[derive(Clone, Copy)]
pub enum Place {
    Depot,
    A,
    B,
    C,
    /// 700 minutes from the depot.
    Far,
    /// A place to which there is no way.
    Away,
}

impl Place {
    fn number(self) -> u32
        ensures { 1 ≤ result }
    {
        match self {
            Place::Depot => 1_001,
            Place::A => 21_011,
            Place::B => 21_041,
            Place::C => 31_016,
            Place::Far => 701_001,
            Place::Away => 1_000_001,
        }
    }

    pub fn id(self) -> PlaceId {
        PlaceId::of(self.number()).unwrap()
    }
}

/// The vehicle 1 without wheelchair places, on duty from 480 on for 480 minutes at most.
pub fn vehicle(capacity: u16, closes: u32) -> Vehicle
    requires capacity { IsInRange 1 30 capacity }
    requires closes { IsInRange 480 last_minute closes }
{
    Vehicle {
        id: VehicleId::of(1).unwrap(),
        from_day: Day::of(20_000).unwrap(),
        days: Weekdays::all(),
        depot: Place::Depot.id(),
        capacity,
        chairs: 0,
        opens: Minute::of(480).unwrap(),
        closes: Minute::of(closes).unwrap(),
        duration: 480,
    }
}

/// This many persons, none in a wheelchair.
pub fn seated(persons: u16) -> Load {
    Load {
        seats: persons,
        chairs: 0,
    }
}

/// A trip with its pickup from `lo` to `hi`, 2 minutes of service, and 20 minutes more than the way.
pub fn asked(trip: u32, ends: (Place, Place), window: (u32, u32), load: Load) -> Asked
    requires { 1 ≤ trip }
{
    let (origin, goal) = (ends.0.id(), ends.1.id());
    let direct = Plain.minutes(origin, goal).unwrap_or(0).min(1439);
    Asked {
        trip: TripId::of(trip).unwrap(),
        origin,
        goal,
        lo: minute(window.0),
        hi: minute(window.1),
        latest: minute(1439),
        service: 2,
        ride: direct + 20,
        load,
    }
}

/// A route without stops.
pub fn empty(alloc: Global) -> Route {
    Route::of(Vec::new(alloc)).unwrap()
}
