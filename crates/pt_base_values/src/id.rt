ghost use Rattle.std.specs.Prelude.{◌≡◌, ℕ, ◌≤◌, ◌↔◌, IsSome, IfSome};

use std::marker::{Model, PhantomData};

/// The number of a record of one kind, from 1 to 4,294,967,295.
///
/// The kind keeps numbers of riders, places and so on from being mixed up. It takes no memory.
#[derive(Clone, Copy, PartialEq, Eq, PartialOrd, Ord)]
pub struct Id<Kind> {
    number: u32,
    kind: PhantomData<Kind>,
}

impl<Kind> Model for Id<Kind> {
    ghost Value = { ℕ };

    ghost view = { λ id. id.number };

    ghost invariant = { λ id. 1 ≤ id.number };

    ghost inverse = { λ n. record { number = n; kind = record {} } };
}

impl<Kind> Id<Kind> {
    /// The record's number; `None` for 0, which numbers nothing.
    pub fn of(number: u32) -> Option<Self>
        ensures in_range { IsSome result ↔ (1 ≤ number) }
        ensures value { IfSome result (λ id. id ≡ number) }
    {
        if number == 0 {
            return None;
        }
        Some(Id {
            number,
            kind: PhantomData,
        })
    }

    /// The number that `of` was given.
    pub fn number(self) -> u32
        ensures value { result ≡ self }
        ensures in_range { 1 ≤ result }
    {
        self.number
    }
}

/// Marks the numbers of places.
#[derive(Clone, Copy, PartialEq, Eq, PartialOrd, Ord)]
pub struct PlaceKind;

/// Marks the numbers of riders.
#[derive(Clone, Copy, PartialEq, Eq, PartialOrd, Ord)]
pub struct RiderKind;

/// Marks the numbers of trips.
#[derive(Clone, Copy, PartialEq, Eq, PartialOrd, Ord)]
pub struct TripKind;

/// Marks the numbers of vehicles.
#[derive(Clone, Copy, PartialEq, Eq, PartialOrd, Ord)]
pub struct VehicleKind;

/// Marks the numbers of callers.
#[derive(Clone, Copy, PartialEq, Eq, PartialOrd, Ord)]
pub struct CallerKind;

/// Marks the numbers of fixed routes.
#[derive(Clone, Copy, PartialEq, Eq, PartialOrd, Ord)]
pub struct RouteKind;

/// The number of a place.
pub type PlaceId = Id<PlaceKind>;

/// The number of a rider.
pub type RiderId = Id<RiderKind>;

/// The number of a trip.
pub type TripId = Id<TripKind>;

/// The number of a vehicle.
pub type VehicleId = Id<VehicleKind>;

/// The number of a caller, who holds a key to the desk.
pub type CallerId = Id<CallerKind>;

/// The number of a fixed route.
pub type RouteId = Id<RouteKind>;
