ghost use Rattle.std.specs.Prelude.{◌*◌, ◌≤◌};
ghost use Rattle.pt_base_values.specs.Ranges.{highest_fare};

use crate::{Caller, DaySheet, Letter, VehicleSheet};
use pt_base_records::Rows;
use pt_base_values::{
    Day, Minute, Place, Policy, Rider, RiderId, Rule, Trip, TripId, Vehicle, VehicleId, Wish,
};
use pt_corridor::FixedRoute;
use pt_rights_files::{Entry, Outcome, Position, Standing};
use pt_travel::Raw;

/// What a caller asks of the desk.
#[derive(Drop)]
pub enum Request {
    Read(Read),
    Write(Write),
    /// Asks whether a rider's wish could be booked. It changes nothing.
    Explain { rider: RiderId, wish: Wish },
}

/// A request that changes nothing.
#[derive(Clone, Copy)]
pub enum Read {
    /// Asks for a rider's standing on a day.
    Standing { rider: RiderId, day: Day },
    /// Asks for all trips of a rider.
    Trips(RiderId),
    /// Asks for the letter of the entry at this position of a rider's case file, counted from 0.
    Letter { rider: RiderId, position: Position },
    /// Asks for the manifest of a vehicle on a day.
    Manifest { vehicle: VehicleId, day: Day },
    /// Asks for the manifests of all vehicles on duty on a day.
    DaySheet(Day),
    /// Asks for all trips of a day.
    Export(Day),
}

/// A request that may change something. It comes with the caller's own number for it.
#[derive(Drop)]
pub enum Write {
    /// Creates a caller, or replaces the one with that number.
    PutCaller(Caller),
    /// Replaces the agency's policy.
    PutPolicy(Policy),
    /// Creates a place.
    PutPlace(Place),
    /// Creates a fixed route, or replaces the one with that number.
    PutRoute(FixedRoute),
    /// Creates a rider's record, or changes whether it names an attendant and whether the rider rides in a wheelchair.
    PutRider(Rider),
    /// Adds an entry to a resident's case file.
    Enter { rider: RiderId, entry: Entry },
    /// Sets a vehicle as it is from a day on. This replaces its versions of that day and later.
    PutVehicle(Vehicle),
    /// Sets the travel table from a day on. This replaces the tables of that day and later.
    Travel { day: Day, rows: Raw },
    /// Books a trip.
    Book { rider: RiderId, wish: Wish },
    /// Books a trip again under its number, instead of what was booked.
    Change { trip: TripId, wish: Wish },
    /// Cancels a trip.
    Cancel(TripId),
    /// Records how a trip ended.
    Outcome { trip: TripId, outcome: Outcome },
}

/// The reply to a booking.
#[derive(Clone, Copy)]
pub struct Confirmation {
    pub trip: TripId,
    pub vehicle: VehicleId,
    /// The promised window: the first and the last minute at which the pickup may begin.
    pub window_from: Minute,
    pub window_to: Minute,
    /// The fare of one person, in cents.
    pub fare: u32,
    /// What the rider and companions pay together, in cents.
    pub due: u32,
    ghost fare_in_range: { fare ≤ highest_fare },
    ghost due_in_range: { due ≤ 2 * highest_fare },
}

/// The desk's answer to a request.
#[derive(Drop)]
pub enum Answer {
    /// The change is made.
    Done,
    /// The entry is in the case file at this position, counted from 0.
    Entered(u32),
    /// The resident's standing on the day, and whether the rider is suspended on it.
    Standing { standing: Standing, suspended: bool },
    /// Whether the visitor may use the day.
    Visitor { may_use: bool },
    /// The trip is booked.
    Booked(Confirmation),
    /// The wish could be booked.
    Possible,
    /// The rider's trips by rising number, cancelled ones too.
    Trips(Rows<Trip>),
    /// The letter of a decision.
    Letter(Letter),
    /// The manifest of the vehicle on the day.
    Manifest { day: Day, sheet: VehicleSheet },
    /// The manifests of the vehicles on duty on the day, and how many trips of the day are not cancelled.
    DaySheet(DaySheet),
    /// The trips of the day by rising number, cancelled ones too.
    Export(Rows<Trip>),
    /// The first rule that the request breaks. Nothing is changed.
    Denied(Rule),
}
