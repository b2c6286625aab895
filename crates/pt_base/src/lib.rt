//! Days, minutes, numbers of records, the plain records of a paratransit desk, and what clocks show: one door to the
//! crates that hold them.
#![tactic(auto)]

pub use pt_base_clock::{moment_of, now_in};
pub use pt_base_values::{
    CallerId, CallerKind, Cause, Day, FIRST_DAY, Fault, HIGHEST_FARE, Id, LAST_DAY, LAST_MINUTE,
    Load, Minute, Moment, Place, PlaceId, PlaceKind, Point, Policy, Residence, Rider, RiderId,
    RiderKind, RouteId, RouteKind, Rule, Trip, TripId, TripKind, TripStatus, Vehicle, VehicleId,
    VehicleKind, Weekday, Weekdays, Window, Wish, bookable, day_from, number_from,
};
