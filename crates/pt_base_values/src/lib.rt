//! Days, minutes, numbers of records and the plain records of a paratransit desk.
#![tactic(auto)]

pub use day::{Day, FIRST_DAY, LAST_DAY, bookable, day_from};
pub use fault::{Cause, Fault};
pub use id::{
    CallerId, CallerKind, Id, PlaceId, PlaceKind, RiderId, RiderKind, RouteId, RouteKind, TripId,
    TripKind, VehicleId, VehicleKind,
};
pub use load::Load;
pub use minute::{LAST_MINUTE, Minute};
pub use moment::Moment;
pub use numbers::number_from;
pub use place::{Place, Point};
pub use policy::{HIGHEST_FARE, Policy};
pub use rider::{Residence, Rider};
pub use rule::Rule;
pub use trip::{Trip, Wish};
pub use trip_status::TripStatus;
pub use vehicle::Vehicle;
pub use weekday::{Weekday, Weekdays};
pub use window::Window;

mod date_text;
mod day;
mod fault;
mod id;
mod load;
mod minute;
mod moment;
mod numbers;
mod place;
mod policy;
mod rider;
mod rule;
mod trip;
mod trip_status;
mod vehicle;
mod weekday;
mod window;
