//! The desk's records, read from its tables when a request needs them.
#![tactic(auto)]

pub use asking::{Unread, are_rising};
pub use plans::{plan_by_key, plans_by_day};
pub use reads::{
    entries_by_rider, kept_by_caller, rider_by_number, trip_by_number, trips_by_day,
    trips_by_rider, trips_from_day,
};

mod asking;
mod marks;
mod plans;
mod reads;
mod texts;
