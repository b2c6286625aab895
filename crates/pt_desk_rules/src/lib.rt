//! The desk's tables, the requests to it, and what the rules decide on each request. This crate has no store.
#![tactic(auto)]

pub use booking::{
    Asking, answer_wish, asked_booking, asked_change, decide_booking, decide_cancel, decide_change,
    new_trip, uses_of,
};
pub use change::{Change, FiledEntry};
pub use deciding::{
    Decision, decide, enter, put_caller, put_place, put_policy, put_rider, put_route, put_travel,
    put_vehicle,
};
pub use facts::{
    BookingFacts, CallerFacts, CancelFacts, DayFacts, EntryFacts, PlaceFacts, ReadFacts,
    RiderFacts, RouteFacts, TravelFacts, VehicleFacts, WishFacts,
};
pub use fleet::{duty_of, has_version, in_force, on_duty};
pub use kept::{Arrival, Kept, Sent};
pub use outcomes::decide_outcome;
pub use permission::{is_dispatcher, may_book, may_run, may_see_standing};
pub use table_name::TableName;
pub use tallies::Tallies;
pub use travel::{TravelTable, table_on};
pub use trips::{has_ends, have_stops};

mod booking;
mod change;
mod deciding;
mod denying;
mod facts;
mod fleet;
mod kept;
pub mod limits;
mod outcomes;
mod permission;
pub mod ranges;
mod table_name;
mod tallies;
mod travel;
mod trips;
