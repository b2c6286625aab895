//! The store under a desk: what it promises, and how the facts that the rules of each request read are read from it.
#![tactic(auto)]

pub use answers::{file_with, find_caller, is_booked_from, table_count_before};
pub use gathering::{
    gather_caller, gather_cancel, gather_change, gather_entry, gather_new_trip, gather_place,
    gather_read, gather_rider, gather_route, gather_travel, gather_vehicle, gather_wish,
};
pub use keeper::{Keeper, Reply, StoreFault};
pub use list_keeper::ListKeeper;

mod answers;
mod gathering;
mod keeper;
mod list_keeper;
mod manifests;
mod wished;
