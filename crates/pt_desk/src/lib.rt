//! The desk over a store: it reads the facts for a request, the rules decide without the store, and one commit makes
//! the change.
#![tactic(auto)]

pub use answering::answer;
pub use laws::{
    answers_outlive_crashes, refusals_are_told, runs_are_calls, runs_leave_accepted_writes,
};
pub use places::place_ids;
pub use pt_desk_reads::Facts;
pub use pt_desk_requests::{Request, Role};
pub use pt_desk_rules::Change;
pub use pt_desk_store::{Keeper, ListKeeper, Reply, StoreFault};
pub use refusals::{facts, inquire};
pub use running::{Call, run};

mod answering;
mod laws;
mod places;
mod refusals;
mod ruling;
mod running;
