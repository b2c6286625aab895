//! Logs of refusals, written if a trip has no place in any route.
#![tactic(auto)]

pub use explaining::explain;
pub use law::refusals_have_logs;

mod cases;
mod explaining;
mod law;
mod limits;
mod rides;
mod steps;
mod touched;
mod writing;
