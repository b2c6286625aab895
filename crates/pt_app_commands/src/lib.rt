//! The commands of the program `desk`: what each asks the desk and prints, its ending, and the exit status.
#![tactic(auto)]

pub use asking::{ask, fault_of, print_done};
pub use ending::{Ending, ending_of_refusal, ending_of_task, exit_status};
pub use refusals::{audit_refusal, explain_refusal};
pub use rehearsal::rehearse_with_key;
pub use tasks::do_task;

mod asking;
mod ending;
mod refusals;
mod rehearsal;
mod tasks;
