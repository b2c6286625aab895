//! Rehearsals: messages from a reader one after another, each after a line with its moment.
#![tactic(auto)]

pub use rehearsal::{MOST_MESSAGES, rehearse};

mod moment;
mod rehearsal;
