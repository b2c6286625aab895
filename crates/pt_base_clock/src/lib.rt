//! What the clocks of an agency show at an instant.
#![tactic(auto)]

pub use local_time::{moment_of, now_in};

mod local_time;
