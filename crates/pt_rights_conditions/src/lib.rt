//! The conditions of a grant, under 49 CFR 37.123: which trips they cover, and their texts in message bodies,
//! letters and tables.
#![tactic(auto)]

pub use law::condition_text_tells_its_condition;
pub use reading::condition_from;
pub use trips::qualifies;
pub use writing::{LONGEST_CONDITION, condition_text};

mod law;
mod reading;
mod trips;
mod writing;
