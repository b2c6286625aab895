//! Case files of riders under 49 CFR 37.125: applications, decisions, and the standing they give.
#![tactic(auto)]

pub use case_file::{CaseFile, MOST_ENTRIES, Standing};
pub use conditions::{Condition, Conditions, MOST_CONDITIONS};
pub use entry::{Entered, Entry, Grant};
pub use feet::Feet;
pub use months::Months;
pub use position::Position;
pub use reasons::Reasons;
pub use rights::{standing, suspended};
pub use tally::{Outcome, Tally};

mod appeals;
mod case_file;
mod conditions;
mod entry;
mod feet;
mod months;
mod notices;
mod position;
mod reasons;
mod rights;
mod suspensions;
mod tally;
mod walk;
