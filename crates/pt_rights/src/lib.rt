//! Who may ride: case files, the days of visitors, and the conditions of grants. One door to the crates that hold them.
#![tactic(auto)]

pub use pt_rights_conditions::{
    LONGEST_CONDITION, condition_from, condition_text, condition_text_tells_its_condition,
    qualifies,
};
pub use pt_rights_files::{
    CaseFile, Condition, Conditions, Entered, Entry, Feet, Grant, MOST_CONDITIONS, MOST_ENTRIES,
    Months, Outcome, Position, Reasons, Standing, Tally, standing, suspended,
};
pub use pt_rights_visitors::visitor_may;
