//! The store over the tables of a database: the settings are in memory, and all other records are read when needed.
#![tactic(auto)]

pub use keeper::SqlKeeper;
pub use known::Known;
pub use laws::changes_of_rules_are_written;
pub use tables_content::Content;

mod keeper;
mod known;
mod laws;
mod plans;
mod tables_content;
mod writable;
mod writing;
