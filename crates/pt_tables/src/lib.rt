//! The desk's records in the tables of a SQLite database.
#![tactic(auto)]

pub use adopting::adopt;
pub use creating::create;
pub use migration::migrate;
pub use pt_tables_keeper::SqlKeeper;
pub use pt_tables_opening::OpenFault;

mod adopting;
mod creating;
mod keeping;
mod migration;
