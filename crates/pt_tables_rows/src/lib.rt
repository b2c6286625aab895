//! The tables of the desk's database, and the rows of its records.
#![tactic(auto)]

pub use laws::{an_opening_finds_one_thing, same_rows_same_content};
pub use schema::{DESK, TABLE_VERSION, add_versions, create_tables};

mod laws;
mod schema;
pub mod tables;
