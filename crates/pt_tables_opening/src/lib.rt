//! The content of a database, read back from its tables.
#![tactic(auto)]

pub use earlier_version::earlier_version_of;
pub use open_fault::{OpenFault, fault_of};
pub use whole::content_in;

mod agency;
mod beside;
mod changes;
mod content;
mod earlier_version;
mod gathered;
mod one_row;
mod open_fault;
mod plans;
mod schema_check;
mod table_rows;
mod travel;
mod version;
mod whole;
