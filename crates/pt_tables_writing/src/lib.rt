//! What a change writes into the tables of the desk's database.
#![tactic(auto)]

pub use first_rows::{insert_admin, insert_desk};
pub use numbered::raise_version;
pub use well_formed::is_well_formed;
pub use writes::write_change;

mod chairs;
mod first_rows;
mod grouped;
mod numbered;
mod plans;
mod stored;
mod well_formed;
mod writes;
