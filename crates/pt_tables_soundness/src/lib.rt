//! Whether content that was read from a database is a sound state of the desk, table by table.
#![tactic(auto)]

pub use content::is_sound_in;

mod callers;
mod content;
mod entries;
mod files;
mod fits;
mod kept;
pub mod laws;
mod loads;
mod pairs;
mod places;
mod plans;
mod travel;
mod trips;
mod vehicles;
