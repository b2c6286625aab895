//! Whether bytes spell a request that may be asked.
#![tactic(auto)]

pub use requests::is_spelling;

mod entries;
mod fields;
mod requests;
mod routes;
mod settings;
mod travel;
mod trips;
