//! Who may come along on a trip, and what is due for it.
#![tactic(auto)]

pub use fares::{due, fare};
pub use party::{Party, load, party_rule, persons};

mod fares;
mod party;
