//! The desk over HTTP bytes: requests from a reader, replies to a writer, one after another.
#![tactic(auto)]

pub use exchanging::{answer_bytes, exchange};
pub use reading::bytes_spell_one_message;

mod exchanging;
mod reading;
mod received;
