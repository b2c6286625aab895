//! The inbox of a desk over HTTP: the bytes of a reader, held until a whole request has come.
#![tactic(auto)]

pub use head::{Head, LONGEST_HEAD, MOST_FIELDS};
pub use inbox::{Inbox, LONGEST_BODY, MOST_READS};

mod counted_reader;
mod head;
mod inbox;
