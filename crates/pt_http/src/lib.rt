//! The desk over HTTP bytes: the inbox of a reader, one exchange, and rehearsals. A door to the crates that hold them.
#![tactic(auto)]

pub use pt_http_exchange::{answer_bytes, bytes_spell_one_message, exchange};
pub use pt_http_inbox::{Head, Inbox, LONGEST_BODY, LONGEST_HEAD, MOST_FIELDS, MOST_READS};
pub use pt_http_rehearsal::{MOST_MESSAGES, rehearse};
