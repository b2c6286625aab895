//! Replies in bytes: what the desk sends over HTTP. The answer to a read may be of any length; every other reply is
//! made in a fixed buffer.
#![tactic(auto)]

pub use buffer::{LONGEST_REPLY, ReplyBuffer};
pub use content_type::ContentType;
pub use reply_bytes::{ReplyBytes, reply_to};
pub use response::Response;

mod body;
mod buffer;
mod content_type;
mod json;
mod reply_bytes;
mod response;
mod standing;
mod status;
mod trips;
