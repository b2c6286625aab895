//! The bytes in which the desk stores a caller's last accepted request and the reply to it.
#![tactic(auto)]

pub use fields::days_byte;
pub use law::spelling_tells_its_request;
pub use replies::{KeptReply, LONGEST_REPLY_SPELLING, read_reply, spell_reply};
pub use requests::spell;
pub use riders::entry_number;
pub use settings::{role_number, subject_of};
pub use spelling::Spelling;

mod fields;
mod law;
mod replies;
mod requests;
mod riders;
mod settings;
mod spelling;
mod trips;
