//! The answers to reads and to questions whether a wish could be booked, and the facts behind a denial `no vehicle`.
#![tactic(auto)]

pub use explaining::{Facts, Inquiry, explain, refusal_facts};
pub use laws::refusals_are_shown;
pub use telling::tell;

mod explaining;
mod laws;
mod letters;
mod telling;
mod tours;
