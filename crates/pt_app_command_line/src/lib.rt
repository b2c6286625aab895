//! The words of the program `desk`: which words it takes, and which task they name.
#![tactic(auto)]

pub use asked::{Line, Task};
pub use words::{line, matches_in};

mod asked;
mod words;
