//! The best place for a trip in the routes of the vehicles on duty, and routes with a trip put in or taken out.
#![tactic(auto)]

pub use asked::Asked;
pub use choice::best;
pub use chosen::Chosen;
pub use duty::{Duty, are_rising, are_without};
pub use edits::RouteEdits;
pub use spliced::Spliced;

mod added;
mod asked;
mod bounds;
mod choice;
mod chosen;
mod drop_search;
mod duty;
mod edits;
mod insertion;
mod place;
mod places;
mod riding;
mod spliced;
mod window;
