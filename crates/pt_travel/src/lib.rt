//! Driving times between places: the agency's table, and the least chain of its rows.
#![tactic(auto)]

pub use closed::Closed;
pub use raw::{MOST_MINUTES, MOST_PLACES, Raw, Row};
pub use times::Times;

mod closed;
mod fields;
mod matrix;
mod places;
mod raw;
mod read;
mod record;
mod sorted;
mod times;
