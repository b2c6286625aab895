//! Logs of refusals, and their check: a right log shows that a trip has no place in any route.
#![tactic(auto)]

pub use audit::check;
pub use bounds::{Bounds, MAX_VISITS, is_right_end, raise_bound};
pub use insertion::{Insertion, Visit};
pub use law::right_log_shows_that_nothing_is_possible;
pub use line::{End, Line, Log, Raise};
pub use reading::read_log;
pub use text::{LONGEST_LINE, LineText, line_text};

mod audit;
mod bounds;
mod case_end;
mod insertion;
mod law;
mod line;
mod loads;
mod reading;
mod text;
