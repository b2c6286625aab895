//! Minutes by their numbers.
use pt_base_values::{LAST_MINUTE, Minute};

/// The minute; the last of the day if the number is out of range.
pub fn minute(number: u32) -> Minute {
    Minute::of(number.min(LAST_MINUTE)).unwrap()
}
