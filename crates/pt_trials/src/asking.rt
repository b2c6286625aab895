//! The planner's answers over the plain, if its conditions hold.
use crate::times::Plain;
use pt_audit::{Log, check};
use pt_insertion_search::{Asked, Chosen, Duty, are_rising, are_without, best};
use std::test::Fail;

/// The best place of the trip.
pub fn choose(duties: &[Duty<'_>], asked: &Asked) -> Result<Option<Chosen>, Fail> {
    if !are_rising(duties) || !are_without(duties, asked.trip) {
        return Err(Fail::new("not to be asked"));
    }
    Ok(best(duties, asked, &Plain))
}

/// Whether the log of the trip's refusal is right.
pub fn is_right(log: &Log, duties: &[Duty<'_>], asked: &Asked) -> Result<bool, Fail> {
    if !are_without(duties, asked.trip) {
        return Err(Fail::new("not to be checked"));
    }
    Ok(check(log, duties, asked, &Plain))
}
