//! The days on which visitors may ride, under 49 CFR 37.127(e).
#![tactic(auto)]

pub use visits::visitor_may;

mod visits;
