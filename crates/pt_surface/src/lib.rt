//! The names and forms by which a caller from outside finds the desk. Each function passes on what it is given, and
//! compiles only while the call has this form.
#![tactic(auto)]

pub mod base;
pub mod checker;
pub mod desk;
pub mod exchange;
pub mod feasible;
pub mod fixed_routes;
pub mod insertion;
pub mod paper;
pub mod party;
pub mod program;
pub mod rights;
pub mod tables;
pub mod travel;
