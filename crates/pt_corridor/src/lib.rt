//! Fixed routes and their corridors: where and when service is owed.
#![tactic(auto)]

pub use corridor::{is_running, joins, lies_in_corridor, one_route, runs, served, within};
pub use route::{FixedRoute, MAX_COORDINATE, MAX_POINTS, MAX_WIDTH, MIN_POINTS, MIN_WIDTH};

mod corridor;
mod near;
mod route;
