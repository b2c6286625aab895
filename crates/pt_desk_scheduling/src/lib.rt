//! The plans of a day: each vehicle's stops as they are stored, the routes that they form, and a requested trip put
//! into the best of them.
#![tactic(auto)]

pub use planned::{Plan, PlannedStop};
pub use routes::{DayRoute, duties_of, route_on, routes_without, stops_among};
pub use scheduling::{DayPlans, Scheduled, are_without_trip, schedule};
pub use uses::days_of_use;

mod planned;
mod routes;
mod scheduling;
mod uses;
