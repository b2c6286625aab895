//! The decision on a booking: the first rule of 49 CFR Part 37 that a trip request fails, or the booked trip and its
//! vehicle's new route.
#![tactic(auto)]

pub use booking::{Booking, BookingDecision, book};
pub use planning::{asked_for, asked_of};
pub use request::{TripRequest, party_of};
pub use riders::{first_failing, riders_denial};
pub use window::{promised_window, wished_window};

mod booking;
mod planning;
mod request;
mod riders;
mod window;
