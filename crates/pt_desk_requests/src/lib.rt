//! What may be asked of the desk and by whom, and its answers.
#![tactic(auto)]

pub use caller::{Caller, Digest, Role};
pub use letters::{Determination, Letter};
pub use request::{Answer, Confirmation, Read, Request, Write};
pub use sheets::{DaySheet, Tour, TourStop, VehicleSheet};

mod caller;
mod letters;
mod request;
mod sheets;
