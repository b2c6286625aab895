use crate::{Day, Minute};

/// A day and a minute of it, on the clocks of the agency's zone.
pub type Moment = (Day, Minute);
