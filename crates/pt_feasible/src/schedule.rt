use arrayvec::ArrayVec;

/// The most stops that a route may have, its depot not counted.
pub const MAX_STOPS: usize = 100;

/// Service times in minutes of the day: leaving the depot, each stop in turn, and back at the depot.
pub type Schedule = ArrayVec<u16, 102>;

const _: () = prove!(MAX_STOPS + 2 == 102);
