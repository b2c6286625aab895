//! The limits of the desk's tables.

/// The most callers that the desk holds.
pub const MOST_CALLERS: usize = 1_000;

/// The most places that the desk holds.
pub const MOST_PLACES: usize = 100;

/// The most fixed routes that the desk holds.
pub const MOST_ROUTES: usize = 50;

/// The most riders that the desk holds.
pub const MOST_RIDERS: usize = 100_000;

/// The most vehicles that the desk holds.
pub const MOST_VEHICLES: usize = 50;

/// The most versions of one vehicle.
pub const MOST_VERSIONS: usize = 20;

/// The most travel tables that the desk holds.
pub const MOST_TABLES: usize = 50;

/// The last number that a trip can have.
pub const LAST_TRIP_NUMBER: u32 = 4_294_967_295;
