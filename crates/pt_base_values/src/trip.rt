ghost use Rattle.std.specs.Prelude.{◌≤◌};
ghost use Rattle.pt_base_values.specs.Ranges.{highest_fare};

use crate::{Day, Minute, PlaceId, RiderId, TripId, TripStatus, VehicleId};

/// A trip as a rider wishes it.
#[derive(Clone, Copy)]
pub struct Wish {
    pub day: Day,
    /// When the rider wishes to be picked up.
    pub pickup: Minute,
    pub from: PlaceId,
    pub to: PlaceId,
    /// The latest minute for the drop, if the rider gives one.
    pub by: Option<Minute>,
    /// Whether an attendant comes along.
    pub attendant: bool,
    /// How many others come along; it may be more than the rules allow.
    pub companions: u8,
}

/// A booked trip, with what was fixed then: later policies and tables leave it as it is.
#[derive(Clone, Copy)]
pub struct Trip {
    pub id: TripId,
    pub rider: RiderId,
    pub wish: Wish,
    /// Whether the rider rides in a wheelchair, as the record said when the trip was booked or last changed.
    pub wheelchair: bool,
    /// The fare of one person in cents, at most 100,000.
    pub fare: u32,
    /// Minutes at each of its two stops, at most 30.
    pub service: u16,
    /// The most minutes from the end of the pickup to the drop, at most 1,679.
    pub ride: u16,
    pub vehicle: VehicleId,
    /// The promised window, from which to which minute the pickup may begin.
    pub window_from: Minute,
    pub window_to: Minute,
    pub status: TripStatus,
    ghost companions_in_range: { wish.companions ≤ 1 },
    ghost fare_in_range: { fare ≤ highest_fare },
    ghost service_in_range: { service ≤ 30 },
    ghost ride_in_range: { ride ≤ 1_679 },
}
