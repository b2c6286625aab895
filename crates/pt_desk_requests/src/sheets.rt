ghost use Rattle.std.specs.Prelude.{◌<◌, vec_len};

use pt_base_values::{Day, Load, Minute, PlaceId, RiderId, TripId, VehicleId, Window};

/// A stop of a tour.
#[derive(Clone, Copy)]
pub struct TourStop {
    /// When service begins.
    pub minute: Minute,
    /// The promised window of a pickup; `None` at a drop.
    pub window: Option<Window>,
    pub trip: TripId,
    pub rider: RiderId,
    pub place: PlaceId,
    /// The load aboard after the stop.
    pub aboard: Load,
}

/// A vehicle's way from its depot over at least one stop and back.
#[derive(Drop)]
pub struct Tour {
    pub depot: PlaceId,
    /// How many wheelchair places the vehicle has.
    pub chairs: u16,
    /// When the vehicle leaves its depot.
    pub leaves: Minute,
    /// The stops in their order.
    pub stops: Vec<TourStop>,
    /// When the vehicle is back.
    pub returns: Minute,
    ghost has_stops: { 0 < vec_len stops },
}

/// The manifest of a vehicle on a day.
#[derive(Drop)]
pub struct VehicleSheet {
    pub vehicle: VehicleId,
    /// `None` if the vehicle has no stops or is off duty.
    pub tour: Option<Tour>,
}

/// The manifests of all vehicles on duty on a day.
#[derive(Drop)]
pub struct DaySheet {
    pub day: Day,
    /// The vehicles on duty, by rising number.
    pub vehicles: Vec<VehicleSheet>,
    /// How many trips of the day are not cancelled.
    pub trips: usize,
}
