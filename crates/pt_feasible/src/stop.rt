use pt_base_values::{Load, Minute, PlaceId, TripId};

/// What happens at a stop.
#[derive(Clone, Copy, PartialEq, Eq)]
pub enum StopKind {
    /// The party comes aboard.
    Pickup,
    /// The party leaves.
    Drop,
}

/// One of the two stops of a trip, as its vehicle's route has it.
#[derive(Clone, Copy, PartialEq, Eq)]
pub struct Stop {
    pub trip: TripId,
    pub kind: StopKind,
    pub place: PlaceId,
    /// The earliest minute of the day at which service may begin.
    pub lo: Minute,
    /// The latest minute of the day at which service may begin.
    pub hi: Minute,
    /// Minutes of service; the same at both stops of a trip.
    pub service: u16,
    /// The trip's party; the same at both stops of a trip.
    pub load: Load,
    /// The most minutes from the end of the pickup to the drop; the same at both stops of a trip.
    pub ride: u16,
}
