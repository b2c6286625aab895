ghost use Rattle.std.specs.Prelude.{◌≡◌};
ghost use Rattle.pt_base_values.specs.TripStatus.{stands};

/// What has become of a trip.
#[derive(Clone, Copy, PartialEq, Eq)]
pub enum TripStatus {
    /// It is planned.
    Booked,
    /// It was cancelled.
    Cancelled,
    /// The rider rode.
    Ridden,
    /// The rider missed it.
    MissedRider,
    /// The operator missed it, or the rider missed it for reasons beyond the rider's control.
    MissedOperator,
}

impl TripStatus {
    /// Whether the trip was not cancelled.
    pub fn stands(self) -> bool
        ensures value { result ≡ stands self }
    {
        self != TripStatus::Cancelled
    }
}
