use pt_base_values::Day;

/// How a trip ended.
#[derive(Clone, Copy, PartialEq, Eq)]
pub enum Outcome {
    /// The rider rode.
    Ridden,
    /// The rider missed the trip.
    MissedRider,
    /// The operator missed the trip, or the rider missed it for reasons beyond the rider's control.
    MissedOperator,
}

/// The outcome of one of a rider's trips.
#[derive(Clone, Copy)]
pub struct Tally {
    /// The day of the trip.
    pub day: Day,
    pub outcome: Outcome,
}
