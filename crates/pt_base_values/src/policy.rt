ghost use Rattle.std.specs.Prelude.{◌≤◌};
ghost use Rattle.std.specs.Int.{IsInRange};
ghost use Rattle.pt_base_values.specs.Ranges.{highest_fare};

/// The highest fare that a policy may set, in cents.
pub const HIGHEST_FARE: u32 = 100_000;

/// The agency's settings: fares in cents, minutes, and when missed trips make a pattern.
#[derive(Clone, Copy)]
pub struct Policy {
    /// The fixed fare on one route, in cents, at most `HIGHEST_FARE`.
    pub base: u32,
    /// What a transfer adds to the fixed fare, in cents, at most `HIGHEST_FARE`.
    pub transfer: u32,
    /// The agency's own fare, in cents, at most `HIGHEST_FARE`.
    pub fare: u32,
    /// Minutes at each stop, at most 30.
    pub service: u16,
    /// The minutes that a ride may take beyond the direct time, at most 240.
    pub extra_ride: u16,
    /// The fewest missed trips that make a pattern, 1 to 1,000.
    pub min_missed: u16,
    /// The least share of missed trips that makes a pattern, in percent, 1 to 100.
    pub percent: u16,
    /// The number of days before today in which missed trips count, 1 to 366.
    pub span_days: u16,
    ghost base_in_range: { base ≤ highest_fare },
    ghost transfer_in_range: { transfer ≤ highest_fare },
    ghost fare_in_range: { fare ≤ highest_fare },
    ghost service_in_range: { service ≤ 30 },
    ghost extra_ride_in_range: { extra_ride ≤ 240 },
    ghost min_missed_in_range: { IsInRange 1 1_000 min_missed },
    ghost percent_in_range: { IsInRange 1 100 percent },
    ghost span_days_in_range: { IsInRange 1 366 span_days },
}
