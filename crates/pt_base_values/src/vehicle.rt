ghost use Rattle.std.specs.Prelude.{◌≤◌};
ghost use Rattle.std.specs.Int.{IsInRange};
ghost use Rattle.pt_base_values.specs.Ranges.{last_minute};

use crate::{Day, Minute, PlaceId, VehicleId, Weekdays};

/// A vehicle as it is from a day on, until its next version.
#[derive(Clone, Copy)]
pub struct Vehicle {
    pub id: VehicleId,
    pub from_day: Day,
    /// The weekdays on which it is on duty.
    pub days: Weekdays,
    /// Where its route begins and ends.
    pub depot: PlaceId,
    /// Its seats, 1 to 30.
    pub capacity: u16,
    /// Its wheelchair places, 0 to 10.
    pub chairs: u16,
    /// When it may leave its depot.
    pub opens: Minute,
    /// When it has to be back.
    pub closes: Minute,
    /// The most minutes that its route may take, 1 to 1439.
    pub duration: u16,
    ghost capacity_in_range: { IsInRange 1 30 capacity },
    ghost chairs_in_range: { chairs ≤ 10 },
    ghost hours_ordered: { opens ≤ closes },
    ghost duration_in_range: { IsInRange 1 last_minute duration },
}
