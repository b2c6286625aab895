ghost use Rattle.std.specs.Prelude.{◌≡◌, ℕ, ◌+◌, ◌<◌, ◌≤◌, List, length, IfSome, IfNone};
ghost use Rattle.pt_feasible.specs.Pairing.{most_stops};
ghost use Rattle.pt_feasible.specs.ServiceTimes.{TimesFit, IsNeverLater, IsLeastSchedule};

use crate::sweep::least_times;
use crate::timeline::timeline_of;
use crate::{Passes, Schedule, Stops};
use pt_base_values::Vehicle;
use pt_travel::Times;
use std::marker::Brand;
use std::sync::ledger::{Blank, Ledger};

/// The least service times that fit the route; `None` if none fit. It takes no memory.
pub fn settle<S: Stops, T: Times>(stops: &S, times: &T, vehicle: &Vehicle) -> Option<Schedule>
    requires { length (S.stops stops.now) ≤ most_stops }
    ensures least { IfSome result (λ schedule.
        IsLeastSchedule (T.minutes times.now) vehicle.now (S.stops stops.now) schedule.items) }
    ensures none { IfNone result
        ((b : List ℕ) → ¬ TimesFit (T.minutes times.now) vehicle.now (S.stops stops.now) b) }
{
    settle_uncounted::<Brand, S, T>(stops, times, vehicle, Blank::new(1))
}

/// The same as `settle`, from minutes before which no fitting service times begin. It takes no memory.
pub fn settle_from<S: Stops, T: Times>(
    stops: &S,
    times: &T,
    vehicle: &Vehicle,
    floor: &Schedule,
) -> Option<Schedule>
    requires few { length (S.stops stops.now) ≤ most_stops }
    requires floor { (b : List ℕ) → TimesFit (T.minutes times.now) vehicle.now (S.stops stops.now) b
        → IsNeverLater floor.now.items b }
    ensures least { IfSome result (λ schedule.
        IsLeastSchedule (T.minutes times.now) vehicle.now (S.stops stops.now) schedule.items) }
    ensures none { IfNone result
        ((b : List ℕ) → ¬ TimesFit (T.minutes times.now) vehicle.now (S.stops stops.now) b) }
{
    settle_from_uncounted::<Brand, S, T>(stops, times, vehicle, floor.as_slice(), Blank::new(1))
}

/// The same as `settle`, and counts its passes, each a walk over all constraints: at most three more than stops.
///
/// If a bound still rises in the last of them, no service times fit.
pub fn settle_counted<L: Ledger, S: Stops, T: Times>(
    stops: &S,
    times: &T,
    vehicle: &Vehicle,
    passes: &mut Passes<L>,
) -> Option<Schedule>
    requires { length (S.stops stops.now) ≤ most_stops }
    ensures least { IfSome result (λ schedule.
        IsLeastSchedule (T.minutes times.now) vehicle.now (S.stops stops.now) schedule.items) }
    ensures none { IfNone result
        ((b : List ℕ) → ¬ TimesFit (T.minutes times.now) vehicle.now (S.stops stops.now) b) }
    // Times come of at least one pass.
    ensures counted { IfSome result (λ _. passes.old < passes.new) }
    ensures passes { passes.new ≤ passes.old + length (S.stops stops.now) + 3 }
{
    settle_by(stops, times, vehicle, &[], passes)
}

/// The same as `settle_counted`, but the caller does not see the passes.
fn settle_uncounted<L: Ledger, S: Stops, T: Times>(
    stops: &S,
    times: &T,
    vehicle: &Vehicle,
    blank: Blank,
) -> Option<Schedule>
    requires name { blank.name ≡ L.name }
    requires parts { blank.parts ≡ L.parts }
    requires some { 0 < L.parts }
    requires few { length (S.stops stops.now) ≤ most_stops }
    ensures least { IfSome result (λ schedule.
        IsLeastSchedule (T.minutes times.now) vehicle.now (S.stops stops.now) schedule.items) }
    ensures none { IfNone result
        ((b : List ℕ) → ¬ TimesFit (T.minutes times.now) vehicle.now (S.stops stops.now) b) }
{
    settle_counted(stops, times, vehicle, &mut Passes::<L>::new(blank))
}

/// The same as `settle_from`, but the passes are counted, and the caller does not see them.
fn settle_from_uncounted<L: Ledger, S: Stops, T: Times>(
    stops: &S,
    times: &T,
    vehicle: &Vehicle,
    floor: &[u16],
    blank: Blank,
) -> Option<Schedule>
    requires name { blank.name ≡ L.name }
    requires parts { blank.parts ≡ L.parts }
    requires some { 0 < L.parts }
    requires few { length (S.stops stops.now) ≤ most_stops }
    requires floor { (b : List ℕ) → TimesFit (T.minutes times.now) vehicle.now (S.stops stops.now) b
        → IsNeverLater floor.now b }
    ensures least { IfSome result (λ schedule.
        IsLeastSchedule (T.minutes times.now) vehicle.now (S.stops stops.now) schedule.items) }
    ensures none { IfNone result
        ((b : List ℕ) → ¬ TimesFit (T.minutes times.now) vehicle.now (S.stops stops.now) b) }
{
    settle_by(stops, times, vehicle, floor, &mut Passes::<L>::new(blank))
}

/// The least service times that fit, from lower bounds; it counts the passes.
fn settle_by<L: Ledger, S: Stops, T: Times>(
    stops: &S,
    times: &T,
    vehicle: &Vehicle,
    floor: &[u16],
    passes: &mut Passes<L>,
) -> Option<Schedule>
    requires few { length (S.stops stops.now) ≤ most_stops }
    requires floor { (b : List ℕ) → TimesFit (T.minutes times.now) vehicle.now (S.stops stops.now) b
        → IsNeverLater floor.now b }
    ensures least { IfSome result (λ schedule.
        IsLeastSchedule (T.minutes times.now) vehicle.now (S.stops stops.now) schedule.items) }
    ensures none { IfNone result
        ((b : List ℕ) → ¬ TimesFit (T.minutes times.now) vehicle.now (S.stops stops.now) b) }
    ensures counted { IfSome result (λ _. passes.old < passes.new) }
    ensures passes { passes.new ≤ passes.old + length (S.stops stops.now) + 3 }
{
    let timeline = timeline_of(stops, times, vehicle, floor)?;
    least_times(timeline, passes)
}
