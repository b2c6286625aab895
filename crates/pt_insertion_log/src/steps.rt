ghost use Rattle.std.specs.Prelude.{◌≡◌, ℕ, ◌+◌, ◌<◌, ◌≤◌, length, slice_index, IsNone, IfSome};
ghost use Rattle.pt_audit.specs.Bounds.{IsRightEnd};
ghost use Rattle.pt_audit.specs.declared.bounds.TheConstants.{MAX_VISITS};
ghost use Rattle.pt_audit.specs.Insertion.{inserted_stops};
ghost use Rattle.pt_audit.specs.declared.line.End.TheVariants as end;
ghost use Rattle.pt_insertion_log.specs.Steps.{IsStep, IsAt, IsFirst, IsKeptAt, AreKeptBut};

use crate::limits::{drive_raise, ride_raise};
use pt_audit::{Bounds, End, Insertion, Raise};
use pt_travel::Times;

/// The next step of a case.
#[derive(Clone, Copy)]
pub(crate) enum Step {
    /// A bound that a constraint raises.
    Raise(Raise),
    /// A constraint that is broken.
    End(End),
}

/// The first step that the bounds require; `None` if they keep all constraints.
///
/// It checks visit `first`, and then those from `rest` on: the others are known to keep their constraints.
pub(crate) fn next_step<T: Times>(
    insertion: &Insertion<'_>,
    times: &T,
    bounds: &Bounds,
    first: usize,
    rest: usize,
) -> Option<Step>
    requires among { rest < length (inserted_stops insertion.now) + 2 }
    requires before { first ≤ rest }
    requires kept { AreKeptBut (T.minutes times.now) insertion.now.vehicle.now (inserted_stops insertion.now)
        (slice_index bounds.now) first rest }
    ensures step { IfSome result (IsStep (T.minutes times.now) insertion.now.vehicle.now
        (inserted_stops insertion.now) (slice_index bounds.now)) }
    ensures first { IfSome result (IsFirst (T.minutes times.now) insertion.now.vehicle.now
        (inserted_stops insertion.now) (slice_index bounds.now)) }
    ensures none { IsNone result → (k : ℕ) → k < length (inserted_stops insertion.now) + 2 →
        IsKeptAt (T.minutes times.now) insertion.now.vehicle.now (inserted_stops insertion.now)
        (slice_index bounds.now) k }
{
    let visits = insertion.len() + 2;
    if let Some(step) = step_at(insertion, times, bounds, first) {
        return Some(step);
    }
    for k in rest.max(first + 1)..visits {
        if let Some(step) = step_at(insertion, times, bounds, k) {
            return Some(step);
        }
    }
    None
}

/// The step that visit `k` requires; `None` if its bound keeps its constraints.
fn step_at<T: Times>(
    insertion: &Insertion<'_>,
    times: &T,
    bounds: &Bounds,
    k: usize,
) -> Option<Step>
    requires visit { k < length (inserted_stops insertion.now) + 2 }
    requires short { k < MAX_VISITS }
    ensures step { IfSome result (IsStep (T.minutes times.now) insertion.now.vehicle.now
        (inserted_stops insertion.now) (slice_index bounds.now)) }
    ensures at { IfSome result (IsAt k) }
    ensures none { IsNone result → IsKeptAt (T.minutes times.now) insertion.now.vehicle.now
        (inserted_stops insertion.now) (slice_index bounds.now) k }
{
    let visit = insertion.visit(k);
    if visit.hi.number() < bounds[k] {
        return Some(Step::End(End::Late(k as u32)));
    }
    if let Some(raise) = drive_raise(insertion, times, bounds, k) {
        return Some(Step::Raise(raise));
    }
    if bounds[k] < visit.lo.number() {
        return Some(Step::Raise(Raise::Window(k as u32, visit.lo.number())));
    }
    if let Some(raise) = ride_raise(insertion, bounds, k) {
        return Some(Step::Raise(raise));
    }
    let least = bounds[insertion.len() + 1].saturating_sub(u32::from(insertion.vehicle.duration));
    if k == 0 && bounds[0] < least {
        return Some(Step::Raise(Raise::Duration(least)));
    }
    None
}
