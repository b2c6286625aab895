ghost use Rattle.std.specs.Prelude.{◌≡◌, ℕ, ◌+◌, ◌<◌, ◌≤◌, List, Some, length, slice_get, slice_index};
ghost use Rattle.std.specs.Prelude.{slice_index_or, IfSome, IfNone};
ghost use Rattle.pt_feasible.specs.Timeline.{IsTimelineOf};
ghost use Rattle.pt_feasible.specs.Pairing.{most_stops};
ghost use Rattle.pt_feasible.specs.ServiceTimes.{TimesFit, IsNeverLater};

use crate::limits::{Limits, since_at, step_from};
use crate::visit::visit_at;
use crate::{MAX_STOPS, Schedule, Stops};
use arrayvec::ArrayVec;
use pt_base_values::Vehicle;
use pt_travel::Times;

/// The visits of a route one after the other.
#[derive(Drop)]
pub(crate) struct Timeline {
    /// Minutes of the day before which no fitting service times begin.
    pub earliest: Schedule,
    pub limits: ArrayVec<Limits, 102>,
}

const _: () = prove!(MAX_STOPS + 2 == 102);

/// The timeline of a route, from lower bounds of all fitting service times; `None` if a walk along it finds
/// that none fit.
pub(crate) fn timeline_of<S: Stops, T: Times>(
    stops: &S,
    times: &T,
    vehicle: &Vehicle,
    floor: &[u16],
) -> Option<Timeline>
    requires few { length (S.stops stops.now) ≤ most_stops }
    requires floor { (b : List ℕ) → TimesFit (T.minutes times.now) vehicle.now (S.stops stops.now) b
        → IsNeverLater floor.now b }
    ensures timeline { IfSome result (λ timeline.
        IsTimelineOf (T.minutes times.now) vehicle.now (S.stops stops.now) timeline) }
    ensures none { IfNone result
        ((b : List ℕ) → ¬ TimesFit (T.minutes times.now) vehicle.now (S.stops stops.now) b) }
{
    let mut earliest = Schedule::new();
    let mut limits = ArrayVec::new();
    let mut arrival = 0;
    for k in 0..stops.len() + 2 {
        let visit = visit_at(stops, vehicle, k);
        let least = u64::from(minute_at(floor, k));
        let bound = u64::from(visit.lo.number()).max(least).max(arrival);
        let latest = visit.hi.number();
        if bound > u64::from(latest) {
            return None;
        }
        let step = step_from(stops, times, vehicle, k, visit)?;
        earliest.push(bound as u16);
        limits.push(Limits {
            latest: latest as u16,
            step,
            since: since_at(stops, vehicle, k),
        });
        arrival = bound + u64::from(step);
    }
    Some(Timeline { earliest, limits })
}

/// The minute at this position of a list, and 0 past its end.
fn minute_at(minutes: &[u16], k: usize) -> u16
    ensures { result ≡ slice_index minutes.now k }
{
    minutes.get(k).copied().unwrap_or(0)
}
