ghost use Rattle.std.specs.Prelude.{◌≡◌, ℕ, ◌+◌, ◌<◌, ◌≤◌, ◌↔◌, List, Some, length, slice_get, slice_index};
ghost use Rattle.std.specs.Prelude.{IsTrue, IfSome, IfNone};
ghost use Rattle.pt_feasible.specs.Pairing.{most_stops};
ghost use Rattle.pt_feasible.specs.declared.stop.Stop.{Stop};
ghost use Rattle.pt_feasible.specs.Limits.{HasTimeToDrive, EndsInTime};
ghost use Rattle.pt_feasible.specs.ServiceTimes.{KeepsDrivingTimes};
ghost use Rattle.pt_feasible.specs.Stop.{is_pickup, is_drop};
ghost use Rattle.pt_feasible.specs.Visit.{visits};

use crate::visit::visit_at;
use crate::{Stop, StopKind, Stops, Visit};
use pt_base_values::Vehicle;
use pt_travel::Times;

/// The limits on the service time of a visit.
#[derive(Clone, Copy, Default)]
pub(crate) struct Limits {
    /// The last minute of the day at which it may begin.
    pub latest: u16,
    /// The minutes of its service and of the drive to the next visit.
    pub step: u32,
    pub since: Since,
}

/// The limit `most` on the minutes since service began at this visit.
#[derive(Clone, Copy, Default)]
pub(crate) struct Since {
    pub visit: usize,
    pub most: u32,
}

/// The minutes of a visit's service and of the drive to the next one, and 0 after the last.
///
/// `None` if there is no way.
pub(crate) fn step_from<S: Stops, T: Times>(
    stops: &S,
    times: &T,
    vehicle: &Vehicle,
    k: usize,
    this: Visit,
) -> Option<u32>
    requires few { length (S.stops stops.now) ≤ most_stops }
    requires this { slice_get (visits vehicle.now (S.stops stops.now)) k ≡ Some this }
    ensures kept { IfSome result (λ step. (b : List ℕ)
        → HasTimeToDrive (T.minutes times.now) (visits vehicle.now (S.stops stops.now)) b k
        ↔ (k + 1 < length (S.stops stops.now) + 2 → slice_index b k + step ≤ slice_index b (k + 1))) }
    ensures none { IfNone result
        ((b : List ℕ) → ¬ KeepsDrivingTimes (T.minutes times.now) (visits vehicle.now (S.stops stops.now)) b) }
{
    if k > stops.len() {
        return Some(0);
    }
    let next = visit_at(stops, vehicle, k + 1);
    let drive = times.minutes(this.place, next.place)?;
    Some(u32::from(this.service) + u32::from(drive))
}

/// The limit of visit `k`: of a drop since its pickup, of the last visit since the first, of any other since itself.
pub(crate) fn since_at<S: Stops>(stops: &S, vehicle: &Vehicle, k: usize) -> Since
    requires { k < length (S.stops stops.now) + 2 }
    ensures before { result.visit ≤ k }
    ensures kept { (b : List ℕ) → (slice_index b k ≤ slice_index b result.visit + result.most)
        ↔ EndsInTime vehicle.now (S.stops stops.now) b k }
{
    if k > stops.len() {
        return Since {
            visit: 0,
            most: u32::from(vehicle.duration),
        };
    }
    if k > 0 {
        let drop = stops.stop(k - 1);
        if drop.kind == StopKind::Drop {
            if let Some(i) = pickup_of(stops, k - 1, drop) {
                return Since {
                    visit: i + 1,
                    most: u32::from(drop.service) + u32::from(drop.ride),
                };
            }
        }
    }
    Since { visit: k, most: 0 }
}

/// The position of the pickup of the trip that is dropped at `j`, searched from the drop back.
fn pickup_of<S: Stops>(stops: &S, j: usize, drop: Stop) -> Option<usize>
    requires there { slice_get (S.stops stops.now) j ≡ Some drop }
    requires drops { IsTrue (is_drop drop) }
    ensures before { IfSome result (λ i. i < j) }
    ensures only { (k : ℕ) (stop : Stop) → slice_get (S.stops stops.now) k ≡ Some stop →
        (IsTrue (is_pickup stop) × (stop.trip ≡ drop.trip)) ↔ (result ≡ Some k) }
{
    for back in 0..j {
        let i = j - 1 - back;
        if stops.stop(i).trip == drop.trip {
            return Some(i);
        }
    }
    None
}
