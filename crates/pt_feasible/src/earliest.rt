ghost use Rattle.std.specs.Prelude.{◌≡◌, ℕ, ◌+◌, ◌≤◌, List, length, IfSome, IfNone};
ghost use Rattle.pt_feasible.specs.Pairing.{most_stops};
ghost use Rattle.pt_feasible.specs.ServiceTimes.{TimesFit, IsNeverLater};
ghost use Rattle.pt_feasible.specs.Steps.{AreSteps};

use crate::limits::step_from;
use crate::visit::visit_at;
use crate::{Schedule, Stops};
use arrayvec::ArrayVec;
use pt_base_values::Vehicle;
use pt_travel::Times;

/// The result of a walk from the first visit of a route to the last.
#[derive(Drop)]
pub struct Earliest {
    /// Minutes of the day before which no service times that fit the route begin.
    pub times: Schedule,
    /// The minutes of each visit's service and of the drive to the next one, and 0 after the last.
    pub steps: ArrayVec<u32, 102>,
}

/// Minutes before which no service times that fit the route begin; `None` if a window ends earlier.
///
/// It takes no memory. One walk along windows and driving times; ride limits and the duration do not count.
pub fn earliest_times<S: Stops, T: Times>(
    stops: &S,
    times: &T,
    vehicle: &Vehicle,
) -> Option<Earliest>
    requires { length (S.stops stops.now) ≤ most_stops }
    ensures count { IfSome result (λ earliest. length earliest.times.items ≡ length (S.stops stops.now) + 2) }
    ensures earliest { IfSome result (λ earliest. (b : List ℕ)
        → TimesFit (T.minutes times.now) vehicle.now (S.stops stops.now) b → IsNeverLater earliest.times.items b) }
    ensures count_steps { IfSome result (λ earliest. length earliest.steps.items ≡ length (S.stops stops.now) + 2) }
    ensures steps { IfSome result (λ earliest.
        AreSteps (T.minutes times.now) vehicle.now (S.stops stops.now) earliest.steps.items) }
    ensures none { IfNone result
        ((b : List ℕ) → ¬ TimesFit (T.minutes times.now) vehicle.now (S.stops stops.now) b) }
{
    let mut earliest = Earliest {
        times: Schedule::new(),
        steps: ArrayVec::new(),
    };
    let mut arrival = 0;
    for k in 0..stops.len() + 2 {
        let visit = visit_at(stops, vehicle, k);
        let bound = u64::from(visit.lo.number()).max(arrival);
        if bound > u64::from(visit.hi.number()) {
            return None;
        }
        let step = step_from(stops, times, vehicle, k, visit)?;
        earliest.times.push(bound as u16);
        earliest.steps.push(step);
        arrival = bound + u64::from(step);
    }
    Some(earliest)
}
