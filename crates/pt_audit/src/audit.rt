ghost use Rattle.std.specs.Prelude.{◌≡◌, ◌≤◌, ◌↔◌, [], ◌∷◌, length, All, IsTrue, IfSome};
ghost use Rattle.pt_feasible.specs.Route.{stops_of};
ghost use Rattle.pt_insertion_search.specs.Insertion.{IsWithout};
ghost use Rattle.pt_audit.specs.Cases.{cases_of_pickup, cases_of_vehicle};
ghost use Rattle.pt_audit.specs.Reading.{EndsCases};
ghost use Rattle.pt_audit.specs.RightLog.{IsRightLog, IsNowherePossible};

use crate::case_end::case_end;
use crate::insertion::Insertion;
use crate::{Line, Log};
use pt_feasible::Stops;
use pt_insertion_search::{Asked, Duty};
use pt_travel::Times;

/// Whether the log is right for this trip, these vehicles and their routes. It takes no memory.
///
/// If it is, the trip has no place in any of the routes, whoever made the log.
pub fn check<T: Times>(log: &Log, duties: &[Duty<'_>], asked: &Asked, times: &T) -> bool
    requires new_trip { All (λ duty. IsWithout asked.now.trip (stops_of duty.route.now)) duties.now }
    ensures right { IsTrue result ↔ IsRightLog (T.minutes times.now) duties.now asked.now log.now.lines.items }
    ensures refused { IsTrue result → IsNowherePossible (T.minutes times.now) duties.now asked.now }
{
    let lines = log.lines.as_slice();
    if is_no_direct(lines) {
        return times.minutes(asked.origin, asked.goal).is_none();
    }
    let mut at = 0;
    for duty in duties {
        match vehicle_end(lines, at, duty, asked, times) {
            Some(end) => at = end,
            None => return false,
        }
    }
    at == lines.len()
}

/// Whether the only line says that there is no way from the origin to the goal.
fn is_no_direct(lines: &[Line]) -> bool
    ensures { IsTrue result ↔ (lines.now ≡ Line.NoDirect ∷ []) }
{
    matches!(lines, [Line::NoDirect])
}

/// The end of the lines of a vehicle's cases that begin at `start`; `None` if they are not right.
fn vehicle_end<T: Times>(
    lines: &[Line],
    start: usize,
    duty: &Duty<'_>,
    asked: &Asked,
    times: &T,
) -> Option<usize>
    requires start { start ≤ length lines.now }
    requires new_trip { IsWithout asked.now.trip (stops_of duty.now.route.now) }
    ensures within { IfSome result (λ end. end ≤ length lines.now) }
    ensures right { EndsCases (T.minutes times.now)
        (cases_of_vehicle asked.now duty.now.vehicle.now (stops_of duty.now.route.now)) lines.now start result }
{
    let mut at = start;
    for i in 0..duty.route.len() + 1 {
        at = pickup_end(lines, at, duty, asked, times, i)?;
    }
    Some(at)
}

/// The end of the lines of a pickup's cases that begin at `start`; `None` if they are not right.
fn pickup_end<T: Times>(
    lines: &[Line],
    start: usize,
    duty: &Duty<'_>,
    asked: &Asked,
    times: &T,
    i: usize,
) -> Option<usize>
    requires start { start ≤ length lines.now }
    requires new_trip { IsWithout asked.now.trip (stops_of duty.now.route.now) }
    requires among { i ≤ length (stops_of duty.now.route.now) }
    ensures within { IfSome result (λ end. end ≤ length lines.now) }
    ensures right { EndsCases (T.minutes times.now)
        (cases_of_pickup asked.now duty.now.vehicle.now (stops_of duty.now.route.now) i) lines.now start result }
{
    let mut at = start;
    for j in i..duty.route.len() + 1 {
        let insertion = Insertion {
            vehicle: duty.vehicle,
            route: duty.route,
            asked,
            i,
            j,
        };
        at = case_end(lines, at, &insertion, times)?;
    }
    Some(at)
}
