ghost use Rattle.std.specs.Prelude.{◌≡◌, ◌≤◌, ◌↔◌, [], ◌∷◌, length, IsTrue, IfSome};
ghost use Rattle.pt_audit.specs.Insertion.{case_of};
ghost use Rattle.pt_audit.specs.RightLog.{case_line};
ghost use Rattle.pt_audit.specs.Reading.{EndsCases};

use crate::Line;
use crate::bounds::{MAX_VISITS, is_right_end, is_right_raise, raise_bound};
use crate::insertion::Insertion;
use pt_travel::Times;

/// The end of the lines of the case that begin at `start`; `None` if they are not right.
pub(crate) fn case_end<T: Times>(
    lines: &[Line],
    start: usize,
    insertion: &Insertion<'_>,
    times: &T,
) -> Option<usize>
    requires { start ≤ length lines.now }
    ensures within { IfSome result (λ end. end ≤ length lines.now) }
    ensures right { EndsCases (T.minutes times.now) (case_of insertion.now ∷ []) lines.now start result }
{
    if start == lines.len() {
        return None;
    }
    if !is_opening(lines[start], insertion) {
        return None;
    }
    let mut bounds = [0; MAX_VISITS];
    for at in start + 1..lines.len() {
        match lines[at] {
            Line::Raise(raise) => {
                if !is_right_raise(insertion, times, &bounds, raise) {
                    return None;
                }
                raise_bound(&mut bounds, raise);
            }
            Line::End(end) => {
                if is_right_end(insertion, times, &bounds, end) {
                    return Some(at + 1);
                }
                return None;
            }
            Line::NoDirect => return None,
            Line::Case(..) => return None,
        }
    }
    None
}

/// Whether the line opens the case.
fn is_opening(line: Line, insertion: &Insertion<'_>) -> bool
    ensures { IsTrue result ↔ (line ≡ case_line (case_of insertion.now)) }
{
    match line {
        Line::Case(vehicle, i, j) => {
            vehicle == insertion.vehicle.id.number()
                && i as usize == insertion.i
                && j as usize == insertion.j
        }
        Line::NoDirect | Line::Raise(_) | Line::End(_) => false,
    }
}
