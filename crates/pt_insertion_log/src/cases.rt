ghost use Rattle.std.specs.Prelude.{◌≡◌, ℕ, ◌+◌, ◌<◌, ◌≤◌, [], ◌∷◌, length, IsSome, IsNone, IfSome, OnOk, IfErr};
ghost use Rattle.pt_base_values.specs.Fault.{fault};
ghost use Rattle.pt_base_values.specs.declared.fault.Cause.TheVariants as cause;
ghost use Rattle.pt_feasible.specs.Route.{stops_of};
ghost use Rattle.pt_insertion_search.specs.Possible.{IsPossible};
ghost use Rattle.pt_audit.specs.Insertion.{case_of, inserted_stops};
ghost use Rattle.pt_insertion_log.specs.Steps.{IsLasting, IsClear};
ghost use Rattle.pt_insertion_log.specs.Written.{WritesCases};

use crate::steps::{Step, next_step};
use crate::touched::{first_touched, raised_visit};
use crate::writing::write_line;
use pt_audit::{End, Insertion, Line, MAX_VISITS, Raise, is_right_end, raise_bound};
use pt_base_values::{Fault, Load};
use pt_feasible::aboard_after;
use pt_insertion_search::Spliced;
use pt_travel::Times;
use std::io::Write;

/// Writes the lines of a case that is not possible.
pub(crate) fn explain_case<T: Times, W: Write>(
    insertion: &Insertion<'_>,
    times: &T,
    out: &mut W,
) -> Result<(), Fault>
    requires direct { IsSome (T.minutes times.now insertion.now.asked.now.origin insertion.now.asked.now.goal) }
    requires nowhere { ¬ IsPossible (T.minutes times.now) insertion.now.vehicle.now
        (stops_of insertion.now.route.now) insertion.now.asked.now insertion.now.i insertion.now.j }
    ensures written { OnOk result (WritesCases (T.minutes times.now) (case_of insertion.now ∷ [])
        (W.contents out.old) (W.contents out.new)) }
    ensures fault { IfErr result (λ error. error ≡ fault cause.WriteFailed) }
{
    let vehicle = insertion.vehicle.id.number();
    write_line(
        Line::Case(vehicle, insertion.i as u32, insertion.j as u32),
        out,
    )?;
    if let Some(end) = lasting_end(insertion, times) {
        return write_line(Line::End(end), out);
    }
    let mut bounds = [0; MAX_VISITS];
    let mut first = 0;
    let mut rest = 0;
    loop {
        match next_step(insertion, times, &bounds, first, rest) {
            Some(Step::Raise(raise)) => {
                write_line(Line::Raise(raise), out)?;
                raise_bound(&mut bounds, raise);
                first = first_touched(insertion, raise);
                rest = raised_visit(raise);
            }
            Some(Step::End(end)) => return write_line(Line::End(end), out),
            None => return Ok(()),
        }
    }
}

/// The first end that is right whatever the bounds are: too many stops, no way on, or too many aboard.
fn lasting_end<T: Times>(insertion: &Insertion<'_>, times: &T) -> Option<End>
    ensures end { IfSome result
        (IsLasting (T.minutes times.now) insertion.now.vehicle.now (inserted_stops insertion.now)) }
    ensures none { IsNone result → (k : ℕ) →
        IsClear (T.minutes times.now) insertion.now.vehicle.now (inserted_stops insertion.now) k }
{
    let bounds = [0; MAX_VISITS];
    if is_right_end(insertion, times, &bounds, End::TooLong) {
        return Some(End::TooLong);
    }
    let stops = Spliced::of(insertion.route, insertion.asked, insertion.i, insertion.j);
    let mut aboard = Load::none();
    for k in 0..insertion.len() {
        let no_way = End::NoWay(k as u32);
        if is_right_end(insertion, times, &bounds, no_way) {
            return Some(no_way);
        }
        let overloaded = End::Overloaded(k as u32 + 1);
        match aboard_after(&stops, k, aboard) {
            Some(load) => aboard = load,
            None => return Some(overloaded),
        }
        if !aboard.fits(insertion.vehicle) {
            return Some(overloaded);
        }
    }
    let no_way = End::NoWay(insertion.len() as u32);
    if is_right_end(insertion, times, &bounds, no_way) {
        return Some(no_way);
    }
    None
}
