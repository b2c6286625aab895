ghost use Rattle.std.specs.Prelude.{◌≡◌, ℕ, ◌≤◌, length, All, IsSome, OnOk, IfErr};
ghost use Rattle.pt_base_values.specs.Fault.{fault};
ghost use Rattle.pt_base_values.specs.declared.fault.Cause.TheVariants as cause;
ghost use Rattle.pt_feasible.specs.Route.{stops_of};
ghost use Rattle.pt_insertion_search.specs.Insertion.{IsWithout};
ghost use Rattle.pt_insertion_search.specs.Possible.{IsPossible};
ghost use Rattle.pt_audit.specs.Cases.{cases_of_pickup, cases_of_vehicle};
ghost use Rattle.pt_audit.specs.RightLog.{IsNowherePossible};
ghost use Rattle.pt_insertion_log.specs.Written.{WritesCases, WritesLines, WritesRightLog};

use crate::cases::explain_case;
use crate::writing::{write_bytes, write_line};
use pt_audit::{Insertion, Line};
use pt_base_values::Fault;
use pt_feasible::Stops;
use pt_insertion_search::{Asked, Duty};
use pt_travel::Times;
use std::io::Write;

/// Writes a right log of a trip that has no place in any of the routes (`best` returns `None`).
///
/// The fault is that of a failed write.
pub fn explain<T: Times, W: Write>(
    duties: &[Duty<'_>],
    asked: &Asked,
    times: &T,
    out: &mut W,
) -> Result<(), Fault>
    requires new_trip { All (λ duty. IsWithout asked.now.trip (stops_of duty.route.now)) duties.now }
    requires nowhere { IsNowherePossible (T.minutes times.now) duties.now asked.now }
    ensures log { OnOk result (WritesRightLog (T.minutes times.now) duties.now asked.now
        (W.contents out.old) (W.contents out.new)) }
    ensures fault { IfErr result (λ error. error ≡ fault cause.WriteFailed) }
{
    write_bytes(b"AUDIT 1\n", out)?;
    explain_day(duties, asked, times, out)?;
    write_bytes(b"DONE\n", out)
}

/// Writes that there is no way from the origin to the goal, or else the cases of all vehicles.
fn explain_day<T: Times, W: Write>(
    duties: &[Duty<'_>],
    asked: &Asked,
    times: &T,
    out: &mut W,
) -> Result<(), Fault>
    requires new_trip { All (λ duty. IsWithout asked.now.trip (stops_of duty.route.now)) duties.now }
    requires nowhere { IsNowherePossible (T.minutes times.now) duties.now asked.now }
    ensures written { OnOk result (WritesLines (T.minutes times.now) duties.now asked.now
        (W.contents out.old) (W.contents out.new)) }
    ensures fault { IfErr result (λ error. error ≡ fault cause.WriteFailed) }
{
    if times.minutes(asked.origin, asked.goal).is_none() {
        return write_line(Line::NoDirect, out);
    }
    for duty in duties {
        explain_vehicle(duty, asked, times, out)?;
    }
    Ok(())
}

/// Writes the cases of a vehicle.
fn explain_vehicle<T: Times, W: Write>(
    duty: &Duty<'_>,
    asked: &Asked,
    times: &T,
    out: &mut W,
) -> Result<(), Fault>
    requires new_trip { IsWithout asked.now.trip (stops_of duty.now.route.now) }
    requires direct { IsSome (T.minutes times.now asked.now.origin asked.now.goal) }
    requires nowhere { (i j : ℕ) →
        ¬ IsPossible (T.minutes times.now) duty.now.vehicle.now (stops_of duty.now.route.now) asked.now i j }
    ensures written { OnOk result (WritesCases (T.minutes times.now)
        (cases_of_vehicle asked.now duty.now.vehicle.now (stops_of duty.now.route.now))
        (W.contents out.old) (W.contents out.new)) }
    ensures fault { IfErr result (λ error. error ≡ fault cause.WriteFailed) }
{
    for i in 0..duty.route.len() + 1 {
        explain_pickup(duty, asked, times, i, out)?;
    }
    Ok(())
}

/// Writes the cases of a pickup.
fn explain_pickup<T: Times, W: Write>(
    duty: &Duty<'_>,
    asked: &Asked,
    times: &T,
    i: usize,
    out: &mut W,
) -> Result<(), Fault>
    requires new_trip { IsWithout asked.now.trip (stops_of duty.now.route.now) }
    requires direct { IsSome (T.minutes times.now asked.now.origin asked.now.goal) }
    requires nowhere { (i j : ℕ) →
        ¬ IsPossible (T.minutes times.now) duty.now.vehicle.now (stops_of duty.now.route.now) asked.now i j }
    requires among { i ≤ length (stops_of duty.now.route.now) }
    ensures written { OnOk result (WritesCases (T.minutes times.now)
        (cases_of_pickup asked.now duty.now.vehicle.now (stops_of duty.now.route.now) i)
        (W.contents out.old) (W.contents out.new)) }
    ensures fault { IfErr result (λ error. error ≡ fault cause.WriteFailed) }
{
    for j in i..duty.route.len() + 1 {
        let insertion = Insertion {
            vehicle: duty.vehicle,
            route: duty.route,
            asked,
            i,
            j,
        };
        explain_case(&insertion, times, out)?;
    }
    Ok(())
}
