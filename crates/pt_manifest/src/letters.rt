ghost use Rattle.std.specs.Prelude.{◌≡◌, ◌++◌, IfOk, OnOk, IfErr};
ghost use Rattle.pt_base_values.specs.Fault.{fault};
ghost use Rattle.pt_base_values.specs.declared.fault.Cause.TheVariants as cause;
ghost use Rattle.pt_manifest.specs.Letters as spec;

use crate::writing::{write_day, write_number};
use pt_base_values::Fault;
use pt_desk_requests::{Determination, Letter};
use pt_rights_conditions::condition_text;
use pt_rights_files::{Conditions, Grant, Reasons};
use std::alloc::{AllocError, Global};

/// The words for a decision.
fn words_of(decision: &Determination) -> &'static [u8]
    ensures { result.now ≡ spec.words_of decision.now }
{
    match decision {
        Determination::Granted(_) => b"granted",
        Determination::Refused(_) => b"refused",
        Determination::AppealGranted(_) => b"appeal granted",
        Determination::AppealDenied(_) => b"appeal denied",
        Determination::Overturned => b"suspension overturned",
        Determination::Notice(_) => b"notice",
        Determination::Suspended { .. } => b"suspended",
    }
}

/// The letter that gives a rider a decision (49 CFR 37.125(d), (e), (g), (h)). The fault is out of memory.
pub fn decision_letter(alloc: Global, letter: &Letter) -> Result<Vec<u8>, Fault>
    ensures value { IfOk result (λ bytes. bytes.items ≡ spec.letter_text letter.now) }
    ensures memory { IfErr result (λ refused. refused ≡ fault cause.Memory) }
{
    let mut out = Vec::new(alloc);
    write_number(b"RIDER ", letter.rider.id.number(), &mut out)?;
    write_day(b"\nDATE ", letter.day, &mut out)?;
    out.extend_from_slice(b"\nDECISION ")?;
    out.extend_from_slice(words_of(&letter.decision))?;
    out.extend_from_slice(b"\n")?;
    write_particulars(&letter.decision, letter.rider.attendant, &mut out)?;
    Ok(out)
}

/// Adds the lines that depend on the decision.
fn write_particulars(
    decision: &Determination,
    attendant: bool,
    out: &mut Vec<u8>,
) -> Result<(), AllocError>
    ensures text { OnOk result (out.new.items ≡ out.old.items ++ spec.particulars decision.now attendant) }
{
    match decision {
        Determination::Granted(grant) | Determination::AppealGranted(grant) => {
            write_grant(grant, attendant, out)
        }
        Determination::Refused(reasons)
        | Determination::AppealDenied(reasons)
        | Determination::Notice(reasons) => write_reasons(reasons, out),
        Determination::Overturned => Ok(()),
        Determination::Suspended {
            starts,
            ends,
            reasons,
        } => {
            write_day(b"FROM ", *starts, out)?;
            write_day(b"\nTO ", *ends, out)?;
            out.extend_from_slice(b"\n")?;
            write_reasons(reasons, out)
        }
    }
}

/// Adds what a grant allows, and whether an attendant may come along.
fn write_grant(grant: &Grant, attendant: bool, out: &mut Vec<u8>) -> Result<(), AllocError>
    ensures text { OnOk result (out.new.items ≡ out.old.items ++ spec.grant_lines grant.now attendant) }
{
    write_day(b"UNTIL ", grant.until, out)?;
    out.extend_from_slice(b"\nCONDITIONS ")?;
    write_conditions(&grant.conditions, out)?;
    out.extend_from_slice(b"\nATTENDANT ")?;
    out.extend_from_slice(yes_or_no(attendant))?;
    out.extend_from_slice(b"\n")?;
    Ok(())
}

/// Adds the conditions, with a semicolon and a space between each two.
fn write_conditions(conditions: &Conditions, out: &mut Vec<u8>) -> Result<(), AllocError>
    ensures text { OnOk result (out.new.items ≡ out.old.items ++ spec.conditions_text conditions.now) }
{
    let Some((first, others)) = conditions.as_slice().split_first() else {
        return Ok(());
    };
    out.extend_from_slice(condition_text(*first).as_slice())?;
    for other in others {
        out.extend_from_slice(b"; ")?;
        out.extend_from_slice(condition_text(*other).as_slice())?;
    }
    Ok(())
}

/// `yes` or `no`.
fn yes_or_no(value: bool) -> &'static [u8]
    ensures { result.now ≡ spec.yes_or_no value }
{
    if value { b"yes" } else { b"no" }
}

/// Adds the line of the reasons.
fn write_reasons(reasons: &Reasons, out: &mut Vec<u8>) -> Result<(), AllocError>
    ensures text { OnOk result (out.new.items ≡ out.old.items ++ spec.reasons_line reasons.now) }
{
    out.extend_from_slice(b"REASONS ")?;
    out.extend_from_slice(reasons.as_bytes())?;
    out.extend_from_slice(b"\n")?;
    Ok(())
}
