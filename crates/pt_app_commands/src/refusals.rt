ghost use Rattle.std.specs.Prelude.{◌≡◌, ℕ, Option, Ok};
ghost use Rattle.pt_base_values.specs.Rule.{name_of};
ghost use Rattle.pt_base_values.specs.declared.rule.Rule.TheVariants.{NoVehicle};
ghost use Rattle.pt_app_commands.specs.Refusals.{IsAuditedFrom, IsDeniedBy, IsExplainedFrom};
ghost use Rattle.pt_app_commands.specs.Tasks.{Inquires};
ghost use Rattle.pt_app_commands.specs.declared.ending.Ending.TheVariants.{Done};
ghost use Rattle.pt_desk.specs.Sound.{IsSound};
ghost use Rattle.pt_desk.specs.State.{State};
ghost use Rattle.pt_desk.specs.Step.{IsOutcome};
ghost use Rattle.pt_desk_requests.specs.declared.request.Answer.{Answer};
ghost use Rattle.pt_desk_requests.specs.declared.request.Answer.TheVariants as answer;
ghost use Rattle.pt_desk_requests.specs.declared.request.Request.TheVariants.{Explain};

use crate::asking::{line_of, print};
use crate::{Ending, fault_of};
use pt_audit::{Log, check};
use pt_base_values::{Cause, Fault, Moment, RiderId, Rule, Wish};
use pt_desk::inquire;
use pt_desk_reads::{Facts, Inquiry};
use pt_desk_store::Keeper;
use pt_insertion_log::explain;
use pt_insertion_search::best;
use std::alloc::Global;
use std::io::Write;

/// Prints the rule that denies a question.
fn print_denial<W: Write>(alloc: Global, rule: Rule, out: &mut W) -> Result<Ending, Fault>
    ensures { IsDeniedBy (name_of rule) (W.contents out.old) (W.contents out.new) result }
{
    let text = line_of(alloc, rule.name())?;
    print(text.as_slice(), out)?;
    Ok(Ending::Denied)
}

/// Prints the log of a refusal, or that the wish is possible.
fn print_refusal<W: Write>(alloc: Global, found: &Facts, out: &mut W) -> Result<Ending, Fault>
    ensures { IsExplainedFrom found.now (W.contents out.old) (W.contents out.new) result }
{
    let duties = found.duties(alloc)?;
    let (lent, asked, times) = (duties.as_slice(), found.asked(), found.times());
    if best(lent, asked, times).is_some() {
        print(b"possible\n", out)?;
        return Ok(Ending::Denied);
    }
    let mut log = Vec::new(alloc);
    match explain(lent, asked, times, &mut log) {
        Ok(()) => {
            print(log.as_slice(), out)?;
            Ok(Ending::Done)
        }
        // Writing to a vector fails only if memory runs out.
        Err(_) => Err(Fault::of(Cause::Memory)),
    }
}

/// Prints whether the log shows that no vehicle can take the trip.
fn print_verdict<W: Write>(
    alloc: Global,
    log: &Log,
    found: &Facts,
    out: &mut W,
) -> Result<Ending, Fault>
    ensures { IsAuditedFrom log.now.lines.items found.now (W.contents out.old) (W.contents out.new) result }
{
    let duties = found.duties(alloc)?;
    if check(log, duties.as_slice(), found.asked(), found.times()) {
        print(b"yes\n", out)?;
        return Ok(Ending::Done);
    }
    print(b"no\n", out)?;
    Ok(Ending::Denied)
}

/// Asks, as the caller with this key, why a rider's wish would be denied `no vehicle`, and prints the log of the
/// refusal. Otherwise it prints that the wish is possible, or the rule that denies it.
///
/// The log is complete before a byte of it is written. The error is out of memory, a failed store or a failed write.
/// After a failed write, a part of the log may be written.
pub fn explain_refusal<K: Keeper, W: Write>(
    alloc: Global,
    keeper: &mut K,
    now: Moment,
    key: &[u8],
    rider: RiderId,
    wish: &Wish,
    out: &mut W,
) -> Result<Ending, Fault>
    ensures asked { Inquires IsExplainedFrom key.now now rider wish.now (K.store keeper.old) (K.store keeper.new)
        (W.contents out.old) (W.contents out.new) result }
    // If a log is printed, a booking with this wish is denied `no vehicle`, and by no other rule.
    ensures refused { result ≡ Ok Done → (K.store keeper.new).doubt ≡ 0 → IsSound (K.store keeper.old).content
        → (number : ℕ) (told : Answer) (left : Option State)
        → IsOutcome key.now now number (Explain rider wish.now) (K.store keeper.old).content told left
        → told ≡ answer.Denied NoVehicle }
{
    match inquire(alloc, keeper, now, key, rider, wish) {
        Ok(Inquiry::Facts(found)) => print_refusal(alloc, &found, out),
        Ok(Inquiry::Denied(rule)) => print_denial(alloc, rule, out),
        Err(failed) => Err(fault_of(failed)),
    }
}

/// Asks the same, and prints whether the log shows that no vehicle can take the trip, whoever made it. Otherwise it
/// prints the rule that denies the wish before any vehicle is looked at.
///
/// The error is out of memory, a failed store or a failed write.
pub fn audit_refusal<K: Keeper, W: Write>(
    alloc: Global,
    keeper: &mut K,
    now: Moment,
    key: &[u8],
    rider: RiderId,
    wish: &Wish,
    log: &Log,
    out: &mut W,
) -> Result<Ending, Fault>
    ensures asked { Inquires (IsAuditedFrom log.now.lines.items) key.now now rider wish.now (K.store keeper.old)
        (K.store keeper.new) (W.contents out.old) (W.contents out.new) result }
    // A yes means that the desk answers this very question in this very state with `no vehicle`, whoever made the log.
    ensures refused { result ≡ Ok Done → (K.store keeper.new).doubt ≡ 0 → IsSound (K.store keeper.old).content
        → (number : ℕ) (told : Answer) (left : Option State)
        → IsOutcome key.now now number (Explain rider wish.now) (K.store keeper.old).content told left
        → told ≡ answer.Denied NoVehicle }
{
    match inquire(alloc, keeper, now, key, rider, wish) {
        Ok(Inquiry::Facts(found)) => print_verdict(alloc, log, &found, out),
        Ok(Inquiry::Denied(rule)) => print_denial(alloc, rule, out),
        Err(failed) => Err(fault_of(failed)),
    }
}
