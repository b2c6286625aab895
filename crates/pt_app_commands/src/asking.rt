ghost use Rattle.std.specs.Prelude.{◌≡◌, ◌⊎◌, ◌++◌, codes, IfErr, IfOk, OnOk, Ok};
ghost use Rattle.std.specs.Io.KnownBytes.{Appends};
ghost use Rattle.pt_app_commands.specs.declared.ending.Ending.TheVariants.{Done};
ghost use Rattle.pt_app_commands.specs.Tasks.{Prints};
ghost use Rattle.pt_app_commands.specs.Told.{EndsBy, ending_of, fault_of, told_text};
ghost use Rattle.pt_base_values.specs.declared.fault.Cause.TheVariants as cause;
ghost use Rattle.pt_base_values.specs.Fault.{fault};
ghost use Rattle.pt_desk_requests.specs.declared.request.Answer.{Answer};

use crate::ending::Ending;
use pt_base_values::{Cause, Fault, Moment};
use pt_desk::answer;
use pt_desk_requests::{Answer, Request};
use pt_desk_store::{Keeper, Reply, StoreFault};
use pt_manifest::{manifest, trips_csv};
use std::alloc::{AllocError, Global};
use std::io::Write;

/// The program's fault for a fault of the desk's store.
pub fn fault_of(failed: StoreFault) -> Fault
    ensures { result ≡ fault_of failed }
{
    match failed {
        StoreFault::Memory => Fault::of(Cause::Memory),
        StoreFault::Store => Fault::of(Cause::StoreFailed),
    }
}

/// A word on a line of its own.
pub(crate) fn line_of(alloc: Global, word: &str) -> Result<Vec<u8>, AllocError>
    ensures { IfOk result (λ line. line.items ≡ word.now ++ codes "\n") }
{
    let mut line = Vec::from_slice(alloc, word.as_bytes())?;
    line.push(b'\n')?;
    Ok(line)
}

/// The text that a command prints for this answer. The fault is out of memory.
fn text_of(alloc: Global, told: &Answer) -> Result<Vec<u8>, Fault>
    ensures text { IfOk result (λ text. text.items ≡ told_text told.now) }
    ensures memory { IfErr result (λ refused. refused ≡ fault cause.Memory) }
{
    match told {
        Answer::Done => Ok(line_of(alloc, "done")?),
        Answer::Denied(rule) => Ok(line_of(alloc, rule.name())?),
        Answer::Manifest { day, sheet } => manifest(alloc, *day, sheet),
        Answer::Export(trips) => trips_csv(alloc, trips.as_slice()),
        _ => Ok(Vec::new(alloc)),
    }
}

/// The ending of a command with this answer.
fn ending_of(told: &Answer) -> Ending
    ensures { result ≡ ending_of told.now }
{
    match told {
        Answer::Denied(_) => Ending::Denied,
        _ => Ending::Done,
    }
}

/// Writes and flushes a text. The error is a failed write.
pub(crate) fn print<W: Write>(text: &[u8], out: &mut W) -> Result<(), Fault>
    ensures written { OnOk result (Appends (W.contents out.old) (W.contents out.new) text.now) }
    ensures fault { IfErr result (λ error. error ≡ fault cause.WriteFailed) }
{
    if out.write_all(text).is_err() || out.flush().is_err() {
        return Err(Fault::of(Cause::WriteFailed));
    }
    Ok(())
}

/// Prints that the task is done.
///
/// The error is out of memory or a failed write. The task is done all the same.
pub fn print_done<W: Write>(alloc: Global, out: &mut W) -> Result<Ending, Fault>
    ensures done { IfOk result (λ ending. ending ≡ Done) }
    ensures printed { OnOk result (Appends (W.contents out.old) (W.contents out.new) (codes "done\n")) }
    ensures fault { IfErr result (λ error. (error ≡ fault cause.Memory) ⊎ (error ≡ fault cause.WriteFailed)) }
{
    let text = line_of(alloc, "done")?;
    print(text.as_slice(), out)?;
    Ok(Ending::Done)
}

/// Prints the answer in a reply.
fn print_reply<W: Write>(alloc: Global, reply: &Reply, out: &mut W) -> Result<Ending, Fault>
    ensures ends { EndsBy reply.now result }
    ensures printed { (told : Answer) → reply.now ≡ Ok told
        → OnOk result (Appends (W.contents out.old) (W.contents out.new) (told_text told)) }
{
    match reply {
        Ok(told) => {
            let text = text_of(alloc, told)?;
            print(text.as_slice(), out)?;
            Ok(ending_of(told))
        }
        Err(failed) => Err(fault_of(*failed)),
    }
}

/// Asks the desk as the caller with this key, and prints its answer.
///
/// `number` is the caller's number for a write, and 0 for a read. The error is out of memory, a failed store or a
/// failed write. The request may be done even if there is an error.
pub fn ask<K: Keeper, W: Write>(
    alloc: Global,
    keeper: &mut K,
    now: Moment,
    key: &[u8],
    number: u32,
    request: &Request,
    out: &mut W,
) -> Result<Ending, Fault>
    ensures asked { Prints key.now now number request.now (K.store keeper.old) (K.store keeper.new)
        (W.contents out.old) (W.contents out.new) result }
{
    let reply = answer(alloc, keeper, now, key, number, request);
    print_reply(alloc, &reply, out)
}
