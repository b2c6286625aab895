ghost use Rattle.pt_app_commands.specs.Tasks.{AuditsLog, DoesTask, PutsTimes, ReadsTimes};

use crate::asking::{ask, fault_of};
use crate::ending::Ending;
use crate::refusals::{audit_refusal, explain_refusal};
use pt_app_command_line::Task;
use pt_audit::read_log;
use pt_base_values::{Day, Fault, Moment, RiderId, Wish};
use pt_desk::place_ids;
use pt_desk_requests::{Read, Request, Write as Change};
use pt_desk_store::Keeper;
use pt_travel::Raw;
use std::alloc::Global;
use std::io::Write;

/// Reads a travel table for the places of a desk.
fn times_for<K: Keeper>(alloc: Global, keeper: &mut K, text: &[u8]) -> Result<Raw, Fault>
    ensures read { ReadsTimes text.now (K.store keeper.old) (K.store keeper.new) result }
{
    match place_ids(alloc, keeper) {
        Ok(places) => Raw::read(alloc, text, places.as_slice()),
        Err(failed) => Err(fault_of(failed)),
    }
}

/// Sends the driving times of a CSV text, which hold from a day on, under this number of the caller.
fn put_times<K: Keeper, W: Write>(
    alloc: Global,
    keeper: &mut K,
    now: Moment,
    key: &[u8],
    number: u32,
    day: Day,
    text: &[u8],
    out: &mut W,
) -> Result<Ending, Fault>
    ensures put { PutsTimes K.store key.now now number day text.now keeper.old keeper.new (W.contents out.old)
        (W.contents out.new) result }
{
    let rows = times_for(alloc, keeper, text)?;
    let request = Request::Write(Change::Travel { day, rows });
    ask(alloc, keeper, now, key, number, &request, out)
}

/// Prints whether the log of this text shows that no vehicle can take the trip.
fn audit_text<K: Keeper, W: Write>(
    alloc: Global,
    keeper: &mut K,
    now: Moment,
    key: &[u8],
    rider: RiderId,
    wish: &Wish,
    text: &[u8],
    out: &mut W,
) -> Result<Ending, Fault>
    ensures audited { AuditsLog K.store key.now now rider wish.now text.now keeper.old keeper.new
        (W.contents out.old) (W.contents out.new) result }
{
    let log = read_log(alloc, text)?;
    audit_refusal(alloc, keeper, now, key, rider, wish, &log, out)
}

/// Does a task of the desk, at a moment of the agency's clocks, as the caller with this key. `text` is that of the file
/// that the task names, if it names one.
///
/// The error is a fault in the text, or an error of `ask` or `explain_refusal`.
pub fn do_task<K: Keeper, W: Write>(
    alloc: Global,
    keeper: &mut K,
    now: Moment,
    key: &[u8],
    task: &Task<'_>,
    text: &[u8],
    out: &mut W,
) -> Result<Ending, Fault>
    ensures done { DoesTask K.store key.now now task.now text.now keeper.old keeper.new (W.contents out.old)
        (W.contents out.new) result }
{
    match task {
        Task::Travel { number, day, .. } => {
            put_times(alloc, keeper, now, key, *number, *day, text, out)
        }
        Task::Manifest { vehicle, day } => {
            let read = Read::Manifest {
                vehicle: *vehicle,
                day: *day,
            };
            ask(alloc, keeper, now, key, 0, &Request::Read(read), out)
        }
        Task::Trips { day } => {
            ask(
                alloc,
                keeper,
                now,
                key,
                0,
                &Request::Read(Read::Export(*day)),
                out,
            )
        }
        Task::Explain { rider, wish } => {
            explain_refusal(alloc, keeper, now, key, *rider, wish, out)
        }
        Task::Audit { rider, wish, .. } => {
            audit_text(alloc, keeper, now, key, *rider, wish, text, out)
        }
    }
}
