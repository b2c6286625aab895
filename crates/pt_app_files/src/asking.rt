//! Does a task with the desk in a file.
ghost use Rattle.std.specs.Prelude.{MatchResult, Ok};
ghost use Rattle.pt_app_files.specs.Ask.{AsksAt, AsksFile, DoesAsked, FailsToRead, HasText, LacksText};
ghost use Rattle.pt_app_files.specs.Desk.{DoesAndLeaves, OverDesk, WithDesk};
ghost use Rattle.pt_app_files.specs.Known.{EndsBy};

use crate::faults::{fault_of_reading, fault_of_refusal};
use crate::files::DeskFiles;
use crate::known::open_known;
use pt_app_command_line::Task;
use pt_app_commands::{Ending, do_task};
use pt_app_serve::{TellsTime, moment_at};
use pt_base_values::{Fault, Moment};
use pt_tables::{SqlKeeper, adopt};
use sqlite::{Alter, Connection};
use std::alloc::Global;
use std::io::Write;

/// The bytes of a file, which must exist.
fn read_text<F: DeskFiles>(files: &mut F, path: &str) -> Result<Vec<u8>, Fault>
    ensures { MatchResult result
        (λ text. F.reads files.old path.now (Ok text.items) files.new)
        (λ error. FailsToRead F.reads path.now error files.old files.new) }
{
    match files.read(path) {
        Ok(text) => Ok(text),
        Err(error) => Err(fault_of_reading(&error)),
    }
}

/// The bytes of the file that a task names; empty if it names none.
fn text_for<F: DeskFiles>(alloc: Global, files: &mut F, task: &Task<'_>) -> Result<Vec<u8>, Fault>
    ensures { MatchResult result
        (λ text. HasText F.reads task.now text.items files.old files.new)
        (λ error. LacksText F.reads task.now error files.old files.new) }
{
    match task {
        Task::Travel { csv, .. } => read_text(files, csv),
        Task::Audit { log, .. } => read_text(files, log),
        _ => Ok(Vec::new(alloc)),
    }
}

/// Does a task with a desk at this moment, as the caller with this key, and leaves it.
fn do_and_leave<S: Alter + Drop, F: DeskFiles<Connected = Connection<S>>, W: Write>(
    alloc: Global,
    files: &mut F,
    keeper: SqlKeeper<S>,
    now: Moment,
    key: &str,
    task: &Task<'_>,
    text: Vec<u8>,
    out: &mut W,
) -> Result<Ending, Fault>
    ensures { DoesAndLeaves F.leaves
        (DoesAsked S.Store key.now now task.now text.items (W.contents out.old) (W.contents out.new) result)
        keeper files.old files.new }
{
    let mut keeper = keeper;
    let ended = do_task(
        alloc,
        &mut keeper,
        now,
        key.as_bytes(),
        task,
        text.as_slice(),
        out,
    );
    files.leave(keeper.release());
    ended
}

/// The same with the database of a connection, which must be a desk's, in a sound state.
fn ask_desk<S: Alter + Drop, F: DeskFiles<Connected = Connection<S>>, W: Write>(
    alloc: Global,
    files: &mut F,
    conn: Connection<S>,
    now: Moment,
    key: &str,
    task: &Task<'_>,
    text: Vec<u8>,
    out: &mut W,
) -> Result<Ending, Fault>
    ensures { WithDesk S.Store F.leaves
        (DoesAsked S.Store key.now now task.now text.items (W.contents out.old) (W.contents out.new) result)
        (EndsBy (W.contents out.old) (W.contents out.new) result) conn files.old files.new }
{
    match adopt(alloc, conn) {
        Ok(keeper) => do_and_leave(alloc, files, keeper, now, key, task, text, out),
        Err((_store, refused)) => Err(fault_of_refusal(refused)),
    }
}

/// The same with the database in a file, which must exist.
fn ask_known<S: Alter + Drop, F: DeskFiles<Connected = Connection<S>>, W: Write>(
    alloc: Global,
    files: &mut F,
    file: &str,
    now: Moment,
    key: &str,
    task: &Task<'_>,
    text: Vec<u8>,
    out: &mut W,
) -> Result<Ending, Fault>
    ensures { OverDesk S.Store F.finds F.connects F.leaves file.now
        (DoesAsked S.Store key.now now task.now text.items (W.contents out.old) (W.contents out.new) result)
        (EndsBy (W.contents out.old) (W.contents out.new) result) files.old files.new }
{
    match open_known(files, file) {
        Ok(conn) => ask_desk(alloc, files, conn, now, key, task, text, out),
        Err(fault) => Err(fault),
    }
}

/// The same, where the text is that of the file that the task names. It is read before the desk's file is opened.
fn ask_at<S: Alter + Drop, F: DeskFiles<Connected = Connection<S>>, W: Write>(
    alloc: Global,
    files: &mut F,
    file: &str,
    now: Moment,
    key: &str,
    task: &Task<'_>,
    out: &mut W,
) -> Result<Ending, Fault>
    ensures { AsksAt S.Store F.reads F.finds F.connects F.leaves file.now key.now now task.now
        (W.contents out.old) (W.contents out.new) result files.old files.new }
{
    match text_for(alloc, files, task) {
        Ok(text) => ask_known(alloc, files, file, now, key, task, text, out),
        Err(fault) => Err(fault),
    }
}

/// Does a task with the desk in a file, which must exist, at the moment that clocks of a zone show, as the caller with
/// this key.
pub fn ask_file<T: TellsTime, S: Alter + Drop, F: DeskFiles<Connected = Connection<S>>, W: Write>(
    clock: &T,
    alloc: Global,
    files: &mut F,
    file: &str,
    zone: &str,
    key: &str,
    task: &Task<'_>,
    out: &mut W,
) -> Result<Ending, Fault>
    ensures { AsksFile S.Store T.unread T.shows F.reads F.finds F.connects F.leaves file.now zone.now key.now task.now
        (W.contents out.old) (W.contents out.new) result files.old files.new }
{
    match moment_at(clock, zone) {
        Ok(now) => ask_at(alloc, files, file, now, key, task, out),
        Err(fault) => Err(fault),
    }
}
