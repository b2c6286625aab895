ghost use Rattle.std.specs.Prelude.{◌≡◌, MatchResult};
ghost use Rattle.pt_app_commands.specs.Status.{is_of_store, refusal_ending, status_of};
ghost use Rattle.pt_app_commands.specs.declared.ending.Ending.TheVariants.{Failed};

use clap::error::ErrorKind;
use pt_base_values::{Cause, Fault};

/// How the program ends.
#[derive(Clone, Copy)]
pub enum Ending {
    /// It did what the words ask for.
    Done,
    /// The words name no task.
    WrongWords,
    /// The desk denied the request, and standard output has the name of the rule.
    Denied,
    /// Out of memory, or a fault of the store, of the input or of the output.
    Failed(Fault),
}

/// The ending of a task, which may have failed.
pub fn ending_of_task(done: Result<Ending, Fault>) -> Ending
    ensures { MatchResult done (λ ending. result ≡ ending) (λ error. result ≡ Failed error) }
{
    match done {
        Ok(ending) => ending,
        Err(fault) => Ending::Failed(fault),
    }
}

/// The ending for words that are refused for this reason. `is_shown` says whether the text for the user was written.
pub fn ending_of_refusal(reason: ErrorKind, is_shown: bool) -> Ending
    ensures { result ≡ refusal_ending reason is_shown }
{
    match reason {
        ErrorKind::OutOfMemory => Ending::Failed(Fault::of(Cause::Memory)),
        ErrorKind::DisplayHelp | ErrorKind::DisplayVersion if is_shown => Ending::Done,
        ErrorKind::DisplayHelp | ErrorKind::DisplayVersion => {
            Ending::Failed(Fault::of(Cause::WriteFailed))
        }
        _ => Ending::WrongWords,
    }
}

/// Whether this is the code of out of memory or of a fault of the store.
fn is_of_store(code: u16) -> bool
    ensures { result ≡ is_of_store code }
{
    code == Cause::Memory.code()
        || code == Cause::OtherTables.code()
        || code == Cause::UnsoundRows.code()
        || code == Cause::StoreFailed.code()
}

/// The exit status of an ending.
pub fn exit_status(ending: Ending) -> u8
    ensures { result ≡ status_of ending }
{
    match ending {
        Ending::Done => 0,
        Ending::Denied => 1,
        Ending::WrongWords => 2,
        Ending::Failed(fault) if is_of_store(fault.code) => 3,
        Ending::Failed(_) => 4,
    }
}
