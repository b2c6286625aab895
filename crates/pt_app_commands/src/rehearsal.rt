ghost use Rattle.pt_app_commands.specs.Rehearsal.{RehearsesWith};

use pt_base_values::Fault;
use pt_desk_store::ListKeeper;
use pt_http_inbox::Inbox;
use pt_http_rehearsal::rehearse;
use std::alloc::Global;
use std::io::{Read, Write};

/// Answers the messages of the input in turn, on a new desk in memory whose admin has the key.
///
/// The error is out of memory, or the fault that ended the rehearsal before the end of its input.
pub fn rehearse_with_key<R: Read + Drop, W: Write>(
    alloc: Global,
    key: &[u8],
    input: R,
    out: &mut W,
) -> Result<(), Fault>
    ensures rehearses { RehearsesWith key.now (R.remaining input) (W.contents out.old) (W.contents out.new) result }
{
    let mut keeper = ListKeeper::new(alloc, key)?;
    let mut inbox = Inbox::new(alloc, input)?;
    rehearse(alloc, &mut keeper, &mut inbox, out)
}
