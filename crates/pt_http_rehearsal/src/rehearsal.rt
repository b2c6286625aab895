ghost use Rattle.std.specs.Prelude.{◌≡◌, ◌≢◌, ◌⊎◌, ℕ, ◌≤◌, List, length, Err, IfOk, IfErr, OnOk};
ghost use Rattle.std.specs.Io.KnownBytes.{Appends};
ghost use Rattle.pt_base_values.specs.Fault.{fault};
ghost use Rattle.pt_base_values.specs.declared.fault.Cause.TheVariants as cause;
ghost use Rattle.pt_http_inbox.specs.Inbox.{reads_of};
ghost use Rattle.pt_http_exchange.specs.Answering.{GoesOn};
ghost use Rattle.pt_http_exchange.specs.Exchange.{Desk, desk_of, IsUnanswered, is_last};
ghost use Rattle.pt_desk_store.specs.Store.{Store};
ghost use Rattle.pt_http_exchange.specs.Input.{HasInput};
ghost use Rattle.pt_http_rehearsal.specs.Moments.{IsNext};
ghost use Rattle.pt_http_request.specs.Targets.{desk_routes};
ghost use Rattle.pt_http_rehearsal.specs.Rehearsal.{most_messages, Exchanged, Rehearses, IsFinished, HasBadLine};
ghost use Rattle.pt_http_rehearsal.specs.Rehearsal.{IsRehearsalFault, ServesSome};

use crate::moment::{LONGEST_MOMENT_LINE, moment_at};
use matchit::Router;
use pt_base_values::{Cause, Fault, Moment};
use pt_desk_store::Keeper;
use pt_http_exchange::exchange;
use pt_http_inbox::Inbox;
use pt_http_reply::Response;
use pt_http_request::{Path, RequestFault, desk_router};
use std::alloc::Global;
use std::io::{Read, Write};

/// The most messages of a rehearsal.
pub const MOST_MESSAGES: u32 = 100_000;

/// The moment before the next message; `None` at the end of the input.
fn next_moment<R: Read + Drop>(inbox: &mut Inbox<R>) -> Result<Option<Moment>, Fault>
    ensures next { (input : List ℕ) → HasInput R.remaining inbox.old input
        → IfOk result (IsNext R.remaining inbox.new input) }
    ensures line { (input : List ℕ) → HasInput R.remaining inbox.old input
        → result ≡ Err (fault cause.MomentLine) → HasBadLine input }
    // The reads of the line count with those of its message.
    ensures counted { reads_of inbox.old ≤ reads_of inbox.new }
    ensures fault { IfErr result (λ error. (error ≡ fault cause.ReadFailed) ⊎ (error ≡ fault cause.MomentLine)) }
{
    if !inbox.read_up_to(1)? {
        return Ok(None);
    }
    inbox.read_up_to(LONGEST_MOMENT_LINE)?;
    let Some(line) = moment_at(inbox.buffer()) else {
        return Err(Fault::of(Cause::MomentLine));
    };
    inbox.consume(line.end);
    Ok(Some(line.moment))
}

/// Whether a rehearsal ends with this reply.
fn is_last(response: &Response) -> bool
    ensures { result ≡ is_last response.now }
{
    matches!(
        response,
        Response::Refused(RequestFault::Head | RequestFault::Length)
    )
}

/// Answers messages in turn by these routes.
fn go_through<K: Keeper, R: Read + Drop, W: Write>(
    alloc: Global,
    router: &Router<Path>,
    keeper: &mut K,
    inbox: &mut Inbox<R>,
    out: &mut W,
) -> Result<(), Fault>
    requires { router.now ≡ desk_routes }
    ensures finished { (K.store keeper.new).doubt ≡ 0
        → (input : List ℕ) → HasInput R.remaining inbox.old input
        → OnOk result ((messages : List Exchanged) × (written : List ℕ) × (rest : List ℕ)
        × Rehearses messages input (desk_of (K.store keeper.old)) written rest (desk_of (K.store keeper.new))
        × Appends (W.contents out.old) (W.contents out.new) written × IsFinished messages rest
        × (length messages ≤ most_messages)) }
    // On an error the desk is in the state after the last answered message, whose reply may not be wholly written.
    ensures stopped { (K.store keeper.new).doubt ≡ 0
        → (input : List ℕ) → HasInput R.remaining inbox.old input
        → IfErr result (λ error. (messages : List Exchanged) × (written : List ℕ) × (rest : List ℕ)
        × Rehearses messages input (desk_of (K.store keeper.old)) written rest (desk_of (K.store keeper.new))
        × (error ≢ fault cause.WriteFailed → Appends (W.contents out.old) (W.contents out.new) written)
        × (error ≡ fault cause.MomentLine → HasBadLine rest)
        × (length messages ≤ most_messages)) }
    // This holds whatever the reader gives, also if its bytes are not known.
    ensures served { (K.store keeper.new).doubt ≡ 0
        → ServesSome (desk_of (K.store keeper.old)) (desk_of (K.store keeper.new)) (W.contents out.old)
        (W.contents out.new) result }
    ensures fault { IfErr result IsRehearsalFault }
    ensures goes { GoesOn (K.store keeper.old) (K.store keeper.new) }
{
    for _ in 0..MOST_MESSAGES {
        let Some(now) = next_moment(inbox)? else {
            return Ok(());
        };
        let response = exchange(alloc, router, keeper, now, inbox, out)?;
        if is_last(&response) {
            return Ok(());
        }
    }
    if inbox.read_up_to(1)? {
        return Err(Fault::of(Cause::ReadFailed));
    }
    Ok(())
}

/// Answers messages in turn, each at the moment in the line before it, until the input ends.
///
/// It also ends after the reply to a bad head or a bad length. The error is out of memory, a failed read or write, too
/// many reads or messages, or a line without a moment.
pub fn rehearse<K: Keeper, R: Read + Drop, W: Write>(
    alloc: Global,
    keeper: &mut K,
    inbox: &mut Inbox<R>,
    out: &mut W,
) -> Result<(), Fault>
    ensures finished { (K.store keeper.new).doubt ≡ 0
        → (input : List ℕ) → HasInput R.remaining inbox.old input
        → OnOk result ((messages : List Exchanged) × (written : List ℕ) × (rest : List ℕ)
        × Rehearses messages input (desk_of (K.store keeper.old)) written rest (desk_of (K.store keeper.new))
        × Appends (W.contents out.old) (W.contents out.new) written × IsFinished messages rest
        × (length messages ≤ most_messages)) }
    // On an error the desk is in the state after the last answered message, whose reply may not be wholly written.
    ensures stopped { (K.store keeper.new).doubt ≡ 0
        → (input : List ℕ) → HasInput R.remaining inbox.old input
        → IfErr result (λ error. (messages : List Exchanged) × (written : List ℕ) × (rest : List ℕ)
        × Rehearses messages input (desk_of (K.store keeper.old)) written rest (desk_of (K.store keeper.new))
        × (error ≢ fault cause.WriteFailed → Appends (W.contents out.old) (W.contents out.new) written)
        × (error ≡ fault cause.MomentLine → HasBadLine rest)
        × (length messages ≤ most_messages)) }
    // This holds whatever the reader gives, also if its bytes are not known.
    ensures served { (K.store keeper.new).doubt ≡ 0
        → ServesSome (desk_of (K.store keeper.old)) (desk_of (K.store keeper.new)) (W.contents out.old)
        (W.contents out.new) result }
    ensures fault { IfErr result IsRehearsalFault }
    ensures goes { GoesOn (K.store keeper.old) (K.store keeper.new) }
{
    let Ok(router) = desk_router(alloc) else {
        return Err(Fault::of(Cause::Memory));
    };
    go_through(alloc, &router, keeper, inbox, out)
}
