ghost use Rattle.std.specs.Prelude.{◌≡◌, ℕ, false, List, IfOk, IfErr, OnErr};
ghost use Rattle.pt_http_exchange.specs.Exchange.{IsUnanswered};
ghost use Rattle.pt_http_exchange.specs.Input.{HasInput};
ghost use Rattle.httparse.specs.Grammar.{RequestHead};
ghost use Rattle.pt_base_values.specs.Fault.{fault};
ghost use Rattle.pt_base_values.specs.declared.fault.Cause.TheVariants as cause;
ghost use Rattle.pt_http_exchange.specs.Parts.{AreParts};
ghost use Rattle.pt_http_exchange.specs.Received.{IsSpelledBy, BeginsWith, is_end};
ghost use Rattle.pt_http_inbox.specs.Inbox.{reads_of, ReadsOn};
ghost use Rattle.pt_http_request.specs.Targets.{desk_routes};

use matchit::Router;
use pt_base_values::{Cause, Fault};
use pt_http_inbox::{Head, Inbox};
use pt_http_request::{Message, MessageFault, Path, RequestFault, body_length, message_from};
use std::alloc::Global;
use std::io::Read;

/// The result of reading a request.
#[derive(Drop)]
pub(crate) enum Received {
    /// A message to answer.
    Message(Message),
    /// Bytes that are not a message.
    Refused(RequestFault),
}

/// The message or the fault in a head, whose bytes are given, and its body. The error is out of memory.
fn received_from(
    alloc: Global,
    router: &Router<Path>,
    head: &Head,
    bytes: &[u8],
    body: &[u8],
) -> Result<Received, Fault>
    requires routes { router.now ≡ desk_routes }
    requires parts { (whole : RequestHead) × AreParts bytes.now head.now whole }
    ensures spelled { (whole : RequestHead) → AreParts bytes.now head.now whole
        → IfOk result (IsSpelledBy whole body.now) }
    ensures memory { IfErr result (λ error. error ≡ fault cause.Memory) }
{
    let (method, target) = (head.method.of(bytes), head.target.of(bytes));
    match message_from(alloc, router, method, target, &head.lines, bytes, body) {
        Ok(message) => Ok(Received::Message(message)),
        Err(MessageFault::Refused(fault)) => Ok(Received::Refused(fault)),
        Err(MessageFault::Memory) => Err(Fault::of(Cause::Memory)),
    }
}

/// Reads one request and drops its bytes. After a bad head or a bad length, they stay.
///
/// The error is out of memory, a failed read, or too many reads.
pub(crate) fn receive<R: Read + Drop>(
    alloc: Global,
    router: &Router<Path>,
    inbox: &mut Inbox<R>,
) -> Result<Received, Fault>
    requires { router.now ≡ desk_routes }
    ensures received { (input : List ℕ) → HasInput R.remaining inbox.old input
        → IfOk result (λ received. (rest : List ℕ)
        × HasInput R.remaining inbox.new rest × BeginsWith input received rest) }
    ensures fresh { IfOk result (λ received. is_end received ≡ false → reads_of inbox.new ≡ 0) }
    ensures still_there { IfErr result (λ error. (input : List ℕ) → HasInput R.remaining inbox.old input
        → HasInput R.remaining inbox.new input) }
    ensures still_held { OnErr result (ReadsOn R.remaining inbox.old inbox.new) }
    ensures fault { IfErr result IsUnanswered }
{
    let Some(head) = inbox.read_head()? else {
        return Ok(Received::Refused(RequestFault::Head));
    };
    let Some(length) = body_length(&head.lines, &inbox.buffer()[..head.length]) else {
        return Ok(Received::Refused(RequestFault::Length));
    };
    let end = head.length + length as usize;
    if !inbox.read_up_to(end)? {
        return Ok(Received::Refused(RequestFault::Length));
    }
    let buffer = inbox.buffer();
    let (front, body) = (&buffer[..head.length], &buffer[head.length..end]);
    let received = received_from(alloc, router, &head, front, body)?;
    inbox.finish_request(end);
    Ok(received)
}
