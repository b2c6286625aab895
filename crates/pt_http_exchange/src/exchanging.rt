ghost use Rattle.std.specs.Prelude.{◌≡◌, ◌⊎◌, IfErr, OnOk, Option};
ghost use Rattle.std.specs.Io.KnownBytes.{Appends};
ghost use Rattle.pt_base_values.specs.declared.fault.Cause.TheVariants as cause;
ghost use Rattle.pt_base_values.specs.Fault.{fault};
ghost use Rattle.pt_desk_store.specs.Store.{Store};
ghost use Rattle.pt_http_exchange.specs.Answering.{AnswersOne, CanBeAskedAgain, ExchangesOne, GoesOn};
ghost use Rattle.pt_http_exchange.specs.Exchange.{IsExchangedOver, KeepsFound, desk_of};
ghost use Rattle.pt_http_exchange.specs.Input.{HasInput};
ghost use Rattle.pt_desk.specs.State.{State};
ghost use Rattle.pt_http_exchange.specs.Received.{CommitsReceived, Responds};
ghost use Rattle.pt_http_reply.specs.Reply.{IsSent, bytes_of};
ghost use Rattle.pt_http_reply.specs.declared.response.Response.{Response};
ghost use Rattle.pt_http_request.specs.Targets.{desk_routes};

use crate::received::{Received, receive};
use matchit::Router;
use pt_base_values::{Cause, Fault, Moment, Rule};
use pt_desk::answer;
use pt_desk_requests::Answer;
use pt_desk_store::Keeper;
use pt_http_inbox::Inbox;
use pt_http_reply::{ReplyBytes, Response, reply_to};
use pt_http_request::{Path, desk_router};
use std::alloc::Global;
use std::io::{Read, Write};

/// The desk's response to what was received.
fn respond<K: Keeper>(alloc: Global, keeper: &mut K, now: Moment, received: &Received) -> Response
    ensures responds { (K.store keeper.new).doubt ≡ 0
        → Responds now received.now (desk_of (K.store keeper.old))
        (desk_of (K.store keeper.new)) result }
    ensures crash { (K.store keeper.new).doubt ≡ 0 → (o : Option State) → (K.store keeper.new).found o
        → (K.store keeper.old).found o ⊎ CommitsReceived now received.now (K.store keeper.old).content o }
    ensures keeps { (K.store keeper.new).doubt ≡ 0 → (sent : Response) → IsSent result sent
        → KeepsFound sent (K.store keeper.old) (K.store keeper.new) }
    ensures goes { GoesOn (K.store keeper.old) (K.store keeper.new) }
{
    match received {
        Received::Refused(fault) => Response::Refused(*fault),
        Received::Message(message) => match &message.key {
            Some(key) => {
                let number = message.number;
                Response::Answered(answer(alloc, keeper, now, key, number, &message.request))
            }
            None => Response::Answered(Ok(Answer::Denied(Rule::Key))),
        },
    }
}

/// Writes and flushes a reply. The error is a failed write.
fn write_reply<W: Write>(reply: &ReplyBytes, out: &mut W) -> Result<(), Fault>
    ensures written { OnOk result (Appends (W.contents out.old) (W.contents out.new) (bytes_of reply.now)) }
    ensures fault { IfErr result (λ error. error ≡ fault cause.WriteFailed) }
{
    if out.write_all(reply.front.as_slice()).is_err()
        || out.write_all(reply.rest.as_slice()).is_err()
        || out.flush().is_err()
    {
        return Err(Fault::of(Cause::WriteFailed));
    }
    Ok(())
}

/// Reads one request, answers it by these routes, writes the reply and returns it. Errors are those of `answer_bytes`.
pub fn exchange<K: Keeper, R: Read + Drop, W: Write>(
    alloc: Global,
    router: &Router<Path>,
    keeper: &mut K,
    now: Moment,
    inbox: &mut Inbox<R>,
    out: &mut W,
) -> Result<Response, Fault>
    requires { router.now ≡ desk_routes }
    ensures exchange { ExchangesOne R.remaining inbox.old inbox.new (K.store keeper.old) (K.store keeper.new) now
        (W.contents out.old) (W.contents out.new) ((keeper.new ≡ keeper.old) × (out.new ≡ out.old)) result }
    ensures again { CanBeAskedAgain R.remaining inbox.old inbox.new result }
{
    let received = receive(alloc, router, inbox)?;
    let response = respond(alloc, keeper, now, &received);
    let (response, reply) = reply_to(alloc, response);
    write_reply(&reply, out)?;
    Ok(response)
}

/// Reads one request, answers it by the rules as of this moment, and writes the reply.
///
/// Later bytes stay in the inbox. On out of memory, a failed read or too many reads, nothing changes, and the same
/// bytes can be asked again. On a failed write, the request is answered all the same.
pub fn answer_bytes<K: Keeper, R: Read + Drop, W: Write>(
    alloc: Global,
    keeper: &mut K,
    now: Moment,
    inbox: &mut Inbox<R>,
    out: &mut W,
) -> Result<(), Fault>
    ensures answers { AnswersOne (HasInput R.remaining inbox.old)
        (λ input. IsExchangedOver R.remaining (K.store keeper.old) (K.store keeper.new) now input inbox.new)
        (K.store keeper.old) (K.store keeper.new) now (W.contents out.old) (W.contents out.new)
        ((keeper.new ≡ keeper.old) × (out.new ≡ out.old)) result }
    ensures again { CanBeAskedAgain R.remaining inbox.old inbox.new result }
{
    let Ok(router) = desk_router(alloc) else {
        return Err(Fault::of(Cause::Memory));
    };
    exchange(alloc, &router, keeper, now, inbox, out)?;
    Ok(())
}
