ghost use Rattle.std.specs.Prelude.{◌≡◌, ◌≤◌, ◌++◌, false, true, length, codes, decimal, IfOk, OnErr};
ghost use Rattle.pt_http_reply.specs.Body.{denial_body, fault_body, IsBody};
ghost use Rattle.pt_http_reply.specs.Reply.{bytes_in, IsShort, IsFixed, is_told};

use crate::standing::{standing_body, visitor_body};
use crate::trips::{confirmation_body, trips_body};
use crate::{ReplyBuffer, Response};
use itoa::Buffer;
use pt_base_values::Fault;
use pt_desk_requests::Answer;
use pt_desk_store::StoreFault;
use pt_http_request::RequestFault;
use pt_manifest::{day_sheet, decision_letter, manifest, trips_csv};
use std::alloc::Global;

/// The body of a reply.
#[derive(Drop)]
pub(crate) enum Body {
    /// In a fixed buffer.
    Fixed(ReplyBuffer),
    /// The answer to a read, of any length.
    Grown(Vec<u8>),
}

/// The body of the reply. The error is out of memory for the answer to a read.
pub(crate) fn body_of(alloc: Global, response: &Response) -> Result<Body, Fault>
    ensures text { IfOk result (λ body. IsBody response.now (bytes_in body)) }
    ensures short { IfOk result IsShort }
    ensures fixed { is_told response.now ≡ false → IfOk result IsFixed }
    ensures memory { OnErr result (is_told response.now ≡ true) }
{
    match response {
        Response::Answered(Ok(Answer::Done)) => Ok(Body::Fixed(ReplyBuffer::of(
            b"{\"done\":true}",
        ))),
        Response::Answered(Ok(Answer::Entered(position))) => Ok(Body::Fixed(entered_body(
            *position,
        ))),
        Response::Answered(
            Ok(
                Answer::Standing {
                    standing,
                    suspended,
                },
            ),
        ) => Ok(Body::Grown(standing_body(alloc, standing, *suspended)?)),
        Response::Answered(Ok(Answer::Visitor { may_use })) => {
            Ok(Body::Grown(visitor_body(alloc, *may_use)?))
        }
        Response::Answered(Ok(Answer::Booked(told))) => Ok(Body::Fixed(confirmation_body(told))),
        Response::Answered(Ok(Answer::Possible)) => Ok(Body::Fixed(ReplyBuffer::of(
            b"{\"possible\":true}",
        ))),
        Response::Answered(Ok(Answer::Trips(trips))) => {
            Ok(Body::Grown(trips_body(alloc, trips)?))
        }
        Response::Answered(Ok(Answer::Letter(letter))) => {
            Ok(Body::Grown(decision_letter(alloc, letter)?))
        }
        Response::Answered(Ok(Answer::Manifest { day, sheet })) => {
            Ok(Body::Grown(manifest(alloc, *day, sheet)?))
        }
        Response::Answered(Ok(Answer::DaySheet(sheet))) => {
            Ok(Body::Grown(day_sheet(alloc, sheet)?))
        }
        Response::Answered(Ok(Answer::Export(trips))) => {
            Ok(Body::Grown(trips_csv(alloc, trips.as_slice())?))
        }
        Response::Answered(Ok(Answer::Denied(rule))) => Ok(Body::Fixed(denial_body(rule.name()))),
        Response::Answered(Err(StoreFault::Memory)) => Ok(Body::Fixed(denial_body("desk.memory"))),
        Response::Answered(Err(StoreFault::Store)) => Ok(Body::Fixed(denial_body("desk.store"))),
        Response::Refused(fault) => Ok(Body::Fixed(fault_body(*fault))),
    }
}

/// The body with the position of a new entry.
fn entered_body(position: u32) -> ReplyBuffer
    ensures text { result ≡ codes "{\"entered\":" ++ decimal position ++ codes "}" }
    ensures short { length result ≤ 22 }
{
    let mut body = ReplyBuffer::of(b"{\"entered\":");
    body.push(Buffer::new().format(position).as_bytes());
    body.push(b"}");
    body
}

/// The body of a denial with this name.
pub(crate) fn denial_body(name: &str) -> ReplyBuffer
    requires { length name.now ≤ 20 }
    ensures text { result ≡ denial_body name.now }
    ensures short { length result ≤ 33 }
{
    let mut body = ReplyBuffer::of(b"{\"denied\":\"");
    body.push(name.as_bytes());
    body.push(b"\"}");
    body
}

/// The body for a fault in the request.
fn fault_body(fault: RequestFault) -> ReplyBuffer
    ensures text { result ≡ fault_body fault }
    ensures short { length result ≤ 50 }
{
    let RequestFault::Field(name) = fault else {
        return denial_body(fault.name());
    };
    let mut body = ReplyBuffer::of(b"{\"denied\":\"http.field\",\"field\":\"");
    body.push(name.text().as_bytes());
    body.push(b"\"}");
    body
}
