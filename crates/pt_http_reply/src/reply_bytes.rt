ghost use Rattle.std.specs.Prelude.{◌≡◌, ◌≤◌, ◌++◌, ℕ, List, [], false, length};
ghost use Rattle.pt_http_reply.specs.Reply.{bytes_in, bytes_of, IsShort, IsFixed, IsSent, is_told};
ghost use Rattle.pt_http_reply.specs.Response.{IsReplyText, head_text};

use crate::body::{Body, body_of, denial_body};
use crate::response::write_head;
use crate::{ReplyBuffer, Response};
use pt_desk_store::StoreFault;
use std::alloc::Global;

/// A reply in bytes, complete before any of them is written.
#[derive(Drop)]
pub struct ReplyBytes {
    /// The head, and the body if it is in a fixed buffer.
    pub front: ReplyBuffer,
    /// The answer to a read, of any length.
    pub rest: Vec<u8>,
}

/// The bytes of the reply, and the response in them. It is the given one; or, if there is no memory for the answer to a
/// read, the one that says so.
pub fn reply_to(alloc: Global, response: Response) -> (Response, ReplyBytes)
    ensures text { IsReplyText result.0 (bytes_of result.1) }
    // No other bytes are this reply.
    ensures only { (bytes : List ℕ) → IsReplyText result.0 bytes → bytes_of result.1 ≡ bytes }
    ensures sent { IsSent response result.0 }
    // The reply to a write, and a denial, allocate nothing.
    ensures fixed { is_told response ≡ false → result.1.rest.items ≡ [] }
{
    match body_of(alloc, &response) {
        Ok(body) => {
            let reply = with_head(alloc, &response, body);
            (response, reply)
        }
        Err(_) => {
            let wanting = Response::Answered(Err(StoreFault::Memory));
            let body = Body::Fixed(denial_body("desk.memory"));
            let reply = with_head(alloc, &wanting, body);
            (wanting, reply)
        }
    }
}

/// The body after its head.
fn with_head(alloc: Global, response: &Response, body: Body) -> ReplyBytes
    requires { IsShort body }
    ensures text { bytes_of result ≡ head_text response.now (length (bytes_in body)) ++ bytes_in body }
    ensures fixed { IsFixed body → result.rest.items ≡ [] }
{
    let mut front = ReplyBuffer::new();
    match body {
        Body::Fixed(text) => {
            write_head(response, text.as_slice().len(), &mut front);
            front.push(text.as_slice());
            let rest = Vec::new(alloc);
            ReplyBytes { front, rest }
        }
        Body::Grown(rest) => {
            write_head(response, rest.len(), &mut front);
            ReplyBytes { front, rest }
        }
    }
}
