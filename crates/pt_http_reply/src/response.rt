ghost use Rattle.std.specs.Prelude.{◌≡◌, ◌≤◌, ◌+◌, ◌++◌, [], length, codes, decimal, unwrap_or};
ghost use Rattle.http.specs.StatusCode.{reason_phrase, status_text};
ghost use Rattle.pt_http_reply.specs.ContentType.{type_text};
ghost use Rattle.pt_http_reply.specs.Response.{status_of, type_of, line, own_lines, head_text};

use crate::status::status_of_rule;
use crate::{ContentType, ReplyBuffer};
use http::StatusCode;
use itoa::Buffer;
use pt_base_values::Rule;
use pt_desk_requests::Answer;
use pt_desk_store::Reply;
use pt_http_request::RequestFault;

/// The reply to the bytes of a request.
#[derive(Drop)]
pub enum Response {
    /// They were a request, and this is the desk's answer.
    Answered(Reply),
    /// They were not a request.
    Refused(RequestFault),
}

impl Response {
    /// The status of the reply.
    pub fn status(&self) -> StatusCode
        ensures { result ≡ status_of self.now }
    {
        match self {
            Response::Answered(Ok(Answer::Denied(rule))) => status_of_rule(*rule),
            Response::Answered(Ok(_)) => StatusCode::OK,
            Response::Answered(Err(_)) => StatusCode::SERVICE_UNAVAILABLE,
            Response::Refused(fault) => fault.status(),
        }
    }

    /// The format of the reply's body.
    pub fn content_type(&self) -> ContentType
        ensures { result ≡ type_of self.now }
    {
        match self {
            Response::Answered(
                Ok(Answer::Letter(_) | Answer::Manifest { .. } | Answer::DaySheet(_)),
            ) => ContentType::Text,
            Response::Answered(Ok(Answer::Export(_))) => ContentType::Csv,
            _ => ContentType::Json,
        }
    }
}

/// Writes the lines of the head before a body of this length.
pub(crate) fn write_head(response: &Response, body_length: usize, out: &mut ReplyBuffer)
    requires { out.old ≡ [] }
    ensures text { out.new ≡ head_text response.now body_length }
    ensures short { length out.new ≤ 250 }
{
    write_status_line(response.status(), out);
    write_type_line(response.content_type(), out);
    write_length_line(body_length, out);
    write_own_lines(response, out);
    out.push(b"Connection: close\r\n");
    out.push(b"\r\n");
}

/// Adds the first line of a reply.
fn write_status_line(status: StatusCode, out: &mut ReplyBuffer)
    requires room { length out.old ≤ 400 }
    requires short { length (unwrap_or (reason_phrase status) (codes "<unknown status code>")) ≤ 31 }
    ensures text { out.new ≡ out.old ++ line (codes "HTTP/1.1 " ++ status_text status) }
    ensures short { length out.new ≤ length out.old + 83 }
{
    out.push(b"HTTP/1.1 ");
    out.push(Buffer::new().format(status.as_u16()).as_bytes());
    out.push(b" ");
    out.push(
        status
            .canonical_reason()
            .unwrap_or("<unknown status code>")
            .as_bytes(),
    );
    out.push(b"\r\n");
}

/// Adds the line with the format of the body.
fn write_type_line(content_type: ContentType, out: &mut ReplyBuffer)
    requires { length out.old ≤ 400 }
    ensures text { out.new ≡ out.old ++ line (codes "Content-Type: " ++ type_text content_type) }
    ensures short { length out.new ≤ length out.old + 32 }
{
    out.push(b"Content-Type: ");
    out.push(content_type.text().as_bytes());
    out.push(b"\r\n");
}

/// Adds the line with the length of the body.
fn write_length_line(body_length: usize, out: &mut ReplyBuffer)
    requires { length out.old ≤ 400 }
    ensures text { out.new ≡ out.old ++ line (codes "Content-Length: " ++ decimal body_length) }
    ensures short { length out.new ≤ length out.old + 58 }
{
    out.push(b"Content-Length: ");
    out.push(Buffer::new().format(body_length).as_bytes());
    out.push(b"\r\n");
}

/// Adds the lines that only some replies have.
fn write_own_lines(response: &Response, out: &mut ReplyBuffer)
    requires { length out.old ≤ 400 }
    ensures text { out.new ≡ out.old ++ own_lines response.now }
    ensures short { length out.new ≤ length out.old + 28 }
{
    match response {
        Response::Answered(Ok(Answer::Denied(Rule::Key))) => {
            out.push(b"WWW-Authenticate: Desk-Key\r\n");
        }
        Response::Refused(RequestFault::Method(allowed)) => {
            out.push(b"Allow: ");
            out.push(allowed.name().as_bytes());
            out.push(b"\r\n");
        }
        _ => {}
    }
}
