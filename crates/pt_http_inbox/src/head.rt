ghost use Rattle.std.specs.Prelude.{◌≡◌, take};
ghost use Rattle.pt_http_inbox.specs.Looked.{Says};

use arrayvec::ArrayVec;
use httparse::Status;
use httparse::spans::{EMPTY_HEADER_SPAN, HeaderSpan, RequestSpans, Span, parse_request};

/// The most bytes of a head, including its empty line.
pub const LONGEST_HEAD: usize = 8_192;

/// The most header lines of a head.
pub const MOST_FIELDS: usize = 64;

/// Where the parts of a head are in its bytes.
#[derive(Drop)]
pub struct Head {
    pub method: Span,
    pub target: Span,
    /// The names and values of its header lines.
    pub lines: ArrayVec<HeaderSpan, MOST_FIELDS>,
    /// The number of its bytes, including its empty line.
    pub length: usize,
}

impl Head {
    /// The head of these spans. Its lines are the first `spans.headers` of `headers`.
    fn of(spans: RequestSpans, headers: [HeaderSpan; MOST_FIELDS]) -> Self
        ensures method { result.method ≡ spans.method }
        ensures target { result.target ≡ spans.path }
        ensures lines { result.lines.items ≡ take spans.headers headers }
        ensures length { result.length ≡ spans.len }
    {
        let mut lines = ArrayVec::from(headers);
        lines.truncate(spans.headers);
        Head {
            method: spans.method,
            target: spans.path,
            lines,
            length: spans.len,
        }
    }
}

/// What is at the front of some bytes.
#[derive(Drop)]
pub(crate) enum Front {
    /// A head.
    Head(Head),
    /// No head yet: further bytes may complete one.
    Open,
    /// No head, whatever follows.
    Never,
}

/// Looks for a head at the front of the bytes.
pub(crate) fn front_of(bytes: &[u8]) -> Front
    ensures { Says bytes.now result }
{
    let front = &bytes[..bytes.len().min(LONGEST_HEAD)];
    let mut headers = [EMPTY_HEADER_SPAN; MOST_FIELDS];
    match parse_request(front, &mut headers) {
        Ok(Status::Complete(spans)) => Front::Head(Head::of(spans, headers)),
        Ok(Status::Partial) if bytes.len() < LONGEST_HEAD => Front::Open,
        Ok(Status::Partial) => Front::Never,
        Err(_) => Front::Never,
    }
}
