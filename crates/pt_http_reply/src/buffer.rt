ghost use Rattle.std.specs.Prelude.{◌≡◌, ◌≤◌, ◌+◌, ◌++◌, [], length};
ghost use Rattle.pt_http_reply.specs.declared.buffer.TheConstants.{LONGEST_REPLY};

use arrayvec::ArrayVec;
use std::marker::Model;

/// The most bytes of a reply in a fixed buffer.
pub const LONGEST_REPLY: usize = 512;

/// A reply or a part of one in a fixed buffer. It allocates nothing.
#[derive(Drop)]
pub struct ReplyBuffer {
    bytes: ArrayVec<u8, LONGEST_REPLY>,
}

impl Model for ReplyBuffer {
    ghost use Rattle.std.specs.Prelude.{ℕ, List};

    ghost Value = { List ℕ };

    ghost view = { λ buffer. buffer.bytes.items };
}

impl ReplyBuffer {
    /// An empty buffer.
    pub fn new() -> Self
        ensures { result ≡ [] }
    {
        ReplyBuffer {
            bytes: ArrayVec::new(),
        }
    }

    /// The bytes.
    pub fn as_slice(&self) -> &[u8]
        ensures value { result.now ≡ self.now }
        ensures within { length result.now ≤ LONGEST_REPLY }
    {
        self.bytes.as_slice()
    }

    /// A buffer with these bytes.
    pub(crate) fn of(text: &[u8]) -> Self
        requires { length text.now ≤ LONGEST_REPLY }
        ensures { result ≡ text.now }
    {
        let mut buffer = ReplyBuffer::new();
        buffer.push(text);
        buffer
    }

    /// Adds bytes at the end.
    pub(crate) fn push(&mut self, text: &[u8])
        requires { length self.old + length text.now ≤ LONGEST_REPLY }
        ensures { self.new ≡ self.old ++ text.now }
    {
        let _fits = self.bytes.try_extend_from_slice(text);
    }
}
