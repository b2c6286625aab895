ghost use Rattle.std.specs.Prelude.{◌≡◌, ◌+◌, Bool, true, IfSome, ⊤};
ghost use Rattle.std.specs.Time.{instant_nanos};
ghost use Rattle.pt_app_serve.specs.Closing.{IsSeenOff};

use crate::bounded::{Bounded, Waits};
use std::io;
use std::io::{ErrorKind, Read};
use std::net::{Shutdown, TcpStream};
use std::time::{Clock, Duration, Instant};

/// How many seconds a client is still read from at most, once its reply is written.
pub const LONGEST_CLOSING: u64 = 1;

/// How many bytes of it are read then at most, and dropped.
pub const MOST_DROPPED: u64 = 65_536;

/// The moment from which a client is no longer read from whose reply was written at this one. There is none past the
/// last moment of a clock.
fn closing_from(written: Instant) -> Option<Instant>
    // One second.
    ensures closing { IfSome result (λ ends. instant_nanos ends
        ≡ instant_nanos written + 1_000_000_000) }
{
    written.checked_add(Duration::from_secs(LONGEST_CLOSING))
}

/// Reads what a client still sends, and drops it, until it sends no more: for `LONGEST_CLOSING` seconds at most, and
/// `MOST_DROPPED` bytes. It tells how many bytes came.
///
/// The error is a read that failed or came too late, or a clock that could not be read.
pub fn drop_rest<C: Clock, S: Read + Waits + Drop>(clock: &C, stream: S) -> io::Result<u64> {
    let Some(ends) = closing_from(Instant::now(clock)?) else {
        return Err(ErrorKind::InvalidData.into());
    };
    let bounded = Bounded {
        stream,
        clock,
        ends,
    };
    io::copy(&mut bounded.take(MOST_DROPPED), &mut io::sink())
}

/// A stream whose client can be seen off.
///
/// Only calls give `ends` and `drops`. Code that is proved over every stream cannot make them up.
pub trait SeesOff {
    /// The stream was asked to send no more, and this says whether it could do so.
    ghost ends: { Self → Bool → Type 0 };

    /// What its client still sends was read, and dropped.
    ghost drops: { Self → Type 0 };

    /// Sends no more, which its client sees. It says whether the stream could do so.
    fn end_sending(&self) -> bool
        ensures { ends self.now result };

    /// Reads what the client still sends, and drops it, as `drop_rest` does.
    fn drop_what_comes<C: Clock>(&self, clock: &C)
        requires { ends self.now true }
        ensures { drops self.now };
}

/// The kit states nothing of what a socket does.
impl SeesOff for TcpStream {
    ghost ends = { λ _ _. ⊤ };

    ghost drops = { λ _. ⊤ };

    fn end_sending(&self) -> bool {
        self.shutdown(Shutdown::Write).is_ok()
    }

    fn drop_what_comes<C: Clock>(&self, clock: &C) {
        let _dropped = drop_rest(clock, self);
    }
}

/// Has a client see that its reply is whole, and drops what it still sends. A connection that is closed while bytes of it
/// are unread breaks, and then its client can lose the reply.
fn see_off<C: Clock, S: SeesOff>(clock: &C, stream: &S)
    ensures { IsSeenOff S.ends S.drops stream.now }
{
    if stream.end_sending() {
        stream.drop_what_comes(clock);
    }
}

/// How a connection was left. Only this file makes one.
#[derive(Clone, Copy)]
pub struct Parting {
    is_whole: bool,
}

impl Parting {
    /// Leaves a connection whose request was answered, and the whole reply written or not. A client that got its whole
    /// reply and sent more is read from for a while, so that it can read it.
    pub(crate) fn of<C: Clock, S: SeesOff + Drop>(clock: &C, stream: S, is_whole: bool) -> Parting
        ensures whole { result.is_whole ≡ is_whole }
        ensures seen_off { is_whole ≡ true → IsSeenOff S.ends S.drops stream }
    {
        if is_whole {
            see_off(clock, &stream);
        }
        Parting { is_whole }
    }
}
