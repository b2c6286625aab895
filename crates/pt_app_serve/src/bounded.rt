ghost use Rattle.std.specs.Prelude.{◌≡◌, ◌+◌, ◌-◌, ◌<◌, ◌≤◌, ◌↔◌, IfOk, IfSome, IsNone, min};
ghost use Rattle.std.specs.Duration.{as_nanos};
ghost use Rattle.std.specs.Time.{instant_nanos};

use std::io;
use std::io::{ErrorKind, Read, Write};
use std::net::TcpStream;
use std::time::{Clock, Duration, Instant};

/// How many seconds one read or one write waits for a client at most.
pub const LONGEST_WAIT: u64 = 10;

/// How many seconds after its beginning a connection is read from at most.
pub const LONGEST_READING: u64 = 15;

/// How many seconds after its beginning a connection is written to at most.
pub const LONGEST_SERVING: u64 = 30;

/// A stream that waits for its peer no longer than it is told.
pub trait Waits {
    /// From here on reads wait this long at most, which is not zero.
    fn wait_to_read(&self, longest: Duration) -> io::Result<()>;

    /// From here on writes wait this long at most, which is not zero.
    fn wait_to_write(&self, longest: Duration) -> io::Result<()>;
}

impl Waits for &TcpStream {
    fn wait_to_read(&self, longest: Duration) -> io::Result<()> {
        self.set_read_timeout(Some(longest))
    }

    fn wait_to_write(&self, longest: Duration) -> io::Result<()> {
        self.set_write_timeout(Some(longest))
    }
}

/// A stream whose reads and writes each wait so long at most, and fail once a moment has come, whatever its peer does.
#[derive(Drop)]
pub(crate) struct Bounded<'a, S, C> {
    pub stream: S,
    pub clock: &'a C,
    pub ends: Instant,
}

/// How long a read or a write may wait that begins at this moment, where the last may end at the second moment; `None`
/// where that has come.
fn wait_from(now: Instant, ends: Instant) -> Option<Duration>
    ensures late { IsNone result ↔ (instant_nanos ends ≤ instant_nanos now) }
    // The time that is left, and at most ten seconds.
    ensures wait { IfSome result (λ wait. as_nanos wait
        ≡ min (instant_nanos ends - instant_nanos now) 10_000_000_000) }
{
    let left = ends.duration_since(now);
    if left.is_zero() {
        return None;
    }
    let longest = Duration::from_secs(LONGEST_WAIT);
    Some(if left < longest { left } else { longest })
}

/// How long a read or a write may wait now, where the last may end at this moment. The error is that the moment has
/// come, or a clock that could not be read.
pub(crate) fn wait_until<C: Clock>(clock: &C, ends: Instant) -> io::Result<Duration>
    ensures some { IfOk result (λ wait. 0 < as_nanos wait) }
    ensures bound { IfOk result (λ wait. as_nanos wait ≤ 10_000_000_000) }
{
    match wait_from(Instant::now(clock)?, ends) {
        Some(wait) => Ok(wait),
        None => Err(ErrorKind::TimedOut.into()),
    }
}

/// The moments of a connection from which no read begins any more, and no write.
#[derive(Clone, Copy)]
pub(crate) struct Ends {
    pub reading: Instant,
    pub serving: Instant,
}

impl Ends {
    /// Those of a connection that begins at this moment. There are none past the last moment of a clock.
    fn of(began: Instant) -> Option<Ends>
        // Fifteen seconds for reads, and thirty for writes.
        ensures reading { IfSome result (λ ends. instant_nanos ends.reading
            ≡ instant_nanos began + 15_000_000_000) }
        ensures serving { IfSome result (λ ends. instant_nanos ends.serving
            ≡ instant_nanos began + 30_000_000_000) }
    {
        Some(Ends {
            reading: began.checked_add(Duration::from_secs(LONGEST_READING))?,
            serving: began.checked_add(Duration::from_secs(LONGEST_SERVING))?,
        })
    }

    /// Those of a connection that begins now. The error is a clock that could not be read.
    pub fn from_now<C: Clock>(clock: &C) -> io::Result<Ends> {
        match Ends::of(Instant::now(clock)?) {
            Some(ends) => Ok(ends),
            None => Err(ErrorKind::InvalidData.into()),
        }
    }
}

impl<S: Read + Waits, C: Clock> Read for Bounded<'_, S, C> {
    ghost remaining = { λ bounded. S.remaining bounded.stream };

    fn read(&mut self, buf: &mut [u8]) -> io::Result<usize> {
        let longest = wait_until(self.clock, self.ends)?;
        self.stream.wait_to_read(longest)?;
        self.stream.read(buf)
    }
}

impl<S: Write + Waits, C: Clock> Write for Bounded<'_, S, C> {
    ghost contents = { λ bounded. S.contents bounded.stream };

    fn write(&mut self, buf: &[u8]) -> io::Result<usize> {
        let longest = wait_until(self.clock, self.ends)?;
        self.stream.wait_to_write(longest)?;
        self.stream.write(buf)
    }

    fn flush(&mut self) -> io::Result<()> {
        self.stream.flush()
    }
}
