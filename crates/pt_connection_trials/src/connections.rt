//! Connections with time limits.
use crate::requests::{DONE, PUT_CLERK, eight_in_the_morning, has_clerk};
use pt_app_serve::{MOST_DROPPED, Waits, answer_in_time, drop_rest, serve_one_by};
use pt_base_values::{Cause, Fault};
use pt_desk_store::ListKeeper;
use pt_http_request::desk_router;
use std::alloc::Global;
use std::cell::{Cell, RefCell};
use std::io;
use std::io::{Read, Write};
use std::net::{Ipv4Addr, TcpListener, TcpStream};
use std::process::Abort;
use std::test::Fail;
use std::time::{Clock, Duration};

/// A call of a stream. Waits are in seconds.
#[derive(Clone, Copy, Debug, PartialEq, Eq)]
enum Call {
    WaitToRead(u64),
    Read,
    WaitToWrite(u64),
    Write,
}

/// The calls of streams, and the seconds that they took.
#[derive(Drop)]
struct Course {
    calls: RefCell<Vec<Call>>,
    seconds: Cell<u64>,
}

impl Course {
    fn note(&self, call: Call) -> io::Result<()> {
        if let Ok(mut calls) = self.calls.try_borrow_mut() {
            calls.push(call)?;
        }
        Ok(())
    }

    fn pass(&self, seconds: u64) {
        self.seconds.set(self.seconds.get().saturating_add(seconds));
    }
}

impl Clock for Course {
    fn monotonic(&self) -> io::Result<Duration> {
        Ok(Duration::from_secs(self.seconds.get()))
    }

    fn since_1970(&self) -> io::Result<Duration> {
        self.monotonic()
    }
}

/// A stream whose reads and writes have at most `bytes` bytes and take `seconds` seconds each.
#[derive(Drop)]
struct Slow<'c, S> {
    stream: S,
    bytes: usize,
    seconds: u64,
    course: &'c Course,
}

impl<S> Waits for Slow<'_, S> {
    fn wait_to_read(&self, longest: Duration) -> io::Result<()> {
        self.course.note(Call::WaitToRead(longest.as_secs()))
    }

    fn wait_to_write(&self, longest: Duration) -> io::Result<()> {
        self.course.note(Call::WaitToWrite(longest.as_secs()))
    }
}

impl<S: Read> Read for Slow<'_, S> {
    fn read(&mut self, buf: &mut [u8]) -> io::Result<usize> {
        self.course.note(Call::Read)?;
        self.course.pass(self.seconds);
        let count = buf.len().min(self.bytes);
        self.stream.read(&mut buf[..count])
    }
}

impl<S: Write> Write for Slow<'_, S> {
    fn write(&mut self, buf: &[u8]) -> io::Result<usize> {
        self.course.note(Call::Write)?;
        self.course.pass(self.seconds);
        let count = buf.len().min(self.bytes);
        self.stream.write(&buf[..count])
    }

    fn flush(&mut self) -> io::Result<()> {
        self.stream.flush()
    }
}

/// A client, with the bytes that it sends and takes at a time and the seconds for each; and the expected result.
struct Case {
    sends: usize,
    takes: usize,
    seconds: u64,
    calls: &'static [Call],
    told: Result<(), Cause>,
    is_put: bool,
    written: usize,
}

const CASES: [Case; 3] = [
    // In time. The last read begins after twelve seconds, and the last write after 24.
    Case {
        sends: 50,
        takes: 40,
        seconds: 4,
        calls: &[
            Call::WaitToRead(10),
            Call::Read,
            Call::WaitToRead(10),
            Call::Read,
            Call::WaitToRead(7),
            Call::Read,
            Call::WaitToRead(3),
            Call::Read,
            Call::WaitToWrite(10),
            Call::Write,
            Call::WaitToWrite(10),
            Call::Write,
            Call::WaitToWrite(6),
            Call::Write,
        ],
        told: Ok(()),
        is_put: true,
        written: 103,
    },
    // Fifteen seconds are over before the last byte has come.
    Case {
        sends: 45,
        takes: 40,
        seconds: 5,
        calls: &[
            Call::WaitToRead(10),
            Call::Read,
            Call::WaitToRead(10),
            Call::Read,
            Call::WaitToRead(5),
            Call::Read,
        ],
        told: Err(Cause::ReadFailed),
        is_put: false,
        written: 0,
    },
    // Thirty seconds are over before the last byte has gone.
    Case {
        sends: 200,
        takes: 30,
        seconds: 10,
        calls: &[
            Call::WaitToRead(10),
            Call::Read,
            Call::WaitToWrite(10),
            Call::Write,
            Call::WaitToWrite(10),
            Call::Write,
        ],
        told: Err(Cause::WriteFailed),
        is_put: true,
        written: 60,
    },
];

/// The result of a request, and the bytes that its client has taken.
fn answered<'c>(
    rt: &impl Abort,
    alloc: Global,
    keeper: &mut ListKeeper,
    request: &'c [u8],
    case: &Case,
    course: &'c Course,
) -> (Vec<u8>, Result<(), Fault>) {
    let reader = Slow {
        stream: request,
        bytes: case.sends,
        seconds: case.seconds,
        course,
    };
    let writer = Slow {
        stream: Vec::new(alloc),
        bytes: case.takes,
        seconds: case.seconds,
        course,
    };
    let now = eight_in_the_morning(rt);
    let router = desk_router(alloc).expect(rt, "memory");
    let (writer, told) = answer_in_time(course, alloc, &router, keeper, now, reader, writer);
    (writer.stream, told)
}

/// Compares the result of a case and the bytes that its client has taken.
fn compare_reply(rt: &impl Abort, case: &Case, told: Result<(), Fault>, out: &[u8]) {
    let reply = DONE.as_bytes();
    assert_eq!(rt; told, case.told.map_err(|cause| Fault::of(cause)));
    assert_eq!(rt; out, &reply[..case.written.min(reply.len())]);
}

/// Sends the request of a case to a new desk, and compares the result.
fn compare_answer(rt: &impl Abort, alloc: Global, case: &Case, course: &Course) {
    let mut keeper = ListKeeper::new(alloc, b"abc").expect(rt, "memory");
    let (out, told) = answered(rt, alloc, &mut keeper, PUT_CLERK.as_bytes(), case, course);
    compare_reply(rt, case, told, out.as_slice());
    assert_eq!(rt; has_clerk(rt, &mut keeper), case.is_put);
}

fn compare_case(rt: &impl Abort, alloc: Global, case: &Case) {
    let course = Course {
        calls: RefCell::new(Vec::new(alloc)),
        seconds: Cell::new(1_000),
    };
    compare_answer(rt, alloc, case, &course);
    let calls = course.calls.into_inner();
    assert_eq!(rt; calls.as_slice(), case.calls);
}

#[test]
fn each_read_and_each_write_is_told_how_long_it_may_wait(rt: HostRuntime) {
    for case in &CASES {
        compare_case(&rt, rt.alloc(), case);
    }
}

/// How many bytes are dropped from a client that goes on sending `bytes` at a time in `seconds` each; `None` if the
/// last read came too late. It also returns the calls of the stream.
fn dropped(rt: &impl Abort, alloc: Global, bytes: usize, seconds: u64) -> (Option<u64>, Vec<Call>) {
    let course = Course {
        calls: RefCell::new(Vec::new(alloc)),
        seconds: Cell::new(1_000),
    };
    let stream = Slow {
        stream: io::repeat(b'x'),
        bytes,
        seconds,
        course: &course,
    };
    let count = drop_rest(&course, stream).ok();
    (count, course.calls.into_inner())
}

#[test]
fn a_client_that_goes_on_sending_is_read_from_for_a_while(rt: HostRuntime) {
    // Eight reads of 8,192 bytes, all within the one second allowed.
    let (count, calls) = dropped(&rt, rt.alloc(), 100_000, 0);
    assert_eq!(rt; count, Some(MOST_DROPPED));
    assert_eq!(rt; calls.len(), 16);
    // The one second allowed is over after the first read.
    let (count, calls) = dropped(&rt, rt.alloc(), 100, 1);
    assert_eq!(rt; count, None);
    assert_eq!(rt;
        calls.as_slice(),
        [Call::WaitToRead(1), Call::Read].as_slice()
    );
}

/// The result of the one request of a connection to a new desk, and whether the desk has the clerk then.
fn serve_client<R: Abort + Clock>(
    rt: &R,
    alloc: Global,
    stream: &mut TcpStream,
) -> (Result<(), Fault>, bool) {
    let mut keeper = ListKeeper::new(alloc, b"abc").expect(rt, "memory");
    let router = desk_router(alloc).expect(rt, "memory");
    let now = eight_in_the_morning(rt);
    let told = serve_one_by(rt, alloc, &router, &mut keeper, now, stream);
    (told, has_clerk(rt, &mut keeper))
}

#[test]
fn a_client_gets_the_whole_reply(rt: HostRuntime) -> Result<(), Fail> {
    let listener = TcpListener::bind(&rt, (Ipv4Addr::LOCALHOST, 0))?;
    let mut client = TcpStream::connect(&rt, listener.local_addr()?)?;
    client.write_all(PUT_CLERK.as_bytes())?;
    let (mut stream, _peer) = listener.accept()?;
    let (told, is_put) = serve_client(&rt, rt.alloc(), &mut stream);
    drop(stream);
    let mut reply = Vec::new(rt.alloc());
    client.read_to_end(&mut reply)?;
    assert_eq!(rt; (told, reply.as_slice()), (Ok(()), DONE.as_bytes()));
    assert!(rt; is_put);
    Ok(())
}
