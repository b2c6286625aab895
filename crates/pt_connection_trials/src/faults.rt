//! Readers and writers that fail at each byte.
use crate::requests::{DONE, PUT_CLERK, eight_in_the_morning, has_clerk};
use pt_base_values::{Cause, Fault};
use pt_desk_store::ListKeeper;
use pt_http_exchange::answer_bytes;
use pt_http_inbox::Inbox;
use std::alloc::Global;
use std::io;
use std::io::{ErrorKind, Read, Write};
use std::process::Abort;

/// Gives its bytes in pieces of one size, and then ends or fails.
#[derive(Drop)]
struct Pieces<'b> {
    rest: &'b [u8],
    size: usize,
    fails: bool,
}

impl Read for Pieces<'_> {
    fn read(&mut self, buf: &mut [u8]) -> io::Result<usize> {
        let count = self.size.min(buf.len()).min(self.rest.len());
        if count == 0 && self.fails {
            return Err(ErrorKind::ConnectionReset.into());
        }
        let (piece, rest) = self.rest.split_at(count);
        buf[..count].copy_from_slice(piece);
        self.rest = rest;
        Ok(count)
    }
}

/// Takes as many bytes as it has room for and then fails, or fails in the flush.
#[derive(Drop)]
struct Narrow {
    bytes: Vec<u8>,
    room: usize,
    is_stuck: bool,
}

impl Write for Narrow {
    fn write(&mut self, buf: &[u8]) -> io::Result<usize> {
        let count = self.room.min(buf.len());
        if count == 0 {
            return Err(ErrorKind::BrokenPipe.into());
        }
        self.bytes.extend_from_slice(&buf[..count])?;
        self.room -= count;
        Ok(count)
    }

    fn flush(&mut self) -> io::Result<()> {
        if self.is_stuck {
            return Err(ErrorKind::BrokenPipe.into());
        }
        Ok(())
    }
}

/// The result of one request from a reader, answered to a writer.
fn told<R: Read + Drop, W: Write>(
    rt: &impl Abort,
    alloc: Global,
    keeper: &mut ListKeeper,
    reader: R,
    out: &mut W,
) -> Result<(), Fault> {
    let now = eight_in_the_morning(rt);
    let mut inbox = Inbox::new(alloc, reader).expect(rt, "memory");
    answer_bytes(alloc, keeper, now, &mut inbox, out)
}

/// The result of one request to a new desk, and whether the desk has the clerk then.
fn told_by_new_desk<R: Read + Drop, W: Write>(
    rt: &impl Abort,
    alloc: Global,
    reader: R,
    out: &mut W,
) -> (Result<(), Fault>, bool) {
    let mut keeper = ListKeeper::new(alloc, b"abc").expect(rt, "memory");
    let told = told(rt, alloc, &mut keeper, reader, out);
    (told, has_clerk(rt, &mut keeper))
}

/// Answers what comes before the reader fails, and compares the result, the desk's content and the reply.
fn compare_reader(rt: &impl Abort, alloc: Global, request: &[u8]) {
    let end = request.len();
    let reader = Pieces {
        rest: request,
        size: 64,
        fails: true,
    };
    let mut out = Vec::new(alloc);
    let (told, is_put) = told_by_new_desk(rt, alloc, reader, &mut out);
    let came = end == PUT_CLERK.len();
    let expected = if came {
        Ok(())
    } else {
        Err(Fault::of(Cause::ReadFailed))
    };
    assert_eq!(rt;
        (told, is_put, out.is_empty()),
        (expected, came, !came),
        "{end} bytes"
    );
}

#[test]
fn a_reader_that_fails_at_each_byte(rt: HostRuntime) {
    let alloc = rt.alloc();
    let request = PUT_CLERK.as_bytes();
    for end in 0..=request.len() {
        compare_reader(&rt, alloc, &request[..end]);
    }
}

/// Answers to a writer that takes this many bytes, and compares the result, the desk's content and the bytes written.
fn compare_writer(rt: &impl Abort, alloc: Global, reply: &[u8], written: usize) {
    let room = written.min(reply.len());
    let mut out = Narrow {
        bytes: Vec::new(alloc),
        room,
        is_stuck: written > reply.len(),
    };
    let mut keeper = ListKeeper::new(alloc, b"abc").expect(rt, "memory");
    let answered = told(rt, alloc, &mut keeper, PUT_CLERK.as_bytes(), &mut out);
    let expected = if written == reply.len() {
        Ok(())
    } else {
        Err(Fault::of(Cause::WriteFailed))
    };
    let is_put = has_clerk(rt, &mut keeper);
    assert_eq!(rt; (answered, is_put), (expected, true), "writer {written}");
    assert_eq!(rt; out.bytes.as_slice(), &reply[..room]);
    compare_again(rt, alloc, &mut keeper, reply);
}

/// Sends the request again, whether its reply was lost or not, and compares the reply.
fn compare_again(rt: &impl Abort, alloc: Global, keeper: &mut ListKeeper, reply: &[u8]) {
    let mut out = Vec::new(alloc);
    let answered = told(rt, alloc, keeper, PUT_CLERK.as_bytes(), &mut out);
    assert_eq!(rt; answered, Ok(()), "again");
    assert_eq!(rt; out.as_slice(), reply);
}

#[test]
fn a_writer_that_fails_at_each_byte(rt: HostRuntime) {
    let alloc = rt.alloc();
    let reply = DONE.as_bytes();
    // The last writer takes the whole reply and fails in the flush.
    for written in 0..=reply.len() + 1 {
        compare_writer(&rt, alloc, reply, written);
    }
}
