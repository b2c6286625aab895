//! Readers that give a byte a read, are interrupted, and fail.
use pt_base_values::{Cause, Fault};
use pt_http_inbox::{Inbox, MOST_READS};
use std::alloc::{AllocError, Global};
use std::collections::VecDeque;
use std::io;
use std::io::{ErrorKind, Read};
use std::test::Fail;

const REQUEST: &str = "POST /callers HTTP/1.1\r\nContent-Length: 2\r\n\r\n{}GET";

/// Gives one byte a read, each after some interruptions, and then ends or fails.
#[derive(Drop)]
struct OneByOne {
    bytes: VecDeque<u8>,
    interruptions: u32,
    left: u32,
    fails: bool,
}

impl OneByOne {
    fn of(alloc: Global, text: &[u8], interruptions: u32, fails: bool) -> Result<Self, AllocError> {
        let mut bytes = VecDeque::new(alloc);
        for &byte in text {
            bytes.push_back(byte)?;
        }
        Ok(OneByOne {
            bytes,
            interruptions,
            left: interruptions,
            fails,
        })
    }
}

impl Read for OneByOne {
    fn read(&mut self, buf: &mut [u8]) -> io::Result<usize> {
        if buf.is_empty() {
            return Ok(0);
        }
        if self.left > 0 {
            self.left -= 1;
            return Err(ErrorKind::Interrupted.into());
        }
        self.left = self.interruptions;
        match self.bytes.pop_front() {
            Some(byte) => {
                buf[0] = byte;
                Ok(1)
            }
            None if self.fails => Err(ErrorKind::ConnectionReset.into()),
            None => Ok(0),
        }
    }
}

#[test]
fn a_byte_a_read(rt: HostRuntime) -> Result<(), Fail> {
    let reader = OneByOne::of(rt.alloc(), REQUEST.as_bytes(), 3, true)?;
    let mut inbox = Inbox::new(rt.alloc(), reader)?;
    assert_eq!(rt; inbox.read_head()?.map(|head| head.length), Some(45));
    assert_eq!(rt; inbox.buffer().len(), 45);
    assert_eq!(rt; inbox.read_up_to(47)?, true);
    assert_eq!(rt; inbox.buffer(), &REQUEST.as_bytes()[..47]);
    // The reader fails after its last byte.
    assert_eq!(rt; inbox.read_up_to(51), Err(Fault::of(Cause::ReadFailed)));
    assert_eq!(rt; inbox.buffer(), REQUEST.as_bytes());
    Ok(())
}

#[test]
fn a_reader_that_is_interrupted_without_end(rt: HostRuntime) -> Result<(), Fail> {
    let reader = OneByOne::of(rt.alloc(), b"GET", MOST_READS, false)?;
    let mut inbox = Inbox::new(rt.alloc(), reader)?;
    assert_eq!(rt; inbox.read_head().err(), Some(Fault::of(Cause::ReadFailed)));
    assert_eq!(rt; inbox.read_up_to(1), Err(Fault::of(Cause::ReadFailed)));
    Ok(())
}

#[test]
fn as_many_reads_as_there_may_be(rt: HostRuntime) -> Result<(), Fail> {
    let reader = OneByOne::of(rt.alloc(), b"GET", MOST_READS - 1, false)?;
    let mut inbox = Inbox::new(rt.alloc(), reader)?;
    assert_eq!(rt; inbox.read_up_to(1)?, true);
    assert_eq!(rt; inbox.read_up_to(2), Err(Fault::of(Cause::ReadFailed)));
    inbox.consume(0);
    assert_eq!(rt; inbox.read_up_to(2), Err(Fault::of(Cause::ReadFailed)));
    inbox.finish_request(0);
    assert_eq!(rt; inbox.read_up_to(2)?, true);
    Ok(())
}
