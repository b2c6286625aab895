//! Clients of which it is known what they send and what they get, so that the contract of `serve` says all.
ghost use Rattle.std.specs.Prelude.{◌≡◌, ◌<◌, ◌^◌, List, Option, Some, None, map, length, if◌then◌else◌, ⊤};

use crate::requests::{DONE, PUT_CLERK, PUT_RIDER};
use jiff::Timestamp;
use pt_app_serve::{Accepts, Answering, Connection, Waits, serve};
use pt_base_values::Fault;
use pt_desk_store::{Keeper, ListKeeper};
use pt_http_request::desk_router;
use std::alloc::Global;
use std::io::{ErrorKind, Read, Write};
use std::process::Abort;
use std::time::{Clock, Duration};
use std::{io, mem};

/// What a client sends.
#[derive(Drop)]
struct Sends<'b> {
    rest: &'b [u8],
}

impl Waits for Sends<'_> {
    fn wait_to_read(&self, _longest: Duration) -> io::Result<()> {
        Ok(())
    }

    fn wait_to_write(&self, _longest: Duration) -> io::Result<()> {
        Ok(())
    }
}

impl Read for Sends<'_> {
    ghost remaining = { λ sends. Some sends.rest.now };

    fn read(&mut self, buf: &mut [u8]) -> io::Result<usize> {
        self.rest.read(buf)
    }
}

/// What a client has got. It takes so many bytes more, and then no more.
#[derive(Drop)]
struct Gets {
    bytes: Vec<u8>,
    room: usize,
}

impl Waits for Gets {
    fn wait_to_read(&self, _longest: Duration) -> io::Result<()> {
        Ok(())
    }

    fn wait_to_write(&self, _longest: Duration) -> io::Result<()> {
        Ok(())
    }
}

impl Write for Gets {
    ghost contents = { λ gets. Some gets.bytes.items };

    fn write(&mut self, buf: &[u8]) -> io::Result<usize> {
        let count = self.room.min(buf.len());
        if count == 0 {
            return Err(ErrorKind::BrokenPipe.into());
        }
        self.room -= count;
        self.bytes.write(&buf[..count])
    }

    fn flush(&mut self) -> io::Result<()> {
        Ok(())
    }
}

/// A client.
#[derive(Drop)]
struct Client {
    sends: &'static [u8],
    got: Vec<u8>,
    room: usize,
    alloc: Global,
}

impl Connection for Client {
    ghost sends = { λ client. Some client.sends.now };

    ghost got = { λ client. Some client.got.items };

    ghost shows = { λ _ _. ⊤ };

    ghost fails = { λ _. ⊤ };

    fn instant<C: Clock>(&self, clock: &C) -> Option<Timestamp> {
        Timestamp::now(clock).ok()
    }

    fn answer_by<K: Keeper, H: Answering>(&mut self, how: &H, keeper: &mut K) -> Result<(), Fault> {
        let reader = Sends { rest: self.sends };
        let bytes = mem::replace(&mut self.got, Vec::new(self.alloc));
        let room = self.room;
        let (writer, told) = how.answer(keeper, reader, Gets { bytes, room });
        self.got = writer.bytes;
        told
    }
}

/// A client that is still to come: what it sends, and how many bytes it takes.
#[derive(Clone, Copy)]
struct Ahead {
    sends: &'static [u8],
    room: usize,
}

/// Clients one after another: what each sends and how many bytes it takes, and what those so far have got.
#[derive(Drop)]
struct Clients<'b> {
    coming: &'b [Ahead],
    replies: Vec<Vec<u8>>,
    /// Whether there was no memory to keep a reply.
    is_lost: bool,
    /// Whether the one that was left last had its whole reply.
    last: Option<bool>,
    alloc: Global,
    ghost few: { length coming.now < 2 ^ 32 },
}

impl Accepts for Clients<'_> {
    type Stream = Client;

    ghost comes = { λ clients. map (λ client. Some client.sends.now) clients.coming.now };

    ghost replied = { λ clients. if clients.is_lost then None
        else Some (map (λ reply. reply.items) clients.replies.items) };

    ghost ending = { λ clients. clients.last };

    fn accept(&mut self) -> Option<io::Result<Client>> {
        if self.coming.is_empty() {
            return None;
        }
        let Ahead { sends, room } = self.coming[0];
        let (_first, rest) = self.coming.split_at(1);
        self.coming = rest;
        Some(Ok(Client {
            sends,
            got: Vec::new(self.alloc),
            room,
            alloc: self.alloc,
        }))
    }

    fn leave<C: Clock>(&mut self, _clock: &C, stream: Client, is_whole: bool) {
        self.last = Some(is_whole);
        if self.replies.push(stream.got).is_err() {
            self.is_lost = true;
        }
    }
}

/// Bytes that begin with no request.
const NO_REQUEST: &str = "HELLO\r\n\r\n";

/// Three clients are served, of which the last takes too few bytes for its reply.
#[test]
fn clients_get_their_own_replies(rt: HostRuntime) {
    let alloc = rt.alloc();
    let mut keeper = ListKeeper::new(alloc, b"abc").expect(&rt, "memory");
    let router = desk_router(alloc).expect(&rt, "memory");
    let mut clients = Clients {
        coming: &[
            Ahead {
                sends: PUT_CLERK.as_bytes(),
                room: 1_000,
            },
            Ahead {
                sends: NO_REQUEST.as_bytes(),
                room: 1_000,
            },
            Ahead {
                sends: PUT_RIDER.as_bytes(),
                room: 10,
            },
        ],
        replies: Vec::new(alloc),
        is_lost: false,
        last: None,
        alloc,
    };
    let failed = serve(&rt, alloc, &router, &mut keeper, "UTC0", &mut clients);
    assert_eq!(rt; failed, Ok(1));
    assert_eq!(rt; clients.last, Some(false));
    assert_eq!(rt; clients.replies.len(), 3);
    assert_eq!(rt; clients.replies[0].as_slice(), DONE.as_bytes());
    assert!(rt; clients.replies[1].starts_with(b"HTTP/1.1 400 "));
    assert_eq!(rt; clients.replies[2].as_slice(), &DONE.as_bytes()[..10]);
}
