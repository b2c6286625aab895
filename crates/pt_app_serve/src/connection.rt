ghost use Rattle.std.specs.Prelude.{◌≡◌, ℕ, List, None, Option, Result, OnErr};
ghost use Rattle.pt_base_values.specs.declared.fault.Fault.{Fault};
ghost use Rattle.pt_desk_store.specs.Store.{Store};
ghost use Rattle.pt_http_request.specs.Targets.{desk_routes};
ghost use Rattle.pt_app_serve.specs.Connection.{AnswersFrom};

use crate::accepting::Connection;
use crate::bounded::{Bounded, Ends, Waits};
use matchit::Router;
use pt_base_values::{Cause, Fault, Moment};
use pt_desk_store::Keeper;
use pt_http_exchange::exchange;
use pt_http_inbox::Inbox;
use pt_http_request::{Path, desk_router};
use std::alloc::Global;
use std::io::{Read, Write};
use std::net::TcpStream;
use std::time::Clock;

/// Answers the one request that a reader gives from its beginning, by the desk's routes and by the rules as of this
/// moment, to a writer.
///
/// The error is out of memory, a read that failed or was one too many (then nothing is changed), or a write that failed
/// (then the request is answered all the same).
pub fn answer_connection<K: Keeper, R: Read + Drop, W: Write>(
    alloc: Global,
    router: &Router<Path>,
    keeper: &mut K,
    now: Moment,
    reader: R,
    out: &mut W,
) -> Result<(), Fault>
    requires { router.now ≡ desk_routes }
    ensures answers { AnswersFrom (R.remaining reader) (K.store keeper.old) (K.store keeper.new) now
        (W.contents out.old) (W.contents out.new) ((keeper.new ≡ keeper.old) × (out.new ≡ out.old)) result }
{
    let mut inbox = Inbox::new(alloc, reader)?;
    exchange(alloc, router, keeper, now, &mut inbox, out)?;
    Ok(())
}

/// Answers the one request that a reader gives from its beginning, as `answer_connection` does, in time. It
/// returns the writer.
///
/// A read or a write waits `LONGEST_WAIT` seconds at most. Once `LONGEST_READING` seconds have passed no read begins,
/// and once `LONGEST_SERVING` have passed no write does, however little the client sends or takes at a time. One that
/// comes too late has failed, and so has a read where the clock cannot be read.
pub fn answer_in_time<C: Clock, K: Keeper, R: Read + Waits + Drop, W: Write + Waits>(
    clock: &C,
    alloc: Global,
    router: &Router<Path>,
    keeper: &mut K,
    now: Moment,
    reader: R,
    out: W,
) -> (W, Result<(), Fault>)
    requires { router.now ≡ desk_routes }
    ensures answers { AnswersFrom (R.remaining reader) (K.store keeper.old) (K.store keeper.new) now
        (W.contents out) (W.contents result.0) ((keeper.new ≡ keeper.old) × (result.0 ≡ out)) result.1 }
{
    let Ok(ends) = Ends::from_now(clock) else {
        return (out, Err(Fault::of(Cause::ReadFailed)));
    };
    let reader = Bounded {
        stream: reader,
        clock,
        ends: ends.reading,
    };
    let mut writer = Bounded {
        stream: out,
        clock,
        ends: ends.serving,
    };
    let answered = answer_connection(alloc, router, keeper, now, reader, &mut writer);
    (writer.stream, answered)
}

/// A way to answer the one request of a reader, to a writer.
pub trait Answering {
    /// It can be called.
    ghost ready: { Self → Type 0 };

    /// Its reply to the bytes that a reader gives, if these are known: the store before and after, what was written
    /// before and after, that neither is changed, and the result.
    ghost replies: { Self → Option (List ℕ) → Store → Store → Option (List ℕ) → Option (List ℕ) → Type 0
        → Result (Unit {0}) Fault → Type 0 };

    /// Answers the one request that a reader gives from its beginning, to a writer, which it returns.
    fn answer<K: Keeper, R: Read + Waits + Drop, W: Write + Waits>(
        &self,
        keeper: &mut K,
        reader: R,
        out: W,
    ) -> (W, Result<(), Fault>)
        requires { ready self.now }
        ensures replied { replies self.now (R.remaining reader) (K.store keeper.old) (K.store keeper.new)
            (W.contents out) (W.contents result.0)
            ((keeper.new ≡ keeper.old) × (W.contents result.0 ≡ W.contents out)) result.1 };
}

/// The desk's own way to answer: by its routes and by the rules as of a moment, and in time, as `answer_in_time` does.
#[derive(Drop)]
pub(crate) struct InTime<'a, C> {
    pub clock: &'a C,
    pub alloc: Global,
    pub router: &'a Router<Path>,
    pub now: Moment,
}

impl<C: Clock> Answering for InTime<'_, C> {
    ghost ready = { λ how. how.router.now ≡ desk_routes };

    ghost replies = { λ how given old new out_old out_new Same result.
        AnswersFrom given old new how.now out_old out_new Same result };

    fn answer<K: Keeper, R: Read + Waits + Drop, W: Write + Waits>(
        &self,
        keeper: &mut K,
        reader: R,
        out: W,
    ) -> (W, Result<(), Fault>) {
        answer_in_time(
            self.clock,
            self.alloc,
            self.router,
            keeper,
            self.now,
            reader,
            out,
        )
    }
}

/// Answers one request on any connection, by the desk's routes, by the rules as of this moment and in time, as
/// `answer_in_time` does.
///
/// The error is out of memory, a read that failed, or came too late, or was one too many, or a clock that could not be
/// read (then nothing is changed); or a write that failed or came too late (then the request is answered all the same).
pub fn serve_one_by<C: Clock, K: Keeper, S: Connection>(
    clock: &C,
    alloc: Global,
    router: &Router<Path>,
    keeper: &mut K,
    now: Moment,
    stream: &mut S,
) -> Result<(), Fault>
    requires { router.now ≡ desk_routes }
    ensures answers { AnswersFrom (S.sends stream.old) (K.store keeper.old) (K.store keeper.new) now
        (S.got stream.old) (S.got stream.new)
        ((keeper.new ≡ keeper.old) × (S.got stream.new ≡ S.got stream.old)) result }
    ensures fails { OnErr result (S.fails (S.sends stream.old)) }
{
    let how = InTime {
        clock,
        alloc,
        router,
        now,
    };
    stream.answer_by(&how, keeper)
}

/// Answers one request on a socket, by the rules as of this moment and in time, as `answer_in_time` does.
///
/// The error is out of memory, a read that failed, or came too late, or was one too many, or a clock that could not be
/// read (then nothing is changed); or a write that failed or came too late (then the request is answered all the same).
pub fn serve_one<R: Clock, K: Keeper>(
    rt: &R,
    alloc: Global,
    keeper: &mut K,
    now: Moment,
    stream: &TcpStream,
) -> Result<(), Fault>
    ensures answers { AnswersFrom None (K.store keeper.old) (K.store keeper.new) now None None
        (keeper.new ≡ keeper.old) result }
{
    match desk_router(alloc) {
        Ok(router) => answer_in_time(rt, alloc, &router, keeper, now, stream, stream).1,
        Err(_) => Err(Fault::of(Cause::Memory)),
    }
}
