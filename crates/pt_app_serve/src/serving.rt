ghost use Rattle.std.specs.Prelude.{◌≡◌, ◌⊎◌, ◌<◌, ◌≤◌, ◌↔◌, ◌++◌, ℕ, ℤ, List, [], ◌∷◌, Option, Err, ⊤};
ghost use Rattle.std.specs.Prelude.{IfErr, IfOk, IfSome, MatchOption, OnErr, OnOk, length};
ghost use Rattle.pt_base_values.specs.declared.fault.Cause.TheVariants as cause;
ghost use Rattle.pt_base_values.specs.Fault.{fault};
ghost use Rattle.pt_base_clock.specs.LocalTime.{IsZoneRule};
ghost use Rattle.pt_desk_store.specs.Store.{Store};
ghost use Rattle.pt_http_exchange.specs.Answering.{GoesOn};
ghost use Rattle.pt_http_request.specs.Targets.{desk_routes};
ghost use Rattle.pt_app_serve.specs.Connection.{IsComing};
ghost use Rattle.pt_app_serve.specs.Serving.{EndsConnection, EndsServing, IsMomentAt, LacksMoment};
ghost use Rattle.pt_app_serve.specs.Serving.{ServesATurn, ServesInTurn, Turn};
ghost use Rattle.pt_app_serve.specs.Serving.{failures_in, progress_of};

use crate::accepting::{Accepts, Connection};
use crate::connection::serve_one_by;
use jiff::Timestamp;
use matchit::Router;
use pt_base_clock::{moment_of, now_in};
use pt_base_values::{Cause, Fault, Moment};
use pt_desk_store::Keeper;
use pt_http_request::Path;
use std::alloc::Global;
use std::io;
use std::time::Clock;

/// Why a clock that cannot be read gives no moment: the zone's text, or else the clock.
fn unread(zone: &str) -> Fault
    ensures ends { (result ≡ fault cause.NoSuchZone) ⊎ (result ≡ fault cause.DateOutOfRange) }
    ensures zone { (result ≡ fault cause.NoSuchZone) ↔ ¬ (IsZoneRule zone.now) }
{
    match moment_of(zone, None) {
        Ok(_) => Fault::of(Cause::DateOutOfRange),
        Err(fault) => fault,
    }
}

/// What tells the time.
///
/// Only a call of `now` gives `shows` and `unread`. Code that is proved over every clock cannot make them up.
pub trait TellsTime {
    /// The clock showed this instant.
    ghost shows: { ℤ → Type 0 };

    /// The clock could not be read.
    ghost unread: { Type 0 };

    /// The instant that the clock shows. There is none where it cannot be read.
    fn now(&self) -> Option<Timestamp>
        ensures shown { MatchOption result unread (λ instant. shows instant.nanosecond) };
}

/// The kit states nothing of what a clock reads.
impl<C: Clock> TellsTime for C {
    ghost shows = { λ _. ⊤ };

    ghost unread = { ⊤ };

    fn now(&self) -> Option<Timestamp> {
        Timestamp::now(self).ok()
    }
}

/// The day and the minute that clocks of a zone show now. The error is fault 3, a zone that is no POSIX rule, or fault
/// 2, a clock that cannot be read or shows no day of 2000 to 2099.
pub fn moment_at<T: TellsTime>(clock: &T, zone: &str) -> Result<Moment, Fault>
    ensures moment { IfOk result (IsMomentAt T.shows zone.now) }
    ensures zone { (result ≡ Err (fault cause.NoSuchZone)) ↔ ¬ (IsZoneRule zone.now) }
    ensures fault { IfErr result (LacksMoment T.unread T.shows zone.now) }
{
    match clock.now() {
        Some(instant) => now_in(zone, instant),
        None => Err(unread(zone)),
    }
}

/// The day and the minute that clocks of a zone show while a connection is open. The errors are those of `moment_at`.
fn moment_on<C: Clock, S: Connection>(clock: &C, zone: &str, stream: &S) -> Result<Moment, Fault>
    ensures moment { IfOk result (IsMomentAt (S.shows (S.sends stream.now)) zone.now) }
    ensures zone { (result ≡ Err (fault cause.NoSuchZone)) ↔ ¬ (IsZoneRule zone.now) }
    ensures fault { IfErr result EndsServing }
{
    match stream.instant(clock) {
        Some(instant) => now_in(zone, instant),
        None => Err(unread(zone)),
    }
}

/// Answers the request of one connection, by the rules as of the moment after it was accepted, and leaves it.
///
/// Returns how the connection failed, if it did; one that was not accepted is a failed read. The error ends the
/// serving.
fn serve_next<C: Clock, K: Keeper, A: Accepts>(
    clock: &C,
    alloc: Global,
    router: &Router<Path>,
    keeper: &mut K,
    zone: &str,
    port: &mut A,
    connection: io::Result<A::Stream>,
) -> Result<Option<Fault>, Fault>
    requires { router.now ≡ desk_routes }
    ensures turn { (K.store keeper.new).doubt ≡ 0 → (sent : Option (List ℕ))
        → IsComing A.Stream.sends A.Stream.got A.Stream.fails sent connection
        → IfOk result (λ failed. ServesATurn A.Stream.shows A.Stream.fails zone.now sent failed
        (progress_of (K.store keeper.old) (A.replied port.old) (A.ending port.old))
        (progress_of (K.store keeper.new) (A.replied port.new) (A.ending port.new))) }
    ensures ends { EndsConnection connection zone.now (keeper.new ≡ keeper.old) (port.new ≡ port.old) result }
    ensures others { A.comes port.new ≡ A.comes port.old }
    ensures goes { GoesOn (K.store keeper.old) (K.store keeper.new) }
{
    let Ok(mut stream) = connection else {
        return Ok(Some(Fault::of(Cause::ReadFailed)));
    };
    let now = moment_on(clock, zone, &stream)?;
    match serve_one_by(clock, alloc, router, keeper, now, &mut stream) {
        Ok(()) => {
            port.leave(clock, stream, true);
            Ok(None)
        }
        Err(fault) if fault.code == Cause::Memory.code() => Err(fault),
        Err(fault) => {
            port.leave(clock, stream, false);
            Ok(Some(fault))
        }
    }
}

/// Takes the connections that are still to come, in turn, and answers one request on each by the desk's routes, as of
/// the moment after it was accepted on the clocks of a zone. Standard error has one line for each that failed, and the
/// result says how many did.
///
/// The error is out of memory, or a zone or a clock that gives no moment: that connection is dropped unanswered, and
/// later ones wait. A connection that fails counts, and the next is answered.
///
/// If it is known what a client sends, the reply is to that. If it is known what clients got, each got its own reply.
/// Neither is known of sockets: there a reply is the desk's to some message.
pub fn serve<R: Clock + Eprint, K: Keeper, A: Accepts>(
    rt: &R,
    alloc: Global,
    router: &Router<Path>,
    keeper: &mut K,
    zone: &str,
    port: &mut A,
) -> Result<u32, Fault>
    requires { router.now ≡ desk_routes }
    // Each connection whose reply was not wholly written is counted; each of the others was answered.
    ensures served { (K.store keeper.new).doubt ≡ 0
        → IfOk result (λ failed. (turns : List Turn) × (failures_in turns ≡ failed)
        × ServesInTurn A.Stream.shows A.Stream.fails zone.now (A.comes port.old) turns
        (progress_of (K.store keeper.old) (A.replied port.old) (A.ending port.old))
        (progress_of (K.store keeper.new) (A.replied port.new) (A.ending port.new))) }
    // The connection at which the error came has changed nothing.
    ensures broken_off { (K.store keeper.new).doubt ≡ 0
        → OnErr result ((sents : List (Option (List ℕ))) × (sent : Option (List ℕ)) × (turns : List Turn)
        × (A.comes port.old ≡ sents ++ sent ∷ A.comes port.new)
        × ServesInTurn A.Stream.shows A.Stream.fails zone.now sents turns
        (progress_of (K.store keeper.old) (A.replied port.old) (A.ending port.old))
        (progress_of (K.store keeper.new) (A.replied port.new) (A.ending port.new))) }
    ensures few { IfOk result (λ failed. failed ≤ length (A.comes port.old)) }
    ensures all { OnOk result (A.comes port.new ≡ []) }
    ensures ended { OnErr result (length (A.comes port.new) < length (A.comes port.old)) }
    ensures fault { IfErr result EndsServing }
    ensures zone { result ≡ Err (fault cause.NoSuchZone) → ¬ (IsZoneRule zone.now) }
    ensures goes { GoesOn (K.store keeper.old) (K.store keeper.new) }
{
    let mut failed = 0;
    while let Some(connection) = port.accept() {
        if let Some(fault) = serve_next(rt, alloc, router, keeper, zone, port, connection)? {
            failed += 1;
            let _shown = eprintln!(rt; "connection: {fault}");
        }
    }
    Ok(failed)
}
