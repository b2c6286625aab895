ghost use Rattle.std.specs.Prelude.{◌≡◌, ◌↔◌, ◌<◌, ◌^◌, ℕ, ℤ, Bool, List, [], Option, Some, None, length, ⊤};
ghost use Rattle.std.specs.Prelude.{IfSome, IsNone, IsSome, OnErr};
ghost use Rattle.pt_app_serve.specs.Connection.{Adds, IsNext};

use crate::connection::Answering;
use jiff::Timestamp;
use pt_base_values::Fault;
use pt_desk_store::Keeper;
use std::io;
use std::net::TcpStream;
use std::time::Clock;

/// A connection with one client.
///
/// Only calls of `instant` and `answer_by` give `shows` and `fails`. Code that is proved over every connection cannot
/// make them up.
pub trait Connection: Drop {
    /// What its client sends from its beginning, where that is known.
    ghost sends: { Self → Option (List ℕ) };

    /// What was written to it, where that is known.
    ghost got: { Self → Option (List ℕ) };

    /// A clock showed this instant while a connection was open whose client sends this.
    ghost shows: { Option (List ℕ) → ℤ → Type 0 };

    /// A connection failed whose client sends this.
    ghost fails: { Option (List ℕ) → Type 0 };

    /// The instant that a clock shows while the connection is open. There is none where the clock cannot be read.
    fn instant<C: Clock>(&self, clock: &C) -> Option<Timestamp>
        ensures shown { IfSome result (λ instant. shows (sends self.now) instant.nanosecond) };

    /// Has the one request of its client answered in this way.
    fn answer_by<K: Keeper, H: Answering>(&mut self, how: &H, keeper: &mut K) -> Result<(), Fault>
        requires { H.ready how.now }
        ensures answered { H.replies how.now (sends self.old) (K.store keeper.old) (K.store keeper.new)
            (got self.old) (got self.new) ((keeper.new ≡ keeper.old) × (got self.new ≡ got self.old)) result }
        ensures failed { OnErr result (fails (sends self.old)) };
}

/// What gives connections, one after another.
pub trait Accepts {
    /// One of them.
    type Stream: Connection;

    /// The connections that are still to come: what the client of each sends, where that is known.
    ghost comes: { Self → List (Option (List ℕ)) };

    /// What was written to each connection that was left, the first of them first, where that is known.
    ghost replied: { Self → Option (List (List ℕ)) };

    /// Whether the connection that was left last had its whole reply. There is none before the first.
    ghost ending: { Self → Option Bool };

    /// Waits for the next connection, if one more is to come. One that cannot be accepted counts too.
    fn accept(&mut self) -> Option<io::Result<Self::Stream>>
        ensures none { IsNone result ↔ (comes self.old ≡ []) }
        ensures same { IsNone result → self.new ≡ self.old }
        ensures next { IfSome result (λ connection. IsNext Self.Stream.sends Self.Stream.got Self.Stream.fails
            (comes self.old) (comes self.new) connection) }
        ensures kept { IsSome result → (replied self.new ≡ replied self.old) × (ending self.new ≡ ending self.old) }
        ensures fits { length (comes self.old) < 2 ^ 32 };

    /// Leaves a connection whose request was answered, and the whole reply written or not.
    fn leave<C: Clock>(&mut self, clock: &C, stream: Self::Stream, is_whole: bool)
        ensures left { Adds (replied self.old) (Self.Stream.got stream) (replied self.new) }
        ensures seen_off { ending self.new ≡ Some is_whole }
        ensures others { comes self.new ≡ comes self.old };
}

/// The kit states neither what comes on a socket nor what goes, and nothing of what a clock reads.
impl Connection for TcpStream {
    ghost sends = { λ _. None };

    ghost got = { λ _. None };

    ghost shows = { λ _ _. ⊤ };

    ghost fails = { λ _. ⊤ };

    fn instant<C: Clock>(&self, clock: &C) -> Option<Timestamp> {
        Timestamp::now(clock).ok()
    }

    fn answer_by<K: Keeper, H: Answering>(&mut self, how: &H, keeper: &mut K) -> Result<(), Fault> {
        let stream = &*self;
        how.answer(keeper, stream, stream).1
    }
}
