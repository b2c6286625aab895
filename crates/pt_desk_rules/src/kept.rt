ghost use Rattle.std.specs.Prelude.{◌≡◌};
ghost use Rattle.std.specs.Option.{option_copied};
ghost use Rattle.pt_desk_rules.specs.Arrival.{arrival_of};
ghost use Rattle.pt_desk_rules.specs.Deciding.{kept_by};

use pt_base_records::{Key, Keyed};
use pt_base_values::CallerId;
use pt_desk_spelling::{KeptReply, Spelling};

/// The caller's number for a write, and the write's spelling.
#[derive(Drop)]
pub struct Sent {
    pub number: u32,
    pub request: Spelling,
}

impl Sent {
    /// The kept request of an accepted write with this reply.
    pub(crate) fn into_kept(self, caller: CallerId, reply: KeptReply) -> Kept
        ensures value { result ≡ kept_by caller self reply }
    {
        Kept {
            caller,
            number: self.number,
            request: self.request,
            reply,
        }
    }
}

/// A caller's last accepted write: the kept request.
#[derive(Drop)]
pub struct Kept {
    pub caller: CallerId,
    pub number: u32,
    pub request: Spelling,
    /// The reply to it.
    pub reply: KeptReply,
}

impl Keyed for Kept {
    ghost key = { λ kept. kept.caller };

    fn key(&self) -> Key {
        Key::of(self.caller.number())
    }
}

/// How a write's number relates to the caller's last accepted write.
#[derive(Clone, Copy)]
pub enum Arrival {
    /// The number is above that one's.
    New,
    /// It has that one's number and spelling: it is the same write again. This was the reply.
    Repeated(KeptReply),
    /// It is another write, and its number is not above that one's.
    Stale,
}

impl Arrival {
    /// How a write with this number and spelling arrives. `last` is `None` if no write was accepted.
    pub fn of(number: u32, request: &Spelling, last: Option<&Kept>) -> Self
        ensures value { result ≡ arrival_of number request.now (option_copied last.entry) }
    {
        match last {
            None if number > 0 => Arrival::New,
            None => Arrival::Stale,
            Some(kept) if number > kept.number => Arrival::New,
            Some(kept) if number == kept.number && kept.request.bytes() == request.bytes() => {
                Arrival::Repeated(kept.reply)
            }
            Some(_) => Arrival::Stale,
        }
    }
}
