ghost use Rattle.std.specs.Prelude.{◌≡◌, ◌≤◌, ◌+◌, ◌*◌, ◌++◌, Some, IfSome, length, take, drop};
ghost use Rattle.std.specs.List.{AllByRecursion};
ghost use Rattle.pt_desk_requests.specs.declared.request.Confirmation.{Confirmation};
ghost use Rattle.pt_desk_spelling.specs.Fields.{number_bytes, numbers_bytes};
ghost use Rattle.pt_desk_spelling.specs.Ranges.{IsWord};
ghost use Rattle.pt_desk_spelling.specs.Replies.{confirmation_numbers, reply_spelling, reply_of, answer_of, IsTold, IsReply};
ghost use Rattle.pt_desk_spelling.specs.Replies.{SpellsReply};
ghost use Rattle.pt_desk_spelling.specs.declared.replies.TheConstants.{LONGEST_REPLY_SPELLING};

use arrayvec::ArrayVec;
use pt_base_values::{HIGHEST_FARE, Minute, TripId, VehicleId};
use pt_desk_requests::{Answer, Confirmation};

/// The most bytes in the spelling of a reply.
pub const LONGEST_REPLY_SPELLING: usize = 25;

/// The bytes of the numbers in the reply to a booking.
const CONFIRMATION_BYTES: usize = 24;

/// The most that a rider and companions pay together, in cents.
const HIGHEST_DUE: u32 = 2 * HIGHEST_FARE;

/// The stored reply to an accepted request, which is sent again if the same request comes again.
#[derive(Clone, Copy)]
pub enum KeptReply {
    /// The change is made.
    Done,
    /// The entry is in the case file at this position, counted from 0.
    Entered(u32),
    /// The trip is booked.
    Booked(Confirmation),
}

impl KeptReply {
    /// The reply that is stored for an answer; `None` for a denial and for the answer to a read.
    pub fn of(told: &Answer) -> Option<Self>
        ensures { result ≡ reply_of told.now }
    {
        match told {
            Answer::Done => Some(KeptReply::Done),
            Answer::Entered(position) => Some(KeptReply::Entered(*position)),
            Answer::Booked(told) => Some(KeptReply::Booked(*told)),
            _ => None,
        }
    }

    /// The answer for which this reply was stored.
    pub fn answer(self) -> Answer
        ensures { result ≡ answer_of self }
    {
        match self {
            KeptReply::Done => Answer::Done,
            KeptReply::Entered(position) => Answer::Entered(position),
            KeptReply::Booked(told) => Answer::Booked(told),
        }
    }
}

/// The bytes that spell a reply. It takes no memory.
pub fn spell_reply(reply: &KeptReply) -> ArrayVec<u8, LONGEST_REPLY_SPELLING>
    ensures value { result.items ≡ reply_spelling reply.now }
    ensures ranges { IsReply reply.now }
{
    let mut bytes = ArrayVec::new();
    match reply {
        KeptReply::Done => bytes.push(0),
        KeptReply::Entered(position) => {
            bytes.push(1);
            push_number(*position, &mut bytes);
        }
        KeptReply::Booked(told) => {
            bytes.push(2);
            push_numbers(&confirmation_numbers(told), &mut bytes);
        }
    }
    bytes
}

/// The numbers in the reply to a booking.
fn confirmation_numbers(told: &Confirmation) -> [u32; 6]
    ensures value { result ≡ confirmation_numbers told.now }
    ensures ranges { IsTold told.now }
{
    [
        told.trip.number(),
        told.vehicle.number(),
        told.window_from.number(),
        told.window_to.number(),
        told.fare,
        told.due,
    ]
}

/// Adds numbers, one after the other.
fn push_numbers(numbers: &[u32], out: &mut ArrayVec<u8, LONGEST_REPLY_SPELLING>)
    requires { length out.old.items + 4 * length numbers.now ≤ LONGEST_REPLY_SPELLING }
    ensures { out.new.items ≡ out.old.items ++ numbers_bytes numbers.now }
{
    for &number in numbers {
        push_number(number, out);
    }
}

/// Adds a number in four bytes, the most significant first.
#[tactic(auto, unfolding(crate::specs::Fields::number_bytes))]
fn push_number(number: u32, out: &mut ArrayVec<u8, LONGEST_REPLY_SPELLING>)
    requires { length out.old.items + 4 ≤ LONGEST_REPLY_SPELLING }
    ensures text { out.new.items ≡ out.old.items ++ number_bytes number }
    ensures longer { length out.new.items ≡ length out.old.items + 4 }
{
    let _fits = out.try_extend_from_slice(&number.to_be_bytes());
}

/// The reply that the bytes spell; `None` if they spell none.
pub fn read_reply(bytes: &[u8]) -> Option<KeptReply>
    ensures spelled { IfSome result (SpellsReply bytes.now) }
    ensures read { (reply : KeptReply) → SpellsReply bytes.now reply → result ≡ Some reply }
{
    let (kind, fields) = bytes.split_first()?;
    match kind {
        0 if fields.is_empty() => Some(KeptReply::Done),
        1 if fields.len() == 4 => Some(KeptReply::Entered(number_at(fields, 0))),
        2 if fields.len() == CONFIRMATION_BYTES => {
            Some(KeptReply::Booked(confirmation_of(numbers_from(fields))?))
        }
        _ => None,
    }
}

/// The numbers that the bytes spell.
fn numbers_from(bytes: &[u8]) -> [u32; 6]
    requires { length bytes.now ≡ CONFIRMATION_BYTES }
    ensures spelled { bytes.now ≡ numbers_bytes result }
    ensures words { AllByRecursion IsWord result }
{
    [
        number_at(bytes, 0),
        number_at(bytes, 1),
        number_at(bytes, 2),
        number_at(bytes, 3),
        number_at(bytes, 4),
        number_at(bytes, 5),
    ]
}

/// The reply to a booking with these numbers; `None` if one is out of its range.
fn confirmation_of(numbers: [u32; 6]) -> Option<Confirmation>
    ensures told { IfSome result (λ told. IsTold told × (confirmation_numbers told ≡ numbers)) }
    ensures read { (told : Confirmation) → IsTold told → confirmation_numbers told ≡ numbers → result ≡ Some told }
{
    let [trip, vehicle, window_from, window_to, fare, due] = numbers;
    if fare > HIGHEST_FARE || due > HIGHEST_DUE {
        return None;
    }
    Some(Confirmation {
        trip: TripId::of(trip)?,
        vehicle: VehicleId::of(vehicle)?,
        window_from: Minute::of(window_from)?,
        window_to: Minute::of(window_to)?,
        fare,
        due,
    })
}

/// The number at this index, counted from 0.
#[tactic(auto, unfolding(crate::specs::Fields::number_bytes))]
fn number_at(bytes: &[u8], index: usize) -> u32
    requires { 4 * index + 4 ≤ length bytes.now }
    ensures { number_bytes result ≡ take 4 (drop (4 * index) bytes.now) }
{
    let first = 4 * index;
    u32::from_be_bytes([
        bytes[first],
        bytes[first + 1],
        bytes[first + 2],
        bytes[first + 3],
    ])
}
