ghost use Rattle.std.specs.Prelude.{◌≡◌, ◌<◌, ◌≤◌, IfOk, OnErr, IfErr};
ghost use Rattle.pt_base_values.specs.Fault.{fault};
ghost use Rattle.pt_base_values.specs.declared.fault.Cause.TheVariants as cause;
ghost use Rattle.pt_desk_store.specs.Store.{Store, Answers, ChangesNothing, Fails, FindsContent, FitsSound, IsSettled};
ghost use Rattle.pt_desk_store.specs.Store.{IsSoundKept};
ghost use Rattle.pt_desk.specs.Crash.{FindsAfter, Lasts};
ghost use Rattle.pt_desk.specs.Run.{AreOnlyTold, GoesOn, IsOnlyTold, IsOutcomeOf, TellOfFailure};

use crate::answer;
use pt_base_values::{Fault, Moment};
use pt_desk_requests::Request;
use pt_desk_store::{Keeper, Reply};
use std::alloc::Global;

/// A request as it comes: its moment, the caller's key, and the caller's number for it.
#[derive(Drop)]
pub struct Call {
    pub now: Moment,
    pub key: Vec<u8>,
    /// A caller's writes have rising numbers. The number of a read is ignored.
    pub number: u32,
    pub request: Request,
}

/// Answers one call by the rules.
fn answer_call<K: Keeper>(alloc: Global, keeper: &mut K, call: &Call) -> Reply
    ensures goes { Answers (K.store keeper.old) (K.store keeper.new)
        (IsOutcomeOf call.entry.now) result }
    ensures fails { Fails (K.store keeper.old).failures (K.store keeper.new).failures result }
    ensures only_told { IsOnlyTold call.entry.now result
        → ChangesNothing (K.store keeper.old) (K.store keeper.new) result }
    ensures lasts { Lasts (K.store keeper.old) (K.store keeper.new) }
    ensures sound { IsSoundKept (K.store keeper.old) (K.store keeper.new) }
    ensures fits { FitsSound (K.store keeper.old) (K.store keeper.new) }
{
    answer(
        alloc,
        keeper,
        call.now,
        &call.key,
        call.number,
        &call.request,
    )
}

/// Answers calls in turn, each in the state that the call before it left.
///
/// The list of replies is allocated first. If that fails, no call is answered. If the store is shut when the run ends,
/// it has failed, or a reply is out of memory and the store serves no more. No program calls this; it states for a list
/// what `answer` states for a request.
pub fn run<K: Keeper>(alloc: Global, keeper: &mut K, calls: &[Call]) -> Result<Vec<Reply>, Fault>
    ensures runs { (K.store keeper.new).doubt ≡ 0
        → IfOk result (λ replies. GoesOn (K.store keeper.old).failures (K.store keeper.old).content calls.now
        replies.items (K.store keeper.new).content) }
    // A reply says that the store has failed only if it failed in that call or earlier.
    ensures told { IfOk result (λ replies. TellOfFailure replies.items → 0 < (K.store keeper.new).failures) }
    // A run of only denials and answered reads changes nothing.
    ensures only_told { IfOk result (λ replies. AreOnlyTold calls.now replies.items
        → ChangesNothing (K.store keeper.old) (K.store keeper.new) result) }
    ensures clean { (K.store keeper.old).doubt ≤ (K.store keeper.new).doubt }
    ensures serves { (K.store keeper.old).shut ≤ (K.store keeper.new).shut }
    ensures grows { (K.store keeper.old).failures ≤ (K.store keeper.new).failures }
    // While the store serves, an opening after a crash finds what the run left.
    ensures settled { IsSettled (K.store keeper.old) → IsSettled (K.store keeper.new) }
    // An opening after a crash finds what it could have found before, or what calls by the rules lead to.
    ensures lasts { Lasts (K.store keeper.old) (K.store keeper.new) }
    // An opening finds what these calls left, as their replies have it, if it found the content before the run.
    ensures finds { (K.store keeper.new).doubt ≡ 0 → (K.store keeper.old).failures ≡ 0
        → FindsContent (K.store keeper.old)
        → IfOk result (λ replies. FindsAfter (K.store keeper.old).content calls.now replies.items
        (K.store keeper.new)) }
    ensures sound { IsSoundKept (K.store keeper.old) (K.store keeper.new) }
    ensures fits { FitsSound (K.store keeper.old) (K.store keeper.new) }
    ensures err { OnErr result (keeper.new ≡ keeper.old) }
    ensures memory { IfErr result (λ refused. refused ≡ fault cause.Memory) }
{
    let mut replies = Vec::with_capacity(alloc, calls.len())?;
    for call in calls {
        let reply = answer_call(alloc, keeper, call);
        let _ = replies.push(reply);
    }
    Ok(replies)
}
