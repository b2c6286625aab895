ghost use Rattle.std.specs.Prelude.{◌≡◌, ◌<◌, ◌≤◌, ℕ, Option, None, Err};
ghost use Rattle.pt_desk_spelling.specs.Ranges.{IsRequest};
ghost use Rattle.pt_desk_rules.specs.Sound.{IsSound};
ghost use Rattle.pt_desk_rules.specs.State.{State};
ghost use Rattle.pt_desk_rules.specs.Step.{sent_with, told_of, left_of};
ghost use Rattle.pt_desk_rules.specs.Step.{IsExplainOutcome, IsReadOutcome, IsDecidedOutcome, IsWriteOutcome};
ghost use Rattle.pt_desk_rules.specs.Step.{IsOutcome};
ghost use Rattle.pt_desk_requests.specs.declared.request.Answer.{Answer};
ghost use Rattle.pt_desk_store.specs.Store.{Store, Answers, ChangesNothing, Fits, FitsSound, Goes, Reads, Fails};
ghost use Rattle.pt_desk_store.specs.Store.{IsSoundKept};
ghost use Rattle.pt_desk.specs.Crash.{Lasts};
ghost use Rattle.pt_desk.specs.Fitting.{ChangesByRules, IsNewBy, IsSentBy};
ghost use Rattle.pt_desk.specs.Run.{IsDenial, IsRead};

use crate::ruling::rule_on;
use pt_base_values::{Moment, RiderId, Rule, Wish};
use pt_desk_reads::{explain, tell};
use pt_desk_requests::{Answer, Caller, Digest, Read, Request, Write};
use pt_desk_rules::{Arrival, Decision, Sent, decide};
use pt_desk_spelling::spell;
use pt_desk_store::{Keeper, Reply, StoreFault, gather_read, gather_wish};
use std::alloc::Global;

/// Answers a read.
fn answer_read<K: Keeper>(
    alloc: Global,
    keeper: &mut K,
    me: &Caller,
    now: Moment,
    read: &Read,
) -> Reply
    ensures goes { Answers (K.store keeper.old) (K.store keeper.new) (IsReadOutcome read.now me.now now) result }
{
    let facts = gather_read(alloc, keeper, read)?;
    Ok(tell(alloc, facts, me, now, read)?)
}

/// Answers whether a rider's wish could be booked.
fn answer_explain<K: Keeper>(
    alloc: Global,
    keeper: &mut K,
    me: &Caller,
    now: Moment,
    rider: RiderId,
    wish: &Wish,
) -> Reply
    ensures goes { Answers (K.store keeper.old) (K.store keeper.new)
        (IsExplainOutcome rider wish.now me.now now) result }
{
    let facts = gather_wish(alloc, keeper, rider, wish, &None)?;
    Ok(explain(alloc, &facts, me, now, wish)?)
}

/// Returns the decision's answer, and commits the change of an accepted write.
fn carry_out<K: Keeper>(keeper: &mut K, decision: Decision) -> Reply
    ensures goes { Goes (K.store keeper.old) (K.store keeper.new) (told_of decision)
        (left_of decision (K.store keeper.old).content) result }
    ensures fits { Fits (K.store keeper.old) (K.store keeper.new) (ChangesByRules decision) }
{
    match decision {
        Decision::Denied(rule) => Ok(Answer::Denied(rule)),
        Decision::Accepted { answer, change } => {
            keeper.commit(change)?;
            Ok(answer)
        }
    }
}

/// Answers a write with a new number.
fn answer_new<K: Keeper>(
    alloc: Global,
    keeper: &mut K,
    me: &Caller,
    now: Moment,
    sent: Sent,
    write: &Write,
) -> Reply
    requires spelled { sent ≡ sent_with sent.number write.now }
    requires ranges { IsRequest write.now }
    ensures goes { Answers (K.store keeper.old) (K.store keeper.new)
        (IsDecidedOutcome write.now me.now now sent.number) result }
    ensures fits { Fits (K.store keeper.old) (K.store keeper.new) (IsNewBy me.now sent.number write.now) }
{
    let ruling = rule_on(alloc, keeper, me, now, write)?;
    let decision = decide(alloc, ruling, me, sent)?;
    carry_out(keeper, decision)
}

/// Answers a write.
fn answer_write<K: Keeper>(
    alloc: Global,
    keeper: &mut K,
    me: &Caller,
    now: Moment,
    number: u32,
    write: &Write,
) -> Reply
    ensures goes { Answers (K.store keeper.old) (K.store keeper.new)
        (IsWriteOutcome write.now me.now now number) result }
    ensures fits { Fits (K.store keeper.old) (K.store keeper.new) (IsSentBy me.now) }
{
    let request = spell(alloc, write)?;
    match keeper.arrival(me.id, number, &request)? {
        Arrival::New => answer_new(alloc, keeper, me, now, Sent { number, request }, write),
        Arrival::Repeated(reply) => Ok(reply.answer()),
        Arrival::Stale => Ok(Answer::Denied(Rule::Number)),
    }
}

/// Answers one request if the store has not failed.
fn answer_by_rules<K: Keeper>(
    alloc: Global,
    keeper: &mut K,
    now: Moment,
    key: &[u8],
    number: u32,
    request: &Request,
) -> Reply
    ensures goes { Answers (K.store keeper.old) (K.store keeper.new) (IsOutcome key.now now number request.now) result }
    ensures fits { Fits (K.store keeper.old) (K.store keeper.new) IsSound }
{
    let Some(me) = keeper.caller_with(&Digest::of_key(key))? else {
        return Ok(Answer::Denied(Rule::Key));
    };
    match request {
        Request::Read(read) => answer_read(alloc, keeper, &me, now, read),
        Request::Write(write) => answer_write(alloc, keeper, &me, now, number, write),
        Request::Explain { rider, wish } => {
            answer_explain(alloc, keeper, &me, now, *rider, wish)
        }
    }
}

/// Answers one request by the rules.
///
/// `now` is the moment at which it comes, `key` the caller's key, and `number` the caller's number for it, which only a
/// write needs. The error is the store's, or out of memory; then the content is unchanged. If the store is shut when
/// the call ends, it has failed, or the error is out of memory and the store serves no more.
pub fn answer<K: Keeper>(
    alloc: Global,
    keeper: &mut K,
    now: Moment,
    key: &[u8],
    number: u32,
    request: &Request,
) -> Reply
    ensures goes { Answers (K.store keeper.old) (K.store keeper.new) (IsOutcome key.now now number request.now) result }
    ensures fails { Fails (K.store keeper.old).failures (K.store keeper.new).failures result }
    // A denial changes nothing. A read changes nothing either, whatever its answer.
    ensures denied { IsDenial result → ChangesNothing (K.store keeper.old) (K.store keeper.new) result }
    ensures read { IsRead request.now → ChangesNothing (K.store keeper.old) (K.store keeper.new) result }
    // If no outcome of the request commits a state, an opening after a crash finds only what it would have found
    // before.
    ensures quiet { ((told : Answer) (left : Option State) →
        IsOutcome key.now now number request.now (K.store keeper.old).content told left → left ≡ None)
        → (o : Option State) → (K.store keeper.new).doubt ≡ 0 → (K.store keeper.new).found o
        → (K.store keeper.old).found o }
    // An opening after a crash finds what it could have found before, or what calls by the rules lead to.
    ensures lasts { Lasts (K.store keeper.old) (K.store keeper.new) }
    // A sound state stays sound.
    ensures sound { IsSoundKept (K.store keeper.old) (K.store keeper.new) }
    // In a sound state the store is given no change that it does not take.
    ensures fits { FitsSound (K.store keeper.old) (K.store keeper.new) }
{
    if keeper.failures() > 0 {
        return Err(StoreFault::Store);
    }
    answer_by_rules(alloc, keeper, now, key, number, request)
}
