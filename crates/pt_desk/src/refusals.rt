ghost use Rattle.std.specs.Prelude.{◌≡◌, IfOk, None, Some};
ghost use Rattle.pt_desk.specs.Refusals.{GivesFacts, IsFacts, IsInquiryBy, IsQuestion};
ghost use Rattle.pt_desk_store.specs.Store.{Store, Answers, ChangesNothing, Fails};

use pt_base_values::{Moment, RiderId, Rule, Wish};
use pt_desk_reads::{Facts, Inquiry, refusal_facts};
use pt_desk_requests::{Answer, Caller, Digest, Request};
use pt_desk_store::{Keeper, Reply, StoreFault, gather_wish};
use std::alloc::Global;

/// The facts of a refusal of a rider's wish, by the current plans.
fn inquire_as<K: Keeper>(
    alloc: Global,
    keeper: &mut K,
    me: &Caller,
    now: Moment,
    rider: RiderId,
    wish: &Wish,
) -> Result<Inquiry, StoreFault>
    ensures goes { Answers (K.store keeper.old) (K.store keeper.new)
        (IsInquiryBy (Some me.now) now rider wish.now) result }
{
    let facts = gather_wish(alloc, keeper, rider, wish, &None)?;
    Ok(refusal_facts(alloc, &facts, me, now, wish)?)
}

/// The same for the caller who has the key, if the store has not failed.
fn inquire_by_key<K: Keeper>(
    alloc: Global,
    keeper: &mut K,
    now: Moment,
    key: &[u8],
    rider: RiderId,
    wish: &Wish,
) -> Result<Inquiry, StoreFault>
    ensures goes { Answers (K.store keeper.old) (K.store keeper.new) (IsFacts key.now now rider wish.now) result }
{
    let Some(me) = keeper.caller_with(&Digest::of_key(key))? else {
        return Ok(Inquiry::Denied(Rule::Key));
    };
    inquire_as(alloc, keeper, &me, now, rider, wish)
}

/// The facts of a refusal of a rider's wish: the vehicles on duty that day with their routes, the trip that they are
/// asked for, and the least driving times. Otherwise the first rule that denies the caller with this key before any
/// vehicle is looked at.
///
/// `now` is the moment of the question. The error is the store's, or out of memory. Nothing is ever changed.
pub fn inquire<K: Keeper>(
    alloc: Global,
    keeper: &mut K,
    now: Moment,
    key: &[u8],
    rider: RiderId,
    wish: &Wish,
) -> Result<Inquiry, StoreFault>
    ensures goes { Answers (K.store keeper.old) (K.store keeper.new) (IsFacts key.now now rider wish.now) result }
    ensures fails { Fails (K.store keeper.old).failures (K.store keeper.new).failures result }
    // the result is by the content, if the store is clean
    ensures found { (K.store keeper.new).doubt ≡ 0 → IfOk result (λ found.
        IsFacts key.now now rider wish.now (K.store keeper.old).content found None) }
    ensures unchanged { ChangesNothing (K.store keeper.old) (K.store keeper.new) result }
{
    if keeper.failures() > 0 {
        return Err(StoreFault::Store);
    }
    inquire_by_key(alloc, keeper, now, key, rider, wish)
}

/// The facts of a refusal, as `inquire` gives them, for the caller with this key who asks why a wish cannot be booked.
/// Otherwise the reply: the first rule that denies the question before any vehicle is looked at, or the store's fault.
///
/// `now` is the moment of the question. Nothing is ever changed.
pub fn facts<K: Keeper>(
    alloc: Global,
    keeper: &mut K,
    now: Moment,
    key: &[u8],
    request: &Request,
) -> Result<Facts, Reply>
    requires { IsQuestion request.now }
    ensures { GivesFacts key.now now request.now (K.store keeper.old) (K.store keeper.new) result }
{
    match request {
        Request::Explain { rider, wish } => {
            match inquire(alloc, keeper, now, key, *rider, wish) {
                Ok(Inquiry::Facts(found)) => Ok(found),
                Ok(Inquiry::Denied(rule)) => Err(Ok(Answer::Denied(rule))),
                Err(fault) => Err(Err(fault)),
            }
        }
        _ => unreachable!(),
    }
}
