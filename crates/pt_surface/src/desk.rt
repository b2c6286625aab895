//! `pt_desk`: requests over a store.
ghost use Rattle.pt_desk.specs.Refusals.{IsQuestion};

use pt_base::{Day, Fault, Minute, PlaceId};
use pt_desk::{
    Call, Change, Facts, Keeper, ListKeeper, Reply, Request, Role, StoreFault, answer, facts,
    place_ids, run,
};
use pt_insertion::{Asked, Duty};
use pt_travel::Closed;
use std::alloc::Global;

pub fn reply_to<K: Keeper>(
    alloc: Global,
    keeper: &mut K,
    now: (Day, Minute),
    key: &[u8],
    number: u32,
    request: &Request,
) -> Reply {
    answer(alloc, keeper, now, key, number, request)
}

pub fn call(now: (Day, Minute), key: Vec<u8>, number: u32, request: Request) -> Call {
    Call {
        now,
        key,
        number,
        request,
    }
}

pub fn replies_to<K: Keeper>(
    alloc: Global,
    keeper: &mut K,
    calls: &[Call],
) -> Result<Vec<Reply>, Fault> {
    run(alloc, keeper, calls)
}

pub fn places<K: Keeper>(alloc: Global, keeper: &mut K) -> Result<Vec<PlaceId>, StoreFault> {
    place_ids(alloc, keeper)
}

pub fn least_desk(alloc: Global, admin_key: &[u8]) -> Result<ListKeeper, Fault> {
    ListKeeper::new(alloc, admin_key)
}

pub fn committed<K: Keeper>(keeper: &mut K, change: Change) -> Result<(), StoreFault> {
    keeper.commit(change)
}

pub fn failures_of<K: Keeper>(keeper: &K) -> u32 {
    keeper.failures()
}

pub fn has_failed(fault: StoreFault) -> bool {
    match fault {
        StoreFault::Memory => false,
        StoreFault::Store => true,
    }
}

pub fn is_admin(role: Role) -> bool {
    match role {
        Role::Admin => true,
        _ => false,
    }
}

pub fn facts_of<K: Keeper>(
    alloc: Global,
    keeper: &mut K,
    now: (Day, Minute),
    key: &[u8],
    request: &Request,
) -> Result<Facts, Reply>
    requires { IsQuestion request.now }
{
    facts(alloc, keeper, now, key, request)
}

pub fn duties_of(facts: &Facts, alloc: Global) -> Result<Vec<Duty<'_>>, Fault> {
    facts.duties(alloc)
}

pub fn asked_in(facts: &Facts) -> &Asked {
    facts.asked()
}

pub fn times_in(facts: &Facts) -> &Closed {
    facts.times()
}
