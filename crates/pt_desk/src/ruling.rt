ghost use Rattle.pt_desk_rules.specs.Deciding.{IsRuling};
ghost use Rattle.pt_desk_rules.specs.Facts.{facts_of};
ghost use Rattle.pt_desk_store.specs.Store.{Store, ReadsSome};

use pt_base_values::Moment;
use pt_desk_requests::{Caller, Write};
use pt_desk_rules::{
    Decision, decide_booking, decide_cancel, decide_change, decide_outcome, enter, put_caller,
    put_place, put_policy, put_rider, put_route, put_travel, put_vehicle,
};
use pt_desk_store::{
    Keeper, StoreFault, gather_caller, gather_cancel, gather_change, gather_entry, gather_new_trip,
    gather_place, gather_rider, gather_route, gather_travel, gather_vehicle,
};
use std::alloc::Global;

/// Reads the facts of a write and rules on it. The error is the store's or out of memory.
pub(crate) fn rule_on<K: Keeper>(
    alloc: Global,
    keeper: &mut K,
    me: &Caller,
    now: Moment,
    write: &Write,
) -> Result<Decision, StoreFault>
    ensures { ReadsSome (K.store keeper.old) (K.store keeper.new)
        (λ s. IsRuling write.now me.now now (facts_of write.now s)) result }
{
    match write {
        Write::PutCaller(new) => Ok(put_caller(alloc, &gather_caller(keeper, new)?, me, new)?),
        Write::PutPolicy(new) => Ok(put_policy(alloc, me, new)),
        Write::PutPlace(new) => Ok(put_place(alloc, &gather_place(keeper, new)?, me, new)?),
        Write::PutRoute(new) => Ok(put_route(alloc, &gather_route(keeper, new)?, me, new)?),
        Write::PutRider(new) => Ok(put_rider(alloc, &gather_rider(keeper, new)?, me, new)?),
        Write::Enter { rider, entry } => {
            let facts = gather_entry(alloc, keeper, *rider, entry)?;
            Ok(enter(alloc, &facts, me, now, *rider, entry)?)
        }
        Write::PutVehicle(new) => {
            let facts = gather_vehicle(alloc, keeper, new)?;
            Ok(put_vehicle(alloc, &facts, me, new)?)
        }
        Write::Travel { day, rows } => {
            let facts = gather_travel(alloc, keeper, *day)?;
            Ok(put_travel(alloc, &facts, me, *day, rows)?)
        }
        Write::Book { rider, wish } => {
            let facts = gather_new_trip(alloc, keeper, me, now, *rider, wish)?;
            Ok(decide_booking(alloc, &facts, me, now, *rider, wish)?)
        }
        Write::Change { trip, wish } => {
            let facts = gather_change(alloc, keeper, me, now, *trip, wish)?;
            Ok(decide_change(alloc, &facts, me, now, wish)?)
        }
        Write::Cancel(trip) => {
            let facts = gather_cancel(alloc, keeper, *trip)?;
            Ok(decide_cancel(alloc, &facts, me, now)?)
        }
        Write::Outcome { trip, outcome } => {
            let found = keeper.trip(*trip)?;
            Ok(decide_outcome(alloc, &found, me, now, *outcome)?)
        }
    }
}
