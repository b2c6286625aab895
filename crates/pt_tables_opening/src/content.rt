ghost use Rattle.std.specs.Prelude.{◌≡◌, ◌∷◌, [], Some, IfOk, IfErr};
ghost use Rattle.pt_base_values.specs.declared.fault.Cause.TheVariants as cause;
ghost use Rattle.pt_desk_rules.specs.Deciding.{no_change};
ghost use Rattle.pt_desk_rules.specs.State.{applied};
ghost use Rattle.pt_base_records.specs.Records.{Each};
ghost use Rattle.pt_desk_rules.specs.TableNames.{all_tables};
ghost use Rattle.pt_desk_spelling.specs.Ranges.{IsWord};
ghost use Rattle.pt_tables_opening.specs.Faults.{fault};
ghost use Rattle.pt_tables_opening.specs.Tables.{HasNoneIn};
ghost use Rattle.pt_tables_opening.specs.Agency.{numbers};

use crate::OpenFault;
use pt_base_records::{Key, Span};
use pt_base_values::{Policy, TripId};
use pt_desk_rules::Change;
use pt_desk_store::ListKeeper;
use std::alloc::Global;

/// The empty key, which is nobody's. The admin of the least state has it until all callers are removed.
const NO_KEY: &[u8] = &[];

/// The desk after the change. Code 0: out of memory.
pub(crate) fn with_change(keeper: ListKeeper, change: Change) -> Result<ListKeeper, OpenFault>
    ensures content { IfOk result (λ made. made.content ≡ applied change keeper.content) }
    ensures memory { IfErr result (λ refused. refused ≡ fault cause.Memory) }
{
    let mut keeper = keeper;
    match keeper.reserve(&change) {
        Ok(()) => {
            keeper.make(change);
            Ok(keeper)
        }
        Err(_) => Err(OpenFault::MEMORY),
    }
}

/// The change that gives a new desk this policy and this number last given to a trip, and removes its only caller. Code
/// 0: out of memory.
fn agency_change(
    alloc: Global,
    policy: Policy,
    last_trip: Option<TripId>,
) -> Result<Change, OpenFault>
    ensures value { IfOk result (λ change. change ≡ record no_change {
      callers = record { away = numbers ∷ []; puts = [] };
      policy = Some policy;
      last_trip = last_trip;
    }) }
    ensures memory { IfErr result (λ refused. refused ≡ fault cause.Memory) }
{
    let mut change = Change {
        policy: Some(policy),
        last_trip,
        ..Change::none(alloc)
    };
    match change.callers.take_away(all_numbers()) {
        Ok(()) => Ok(change),
        Err(_) => Err(OpenFault::MEMORY),
    }
}

/// A desk with this policy, this number last given to a trip, and no records. Code 0: out of memory.
pub(crate) fn desk_of(
    alloc: Global,
    policy: Policy,
    last_trip: u32,
) -> Result<ListKeeper, OpenFault>
    ensures policy { IfOk result (λ keeper. keeper.content.policy ≡ policy) }
    ensures last_trip { IfOk result (λ keeper. keeper.content.last_trip ≡ last_trip) }
    ensures word { IfOk result (λ keeper. IsWord keeper.content.last_trip) }
    ensures none { IfOk result (λ keeper. Each (HasNoneIn keeper.content) all_tables) }
    ensures memory { IfErr result (λ refused. refused ≡ fault cause.Memory) }
{
    let change = agency_change(alloc, policy, TripId::of(last_trip))?;
    match ListKeeper::new(alloc, NO_KEY) {
        Ok(keeper) => with_change(keeper, change),
        Err(_) => Err(OpenFault::MEMORY),
    }
}

/// The span of all 32-bit keys.
fn all_numbers() -> Span
    ensures all { result ≡ numbers }
{
    Span {
        from: Key::of(0),
        to: Key::of(u32::MAX),
    }
}
