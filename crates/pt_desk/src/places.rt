ghost use Rattle.std.specs.Prelude.{◌≡◌, IfOk, map};
ghost use Rattle.std.specs.List.Sorted.{IsStrictlyIncreasing};
ghost use Rattle.pt_desk_rules.specs.State.{place_key};
ghost use Rattle.pt_desk.specs.Places.{numbers_in};
ghost use Rattle.pt_desk_store.specs.Store.{Fails, Reads};

use pt_base_values::{Place, PlaceId};
use pt_desk_store::{Keeper, StoreFault};
use std::alloc::{AllocError, Global};

/// The numbers of these places. The error is out of memory.
fn ids_of(alloc: Global, places: &[Place]) -> Result<Vec<PlaceId>, AllocError>
    ensures value { IfOk result (λ ids. ids.items ≡ map place_key places.now) }
{
    let mut ids = Vec::new(alloc);
    for place in places {
        ids.push(place.id)?;
    }
    Ok(ids)
}

/// The numbers of all places, in rising order: the places that a travel table may name.
///
/// The error is the store's, or out of memory. Nothing is ever changed.
pub fn place_ids<K: Keeper>(alloc: Global, keeper: &mut K) -> Result<Vec<PlaceId>, StoreFault>
    ensures reads { Reads (K.store keeper.old) (K.store keeper.new) (λ s. map place_key s.places) (numbers_in result) }
    ensures rising { IfOk result (λ ids. IsStrictlyIncreasing ids.items) }
    ensures fails { Fails (K.store keeper.old).failures (K.store keeper.new).failures result }
{
    if keeper.failures() > 0 {
        return Err(StoreFault::Store);
    }
    let places = keeper.places(alloc)?;
    Ok(ids_of(alloc, places.as_slice())?)
}
