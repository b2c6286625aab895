ghost use Rattle.std.specs.Prelude.{◌≡◌, ℕ, ◌+◌, ◌<◌, ◌≤◌, ◌↔◌, Option, length, take, IsTrue, IfSome, IfNone};
ghost use Rattle.pt_base_values.specs.Load.{load_sum, FitsWithin};
ghost use Rattle.pt_base_values.specs.Ranges.{last_minute};
ghost use Rattle.pt_feasible.specs.Loads.{load_aboard};
ghost use Rattle.pt_feasible.specs.Route.{stops_of};
ghost use Rattle.pt_insertion_search.specs.Bounds.{AreBounds, IsPickupWindow};
ghost use Rattle.pt_insertion_search.specs.Insertion.{IsWithout};
ghost use Rattle.pt_insertion_search.specs.Possible.{IsPossible};
ghost use Rattle.pt_insertion_search.specs.Riding.{IsRiding};

use crate::drop_search::DropSearch;
use crate::window::ServiceWindow;
use crate::{Asked, Duty};
use pt_base_values::{Load, PlaceId, Vehicle};
use pt_feasible::{aboard_after, visit_at};
use pt_travel::Times;

/// A ride from its pickup on, at one of the places where the vehicle stops.
#[derive(Clone, Copy)]
pub(crate) struct Riding {
    /// The origin, or the place of a stop after it.
    pub place: PlaceId,
    /// The minutes of driving and service from the end of the pickup to the end of the service there.
    pub minutes: u32,
    /// A minute of the day; the service there ends no earlier.
    pub leaves: u32,
    /// The load aboard from there on, without the requested trip's party.
    pub others: Load,
}

/// The ride as it begins after the first `i` stops; `None` if the vehicle has no room for the party.
pub(crate) fn board(
    duty: &Duty<'_>,
    asked: &Asked,
    pickup: ServiceWindow,
    i: usize,
    others: Load,
) -> Option<Riding>
    requires among { i ≤ length (stops_of duty.now.route.now) }
    requires new_trip { IsWithout asked.now.trip (stops_of duty.now.route.now) }
    requires others { others ≡ load_aboard (take i (stops_of duty.now.route.now)) }
    requires small { pickup.lo ≤ last_minute }
    ensures riding { (minutes : ℕ → ℕ → Option ℕ)
        → IsPickupWindow minutes duty.now.vehicle.now (stops_of duty.now.route.now) asked.now i pickup
        → IfSome result (λ riding.
        IsRiding minutes duty.now.vehicle.now (stops_of duty.now.route.now) asked.now i i riding) }
    ensures none { (minutes : ℕ → ℕ → Option ℕ) → IfNone result ((j : ℕ) →
        ¬ IsPossible minutes duty.now.vehicle.now (stops_of duty.now.route.now) asked.now i j) }
{
    if !has_room(duty.vehicle, others, asked.load) {
        return None;
    }
    Some(Riding {
        place: asked.origin,
        minutes: 0,
        leaves: pickup.lo + u32::from(asked.service),
        others,
    })
}

/// The ride one stop on; `None` if from there on the vehicle is too full or too late, or the ride too long.
///
/// Then no later drop is possible. Only driving and service count in a ride's length: a wait makes it no shorter.
pub(crate) fn ride_on<T: Times>(
    drops: &DropSearch<'_>,
    times: &T,
    riding: Riding,
    j: usize,
) -> Option<Riding>
    requires drop_later { drops.now.i ≤ j }
    requires stop { j < length (stops_of drops.now.duty.route.now) }
    requires new_trip { IsWithout drops.now.asked.now.trip (stops_of drops.now.duty.route.now) }
    requires bounds { AreBounds (T.minutes times.now) drops.now.duty.vehicle.now
        (stops_of drops.now.duty.route.now) drops.now.bounds.now }
    requires riding { IsRiding (T.minutes times.now) drops.now.duty.vehicle.now
        (stops_of drops.now.duty.route.now) drops.now.asked.now drops.now.i j riding }
    ensures riding { IfSome result (λ on. IsRiding (T.minutes times.now) drops.now.duty.vehicle.now
        (stops_of drops.now.duty.route.now) drops.now.asked.now drops.now.i (j + 1) on) }
    ensures none { IfNone result ((later : ℕ) → j + 1 ≤ later →
        ¬ IsPossible (T.minutes times.now) drops.now.duty.vehicle.now
        (stops_of drops.now.duty.route.now) drops.now.asked.now drops.now.i later) }
{
    let DropSearch {
        duty,
        asked,
        bounds,
        ..
    } = *drops;
    let Asked { goal, ride, .. } = *asked;
    let here = visit_at(duty.route, duty.vehicle, j + 1);
    let others = aboard_after(duty.route, j, riding.others)?;
    let drive = times.minutes(riding.place, here.place)?;
    let rest = times.minutes(here.place, goal)?;
    let minutes = riding.minutes + u32::from(drive) + u32::from(here.service);
    if minutes + u32::from(rest) > u32::from(ride) {
        return None;
    }
    if !has_room(duty.vehicle, others, asked.load) {
        return None;
    }
    let begins = u32::from(bounds.earliest[j + 1]).max(riding.leaves + u32::from(drive));
    if begins > u32::from(bounds.latest[j + 1]) {
        return None;
    }
    Some(Riding {
        place: here.place,
        minutes,
        leaves: begins + u32::from(here.service),
        others,
    })
}

/// Whether the vehicle has room for both loads together.
fn has_room(vehicle: &Vehicle, others: Load, party: Load) -> bool
    ensures { IsTrue result ↔ FitsWithin (load_sum others party) vehicle.now }
{
    match others.plus(party) {
        Some(load) => load.fits(vehicle),
        None => false,
    }
}
