ghost use Rattle.std.specs.Prelude.{◌≡◌, ◌≤◌, ◌↔◌, vec_len, All, IsTrue, IsSome, IfSome};
ghost use Rattle.std.specs.List.{list_any};
ghost use Rattle.pt_feasible.specs.Pairing.{most_stops, IsPickupThenDrop, is_partner, IsPaired};

use crate::{MAX_STOPS, Stop, StopKind, Stops};

/// A route of at most `MAX_STOPS` stops, in which each trip has one pickup and one later drop.
#[derive(Drop)]
pub struct Route {
    stops: Vec<Stop>,
    ghost short: { vec_len stops ≤ most_stops },
    ghost paired: { IsPaired stops.items },
}

impl Route {
    ghost use Rattle.pt_feasible.specs.Route.{stops_of};

    /// The route with these stops; `None` if they are more than `MAX_STOPS` or not in pairs. It takes no memory.
    pub fn of(stops: Vec<Stop>) -> Option<Self>
        ensures is_route { IsSome result ↔ ((vec_len stops ≤ most_stops) × IsPaired stops.items) }
        ensures value { IfSome result (λ route. stops_of route ≡ stops.items) }
    {
        if stops.len() > MAX_STOPS || !is_paired(&stops) {
            return None;
        }
        Some(Route { stops })
    }
}

impl Stops for Route {
    ghost use Rattle.pt_feasible.specs.Route.{stops_of};

    ghost stops = { stops_of };

    ghost paired = { λ route. route.paired };

    fn len(&self) -> usize {
        self.stops.len()
    }

    fn stop(&self, k: usize) -> Stop {
        self.stops[k]
    }
}

/// Whether each trip has one pickup and one later drop.
fn is_paired(stops: &[Stop]) -> bool
    ensures { IsTrue result ↔ IsPaired stops.now }
{
    for k in 0..stops.len() {
        if !follows_in_order(&stops[..k], &stops[k]) || !has_partner(stops, &stops[k]) {
            return false;
        }
    }
    true
}

/// Whether each earlier stop of the same trip is its pickup, and this one its drop.
fn follows_in_order(earlier: &[Stop], second: &Stop) -> bool
    ensures { IsTrue result
        ↔ All (λ first. first.trip ≡ second.now.trip → IsPickupThenDrop first second.now) earlier.now }
{
    earlier.iter().all(|first| first.trip != second.trip || is_pickup_then_drop(first, second))
}

fn is_pickup_then_drop(first: &Stop, second: &Stop) -> bool
    ensures { IsTrue result ↔ IsPickupThenDrop first.now second.now }
{
    first.kind == StopKind::Pickup
        && second.kind == StopKind::Drop
        && first.service == second.service
        && first.load == second.load
        && first.ride == second.ride
}

/// Whether the other stop of its trip is among the stops.
fn has_partner(stops: &[Stop], stop: &Stop) -> bool
    ensures { result ≡ list_any (is_partner stop.now) stops.now }
{
    stops.iter().any(|other| is_partner(stop, other))
}

fn is_partner(stop: &Stop, other: &Stop) -> bool
    ensures { result ≡ is_partner stop.now other.now }
{
    stop.trip == other.trip && stop.kind != other.kind
}
