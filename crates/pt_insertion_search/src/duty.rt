ghost use Rattle.std.specs.Prelude.{ℕ, ◌<◌, ◌↔◌, All, AllPairs, IsTrue};
ghost use Rattle.pt_feasible.specs.Route.{stops_of};
ghost use Rattle.pt_insertion_search.specs.Insertion.{IsWithout};

use crate::RouteEdits;
use pt_base_values::{TripId, Vehicle};
use pt_feasible::Route;

/// A vehicle on duty on a day, and its route of that day.
#[derive(Clone, Copy)]
pub struct Duty<'a> {
    pub vehicle: &'a Vehicle,
    pub route: &'a Route,
}

/// Whether the vehicles' numbers rise.
pub fn are_rising(duties: &[Duty<'_>]) -> bool
    ensures { IsTrue result ↔ AllPairs (λ first second. first.vehicle.now.id < second.vehicle.now.id) duties.now }
{
    for k in 1..duties.len() {
        if duties[k - 1].vehicle.id.number() >= duties[k].vehicle.id.number() {
            return false;
        }
    }
    true
}

/// Whether none of the routes has a stop of this trip.
pub fn are_without(duties: &[Duty<'_>], trip: TripId) -> bool
    ensures { IsTrue result ↔ All (λ duty. IsWithout trip (stops_of duty.route.now)) duties.now }
{
    duties.iter().all(|duty| duty.route.is_without(trip))
}
