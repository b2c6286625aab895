ghost use Rattle.std.specs.Prelude.{◌≡◌, ◌+◌, ◌≤◌, ◌↔◌, length, IsTrue, IfOk, IfErr};
ghost use Rattle.pt_base_values.specs.Fault.{fault};
ghost use Rattle.pt_base_values.specs.declared.fault.Cause.TheVariants as cause;
ghost use Rattle.pt_feasible.specs.Pairing.{most_stops};
ghost use Rattle.pt_feasible.specs.Route.{stops_of};
ghost use Rattle.pt_insertion_search.specs.Insertion.{with_trip, IsWithout};
ghost use Rattle.pt_insertion_search.specs.Removal.{without_trip, KeepsFittingTimes, KeepsFittingLoads};

use crate::insertion::stop_at;
use crate::{Asked, Chosen};
use pt_base_values::{Fault, TripId};
use pt_feasible::{Route, Stops};
use std::alloc::Global;

/// Routes with a trip put in or taken out.
pub trait RouteEdits: Stops {
    /// Whether none of the stops is one of this trip.
    fn is_without(&self, trip: TripId) -> bool
        ensures value { IsTrue result ↔ IsWithout trip (Self.stops self.now) };

    /// The route with the trip put in at the chosen place. The fault is out of memory.
    fn inserted(&self, alloc: Global, asked: &Asked, chosen: &Chosen) -> Result<Route, Fault>
        requires drop_later { chosen.now.i ≤ chosen.now.j }
        requires among { chosen.now.j ≤ length (Self.stops self.now) }
        requires room { length (Self.stops self.now) + 2 ≤ most_stops }
        requires new_trip { IsWithout asked.now.trip (Self.stops self.now) }
        ensures value { IfOk result (λ route.
            stops_of route ≡ with_trip asked.now chosen.now.i chosen.now.j (Self.stops self.now)) }
        ensures memory { IfErr result (λ refused. refused ≡ fault cause.Memory) };

    /// The route without the trip's stops. The fault is out of memory.
    fn removed(&self, alloc: Global, trip: TripId) -> Result<Route, Fault>
        ensures value { IfOk result (λ route. stops_of route ≡ without_trip trip (Self.stops self.now)) }
        ensures times { IfOk result (λ route. KeepsFittingTimes trip (Self.stops self.now) (stops_of route)) }
        ensures loads { IfOk result (λ route. KeepsFittingLoads (Self.stops self.now) (stops_of route)) }
        ensures memory { IfErr result (λ refused. refused ≡ fault cause.Memory) };
}

impl RouteEdits for Route {
    fn is_without(&self, trip: TripId) -> bool {
        for k in 0..self.len() {
            if self.stop(k).trip == trip {
                return false;
            }
        }
        true
    }

    fn inserted(&self, alloc: Global, asked: &Asked, chosen: &Chosen) -> Result<Route, Fault> {
        let len = self.len() + 2;
        let mut stops = Vec::with_capacity(alloc, len)?;
        for k in 0..len {
            stops
                .push(stop_at(self, asked, chosen.i, chosen.j, k))
                .unwrap();
        }
        Ok(Route::of(stops).unwrap())
    }

    fn removed(&self, alloc: Global, trip: TripId) -> Result<Route, Fault> {
        let mut stops = Vec::with_capacity(alloc, self.len())?;
        for k in 0..self.len() {
            let stop = self.stop(k);
            if stop.trip != trip {
                stops.push(stop).unwrap();
            }
        }
        Ok(Route::of(stops).unwrap())
    }
}
