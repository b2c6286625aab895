ghost use Rattle.std.specs.Prelude.{◌≡◌, ◌+◌, ◌<◌, ◌≤◌, Some, length, slice_get};
ghost use Rattle.pt_feasible.specs.Route.{stops_of};
ghost use Rattle.pt_insertion_search.specs.Insertion.{IsWithout};

use pt_base_values::{Minute, PlaceId, Vehicle};
use pt_feasible::{Route, Stop, Stops};
use pt_insertion_search::Asked;

/// A vehicle's route with the trip put in at one place.
#[derive(Clone, Copy)]
pub struct Insertion<'a> {
    pub vehicle: &'a Vehicle,
    pub route: &'a Route,
    pub asked: &'a Asked,
    /// After how many of the route's stops the pickup comes.
    pub i: usize,
    /// After how many of the route's old stops the drop comes.
    pub j: usize,
    ghost drop_later: { i ≤ j },
    ghost among: { j ≤ length (stops_of route.now) },
    ghost new_trip: { IsWithout asked.now.trip (stops_of route.now) },
}

/// A visit of the route: to a stop, or to the depot at either end.
#[derive(Clone, Copy)]
pub struct Visit {
    pub place: PlaceId,
    pub lo: Minute,
    pub hi: Minute,
    pub service: u16,
}

impl Insertion<'_> {
    ghost use Rattle.pt_feasible.specs.Pairing.{most_stops};
    ghost use Rattle.pt_feasible.specs.Visit.{visits};
    ghost use Rattle.pt_audit.specs.Insertion.{inserted_stops, visit_as};

    /// How many stops there are, without the depot: two more than a route has.
    pub fn len(&self) -> usize
        ensures value { result ≡ length (inserted_stops self.now) }
        ensures short { result ≤ most_stops + 2 }
    {
        self.route.len() + 2
    }

    /// The stop with this number, counted from 0.
    pub fn stop(&self, k: usize) -> Stop
        requires { k < length (inserted_stops self.now) }
        ensures { slice_get (inserted_stops self.now) k ≡ Some result }
    {
        if k < self.i {
            self.route.stop(k)
        } else if k == self.i {
            self.asked.pickup_stop()
        } else if k <= self.j {
            self.route.stop(k - 1)
        } else if k == self.j + 1 {
            self.asked.drop_stop()
        } else {
            self.route.stop(k - 2)
        }
    }

    /// The visit with this number: 0 is leaving the depot, and the last one coming back.
    pub fn visit(&self, k: usize) -> Visit
        requires { k < length (inserted_stops self.now) + 2 }
        ensures { slice_get (visits self.now.vehicle.now (inserted_stops self.now)) k ≡ Some (visit_as result) }
    {
        if k == 0 || k > self.len() {
            return Visit {
                place: self.vehicle.depot,
                lo: self.vehicle.opens,
                hi: self.vehicle.closes,
                service: 0,
            };
        }
        let stop = self.stop(k - 1);
        Visit {
            place: stop.place,
            lo: stop.lo,
            hi: stop.hi,
            service: stop.service,
        }
    }
}
