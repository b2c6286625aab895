ghost use Rattle.std.specs.Prelude.{◌≡◌, ◌≤◌, length};
ghost use Rattle.pt_feasible.specs.Pairing.{IsPaired};
ghost use Rattle.pt_feasible.specs.Route.{stops_of};
ghost use Rattle.pt_insertion_search.specs.Insertion.{with_trip, IsWithout};

use crate::Asked;
use crate::insertion::stop_at;
use pt_feasible::{Route, Stop, Stops};

/// A borrowed route with a trip put in, without a copy.
#[derive(Clone, Copy)]
pub struct Spliced<'a> {
    route: &'a Route,
    asked: &'a Asked,
    i: usize,
    j: usize,
    ghost drop_later: { i ≤ j },
    ghost among: { j ≤ length (stops_of route.now) },
    ghost paired: { IsPaired (with_trip asked.now i j (stops_of route.now)) },
}

impl<'a> Spliced<'a> {
    ghost use Rattle.pt_insertion_search.specs.SplicedStops.{spliced_stops};

    /// The route with the trip's pickup after its first `i` stops, and the drop after its first `j`.
    pub fn of(route: &'a Route, asked: &'a Asked, i: usize, j: usize) -> Self
        requires drop_later { i ≤ j }
        requires among { j ≤ length (stops_of route.now) }
        requires new_trip { IsWithout asked.now.trip (stops_of route.now) }
        ensures { spliced_stops result ≡ with_trip asked.now i j (stops_of route.now) }
    {
        Spliced { route, asked, i, j }
    }
}

impl Stops for Spliced<'_> {
    ghost use Rattle.pt_insertion_search.specs.SplicedStops.{spliced_stops};

    ghost stops = { spliced_stops };

    ghost paired = { λ spliced. spliced.paired };

    fn len(&self) -> usize {
        self.route.len() + 2
    }

    fn stop(&self, k: usize) -> Stop {
        stop_at(self.route, self.asked, self.i, self.j, k)
    }
}
