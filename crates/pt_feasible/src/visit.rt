ghost use Rattle.std.specs.Prelude.{◌≡◌, ◌+◌, ◌<◌, Some, length, slice_get};
ghost use Rattle.pt_feasible.specs.Visit.{visits};

use crate::Stops;
use pt_base_values::{Minute, PlaceId, Vehicle};

/// A visit of a route, to a stop or to the depot.
#[derive(Clone, Copy)]
pub struct Visit {
    pub place: PlaceId,
    pub lo: Minute,
    pub hi: Minute,
    pub service: u16,
}

/// The visit with this number: 0 is leaving the depot, and the last one coming back.
pub fn visit_at<S: Stops>(stops: &S, vehicle: &Vehicle, k: usize) -> Visit
    requires { k < length (S.stops stops.now) + 2 }
    ensures { slice_get (visits vehicle.now (S.stops stops.now)) k ≡ Some result }
{
    if k == 0 || k > stops.len() {
        return Visit {
            place: vehicle.depot,
            lo: vehicle.opens,
            hi: vehicle.closes,
            service: 0,
        };
    }
    let stop = stops.stop(k - 1);
    Visit {
        place: stop.place,
        lo: stop.lo,
        hi: stop.hi,
        service: stop.service,
    }
}
