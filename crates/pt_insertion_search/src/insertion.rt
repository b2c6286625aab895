ghost use Rattle.std.specs.Prelude.{◌≡◌, ◌+◌, ◌<◌, ◌≤◌, Some, length, slice_get};
ghost use Rattle.pt_insertion_search.specs.Insertion.{with_trip};

use crate::Asked;
use pt_feasible::{Stop, Stops};

/// The stop with this number, counted from 0, of the route with the trip put in.
pub(crate) fn stop_at<S: Stops>(stops: &S, asked: &Asked, i: usize, j: usize, k: usize) -> Stop
    requires drop_later { i ≤ j }
    requires among { j ≤ length (S.stops stops.now) }
    requires stop { k < length (S.stops stops.now) + 2 }
    ensures { slice_get (with_trip asked.now i j (S.stops stops.now)) k ≡ Some result }
{
    if k < i {
        stops.stop(k)
    } else if k == i {
        asked.pickup_stop()
    } else if k <= j {
        stops.stop(k - 1)
    } else if k - 1 == j {
        asked.drop_stop()
    } else {
        stops.stop(k - 2)
    }
}
