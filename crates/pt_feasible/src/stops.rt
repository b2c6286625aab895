ghost use Rattle.std.specs.Prelude.{◌≡◌, ◌<◌, List, Some, length, slice_get};
ghost use Rattle.pt_feasible.specs.declared.stop.Stop.{Stop};
ghost use Rattle.pt_feasible.specs.Pairing.{IsPaired};

use crate::Stop;

/// The stops of a vehicle on a day in their order, without the depot at either end.
pub trait Stops {
    /// The list of the stops.
    ghost stops: { Self → List Stop };

    /// How many stops there are.
    fn len(&self) -> usize
        ensures value { result ≡ length (stops self.now) };

    /// The stop with this number, counted from 0.
    fn stop(&self, k: usize) -> Stop
        requires { k < length (stops self.now) }
        ensures value { slice_get (stops self.now) k ≡ Some result };

    /// Each trip has one pickup and one later drop, alike in service, load and ride limit.
    ghost paired: { (s : Self) → IsPaired (stops s) };
}
