ghost use Rattle.std.specs.Prelude.{◌≡◌, ◌+◌, ◌<◌, ◌≤◌, ◌↔◌, length, take, IsTrue, IfSome, IfNone};
ghost use Rattle.pt_base_values.specs.Load.{IsLoad};
ghost use Rattle.pt_feasible.specs.Loads.{LoadsFit, load_aboard};
ghost use Rattle.pt_feasible.specs.Pairing.{most_stops};

use crate::{StopKind, Stops};
use pt_base_values::{Load, Vehicle};

/// Whether the load aboard after each stop fits within the vehicle. It takes no memory.
pub fn loads_fit<S: Stops>(stops: &S, vehicle: &Vehicle) -> bool
    requires { length (S.stops stops.now) ≤ most_stops }
    ensures { IsTrue result ↔ LoadsFit vehicle.now (S.stops stops.now) }
{
    let mut aboard = Load::none();
    for k in 0..stops.len() {
        match aboard_after(stops, k, aboard) {
            Some(load) => aboard = load,
            None => return false,
        }
        if !aboard.fits(vehicle) {
            return false;
        }
    }
    true
}

/// The load aboard after the stop with this number, from the load before it.
///
/// `None` if that is more than any vehicle carries.
pub fn aboard_after<S: Stops>(stops: &S, k: usize, aboard: Load) -> Option<Load>
    requires stop { k < length (S.stops stops.now) }
    requires before { aboard ≡ load_aboard (take k (S.stops stops.now)) }
    ensures after { IfSome result (λ load. load ≡ load_aboard (take (k + 1) (S.stops stops.now))) }
    ensures none { IfNone result (¬ IsLoad (load_aboard (take (k + 1) (S.stops stops.now)))) }
{
    let stop = stops.stop(k);
    match stop.kind {
        StopKind::Pickup => aboard.plus(stop.load),
        StopKind::Drop => Some(aboard.minus(stop.load)),
    }
}
