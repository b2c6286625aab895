ghost use Rattle.std.specs.Prelude.{◌≡◌, ℕ, ◌+◌, ◌-◌, ◌<◌, ◌≤◌, Some, length, slice_get, slice_index, IsTrue};
ghost use Rattle.std.specs.Prelude.{IsNone, IfSome, Option};
ghost use Rattle.pt_feasible.specs.declared.stop.Stop.{Stop};
ghost use Rattle.pt_feasible.specs.Stop.{is_pickup, is_drop};
ghost use Rattle.pt_audit.specs.Bounds.{visit_of};
ghost use Rattle.pt_audit.specs.declared.bounds.TheConstants.{MAX_VISITS};
ghost use Rattle.pt_audit.specs.Insertion.{inserted_stops};
ghost use Rattle.pt_insertion_log.specs.Steps.{Raises, IsDriven, IsRidden};

use crate::rides::drop_of;
use pt_audit::{Bounds, Insertion, Raise};
use pt_travel::Times;

/// The raise of visit `k` to the vehicle's arrival there, if that is after its bound and after its window begins.
pub(crate) fn drive_raise<T: Times>(
    insertion: &Insertion<'_>,
    times: &T,
    bounds: &Bounds,
    k: usize,
) -> Option<Raise>
    requires visit { k < length (inserted_stops insertion.now) + 2 }
    requires short { k < MAX_VISITS }
    ensures raise { IfSome result (Raises (T.minutes times.now) insertion.now.vehicle.now
        (inserted_stops insertion.now) (slice_index bounds.now)) }
    ensures at { IfSome result (λ raise. visit_of raise ≡ k) }
    ensures none { IsNone result → IsDriven (T.minutes times.now) insertion.now.vehicle.now
        (inserted_stops insertion.now) (slice_index bounds.now) k }
{
    if k == 0 {
        return None;
    }
    let this = insertion.visit(k - 1);
    let next = insertion.visit(k);
    let drive = times.minutes(this.place, next.place)?;
    let arrival = bounds[k - 1].saturating_add(u32::from(this.service) + u32::from(drive));
    if bounds[k] < arrival && next.lo.number() < arrival {
        return Some(Raise::Drive(k as u32, arrival));
    }
    None
}

/// The raise of visit `k` toward its drop, if it is a pickup whose bound is too early for the ride limit.
pub(crate) fn ride_raise(insertion: &Insertion<'_>, bounds: &Bounds, k: usize) -> Option<Raise>
    requires { k < length (inserted_stops insertion.now) + 2 }
    ensures raise { (minutes : ℕ → ℕ → Option ℕ) → IfSome result (Raises minutes insertion.now.vehicle.now
        (inserted_stops insertion.now) (slice_index bounds.now)) }
    ensures at { IfSome result (λ raise. visit_of raise ≡ k) }
    ensures none { IsNone result → IsRidden (inserted_stops insertion.now) (slice_index bounds.now) k }
{
    if k == 0 || k > insertion.len() {
        return None;
    }
    let drop = drop_of(insertion, k - 1)?;
    let pickup = insertion.stop(k - 1);
    let taken = u64::from(pickup.service) + u64::from(pickup.ride);
    let needed = u64::from(bounds[drop + 1]).saturating_sub(taken);
    if u64::from(bounds[k]) < needed {
        return Some(Raise::Ride(k as u32, needed as u32));
    }
    None
}
