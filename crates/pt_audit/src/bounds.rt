ghost use Rattle.std.specs.Prelude.{◌≡◌, ℕ, ◌<◌, ◌↔◌, None, slice_index, IsTrue};
ghost use Rattle.pt_audit.specs.Bounds.{visit_of, raised, ArrivesFrom, RidesTo, IsRightRaise, IsRightEnd};
ghost use Rattle.pt_audit.specs.declared.bounds.TheConstants.{MAX_VISITS};
ghost use Rattle.pt_audit.specs.Insertion.{inserted_stops};

use crate::insertion::Insertion;
use crate::loads::is_overloaded;
use crate::{End, Raise};
use pt_feasible::{MAX_STOPS, StopKind};
use pt_travel::Times;

/// Lower bounds of the service times at all visits, in minutes of the day.
pub type Bounds = [u32; MAX_VISITS];

/// The most visits: the depot twice, a full route and two stops more.
pub const MAX_VISITS: usize = 104;

const _: () = prove!(MAX_STOPS + 4 == MAX_VISITS);

/// Whether a raise is right by the bounds before it.
pub(crate) fn is_right_raise<T: Times>(
    insertion: &Insertion<'_>,
    times: &T,
    bounds: &Bounds,
    raise: Raise,
) -> bool
    ensures { IsTrue result ↔ IsRightRaise (T.minutes times.now) insertion.now.vehicle.now
        (inserted_stops insertion.now) (slice_index bounds.now) raise }
{
    match raise {
        Raise::Window(k, minute) => is_in_window(insertion, k as usize, minute),
        Raise::Drive(k, minute) => is_after_drive(insertion, times, bounds, k as usize, minute),
        Raise::Ride(k, minute) => is_before_drop(insertion, bounds, k as usize, minute),
        Raise::Duration(minute) => {
            u64::from(minute) + u64::from(insertion.vehicle.duration)
                <= u64::from(bounds[insertion.len() + 1])
        }
    }
}

/// Whether the minute is no later than the beginning of the window of visit `k`.
fn is_in_window(insertion: &Insertion<'_>, k: usize, minute: u32) -> bool
    ensures { IsTrue result ↔ IsRightRaise (λ _ _. None) insertion.now.vehicle.now
        (inserted_stops insertion.now) (λ _. 0) (Raise.Window k minute) }
{
    k < insertion.len() + 2 && minute <= insertion.visit(k).lo.number()
}

/// Whether the minute is no later than the vehicle's arrival at visit `k` from the visit before.
fn is_after_drive<T: Times>(
    insertion: &Insertion<'_>,
    times: &T,
    bounds: &Bounds,
    k: usize,
    minute: u32,
) -> bool
    ensures { IsTrue result ↔ ArrivesFrom (T.minutes times.now) insertion.now.vehicle.now
        (inserted_stops insertion.now) (slice_index bounds.now) k minute }
{
    if k == 0 || k > insertion.len() + 1 {
        return false;
    }
    let this = insertion.visit(k - 1);
    let next = insertion.visit(k);
    match times.minutes(this.place, next.place) {
        Some(drive) => {
            u64::from(minute)
                <= u64::from(bounds[k - 1]) + u64::from(this.service) + u64::from(drive)
        }
        None => false,
    }
}

/// Whether visit `k` is a pickup that cannot begin before the minute, by its ride limit and the bound of its drop.
fn is_before_drop(insertion: &Insertion<'_>, bounds: &Bounds, k: usize, minute: u32) -> bool
    ensures { IsTrue result ↔ RidesTo (inserted_stops insertion.now) (slice_index bounds.now) k minute }
{
    if k == 0 || k > insertion.len() {
        return false;
    }
    let pickup = insertion.stop(k - 1);
    if pickup.kind != StopKind::Pickup {
        return false;
    }
    let needed = u64::from(minute) + u64::from(pickup.service) + u64::from(pickup.ride);
    for j in 0..insertion.len() {
        let drop = insertion.stop(j);
        if drop.kind == StopKind::Drop
            && drop.trip == pickup.trip
            && needed <= u64::from(bounds[j + 1])
        {
            return true;
        }
    }
    false
}

/// Raises the bound of the raise's visit to its minute.
pub fn raise_bound(bounds: &mut Bounds, raise: Raise)
    requires { visit_of raise < MAX_VISITS }
    ensures { (k : ℕ) → slice_index bounds.new k ≡ raised (slice_index bounds.old) raise k }
{
    let (k, minute) = match raise {
        Raise::Window(k, minute) | Raise::Drive(k, minute) | Raise::Ride(k, minute) => (k, minute),
        Raise::Duration(minute) => (0, minute),
    };
    let k = k as usize;
    bounds[k] = bounds[k].max(minute);
}

/// Whether an end is right by the bounds before it.
pub fn is_right_end<T: Times>(
    insertion: &Insertion<'_>,
    times: &T,
    bounds: &Bounds,
    end: End,
) -> bool
    ensures { IsTrue result ↔ IsRightEnd (T.minutes times.now) insertion.now.vehicle.now
        (inserted_stops insertion.now) (slice_index bounds.now) end }
{
    match end {
        End::Late(k) => is_late(insertion, bounds, k as usize),
        End::Overloaded(k) => {
            k as usize <= insertion.len() && is_overloaded(insertion, k as usize)
        }
        End::NoWay(k) => is_without_way(insertion, times, k as usize),
        End::TooLong => insertion.len() > MAX_STOPS,
    }
}

/// Whether the bound of visit `k` is past its window.
fn is_late(insertion: &Insertion<'_>, bounds: &Bounds, k: usize) -> bool
    ensures { IsTrue result ↔ IsRightEnd (λ _ _. None) insertion.now.vehicle.now
        (inserted_stops insertion.now) (slice_index bounds.now) (End.Late k) }
{
    k < insertion.len() + 2 && insertion.visit(k).hi.number() < bounds[k]
}

/// Whether there is no way from visit `k` to the next.
fn is_without_way<T: Times>(insertion: &Insertion<'_>, times: &T, k: usize) -> bool
    ensures { IsTrue result ↔ IsRightEnd (T.minutes times.now) insertion.now.vehicle.now
        (inserted_stops insertion.now) (λ _. 0) (End.NoWay k) }
{
    if k > insertion.len() {
        return false;
    }
    let this = insertion.visit(k);
    let next = insertion.visit(k + 1);
    times.minutes(this.place, next.place).is_none()
}
