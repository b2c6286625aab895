ghost use Rattle.std.specs.Prelude.{◌≡◌, ◌≢◌, ℕ, ◌<◌, ◌≤◌, Option};
ghost use Rattle.pt_audit.specs.Bounds.{visit_of, raised};
ghost use Rattle.pt_audit.specs.Insertion.{inserted_stops};
ghost use Rattle.pt_insertion_log.specs.Steps.{IsKeptAt};

use crate::rides::pickup_of;
use pt_audit::{Insertion, Raise};

/// The first visit whose constraints a raise can break. A raised drop touches its pickup, and a raised return touches
/// leaving the depot; other raises touch no visit before their own.
pub(crate) fn first_touched(insertion: &Insertion<'_>, raise: Raise) -> usize
    ensures no_later { result ≤ visit_of raise }
    ensures kept { (minutes : ℕ → ℕ → Option ℕ) (bound : ℕ → ℕ) (k : ℕ) → k < visit_of raise → k ≢ result →
        IsKeptAt minutes insertion.now.vehicle.now (inserted_stops insertion.now) bound k →
        IsKeptAt minutes insertion.now.vehicle.now (inserted_stops insertion.now) (raised bound raise) k }
{
    let k = raised_visit(raise);
    if k == 0 || k > insertion.len() {
        return 0;
    }
    match pickup_of(insertion, k - 1) {
        Some(i) => i + 1,
        None => k,
    }
}

/// The visit whose bound a raise raises.
pub(crate) fn raised_visit(raise: Raise) -> usize
    ensures { result ≡ visit_of raise }
{
    match raise {
        Raise::Window(k, _) | Raise::Drive(k, _) | Raise::Ride(k, _) => k as usize,
        Raise::Duration(_) => 0,
    }
}
