ghost use Rattle.std.specs.Prelude.{◌≡◌, ℕ, ◌<◌, ◌↔◌, Some, length, IfSome};
ghost use Rattle.pt_audit.specs.Insertion.{inserted_stops};
ghost use Rattle.pt_insertion_log.specs.Steps.{IsRide};

use pt_audit::Insertion;
use pt_feasible::StopKind;

/// The stop that drops the trip that stop `i` picks up, searched from there on; `None` if stop `i` is not a pickup.
pub(crate) fn drop_of(insertion: &Insertion<'_>, i: usize) -> Option<usize>
    ensures drop { (j : ℕ) → (result ≡ Some j) ↔ IsRide (inserted_stops insertion.now) i j }
    ensures among { IfSome result (λ j. j < length (inserted_stops insertion.now)) }
{
    if i >= insertion.len() {
        return None;
    }
    let pickup = insertion.stop(i);
    if pickup.kind != StopKind::Pickup {
        return None;
    }
    for j in i + 1..insertion.len() {
        if insertion.stop(j).trip == pickup.trip {
            return Some(j);
        }
    }
    None
}

/// The stop that picks up the trip that stop `j` drops, searched from there back; `None` if stop `j` is not a drop.
pub(crate) fn pickup_of(insertion: &Insertion<'_>, j: usize) -> Option<usize>
    ensures pickup { (i : ℕ) → (result ≡ Some i) ↔ IsRide (inserted_stops insertion.now) i j }
    ensures before { IfSome result (λ i. i < j) }
{
    if j >= insertion.len() {
        return None;
    }
    let drop = insertion.stop(j);
    if drop.kind != StopKind::Drop {
        return None;
    }
    for back in 0..j {
        let i = j - 1 - back;
        if insertion.stop(i).trip == drop.trip {
            return Some(i);
        }
    }
    None
}
