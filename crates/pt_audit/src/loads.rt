ghost use Rattle.std.specs.Prelude.{◌≡◌, ◌+◌, ◌≤◌, ◌↔◌, length, take, IsTrue};
ghost use Rattle.pt_base_values.specs.Load.{FitsWithin};
ghost use Rattle.pt_feasible.specs.Loads.{load_aboard};
ghost use Rattle.pt_feasible.specs.Pairing.{most_stops};
ghost use Rattle.pt_audit.specs.Insertion.{inserted_stops};

use crate::insertion::Insertion;
use pt_base_values::Load;
use pt_feasible::StopKind;

/// The loads of many stops together, which may be more than any vehicle carries at once.
#[derive(Clone, Copy)]
struct Total {
    pub seats: u32,
    pub chairs: u32,
}

impl Total {
    /// The total of no party.
    fn none() -> Self
        ensures seats { result.seats ≡ 0 }
        ensures chairs { result.chairs ≡ 0 }
    {
        Total {
            seats: 0,
            chairs: 0,
        }
    }

    /// The total with one more party.
    fn with(self, load: Load) -> Self
        requires seats { self.seats ≤ 4_000_000_000 }
        requires chairs { self.chairs ≤ 4_000_000_000 }
        ensures seats { result.seats ≡ self.seats + load.seats }
        ensures chairs { result.chairs ≡ self.chairs + load.chairs }
    {
        Total {
            seats: self.seats + u32::from(load.seats),
            chairs: self.chairs + u32::from(load.chairs),
        }
    }
}

/// Whether more are aboard after the first `k` stops than the vehicle carries.
pub(crate) fn is_overloaded(insertion: &Insertion<'_>, k: usize) -> bool
    requires among { k ≤ length (inserted_stops insertion.now) }
    requires short { length (inserted_stops insertion.now) ≤ most_stops + 2 }
    ensures { IsTrue result
        ↔ ¬ FitsWithin (load_aboard (take k (inserted_stops insertion.now))) insertion.now.vehicle.now }
{
    let mut came = Total::none();
    let mut left = Total::none();
    for place in 0..k {
        let stop = insertion.stop(place);
        match stop.kind {
            StopKind::Pickup => came = came.with(stop.load),
            StopKind::Drop => left = left.with(stop.load),
        }
    }
    came.seats.saturating_sub(left.seats) > u32::from(insertion.vehicle.capacity)
        || came.chairs.saturating_sub(left.chairs) > u32::from(insertion.vehicle.chairs)
}
