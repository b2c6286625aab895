ghost use Rattle.std.specs.Prelude.{◌≡◌, ◌↔◌, IsTrue, IsSome, IfSome};
ghost use Rattle.pt_base_values.specs.Load.{no_load, load_sum, load_difference, IsLoad, FitsWithin};

use crate::Vehicle;

/// The room in a vehicle that one party takes, or all parties aboard.
#[derive(Clone, Copy, PartialEq, Eq)]
pub struct Load {
    /// Persons who take a seat.
    pub seats: u16,
    /// Riders who take a wheelchair place.
    pub chairs: u16,
}

impl Load {
    /// Nobody.
    pub fn none() -> Self
        ensures { result ≡ no_load }
    {
        Load {
            seats: 0,
            chairs: 0,
        }
    }

    /// The sum of both loads; `None` if a part of it is more than any vehicle carries.
    pub fn plus(self, other: Load) -> Option<Self>
        ensures in_range { IsSome result ↔ IsLoad (load_sum self other) }
        ensures value { IfSome result (λ load. load ≡ load_sum self other) }
    {
        let seats = self.seats.checked_add(other.seats)?;
        let chairs = self.chairs.checked_add(other.chairs)?;
        Some(Load { seats, chairs })
    }

    /// What stays aboard when the other load leaves; 0 in a part where the other is larger.
    pub fn minus(self, other: Load) -> Self
        ensures { result ≡ load_difference self other }
    {
        Load {
            seats: self.seats.saturating_sub(other.seats),
            chairs: self.chairs.saturating_sub(other.chairs),
        }
    }

    /// Whether the vehicle has room for the load.
    pub fn fits(self, vehicle: &Vehicle) -> bool
        ensures { IsTrue result ↔ FitsWithin self vehicle.now }
    {
        self.seats <= vehicle.capacity && self.chairs <= vehicle.chairs
    }
}
