use crate::{Key, Keyed};
use pt_base_values::{Day, Place, Rider, Trip, Vehicle};

impl Keyed for Day {
    ghost key = { λ day. day };

    fn key(&self) -> Key {
        Key::of(self.number())
    }
}

impl Keyed for Place {
    ghost key = { λ place. place.id };

    fn key(&self) -> Key {
        Key::of(self.id.number())
    }
}

impl Keyed for Rider {
    ghost key = { λ rider. rider.id };

    fn key(&self) -> Key {
        Key::of(self.id.number())
    }
}

impl Keyed for Vehicle {
    ghost use Rattle.pt_base_records.specs.Keys.{pair_key};

    ghost key = { λ vehicle. pair_key vehicle.id vehicle.from_day };

    fn key(&self) -> Key {
        Key::pair(self.id.number(), self.from_day.number())
    }
}

impl Keyed for Trip {
    ghost key = { λ trip. trip.id };

    fn key(&self) -> Key {
        Key::of(self.id.number())
    }
}
