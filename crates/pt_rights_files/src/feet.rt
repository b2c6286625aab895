ghost use Rattle.std.specs.Prelude.{◌≡◌, ◌↔◌, IsSome, IfSome};
ghost use Rattle.pt_rights_files.specs.Feet.{IsFeet};

use std::marker::Model;

/// The farthest distance that a condition may name, in feet.
const MOST_FEET: u32 = 100_000;

/// A distance of 1 to 100,000 feet.
#[derive(Clone, Copy, PartialEq, Eq)]
pub struct Feet {
    feet: u32,
}

impl Model for Feet {
    ghost use Rattle.std.specs.Prelude.{ℕ};
    ghost use Rattle.pt_rights_files.specs.Feet.{IsFeet};

    ghost Value = { ℕ };

    ghost view = { λ distance. distance.feet };

    ghost invariant = { λ distance. IsFeet distance.feet };

    ghost inverse = { λ n. record { feet = n } };
}

impl Feet {
    /// The distance of this many feet; `None` for 0 and past 100,000.
    pub fn of(number: u32) -> Option<Self>
        ensures in_range { IsSome result ↔ IsFeet number }
        ensures value { IfSome result (λ feet. feet ≡ number) }
    {
        if number < 1 || number > MOST_FEET {
            return None;
        }
        Some(Feet { feet: number })
    }

    /// The number of feet.
    pub fn number(self) -> u32
        ensures value { result ≡ self }
        ensures in_range { IsFeet result }
    {
        self.feet
    }
}
