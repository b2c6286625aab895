ghost use Rattle.std.specs.Prelude.{◌≡◌, ℕ, ◌≤◌, ◌↔◌, IsSome, IfSome};
ghost use Rattle.pt_base_values.specs.Ranges.{last_minute};

use std::marker::Model;

/// The last minute of a day, 23:59.
pub const LAST_MINUTE: u32 = 1439;

/// A minute of a day, from 0 (midnight) to 1439 (23:59).
#[derive(Clone, Copy, PartialEq, Eq, PartialOrd, Ord)]
pub struct Minute {
    number: u32,
}

impl Model for Minute {
    ghost Value = { ℕ };

    ghost view = { λ m. m.number };

    ghost invariant = { λ m. m.number ≤ last_minute };

    ghost inverse = { λ n. record { number = n } };
}

impl Minute {
    /// The minute with this number, counted from midnight; `None` past 1439.
    pub fn of(number: u32) -> Option<Self>
        ensures in_range { IsSome result ↔ (number ≤ last_minute) }
        ensures value { IfSome result (λ minute. minute ≡ number) }
    {
        if number > LAST_MINUTE {
            return None;
        }
        Some(Minute { number })
    }

    /// Minutes since midnight.
    pub fn number(self) -> u32
        ensures value { result ≡ self }
        ensures in_range { result ≤ last_minute }
    {
        self.number
    }
}
