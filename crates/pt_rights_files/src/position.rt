ghost use Rattle.std.specs.Prelude.{◌≡◌, ◌<◌, ◌↔◌, IsSome, IfSome};
ghost use Rattle.pt_rights_files.specs.Limits.{most_entries};

use crate::MOST_ENTRIES;
use std::marker::Model;

/// The position of an entry in a case file, counted from 0, seen as its number.
#[derive(Clone, Copy)]
pub struct Position {
    number: u32,
}

impl Model for Position {
    ghost use Rattle.std.specs.Prelude.{ℕ, ◌<◌};
    ghost use Rattle.pt_rights_files.specs.Limits.{most_entries};

    ghost Value = { ℕ };

    ghost view = { λ position. position.number };

    ghost invariant = { λ position. position.number < most_entries };

    ghost inverse = { λ n. record { number = n } };
}

impl Position {
    /// The position of this number; `None` from 200 on, which a case file does not reach.
    pub fn of(number: u32) -> Option<Self>
        ensures in_range { IsSome result ↔ (number < most_entries) }
        ensures value { IfSome result (λ position. position ≡ number) }
    {
        if number >= MOST_ENTRIES as u32 {
            return None;
        }
        Some(Position { number })
    }

    /// The number, from 0 to 199.
    pub fn number(self) -> u32
        ensures value { result ≡ self }
        ensures in_range { result < most_entries }
    {
        self.number
    }
}
