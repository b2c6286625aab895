ghost use Rattle.std.specs.Prelude.{◌≡◌, ℕ, ◌<◌, ◌↔◌, List, Bool, true, false, replicate, slice_set, IsTrue};
ghost use Rattle.std.specs.Prelude.{IsSome, IfSome};
ghost use Rattle.pt_base_values.specs.Weekday.{number_of, Includes};

use std::marker::Model;

/// A day of the week.
#[derive(Clone, Copy, PartialEq, Eq, PartialOrd, Ord)]
pub enum Weekday {
    Monday,
    Tuesday,
    Wednesday,
    Thursday,
    Friday,
    Saturday,
    Sunday,
}

impl Weekday {
    /// The weekday with this number, counted from 0 for Monday; `None` from 7 on.
    pub fn of(number: u32) -> Option<Self>
        ensures in_range { IsSome result ↔ (number < 7) }
        ensures value { IfSome result (λ weekday. number_of weekday ≡ number) }
    {
        match number {
            0 => Some(Weekday::Monday),
            1 => Some(Weekday::Tuesday),
            2 => Some(Weekday::Wednesday),
            3 => Some(Weekday::Thursday),
            4 => Some(Weekday::Friday),
            5 => Some(Weekday::Saturday),
            6 => Some(Weekday::Sunday),
            _ => None,
        }
    }

    /// Days since Monday, from 0 to 6.
    pub fn number(self) -> u32
        ensures value { result ≡ number_of self }
        ensures in_range { result < 7 }
    {
        match self {
            Weekday::Monday => 0,
            Weekday::Tuesday => 1,
            Weekday::Wednesday => 2,
            Weekday::Thursday => 3,
            Weekday::Friday => 4,
            Weekday::Saturday => 5,
            Weekday::Sunday => 6,
        }
    }
}

/// A set of weekdays, as the days on which a route or a vehicle runs. It may be empty.
#[derive(Clone, Copy)]
pub struct Weekdays {
    has: [bool; 7],
}

impl Model for Weekdays {
    ghost Value = { List Bool };

    ghost view = { λ days. days.has };

    ghost inverse = { λ has. record { has = has } };
}

impl Weekdays {
    /// The empty set.
    pub fn none() -> Self
        ensures value { result ≡ replicate 7 false }
    {
        Weekdays { has: [false; 7] }
    }

    /// Every day of the week.
    pub fn all() -> Self
        ensures value { result ≡ replicate 7 true }
    {
        Weekdays { has: [true; 7] }
    }

    /// The set with this weekday in it.
    pub fn with(self, weekday: Weekday) -> Self
        ensures value { result ≡ slice_set self (number_of weekday) true }
    {
        let mut has = self.has;
        has[weekday.number() as usize] = true;
        Weekdays { has }
    }

    /// Whether the weekday is in the set.
    pub fn contains(self, weekday: Weekday) -> bool
        ensures member { IsTrue result ↔ Includes self (number_of weekday) }
    {
        self.has[weekday.number() as usize]
    }
}
