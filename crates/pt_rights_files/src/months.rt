ghost use Rattle.std.specs.Prelude.{◌≡◌, ◌≤◌, ◌↔◌, length, IsTrue, IsSome, IfSome, Contains};
ghost use Rattle.pt_rights_files.specs.Months.{numbers_of, IsMonthSet, AreMonths};

use arrayvec::ArrayVec;
use std::marker::Model;

/// A set of one to twelve months of the civil year, as the months in which a condition holds.
#[derive(Clone, Copy, PartialEq, Eq)]
pub struct Months {
    has: [bool; 12],
}

impl Model for Months {
    ghost use Rattle.std.specs.Prelude.{List, Bool};
    ghost use Rattle.pt_rights_files.specs.Months.{IsMonthSet};

    ghost Value = { List Bool };

    ghost view = { λ months. months.has };

    ghost invariant = { λ months. IsMonthSet months.has };

    ghost inverse = { λ marks. record { has = marks } };
}

impl Months {
    /// The set of these months, from 1 for January to 12. `None` if there are none, one is not a month, or they are not
    /// in rising order without repeats.
    pub fn of(numbers: &[u8]) -> Option<Self>
        ensures in_range { IsSome result ↔ AreMonths numbers.now }
        ensures value { IfSome result (λ months. numbers_of months ≡ numbers.now) }
        ensures set { IfSome result IsMonthSet }
    {
        if numbers.is_empty() {
            return None;
        }
        let mut has = [false; 12];
        let mut last = 0;
        for &number in numbers {
            if number <= last || number > 12 {
                return None;
            }
            has[usize::from(number - 1)] = true;
            last = number;
        }
        Some(Months { has })
    }

    /// Whether the month is in the set.
    pub fn contains(self, month: u8) -> bool
        ensures { IsTrue result ↔ Contains (numbers_of self) month }
    {
        match month {
            1..=12 => self.has[usize::from(month - 1)],
            _ => false,
        }
    }

    /// The months that `of` was given.
    pub fn numbers(self) -> ArrayVec<u8, 12>
        ensures value { result.items ≡ numbers_of self }
        ensures in_range { AreMonths result.items }
        ensures set { IsMonthSet self }
    {
        let mut numbers = ArrayVec::new();
        for index in 0..12u8 {
            if self.has[usize::from(index)] {
                numbers.push(index + 1);
            }
        }
        numbers
    }
}
