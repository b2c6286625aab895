ghost use Rattle.std.specs.Prelude.{◌≡◌, nat_lt};
ghost use Rattle.std.specs.Ordering.{nat_cmp};
ghost use Rattle.pt_base_records.specs.Keys.{pair_key};

use std::cmp::Ordering;
use std::marker::Model;

/// The key of a record: one or two numbers, in the order of the first and then of the second.
///
/// A contract sees it as one number with that order; the program does not pack the two.
#[derive(Drop)]
pub struct Key {
    first: u32,
    second: u32,
}

impl Model for Key {
    ghost use Rattle.std.specs.Prelude.{ℕ};
    ghost use Rattle.pt_base_records.specs.Keys.{pair_key};

    ghost Value = { ℕ };

    ghost view = { λ key. pair_key key.first key.second };
}

impl Key {
    /// The key of a record with one number.
    pub fn of(number: u32) -> Self
        ensures value { result ≡ number }
    {
        Key {
            first: 0,
            second: number,
        }
    }

    /// The key of a record with two numbers.
    pub fn pair(first: u32, second: u32) -> Self
        ensures value { result ≡ pair_key first second }
    {
        Key { first, second }
    }

    /// Its two numbers; the first of a record with one number is 0.
    pub fn numbers(&self) -> (u32, u32)
        ensures value { pair_key result.0 result.1 ≡ self.now }
    {
        (self.first, self.second)
    }

    /// The order of the two keys.
    pub fn compare(&self, other: &Key) -> Ordering
        ensures value { result ≡ nat_cmp self.now other.now }
    {
        let (second, other_second) = (self.second, other.second);
        if self.first < other.first {
            return Ordering::Less;
        }
        if other.first < self.first {
            return Ordering::Greater;
        }
        if second < other_second {
            return Ordering::Less;
        }
        if other_second < second {
            return Ordering::Greater;
        }
        Ordering::Equal
    }

    /// Whether this key comes before the other.
    pub fn is_before(&self, other: &Key) -> bool
        ensures value { result ≡ nat_lt self.now other.now }
    {
        self.compare(other) == Ordering::Less
    }
}
