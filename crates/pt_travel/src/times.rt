ghost use Rattle.std.specs.Prelude.{◌≡◌, ℕ, ◌+◌, ◌≤◌, Option, Some, IfSome, IsSomeAnd};
ghost use Rattle.pt_base_values.specs.Ranges.{last_minute};

use pt_base_values::PlaceId;

/// Driving times between places, in minutes, with the laws that planning relies on.
pub trait Times {
    /// The minutes from one place to another; `None` if there is no way within a day.
    ghost minutes: { Self → ℕ → ℕ → Option ℕ };

    /// The driving time in minutes; `None` if there is no way within 1439 minutes.
    fn minutes(&self, from: PlaceId, to: PlaceId) -> Option<u16>
        ensures value { result ≡ minutes self.now from to };

    /// It takes no time to stay.
    ghost stays: { (times : Self) (a : ℕ) → minutes times a a ≡ Some 0 };

    /// A driving time lies within a day.
    ghost within_a_day: { (times : Self) (a b : ℕ) → IfSome (minutes times a b) (λ t. t ≤ last_minute) };

    /// A way over a third place is never shorter than the driving time.
    ghost triangle: { (times : Self) (a b c m n : ℕ)
        → minutes times a b ≡ Some m → minutes times b c ≡ Some n → m + n ≤ last_minute
        → IsSomeAnd (minutes times a c) (λ t. t ≤ m + n) };
}
