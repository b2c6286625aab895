ghost use Rattle.std.specs.Prelude.{◌≡◌, ℕ};
ghost use Rattle.pt_base_records.specs.Records.{is_within};

use crate::Key;
use std::cmp::Ordering;

/// The keys from one to another, both included.
#[derive(Drop)]
pub struct Span {
    pub from: Key,
    pub to: Key,
}

impl Span {
    /// Whether the key lies in the span.
    pub fn has(&self, key: &Key) -> bool
        ensures value { result ≡ is_within key.now self.now }
    {
        self.from.compare(key) != Ordering::Greater && key.compare(&self.to) != Ordering::Greater
    }
}

/// A record with a key.
pub trait Keyed: Drop {
    ghost key: { Self → ℕ };

    fn key(&self) -> Key
        ensures { result ≡ key self.now };
}
