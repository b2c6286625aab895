ghost use Rattle.std.specs.Int.{IsInRange};
ghost use Rattle.std.specs.Prelude.{◌≡◌, ℕ, ◌<◌, ◌≤◌, List, length, slice_index};
ghost use Rattle.pt_travel.specs.Table.{most_places};

use crate::raw::{MOST_PLACES, Row};
use pt_base_values::PlaceId;

/// The number of guesses at positions of places.
const GUESSES: usize = 1024;

/// Places, each once and at most 100.
#[derive(Clone, Copy)]
pub(crate) struct Places {
    numbers: [u32; MOST_PLACES],
    len: usize,
    // For each hash, the position of the last place with that hash.
    guesses: [u8; GUESSES],
    ghost within: { len ≤ most_places },
    ghost valid: { (i : ℕ) → i < len → IsInRange 1 4_294_967_295 (slice_index numbers i) },
    ghost distinct: { (i j : ℕ) → i < len → j < len → slice_index numbers i ≡ slice_index numbers j → i ≡ j },
}

impl Places {
    ghost use Rattle.std.specs.Prelude.{◌==◌, ◌∷◌, ◌++◌, [], ◌⊎◌, ◌↔◌, Contains, IsTrue, MatchOption, IfSome, IsNone};
    ghost use Rattle.std.specs.Bool.{OnTrue, OnFalse};
    ghost use Rattle.std.specs.List.{position};
    ghost use Rattle.pt_travel.specs.Places.{list_of};
    ghost use Rattle.pt_travel.specs.Table.{NamesOnly};

    fn none() -> Self
        ensures { list_of result ≡ [] }
    {
        Places {
            numbers: [0; MOST_PLACES],
            len: 0,
            guesses: [0; GUESSES],
        }
    }

    /// The places that a table's rows name; `None` if they are more than 100.
    pub fn of(rows: &[Row]) -> Option<Self>
        ensures named { IfSome result (λ places. NamesOnly (list_of places) rows.now) }
        ensures too_many { IsNone result → (list : List ℕ) → NamesOnly list rows.now → most_places < length list }
    {
        let mut places = Places::none();
        for row in rows {
            if !places.insert(row.0) || !places.insert(row.1) {
                return None;
            }
        }
        Some(places)
    }

    /// Each place of a list of at most 100.
    pub fn from_list(list: &[PlaceId]) -> Self
        requires { length list.now ≤ most_places }
        ensures { (place : ℕ) → Contains (list_of result) place ↔ Contains list.now place }
    {
        let mut places = Places::none();
        for place in list {
            places.insert(*place);
        }
        places
    }

    // Adds a place if it is new; false if there is no room for it.
    fn insert(&mut self, place: PlaceId) -> bool
        ensures kept { OnTrue result (((list_of self.new ≡ list_of self.old) × Contains (list_of self.old) place)
            ⊎ (list_of self.new ≡ list_of self.old ++ place ∷ [])) }
        ensures full { OnFalse result ((length (list_of self.old) ≡ most_places)
            × (Contains (list_of self.old) place → ⊥)) }
    {
        if self.position(place).is_some() {
            return true;
        }
        if self.len == MOST_PLACES {
            return false;
        }
        self.numbers[self.len] = place.number();
        self.guesses[slot(place.number())] = self.len as u8;
        self.len += 1;
        true
    }

    /// The number of places.
    pub fn len(&self) -> usize
        ensures value { result ≡ length (list_of self.now) }
        ensures within { result ≤ most_places }
    {
        self.len
    }

    /// The place of this number; `None` if it is not one of them.
    pub fn place(&self, number: u64) -> Option<PlaceId>
        ensures { MatchOption result (Contains (list_of self.now) number → ⊥)
            (λ place. Contains (list_of self.now) number × (place ≡ number)) }
    {
        if number > u64::from(u32::MAX) {
            return None;
        }
        let place = PlaceId::of(number as u32)?;
        self.position(place)?;
        Some(place)
    }

    /// The position of a place among them.
    pub fn position(&self, place: PlaceId) -> Option<usize>
        ensures value { result ≡ position (λ p. p == place) (list_of self.now) }
        ensures there { MatchOption result (Contains (list_of self.now) place → ⊥)
            (λ k. (k < length (list_of self.now)) × (slice_index (list_of self.now) k ≡ place)) }
    {
        let number = place.number();
        let guess = usize::from(self.guesses[slot(number)]);
        if guess < self.len && self.numbers[guess] == number {
            return Some(guess);
        }
        self.numbers[..self.len].iter().position(|&n| n == number)
    }
}

// The hash of a place's number. The factor, 2^32 over the golden ratio, gives numbers that rise in even
// steps different hashes.
fn slot(number: u32) -> usize
    ensures { result < 1024 }
{
    (number.wrapping_mul(0x9E37_79B1) >> 22) as usize
}
