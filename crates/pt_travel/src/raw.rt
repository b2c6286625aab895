ghost use Rattle.std.specs.Prelude.{◌≡◌, ◌≤◌, ◌↔◌, All, IsSome, IfSome, IfOk, IsTrue};
ghost use Rattle.pt_base_values.specs.Ranges.{last_minute};
ghost use Rattle.pt_travel.specs.Table.{ComesBefore, NamesOnly, Rises, IsTable};
ghost use Rattle.pt_travel.specs.Places.{list_of};

use crate::places::Places;
use pt_base_values::{LAST_MINUTE, PlaceId};
use std::alloc::{AllocError, Global};
use std::marker::Model;

/// The most places that a table may name.
pub const MOST_PLACES: usize = 100;

/// The most minutes that a row may take.
pub const MOST_MINUTES: u16 = LAST_MINUTE as u16;

/// A row of a travel table: from, to, and the minutes of the drive.
pub type Row = (PlaceId, PlaceId, u16);

/// The agency's table as it gave it: in order of its places, each pair of places once.
#[derive(Drop)]
pub struct Raw {
    rows: Vec<Row>,
    places: Places,
}

impl Model for Raw {
    ghost use Rattle.std.specs.Prelude.{ℕ, List};
    ghost use Rattle.pt_travel.specs.Table.{IsTable, NamesOnly};
    ghost use Rattle.pt_travel.specs.Places.{list_of};

    ghost Value = { List (ℕ × ℕ × ℕ) };

    ghost view = { λ raw. raw.rows.items };

    ghost invariant = { λ raw. IsTable raw.rows.items × NamesOnly (list_of raw.places) raw.rows.items };
}

impl Raw {
    /// The table of these rows, which takes no memory.
    ///
    /// `None` if the rows do not rise strictly by their places, if one takes longer than 1439
    /// minutes, or if they name more than 100 places together.
    pub fn of(rows: Vec<Row>) -> Option<Self>
        ensures table { IsSome result ↔ IsTable rows.items }
        ensures value { IfSome result (λ raw. raw ≡ rows.items) }
    {
        if !rises(&rows) || !within_a_day(&rows) {
            return None;
        }
        let places = Places::of(&rows)?;
        Some(Raw { rows, places })
    }

    /// The rows, in order of their places.
    pub fn rows(&self) -> &[Row]
        ensures value { result.now ≡ self.now }
        ensures table { IsTable result.now }
    {
        &self.rows
    }

    /// A copy.
    pub fn copy(&self, alloc: Global) -> Result<Self, AllocError>
        ensures value { IfOk result (λ copy. copy ≡ self.now) }
    {
        Ok(Raw {
            rows: Vec::from_slice(alloc, &self.rows)?,
            places: self.places,
        })
    }

    /// The table of rows that name only these places.
    pub(crate) fn naming(rows: Vec<Row>, places: Places) -> Self
        requires table { IsTable rows.items }
        requires named { NamesOnly (list_of places) rows.items }
        ensures { result ≡ rows.items }
    {
        Raw { rows, places }
    }

    // The places that the rows name, and possibly others.
    pub(crate) fn places(&self) -> Places
        ensures { NamesOnly (list_of result) self.now }
    {
        self.places
    }
}

// Whether each row comes before the next.
fn rises(rows: &[Row]) -> bool
    ensures { IsTrue result ↔ Rises rows.now }
{
    for k in 1..rows.len() {
        if !comes_before(&rows[k - 1], &rows[k]) {
            return false;
        }
    }
    true
}

/// Whether one row comes before another.
pub(crate) fn comes_before(row: &Row, other: &Row) -> bool
    ensures { IsTrue result ↔ ComesBefore row.now other.now }
{
    row.0 < other.0 || row.0 == other.0 && row.1 < other.1
}

fn within_a_day(rows: &[Row]) -> bool
    ensures { IsTrue result ↔ All (λ row. row.2 ≤ last_minute) rows.now }
{
    rows.iter().all(|row| row.2 <= MOST_MINUTES)
}
