ghost use Rattle.std.specs.Prelude.{◌≡◌, ℕ, ◌+◌, ◌==◌, ◌<◌, ◌≤◌, [], length, min, All, IfOk, if◌then◌else◌};
ghost use Rattle.std.specs.Prelude.{slice_index, slice_index_or};
ghost use Rattle.pt_travel.specs.Matrix.{entry, IsCapped, PutsRow, no_way};
ghost use Rattle.pt_travel.specs.Closure.{IsClosedOver};
ghost use Rattle.pt_travel.specs.Places.{list_of};
ghost use Rattle.pt_travel.specs.Table.{NamesOnly, most_places};

use crate::places::Places;
use crate::raw::{MOST_PLACES, Row};
use std::alloc::{AllocError, Global};

/// The entry that means no way within a day.
pub(crate) const NO_WAY: u16 = 1440;

/// The minutes from one place to each place, by its position; nothing reads the rest of the line.
pub(crate) type Line = [u16; MOST_PLACES];

/// The lines of a table's places, with the rows of the table in them.
pub(crate) fn direct(alloc: Global, rows: &[Row], places: &Places) -> Result<Vec<Line>, AllocError>
    requires named { NamesOnly (list_of places.now) rows.now }
    ensures { IfOk result (λ lines. IsClosedOver rows.now (list_of places.now) 0 lines.items) }
{
    let mut lines = apart(alloc, places.len())?;
    for row in rows {
        put(&mut lines, places, row);
    }
    Ok(lines)
}

// The lines of n places before any row is put in: 0 from each place to itself, and no other way.
fn apart(alloc: Global, n: usize) -> Result<Vec<Line>, AllocError>
    requires { n ≤ most_places }
    ensures size { IfOk result (λ lines. length lines.items ≡ n) }
    ensures entries { IfOk result (λ lines. (i j : ℕ) → i < n → j < most_places
        → entry lines.items i j ≡ (if i == j then 0 else no_way)) }
{
    let mut lines = Vec::with_capacity(alloc, n)?;
    for i in 0..n {
        lines.push_reserved(alone(i));
    }
    Ok(lines)
}

fn alone(i: usize) -> Line
    requires { i < most_places }
    ensures { (j : ℕ) → j < most_places → slice_index result j ≡ (if i == j then 0 else no_way) }
{
    let mut line = [NO_WAY; MOST_PLACES];
    line[i] = 0;
    line
}

fn put(lines: &mut Vec<Line>, places: &Places, row: &Row)
    requires size { length lines.old.items ≡ length (list_of places.now) }
    ensures { PutsRow (list_of places.now) row.now lines.old.items lines.new.items }
{
    let (from, to, minutes) = *row;
    if let (Some(i), Some(j)) = (places.position(from), places.position(to)) {
        let line = &mut lines[i];
        line[j] = line[j].min(minutes);
    }
}

/// Shortens each entry to the way over the place at `k`, if that is shorter.
pub(crate) fn shorten(lines: &mut Vec<Line>, k: usize)
    requires in_range { k < length lines.old.items }
    requires few { length lines.old.items ≤ most_places }
    requires capped { IsCapped lines.old.items }
    ensures size { length lines.new.items ≡ length lines.old.items }
    ensures entries { (i j : ℕ) → i < length lines.old.items → j < most_places
        → entry lines.new.items i j
        ≡ min (entry lines.old.items i j) (entry lines.old.items i k + entry lines.old.items k j) }
{
    let middle = lines[k];
    for line in lines.iter_mut() {
        shorten_line(line, &middle, k);
    }
}

fn shorten_line(line: &mut Line, middle: &Line, k: usize)
    requires in_range { k < most_places }
    requires capped { (j : ℕ) → j < most_places → slice_index line.old j ≤ no_way }
    requires middle_capped { (j : ℕ) → j < most_places → slice_index middle.now j ≤ no_way }
    ensures size { length line.new ≡ most_places }
    ensures entries { (j : ℕ) → j < most_places
        → slice_index line.new j ≡ min (slice_index line.old j) (slice_index line.old k + slice_index middle.now j) }
{
    let first = line[k];
    for j in 0..MOST_PLACES {
        line[j] = line[j].min(first + middle[j]);
    }
}
