ghost use Rattle.std.specs.Prelude.{◌≡◌, ℕ, ◌<◌, ◌≤◌, ◌⊎◌, ◌↔◌, length, slice_index_or, Contains, IsTrue, OnOk, IfErr};
ghost use Rattle.pt_base_values.specs.Fault.{fault_at};
ghost use Rattle.pt_base_values.specs.declared.fault.Cause.TheVariants as cause;
ghost use Rattle.pt_travel.specs.Table.{ComesBefore, IsNewPair, Rises};
ghost use Rattle.pt_travel.specs.Text.{Conflicts};

use crate::raw::{Row, comes_before};
use pt_base_values::{Cause, Fault};
use std::alloc::AllocError;

/// Puts a row among others in order, unless it is there; `number` is the number of its record.
pub(crate) fn put(rows: &mut Vec<Row>, row: Row, number: u32) -> Result<(), Fault>
    requires { Rises rows.old.items }
    ensures rises { OnOk result (Rises rows.new.items) }
    ensures rows { OnOk result ((other : ℕ × ℕ × ℕ) → Contains rows.new.items other
        ↔ (Contains rows.old.items other ⊎ (other ≡ row))) }
    ensures refused { IfErr result (λ fault. ((fault ≡ fault_at cause.Memory 0) × IsNewPair rows.old.items row)
        ⊎ ((fault ≡ fault_at cause.TravelPair number) × (other : ℕ × ℕ × ℕ)
        × Contains rows.old.items other × Conflicts row other)) }
{
    let k = place_for(rows, &row);
    if k < rows.len() && same_places(&rows[k], &row) {
        if rows[k].2 == row.2 {
            return Ok(());
        }
        return Err(Fault::at(Cause::TravelPair, number));
    }
    match rows.insert(k, row) {
        Ok(()) => Ok(()),
        Err(refused) => Err(AllocError::from(refused).into()),
    }
}

// How many rows come before this one; if a table is given in order, all of them.
fn place_for(rows: &[Row], row: &Row) -> usize
    requires { Rises rows.now }
    ensures within { result ≤ length rows.now }
    ensures before { (j : ℕ) → j < result → ComesBefore (slice_index_or rows.now j (0, 0, 0)) row.now }
    ensures after { result < length rows.now → ComesBefore (slice_index_or rows.now result (0, 0, 0)) row.now → ⊥ }
{
    match rows.last() {
        Some(last) if comes_before(last, row) => rows.len(),
        _ => place_by_halving(rows, row),
    }
}

fn place_by_halving(rows: &[Row], row: &Row) -> usize
    requires { Rises rows.now }
    ensures within { result ≤ length rows.now }
    ensures before { (j : ℕ) → j < result → ComesBefore (slice_index_or rows.now j (0, 0, 0)) row.now }
    ensures after { result < length rows.now → ComesBefore (slice_index_or rows.now result (0, 0, 0)) row.now → ⊥ }
{
    let mut low = 0;
    let mut high = rows.len();
    while low < high {
        let middle = low + (high - low) / 2;
        if comes_before(&rows[middle], row) {
            low = middle + 1;
        } else {
            high = middle;
        }
    }
    low
}

fn same_places(row: &Row, other: &Row) -> bool
    ensures { IsTrue result ↔ ((row.now.0 ≡ other.now.0) × (row.now.1 ≡ other.now.1)) }
{
    row.0 == other.0 && row.1 == other.1
}
