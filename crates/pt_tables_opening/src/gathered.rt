//! The records of a table, read from all its rows. A record begins with a row for which `begins` is true, and has no
//! other.

ghost use Rattle.std.specs.Prelude.{◌≡◌, ◌⊎◌, ◌↔◌, ◌<◌, ◌≤◌, ℕ, [], IsTrue, IfOk, IfErr, flat_map, length};
ghost use Rattle.std.specs.Prelude.{slice_index_or};
ghost use Rattle.sqlite.specs.Order.{Row as StoredRow, column};
ghost use Rattle.sqlite.specs.Held.{state};
ghost use Rattle.pt_base_values.specs.declared.fault.Cause.TheVariants as cause;
ghost use Rattle.pt_desk_rules.specs.TableNames.{number_of};
ghost use Rattle.pt_tables_opening.specs.Faults.{fault, unsound};
ghost use Rattle.pt_tables_opening.specs.Gathered.{AreRowsOfNone, BeginsOnce, FitsRows, GathersNothing, IsFitting};
ghost use Rattle.pt_tables_opening.specs.Gathered.{KeepsOrder, TellsGathered};
ghost use Rattle.pt_tables_opening.specs.Opening.{AsksForAll, IsCaused, ReadsTables, Rests};
ghost use Rattle.pt_tables_reading.specs.Reading.{Reads};
ghost use Rattle.pt_tables_rows.specs.Rows.{number_value};
ghost use Rattle.pt_tables_rows.specs.Tables.{AreRows};

use crate::OpenFault;
use crate::open_fault::fault_of;
use crate::table_rows::rows_of_table;
use pt_base_records::Edits;
use pt_desk_rules::TableName;
use pt_tables_asking::are_rising;
use pt_tables_rows::tables::TableOf;
use sqlite::types::ValueRef;
use sqlite::{Alter, Connection, Row};
use std::alloc::{AllocError, Global};

/// A table whose rows are read back as its records.
pub(crate) trait Gathered: TableOf {
    /// What is true of the first row of a record, and of no later row of it.
    ghost Begins: { StoredRow → Type 0 };

    /// Whether a row is the first one of a record.
    fn begins(row: &Row) -> bool
        ensures { IsTrue result ↔ Begins row.now };

    /// The record that has these rows, or none if no record has them.
    fn of_rows(alloc: Global, rows: &[Row]) -> Result<Option<Self::Record>, AllocError>
        ensures told { IfOk result (Reads Self.rows_of (FitsRows Self.rows_of Self.Fits) rows.now) }
        ensures once { (x : Self.Record) → Self.Fits x → BeginsOnce Begins (Self.rows_of x) };
}

/// Whether the number in a column is 0.
pub(crate) fn is_zero(row: &Row, at: usize) -> bool
    ensures { IsTrue result ↔ (column row.now at ≡ number_value 0) }
{
    match row.get_ref(at) {
        Ok(ValueRef::Int(number)) => number == 0,
        _ => false,
    }
}

/// How many rows there are before the next first row, or before the end.
fn group_end<T: Gathered>(rows: &[Row]) -> usize
    ensures within { result ≤ length rows.now }
    ensures some { 0 < length rows.now → 0 < result }
    ensures later { (k : ℕ) → 0 < k → k < result → T.Begins (slice_index_or rows.now k []) → ⊥ }
    ensures next { result < length rows.now → T.Begins (slice_index_or rows.now result []) }
{
    for k in 1..rows.len() {
        if T::begins(&rows[k]) {
            return k;
        }
    }
    rows.len()
}

/// The records that have these rows in this order, as an edit that puts them; none if no records do.
fn gathered_of<T: Gathered>(
    alloc: Global,
    rows: &[Row],
) -> Result<Option<Edits<T::Record>>, AllocError>
    ensures told { IfOk result (TellsGathered T.rows_of (FitsRows T.rows_of T.Fits) rows.now) }
{
    let mut records = Edits::none(alloc);
    let mut left = rows;
    while !left.is_empty() {
        let (group, later) = left.split_at(group_end::<T>(left));
        match T::of_rows(alloc, group)? {
            Some(record) => records.put(record)?,
            None => return Ok(None),
        }
        left = later;
    }
    Ok(Some(records))
}

/// The records of a table with these rows, as an edit that puts them. Code 31: no records have the rows in this order,
/// or their keys do not ascend. Code 0: out of memory.
fn gathered_table<T: Gathered>(
    alloc: Global,
    rows: &[Row],
    table: TableName,
) -> Result<Edits<T::Record>, OpenFault>
    ensures fitting { IfOk result (IsFitting T.Record.key (FitsRows T.rows_of T.Fits)) }
    ensures told { IfOk result (λ edit. flat_map T.rows_of edit.puts ≡ rows.now) }
    ensures faults { IfErr result (λ refused. (refused ≡ fault cause.Memory) ⊎ ((refused ≡ unsound (number_of table))
        × GathersNothing T.Record.key T.rows_of (FitsRows T.rows_of T.Fits) rows.now)) }
{
    let Ok(found) = gathered_of::<T>(alloc, rows) else {
        return Err(OpenFault::MEMORY);
    };
    let Some(records) = found else {
        return Err(OpenFault::unsound(table));
    };
    if !are_rising(records.puts()) {
        return Err(OpenFault::unsound(table));
    }
    Ok(records)
}

/// The records of a table, read from all its rows by this query, as an edit that puts them. Code 31: no records in the
/// order of their keys have the rows. Code 32: the store refused or failed. Code 0: out of memory.
pub(crate) fn gathered_in<S: Alter, T: Gathered>(
    alloc: Global,
    conn: &mut Connection<S>,
    text: &str,
    table: TableName,
) -> Result<Edits<T::Record>, OpenFault>
    requires asked { AsksForAll text.now T.home (KeepsOrder T.Record.key T.rows_of (FitsRows T.rows_of T.Fits)) }
    ensures fitting { IfOk result (IsFitting T.Record.key (FitsRows T.rows_of T.Fits)) }
    ensures told { ReadsTables (state S.Store conn.old) (state S.Store conn.new)
        (λ trees. IfOk result (λ edit. AreRows T.home trees (flat_map T.rows_of edit.puts))) }
    ensures faults { IfErr result (λ refused. (refused ≡ fault cause.Memory) ⊎ ((refused ≡ fault cause.StoreFailed)
        ⊎ ((refused ≡ unsound (number_of table)) × (ReadsTables (state S.Store conn.old) (state S.Store conn.new)
        (AreRowsOfNone T.Record.key T.home T.rows_of (FitsRows T.rows_of T.Fits)))))) }
    ensures caused { IfErr result (IsCaused (state S.Store conn.old) (state S.Store conn.new)) }
    ensures rests { Rests (state S.Store conn.old) (state S.Store conn.new) result }
{
    let rows = match rows_of_table(conn, text) {
        Ok(rows) => rows,
        Err(error) => return Err(fault_of(&error)),
    };
    gathered_table::<T>(alloc, &rows, table)
}
