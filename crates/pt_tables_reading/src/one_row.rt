//! The tables in which each record has one row.

ghost use Rattle.std.specs.Prelude.{◌≡◌, ◌∷◌, [], IfOk};
ghost use Rattle.sqlite.specs.Order.{Row as StoredRow};
ghost use Rattle.pt_tables_reading.specs.Reading.{Reads};

use pt_tables_rows::tables::TableOf;
use sqlite::Row;
use std::alloc::{AllocError, Global};

/// A table in which each record has one row.
pub trait OneRow: TableOf {
    /// The row of a record.
    ghost row_of: { Self.Record → StoredRow };

    /// The record of a row, or none if no record has it.
    fn of_row(alloc: Global, row: &Row) -> Result<Option<Self::Record>, AllocError>
        ensures told { IfOk result (Reads row_of Self.Fits row.now) };

    /// The record has no other row in the table.
    ghost one: { (x : Self.Record) → Self.rows_of x ≡ row_of x ∷ [] };
}
