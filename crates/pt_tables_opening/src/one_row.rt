//! The tables in which each record has one row.

ghost use Rattle.pt_tables_opening.specs.Gathered.{BeginsEach};

use crate::gathered::Gathered;
use pt_tables_reading::OneRow;
use pt_tables_rows::tables::TableOf;
use sqlite::Row;
use std::alloc::{AllocError, Global};
use std::marker::PhantomData;

/// A table in which each record has one row, read row by row.
pub(crate) struct RowByRow<T> {
    table: PhantomData<T>,
}

impl<T: OneRow> TableOf for RowByRow<T> {
    type Record = T::Record;

    ghost home = { T.home };

    ghost Fits = { T.Fits };

    ghost rows_of = { T.rows_of };
}

impl<T: OneRow> Gathered for RowByRow<T> {
    ghost Begins = { BeginsEach };

    fn begins(_row: &Row) -> bool {
        true
    }

    /// The record of the only row; none if there is not exactly one row, or if no record has it.
    fn of_rows(alloc: Global, rows: &[Row]) -> Result<Option<T::Record>, AllocError> {
        match rows {
            [row] => T::of_row(alloc, row),
            _ => Ok(None),
        }
    }
}
