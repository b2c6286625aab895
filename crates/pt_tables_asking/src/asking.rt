//! One SQL query of the tables, with its rows read as records.

ghost use Rattle.std.specs.Prelude.{◌≡◌, ◌≢◌, ◌⊎◌, ◌↔◌, List, IsTrue, IfErr, IfOk, map, false, slice_get};
ghost use Rattle.std.specs.Option.{option_map};
ghost use Rattle.sqlite.specs.Given.{IsPlain};
ghost use Rattle.sqlite.specs.Held.{state};
ghost use Rattle.sqlite.specs.Listing.{reads_listing, understood};
ghost use Rattle.sqlite.specs.State.{HasCleanDisk};
ghost use Rattle.sqlite.specs.Values.{bound};
ghost use Rattle.pt_base_records.specs.Records.{Each, IsInOrder};
ghost use Rattle.pt_tables_rows.specs.Schema.{desk_schema};
ghost use Rattle.pt_tables_asking.specs.Asking.{HasAnswer, HasCause, IsServedIn, IsShown, Rests, TellsEach};
ghost use Rattle.pt_tables_asking.specs.Content.{IsExcused};
ghost use Rattle.pt_tables_asking.specs.declared.asking.Unread.TheVariants.{Memory, Row as BadRow, Store as Failed};

use pt_base_records::{Keyed, Rows};
use pt_tables_reading::OneRow;
use sqlite::types::ValueRef;
use sqlite::{Alter, Connection, Error, ErrorCode, Row};
use std::alloc::{AllocError, Global};

/// Why records were not read.
#[derive(Clone, Copy)]
pub enum Unread {
    /// Out of memory.
    Memory,
    /// The store refused or failed.
    Store,
    /// A row is not that of any record, or the records are not in the order of their keys.
    Row,
}

impl From<AllocError> for Unread {
    ghost use Rattle.pt_tables_asking.specs.declared.asking.Unread.TheVariants.{Memory};

    ghost from_gives = { λ _ unread. unread ≡ Memory };

    fn from(_error: AllocError) -> Self {
        Unread::Memory
    }
}

impl Unread {
    /// The reason that an error of the store gives.
    pub fn of(error: &Error) -> Self
        ensures memory { error.now ≡ Error.SqliteFailure ErrorCode.OutOfMemory → result ≡ Memory }
        ensures store { error.now ≢ Error.SqliteFailure ErrorCode.OutOfMemory → result ≡ Failed }
        ensures shown { result ≢ BadRow }
    {
        match error {
            Error::SqliteFailure(ErrorCode::OutOfMemory) => Unread::Memory,
            _ => Unread::Store,
        }
    }
}

/// The first of the records.
pub(crate) fn first<T: Drop>(records: Vec<T>) -> Option<T>
    ensures value { result ≡ slice_get records.items 0 }
{
    records.into_iter().next()
}

/// Whether the keys of the records are in strictly ascending order.
pub fn are_rising<T: Keyed>(records: &[T]) -> bool
    ensures { IsTrue result ↔ IsInOrder T.key records.now }
{
    records.is_sorted_by(|one, next| one.key().is_before(&next.key()))
}

/// The records as `Rows`; `Unread::Row` if they are not in the order of their keys.
pub(crate) fn in_order<T: Keyed>(records: Vec<T>) -> Result<Rows<T>, Unread>
    ensures told { IfOk result (λ rows. rows ≡ records.items) }
    ensures ordered { IfErr result (λ _. ¬ IsInOrder T.key records.items) }
{
    if !are_rising(&records) {
        return Err(Unread::Row);
    }
    Ok(Rows::of(records))
}

/// The rows of a query, read in a transaction that is rolled back: nothing is committed.
fn rows_shown<S: Alter>(
    conn: &mut Connection<S>,
    text: &str,
    params: &[ValueRef<'_>],
) -> Result<Vec<Row>, Error>
    requires settled { conn.old.in_transaction ≡ false }
    requires plain { IsPlain (understood desk_schema text.now) }
    requires unlisted { reads_listing desk_schema text.now ≡ false }
    ensures shown { HasCleanDisk (state S.Store conn.new)
        → IfOk result (λ rows. IsShown text.now (bound params.now) (state S.Store conn.old) rows.items) }
    ensures caused { HasCleanDisk (state S.Store conn.new) → (state S.Store conn.old).now.schema ≡ desk_schema
        → IsServedIn desk_schema text.now (bound params.now)
        → IfErr result (λ e. (e ≡ Error.SqliteFailure ErrorCode.OutOfMemory)
        ⊎ HasCause (state S.Store conn.old) (state S.Store conn.new)) }
    ensures rests { Rests (state S.Store conn.old) (state S.Store conn.new) }
{
    let mut tx = conn.transaction();
    let rows = tx.query_all(text, params)?;
    tx.rollback();
    Ok(rows)
}

/// The records of the rows, in their order; none if a row is not that of any record.
fn records_of<T: OneRow>(alloc: Global, rows: &[Row]) -> Result<Option<Vec<T::Record>>, AllocError>
    ensures told { IfOk result (λ found. TellsEach T.row_of T.Fits rows.now (option_map (λ v. v.items) found)) }
{
    let mut records = Vec::new(alloc);
    for row in rows {
        match T::of_row(alloc, row)? {
            Some(record) => records.push(record)?,
            None => return Ok(None),
        }
    }
    Ok(Some(records))
}

/// The records of the rows that a query of a table returns, in their order.
pub(crate) fn ask<S: Alter, T: OneRow>(
    alloc: Global,
    conn: &mut Connection<S>,
    text: &str,
    params: &[ValueRef<'_>],
) -> Result<Vec<T::Record>, Unread>
    requires settled { conn.old.in_transaction ≡ false }
    requires plain { IsPlain (understood desk_schema text.now) }
    requires unlisted { reads_listing desk_schema text.now ≡ false }
    ensures told { HasCleanDisk (state S.Store conn.new) → (xs : List T.Record)
        → (IsTrue (state S.Store conn.old).is_open
        → HasAnswer text.now (bound params.now) (state S.Store conn.old).now (map T.row_of xs))
        → IfOk result (λ found. (map T.row_of found.items ≡ map T.row_of xs) × Each T.Fits found.items) }
    ensures excused { HasCleanDisk (state S.Store conn.new) → (xs : List T.Record) → Each T.Fits xs
        → (IsTrue (state S.Store conn.old).is_open
        → HasAnswer text.now (bound params.now) (state S.Store conn.old).now (map T.row_of xs))
        → IfErr result (IsExcused (state S.Store conn.old) (state S.Store conn.new)) }
    ensures rests { Rests (state S.Store conn.old) (state S.Store conn.new) }
{
    let rows = match rows_shown(conn, text, params) {
        Ok(rows) => rows,
        Err(error) => return Err(Unread::of(&error)),
    };
    match records_of::<T>(alloc, &rows)? {
        Some(records) => Ok(records),
        None => Err(Unread::Row),
    }
}
