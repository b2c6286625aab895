//! Records whose mark has a row in a second table.

ghost use Rattle.std.specs.Prelude.{◌≡◌, ◌-◌, Bool, List, [], ◌∷◌, None, Some, IsTrue, IfErr, IfOk, IfSome, map, false};
ghost use Rattle.std.specs.Prelude.{length, slice_get};
ghost use Rattle.sqlite.specs.Given.{IsPlain};
ghost use Rattle.sqlite.specs.Held.{state};
ghost use Rattle.sqlite.specs.Listing.{reads_listing, understood};
ghost use Rattle.sqlite.specs.State.{HasCleanDisk};
ghost use Rattle.pt_base_records.specs.Records.{Each, IsInOrder, record_at};
ghost use Rattle.pt_tables_reading.specs.Ranges.{IsWord};
ghost use Rattle.pt_tables_rows.specs.Rows.{number_value};
ghost use Rattle.pt_tables_rows.specs.Schema.{desk_schema};
ghost use Rattle.pt_tables_reading.specs.Reading.{Reads};
ghost use Rattle.pt_tables_asking.specs.Asking.{HasAnswer, Rests, ShowsCommit};
ghost use Rattle.pt_tables_asking.specs.Content.{IsExcused};
ghost use Rattle.pt_tables_asking.specs.Marks.{FitsMark, HasMarks, IsMark, has_mark, is_marked, mark_key, mark_row};
ghost use Rattle.pt_tables_asking.specs.Marks.{marked_in};

use crate::asking::{Unread, ask, in_order};
use pt_base_records::{Key, Keyed, Rows};
use pt_base_values::{Rider, Trip};
use pt_tables_reading::OneRow;
use pt_tables_rows::tables::{RiderChairs, TableOf, TripChairs};
use sqlite::types::ValueRef;
use sqlite::{Alter, Connection, Row, params};
use std::alloc::{AllocError, Global};
use std::marker::PhantomData;

/// How many columns the row of a mark has.
const COLUMNS: usize = 1;

/// The number of a record that is marked.
#[derive(Clone, Copy)]
pub(crate) struct Mark {
    pub(crate) number: u32,
}

impl Keyed for Mark {
    ghost key = { λ mark. mark.number };

    fn key(&self) -> Key {
        Key::of(self.number)
    }
}

/// The mark of a row.
fn mark_of(row: &Row) -> Option<Mark>
    ensures { Reads mark_row FitsMark row.now result }
{
    if row.column_count() != COLUMNS {
        return None;
    }
    match row.get_ref(0) {
        Ok(ValueRef::Int(number)) => Some(Mark {
            number: u32::try_from(number).ok()?,
        }),
        _ => None,
    }
}

/// A table of marks. It has one row, the number, for each record that is marked.
pub(crate) trait Marking: TableOf {
    /// A record, marked or not.
    ghost marked: { Self.Record → Bool → Self.Record };

    /// The number of a record's mark.
    fn number(owner: &Self::Record) -> u32
        ensures value { result ≡ Self.Record.key owner.now };

    /// Marks a record, or removes its mark.
    fn mark(owner: &mut Self::Record, is_marked: bool)
        ensures value { owner.new ≡ marked owner.old is_marked };

    /// Each row of a record is its mark.
    ghost marks: { (x : Self.Record) → IsMark (Self.Record.key x) (Self.rows_of x) };
}

impl Marking for RiderChairs {
    ghost use Rattle.std.specs.Prelude.{refl};

    ghost marked = { λ rider is_marked. record rider { wheelchair = is_marked } };

    ghost marks = { λ rider. (rider.wheelchair, refl) };

    fn number(rider: &Rider) -> u32 {
        rider.id.number()
    }

    fn mark(rider: &mut Rider, is_marked: bool) {
        rider.wheelchair = is_marked;
    }
}

impl Marking for TripChairs {
    ghost use Rattle.std.specs.Prelude.{refl};

    ghost marked = { λ trip is_marked. record trip { wheelchair = is_marked } };

    ghost marks = { λ trip. (trip.wheelchair, refl) };

    fn number(trip: &Trip) -> u32 {
        trip.id.number()
    }

    fn mark(trip: &mut Trip, is_marked: bool) {
        trip.wheelchair = is_marked;
    }
}

/// The numbers in a table of marks.
struct Numbers<M> {
    table: PhantomData<M>,
}

impl<M: Marking> TableOf for Numbers<M> {
    type Record = Mark;

    ghost home = { M.home };

    ghost Fits = { FitsMark };

    ghost rows_of = { λ mark. mark_row mark ∷ [] };
}

impl<M: Marking> OneRow for Numbers<M> {
    ghost use Rattle.std.specs.Prelude.{refl};

    ghost row_of = { mark_row };

    ghost one = { λ _. refl };

    fn of_row(_alloc: Global, row: &Row) -> Result<Option<Mark>, AllocError> {
        Ok(mark_of(row))
    }
}

/// The marks with numbers from `from` to `to`, in ascending order. `text` is the query of the table of marks.
fn marks_between<S: Alter, M: Marking>(
    alloc: Global,
    conn: &mut Connection<S>,
    text: &str,
    from: u32,
    to: u32,
) -> Result<Rows<Mark>, Unread>
    requires settled { conn.old.in_transaction ≡ false }
    requires plain { IsPlain (understood desk_schema text.now) }
    requires unlisted { reads_listing desk_schema text.now ≡ false }
    ensures told { HasCleanDisk (state S.Store conn.new) → (marks : List Mark)
        → (IsTrue (state S.Store conn.old).is_open
        → HasAnswer text.now (number_value from ∷ number_value to ∷ []) (state S.Store conn.old).now
        (map mark_row marks))
        → IfOk result (λ found. found ≡ marks) }
    ensures excused { HasCleanDisk (state S.Store conn.new) → (marks : List Mark) → Each FitsMark marks
        → IsInOrder mark_key marks → (IsTrue (state S.Store conn.old).is_open
        → HasAnswer text.now (number_value from ∷ number_value to ∷ []) (state S.Store conn.old).now
        (map mark_row marks))
        → IfErr result (IsExcused (state S.Store conn.old) (state S.Store conn.new)) }
    ensures rests { Rests (state S.Store conn.old) (state S.Store conn.new) }
{
    let marks = ask::<S, Numbers<M>>(alloc, conn, text, params![from, to])?;
    in_order(marks)
}

/// The numbers of the first and the last record.
fn ends<M: Marking>(records: &[M::Record]) -> Option<(u32, u32)>
    ensures none { result ≡ None → records.now ≡ [] }
    ensures first { IfSome result (λ ends. slice_get (map M.Record.key records.now) 0 ≡ Some ends.0) }
    ensures last { IfSome result (λ ends.
        slice_get (map M.Record.key records.now) (length records.now - 1) ≡ Some ends.1) }
{
    let first = records.first()?;
    let last = records.last()?;
    Some((M::number(first), M::number(last)))
}

/// The records, each marked if one of the marks has its number.
fn with_marks<M: Marking>(mut records: Vec<M::Record>, marks: &Rows<Mark>) -> Vec<M::Record>
    ensures marked { result.items ≡ map (λ x. M.marked x (has_mark marks.now (M.Record.key x))) records.items }
{
    for owner in records.iter_mut() {
        let is_marked = marks.find(&owner.key()).is_some();
        M::mark(owner, is_marked);
    }
    records
}

/// The records with their marks, from one query over all numbers from the first record to the last. The records are in
/// the order of their keys.
pub(crate) fn mark_all<S: Alter, M: Marking>(
    alloc: Global,
    conn: &mut Connection<S>,
    text: &str,
    records: Vec<M::Record>,
) -> Result<Vec<M::Record>, Unread>
    requires settled { conn.old.in_transaction ≡ false }
    requires committed { ShowsCommit (state S.Store conn.old) }
    requires plain { IsPlain (understood desk_schema text.now) }
    requires unlisted { reads_listing desk_schema text.now ≡ false }
    ensures told { HasCleanDisk (state S.Store conn.new) → (all : List M.Record) → IsInOrder M.Record.key all
        → IsInOrder M.Record.key records.items → (IsTrue (state S.Store conn.old).is_open
        → HasMarks text.now M.Record.key M.rows_of (state S.Store conn.old).now all)
        → IfOk result (λ found. found.items ≡ map (marked_in M.Record.key M.rows_of M.marked all) records.items) }
    ensures excused { HasCleanDisk (state S.Store conn.new) → (all : List M.Record) → IsInOrder M.Record.key all
        → Each (λ x. IsWord (M.Record.key x)) all → (IsTrue (state S.Store conn.old).is_open
        → HasMarks text.now M.Record.key M.rows_of (state S.Store conn.old).now all)
        → IfErr result (IsExcused (state S.Store conn.old) (state S.Store conn.new)) }
    ensures rests { Rests (state S.Store conn.old) (state S.Store conn.new) }
{
    let Some((first, last)) = ends::<M>(&records) else {
        return Ok(records);
    };
    let marks = marks_between::<S, M>(alloc, conn, text, first, last)?;
    Ok(with_marks::<M>(records, &marks))
}

/// Whether the record with a number is marked. It reads no other mark.
fn is_marked<S: Alter, M: Marking>(
    alloc: Global,
    conn: &mut Connection<S>,
    text: &str,
    number: u32,
) -> Result<bool, Unread>
    requires settled { conn.old.in_transaction ≡ false }
    requires plain { IsPlain (understood desk_schema text.now) }
    requires unlisted { reads_listing desk_schema text.now ≡ false }
    ensures told { HasCleanDisk (state S.Store conn.new) → (all : List M.Record) → IsInOrder M.Record.key all
        → (IsTrue (state S.Store conn.old).is_open
        → HasMarks text.now M.Record.key M.rows_of (state S.Store conn.old).now all)
        → IfOk result (λ found. found ≡ is_marked M.rows_of (record_at M.Record.key number all)) }
    ensures excused { HasCleanDisk (state S.Store conn.new) → (all : List M.Record) → IsInOrder M.Record.key all
        → Each (λ x. IsWord (M.Record.key x)) all → (IsTrue (state S.Store conn.old).is_open
        → HasMarks text.now M.Record.key M.rows_of (state S.Store conn.old).now all)
        → IfErr result (IsExcused (state S.Store conn.old) (state S.Store conn.new)) }
    ensures rests { Rests (state S.Store conn.old) (state S.Store conn.new) }
{
    let marks = marks_between::<S, M>(alloc, conn, text, number, number)?;
    Ok(marks.find(&Key::of(number)).is_some())
}

/// The records with their marks, from one query for each record. Use it for records whose numbers are far apart.
pub(crate) fn mark_each<S: Alter, M: Marking>(
    alloc: Global,
    conn: &mut Connection<S>,
    text: &str,
    mut records: Vec<M::Record>,
) -> Result<Vec<M::Record>, Unread>
    requires settled { conn.old.in_transaction ≡ false }
    requires committed { ShowsCommit (state S.Store conn.old) }
    requires plain { IsPlain (understood desk_schema text.now) }
    requires unlisted { reads_listing desk_schema text.now ≡ false }
    ensures told { HasCleanDisk (state S.Store conn.new) → (all : List M.Record) → IsInOrder M.Record.key all
        → (IsTrue (state S.Store conn.old).is_open
        → HasMarks text.now M.Record.key M.rows_of (state S.Store conn.old).now all)
        → IfOk result (λ found. found.items ≡ map (marked_in M.Record.key M.rows_of M.marked all) records.items) }
    ensures excused { HasCleanDisk (state S.Store conn.new) → (all : List M.Record) → IsInOrder M.Record.key all
        → Each (λ x. IsWord (M.Record.key x)) all → (IsTrue (state S.Store conn.old).is_open
        → HasMarks text.now M.Record.key M.rows_of (state S.Store conn.old).now all)
        → IfErr result (IsExcused (state S.Store conn.old) (state S.Store conn.new)) }
    ensures rests { Rests (state S.Store conn.old) (state S.Store conn.new) }
{
    for owner in records.iter_mut() {
        let found = is_marked::<S, M>(alloc, conn, text, M::number(owner))?;
        M::mark(owner, found);
    }
    Ok(records)
}
