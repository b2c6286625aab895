ghost use Rattle.std.specs.Prelude.{List};
ghost use Rattle.sqlite.specs.Order.{Row};
ghost use Rattle.sqlite.specs.Table.{Table as StoredTable};
ghost use Rattle.pt_tables_writing.specs.Groups.{KnowsTaken, OfEach};
ghost use Rattle.pt_tables_writing.specs.Step.{Writes};
ghost use Rattle.pt_tables_writing.specs.Stored.{EditsTable, PutsAll, TakesAll, TakesSpans};
ghost use Rattle.pt_tables_writing.specs.Writes.{Puts, Takes};

use pt_base_records::{Edits, Keyed, Span, Table};
use pt_tables_rows::tables::TableOf;
use sqlite::{Alter, Error, Transaction};

/// A table that is written record by record.
pub(crate) trait Stored: TableOf {
    /// Puts the record's rows, instead of those of the record with the same key.
    fn put<S: Alter>(tx: &mut Transaction<'_, S>, one: &Self::Record) -> Result<(), Error>
        ensures step { Writes S.Store tx.old tx.new
            (Puts Self.home Self.Record.key Self.Fits Self.rows_of one.now) result };

    /// Deletes the rows of the record with the same key.
    fn take<S: Alter>(tx: &mut Transaction<'_, S>, one: &Self::Record) -> Result<(), Error>
        ensures step { Writes S.Store tx.old tx.new
            (Takes Self.home Self.Record.key Self.Fits Self.rows_of one.now) result };
}

/// Puts each of the records.
pub(crate) fn put_each<S: Alter, T: Stored>(
    tx: &mut Transaction<'_, S>,
    news: &[T::Record],
) -> Result<(), Error>
    ensures step { Writes S.Store tx.old tx.new (PutsAll T.home T.Record.key T.Fits T.rows_of news.now) result }
{
    for new in news {
        T::put(tx, new)?;
    }
    Ok(())
}

/// Deletes each of the records.
fn take_each<S: Alter, T: Stored>(
    tx: &mut Transaction<'_, S>,
    gone: &[T::Record],
) -> Result<(), Error>
    ensures step { Writes S.Store tx.old tx.new (TakesAll T.home T.Record.key T.Fits T.rows_of gone.now) result }
{
    for old in gone {
        T::take(tx, old)?;
    }
    Ok(())
}

/// Deletes the records with keys in these spans. `records` must have them as they are stored before the first deletion.
pub(crate) fn take_spans<S: Alter, T: Stored>(
    tx: &mut Transaction<'_, S>,
    spans: &[Span],
    records: &Table<T::Record>,
) -> Result<(), Error>
    ensures step { Writes S.Store tx.old tx.new
        (OfEach (KnowsTaken T.Record.key spans.now records.now.items)
        (TakesSpans T.home T.Record.key T.Fits T.rows_of spans.now)) result }
{
    for span in spans {
        take_each::<S, T>(tx, records.within(span))?;
    }
    Ok(())
}

/// Makes the edit in the table. `records` must have the stored records that it removes.
pub(crate) fn write_edits<S: Alter, T: Stored>(
    tx: &mut Transaction<'_, S>,
    edits: &Edits<T::Record>,
    records: &Table<T::Record>,
) -> Result<(), Error>
    ensures step { Writes S.Store tx.old tx.new
        (OfEach (KnowsTaken T.Record.key edits.now.away records.now.items)
        (EditsTable T.home T.Record.key T.Fits T.rows_of edits.now)) result }
{
    take_spans::<S, T>(tx, edits.spans(), records)?;
    put_each::<S, T>(tx, edits.puts())
}
