ghost use Rattle.std.specs.Prelude.{◌∷◌, []};
ghost use Rattle.pt_tables_writing.specs.Grouped.{Adds};
ghost use Rattle.pt_tables_writing.specs.Step.{Writes};
ghost use Rattle.pt_tables_rows.specs.Rows.{entry_row};
ghost use Rattle.pt_tables_rows.specs.Schema.{entries_table};

use crate::grouped::entry_texts::{
    AsText, Optional, entry_conditions, entry_words, first_number, second_number,
};
use crate::stored::Stored;
use pt_desk_rules::FiledEntry;
use pt_desk_spelling::entry_number;
use pt_tables_rows::tables::Entries;
use sqlite::{Alter, Error, Transaction, params};

const DELETE_ENTRY: &str = "DELETE FROM entries WHERE rider = ?1 AND place = ?2";

const INSERT_ENTRY: &str = "INSERT INTO entries (rider, place, kind, day, author, a, b, \
    conditions, words) VALUES (?1, ?2, ?3, ?4, ?5, ?6, ?7, ?8, ?9)";

impl Stored for Entries {
    fn put<S: Alter>(tx: &mut Transaction<'_, S>, filed: &FiledEntry) -> Result<(), Error> {
        Self::take(tx, filed)?;
        insert_entry(tx, filed)
    }

    fn take<S: Alter>(tx: &mut Transaction<'_, S>, filed: &FiledEntry) -> Result<(), Error> {
        tx.execute(DELETE_ENTRY, params![filed.rider.number(), filed.position])?;
        Ok(())
    }
}

/// Adds the row of an entry.
fn insert_entry<S: Alter>(tx: &mut Transaction<'_, S>, filed: &FiledEntry) -> Result<(), Error>
    ensures step { Writes S.Store tx.old tx.new (Adds entries_table (entry_row filed.now ∷ [])) result }
{
    let entry = &filed.entered.entry;
    tx.execute(
        INSERT_ENTRY,
        params![
            filed.rider.number(),
            filed.position,
            u32::from(entry_number(entry)),
            filed.entered.day.number(),
            filed.entered.author.number(),
            Optional(first_number(entry)),
            Optional(second_number(entry)),
            AsText(entry_conditions(entry).as_slice()),
            AsText(entry_words(entry))
        ],
    )?;
    Ok(())
}
