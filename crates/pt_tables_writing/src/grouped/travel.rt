ghost use Rattle.std.specs.Prelude.{map, ◌∷◌, []};
ghost use Rattle.pt_tables_rows.specs.Rows.{travel_row, travel_rows};
ghost use Rattle.pt_tables_rows.specs.Schema.{travel_table};
ghost use Rattle.pt_tables_writing.specs.Grouped.{Adds};
ghost use Rattle.pt_tables_writing.specs.Step.{Writes};

use crate::stored::Stored;
use pt_base_values::Day;
use pt_desk_rules::TravelTable;
use pt_tables_rows::tables::TravelTables;
use pt_travel::Row;
use sqlite::{Alter, Error, Transaction, params};

const DELETE_TRAVEL: &str = "DELETE FROM travel WHERE from_day = ?1";

const INSERT_TRAVEL: &str = "INSERT INTO travel (from_day, a, b, minutes) VALUES (?1, ?2, ?3, ?4)";

const INSERT_FOUR_DRIVES: &str = "INSERT INTO travel (from_day, a, b, minutes) VALUES \
    (?1, ?2, ?3, ?4), (?1, ?5, ?6, ?7), (?1, ?8, ?9, ?10), (?1, ?11, ?12, ?13)";

impl Stored for TravelTables {
    fn put<S: Alter>(tx: &mut Transaction<'_, S>, table: &TravelTable) -> Result<(), Error> {
        Self::take(tx, table)?;
        insert_travel(tx, table)
    }

    fn take<S: Alter>(tx: &mut Transaction<'_, S>, table: &TravelTable) -> Result<(), Error> {
        tx.execute(DELETE_TRAVEL, params![table.from_day().number()])?;
        Ok(())
    }
}

/// Adds the rows of a travel table, after a row of zeros: an empty table has that row only.
fn insert_travel<S: Alter>(tx: &mut Transaction<'_, S>, table: &TravelTable) -> Result<(), Error>
    ensures step { Writes S.Store tx.old tx.new (Adds travel_table (travel_rows table.now)) result }
{
    insert_drive(tx, table.from_day(), 0, 0, 0)?;
    insert_drives(tx, table.from_day(), table.rows())
}

/// Adds rows of a travel table, four by one statement while four are left.
fn insert_drives<S: Alter>(
    tx: &mut Transaction<'_, S>,
    from_day: Day,
    rows: &[Row],
) -> Result<(), Error>
    ensures step { Writes S.Store tx.old tx.new (Adds travel_table (map (travel_row from_day) rows.now)) result }
{
    let mut left = rows;
    while let [first, second, third, fourth, later @ ..] = left {
        insert_four_drives(tx, from_day, *first, *second, *third, *fourth)?;
        left = later;
    }
    insert_each_drive(tx, from_day, left)
}

/// Adds four rows of a travel table.
fn insert_four_drives<S: Alter>(
    tx: &mut Transaction<'_, S>,
    from_day: Day,
    first: Row,
    second: Row,
    third: Row,
    fourth: Row,
) -> Result<(), Error>
    ensures step { Writes S.Store tx.old tx.new
        (Adds travel_table (map (travel_row from_day) (first ∷ second ∷ third ∷ fourth ∷ []))) result }
{
    tx.execute(
        INSERT_FOUR_DRIVES,
        params![
            from_day.number(),
            first.0.number(),
            first.1.number(),
            u32::from(first.2),
            second.0.number(),
            second.1.number(),
            u32::from(second.2),
            third.0.number(),
            third.1.number(),
            u32::from(third.2),
            fourth.0.number(),
            fourth.1.number(),
            u32::from(fourth.2)
        ],
    )?;
    Ok(())
}

/// Adds rows of a travel table, one by one.
fn insert_each_drive<S: Alter>(
    tx: &mut Transaction<'_, S>,
    from_day: Day,
    rows: &[Row],
) -> Result<(), Error>
    ensures step { Writes S.Store tx.old tx.new (Adds travel_table (map (travel_row from_day) rows.now)) result }
{
    for row in rows {
        insert_drive(
            tx,
            from_day,
            row.0.number(),
            row.1.number(),
            u32::from(row.2),
        )?;
    }
    Ok(())
}

/// Adds a row of a travel table.
fn insert_drive<S: Alter>(
    tx: &mut Transaction<'_, S>,
    from_day: Day,
    from: u32,
    to: u32,
    minutes: u32,
) -> Result<(), Error>
    ensures step { Writes S.Store tx.old tx.new
        (Adds travel_table (travel_row from_day (from, to, minutes) ∷ [])) result }
{
    tx.execute(INSERT_TRAVEL, params![from_day.number(), from, to, minutes])?;
    Ok(())
}
