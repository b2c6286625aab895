ghost use Rattle.std.specs.Prelude.{◌≡◌, List, map, IfOk, MatchOption};
ghost use Rattle.pt_base_values.specs.Day.{IsDay};
ghost use Rattle.pt_desk_rules.specs.Ranges.{FitsDrive, FitsTravel};
ghost use Rattle.pt_base_records.specs.Records.{Each};
ghost use Rattle.pt_travel.specs.Chain as travel;
ghost use Rattle.pt_tables_reading.specs.Fitting.{FitsDriveAt};
ghost use Rattle.pt_tables_reading.specs.Reading.{Reads};
ghost use Rattle.pt_tables_rows.specs.Rows.{travel_row, travel_rows};

use crate::gathered::{Gathered, is_zero};
use pt_base_values::Day;
use pt_desk_rules::TravelTable;
use pt_tables_reading::drive_of;
use pt_tables_rows::tables::TravelTables;
use pt_travel::{Raw, Row as Drive};
use sqlite::Row;
use std::alloc::{AllocError, Global};

/// The column with the place where a drive begins.
const FROM_COLUMN: usize = 1;

/// The day of a row of zeros, which begins a table.
fn first_day(row: &Row) -> Option<Day>
    ensures { Reads (λ day. travel_row day (0, 0, 0)) IsDay row.now result }
{
    let at = drive_of(row)?;
    match at.drive {
        None => Some(at.from_day),
        Some(_) => None,
    }
}

/// The drive of a row, if the row is one of this day's table.
fn drive_on(row: &Row, from_day: Day) -> Option<Drive>
    ensures { Reads (travel_row from_day)
        (λ drive. FitsDriveAt (record { from_day = from_day; drive = Some drive })) row.now result }
{
    let at = drive_of(row)?;
    if at.from_day != from_day {
        return None;
    }
    at.drive
}

/// The drives that have these rows in a table of this day.
fn drives_of(alloc: Global, from_day: Day, rows: &[Row]) -> Result<Option<Vec<Drive>>, AllocError>
    ensures told { IfOk result (λ found. MatchOption found
        ((drives : List travel.Row) → IsDay from_day → Each FitsDrive drives
        → map (travel_row from_day) drives ≡ rows.now → ⊥)
        (λ drives. (map (travel_row from_day) drives.items ≡ rows.now) × Each FitsDrive drives.items)) }
{
    let mut drives = Vec::new(alloc);
    for row in rows {
        match drive_on(row, from_day) {
            Some(drive) => drives.push(drive)?,
            None => return Ok(None),
        }
    }
    Ok(Some(drives))
}

/// The travel table that has these rows.
fn table_of(alloc: Global, rows: &[Row]) -> Result<Option<TravelTable>, AllocError>
    ensures told { IfOk result (Reads travel_rows FitsTravel rows.now) }
{
    let Some(first) = rows.first() else {
        return Ok(None);
    };
    let Some(from_day) = first_day(first) else {
        return Ok(None);
    };
    let Some(drives) = drives_of(alloc, from_day, &rows[1..])? else {
        return Ok(None);
    };
    match Raw::of(drives) {
        Some(drives) => Ok(Some(TravelTable::of(alloc, from_day, drives)?)),
        None => Ok(None),
    }
}

impl Gathered for TravelTables {
    ghost use Rattle.pt_tables_opening.specs.Gathered.{BeginsTravel};

    ghost Begins = { BeginsTravel };

    fn begins(row: &Row) -> bool {
        is_zero(row, FROM_COLUMN)
    }

    fn of_rows(alloc: Global, rows: &[Row]) -> Result<Option<TravelTable>, AllocError> {
        table_of(alloc, rows)
    }
}
