ghost use Rattle.std.specs.Prelude.{◌≡◌};
ghost use Rattle.sqlite.specs.Order.{column};
ghost use Rattle.pt_tables_reading.specs.Reading.{Reads};
ghost use Rattle.pt_tables_reading.specs.Fitting.{drive_row, FitsDriveAt};

use crate::columns::{day_at, id_at, number_at, number_in};
use pt_base_values::Day;
use pt_travel::Row;
use sqlite::Row as TableRow;

/// How many columns a row of driving times has.
const COLUMNS: usize = 4;

/// A drive of the travel table of a day, as a row has it.
#[derive(Clone, Copy)]
pub struct DriveAt {
    pub from_day: Day,
    /// From one place to another in this many minutes; `None` in the row of zeros, which begins a table.
    pub drive: Option<Row>,
}

/// The drive of a row.
pub fn drive_of(row: &TableRow) -> Option<DriveAt>
    ensures { Reads drive_row FitsDriveAt row.now result }
{
    if row.column_count() != COLUMNS {
        return None;
    }
    let from_day = day_at(row, 0)?;
    let (from, to, minutes) = (
        number_at(row, 1)?,
        number_at(row, 2)?,
        number_in(row, 3, 0, 65_535)?,
    );
    if from == 0 && to == 0 && minutes == 0 {
        return Some(DriveAt {
            from_day,
            drive: None,
        });
    }
    Some(DriveAt {
        from_day,
        drive: Some((id_at(row, 1)?, id_at(row, 2)?, minutes as u16)),
    })
}
