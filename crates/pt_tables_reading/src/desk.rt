ghost use Rattle.pt_tables_reading.specs.Reading.{Reads, FitsAgency, agency_row};

use crate::columns::{number_at, number_in};
use pt_base_values::{HIGHEST_FARE, Policy};
use pt_tables_rows::{DESK, TABLE_VERSION};
use sqlite::Row;

/// How many columns the agency's row has.
const COLUMNS: usize = 11;

/// The policy of the agency's row, and the number that was last given to a trip.
pub fn agency_of(row: &Row) -> Option<(Policy, u32)>
    ensures { Reads agency_row FitsAgency row.now result }
{
    if row.column_count() != COLUMNS {
        return None;
    }
    number_in(row, 0, DESK, DESK)?;
    number_in(row, 1, TABLE_VERSION, TABLE_VERSION)?;
    let policy = Policy {
        base: number_in(row, 2, 0, HIGHEST_FARE)?,
        transfer: number_in(row, 3, 0, HIGHEST_FARE)?,
        fare: number_in(row, 4, 0, HIGHEST_FARE)?,
        service: number_in(row, 5, 0, 30)? as u16,
        extra_ride: number_in(row, 6, 0, 240)? as u16,
        min_missed: number_in(row, 7, 1, 1_000)? as u16,
        percent: number_in(row, 8, 1, 100)? as u16,
        span_days: number_in(row, 9, 1, 366)? as u16,
    };
    Some((policy, number_at(row, 10)?))
}
