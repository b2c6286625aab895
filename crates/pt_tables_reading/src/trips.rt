ghost use Rattle.pt_tables_rows.specs.Rows.{trip_row};
ghost use Rattle.pt_tables_reading.specs.Reading.{Reads};
ghost use Rattle.pt_desk_rules.specs.Ranges.{FitsTrip};

use crate::columns::{
    day_at, id_at, minute_at, number_in, optional_minute_at, status_at, truth_at,
};
use crate::one_row::OneRow;
use pt_base_values::{HIGHEST_FARE, Trip, Wish};
use pt_tables_rows::tables::Trips;
use sqlite::Row;
use std::alloc::{AllocError, Global};

/// How many columns a trip's row has.
const COLUMNS: usize = 16;

/// The trip of a row. The wheelchair mark is false: it is a row of `trip_chairs`.
pub fn trip_of(row: &Row) -> Option<Trip>
    ensures { Reads trip_row FitsTrip row.now result }
{
    if row.column_count() != COLUMNS {
        return None;
    }
    let wish = Wish {
        day: day_at(row, 2)?,
        pickup: minute_at(row, 3)?,
        from: id_at(row, 4)?,
        to: id_at(row, 5)?,
        by: optional_minute_at(row, 6)?,
        attendant: truth_at(row, 7)?,
        companions: number_in(row, 8, 0, 1)? as u8,
    };
    Some(Trip {
        id: id_at(row, 0)?,
        rider: id_at(row, 1)?,
        wish,
        wheelchair: false,
        fare: number_in(row, 9, 0, HIGHEST_FARE)?,
        service: number_in(row, 10, 0, 30)? as u16,
        ride: number_in(row, 11, 0, 1_679)? as u16,
        vehicle: id_at(row, 12)?,
        window_from: minute_at(row, 13)?,
        window_to: minute_at(row, 14)?,
        status: status_at(row, 15)?,
    })
}

impl OneRow for Trips {
    ghost use Rattle.std.specs.Prelude.{refl};
    ghost use Rattle.pt_tables_rows.specs.Rows.{trip_row};

    ghost row_of = { trip_row };

    ghost one = { λ _. refl };

    fn of_row(_alloc: Global, row: &Row) -> Result<Option<Trip>, AllocError> {
        Ok(trip_of(row))
    }
}
