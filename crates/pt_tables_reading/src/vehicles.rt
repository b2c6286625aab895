ghost use Rattle.std.specs.Prelude.{◌≡◌};
ghost use Rattle.pt_tables_rows.specs.Rows.{vehicle_row};
ghost use Rattle.pt_tables_reading.specs.Reading.{Reads};
ghost use Rattle.pt_desk_spelling.specs.Ranges.{IsVehicle};

use crate::columns::{day_at, id_at, minute_at, number_in};
use crate::one_row::OneRow;
use crate::weekdays::days_at;
use pt_base_values::{LAST_MINUTE, Vehicle};
use pt_tables_rows::tables::Vehicles;
use sqlite::Row;
use std::alloc::{AllocError, Global};

/// How many columns a vehicle's row has.
const COLUMNS: usize = 8;

/// The version of a vehicle that a row has. It has no wheelchair places yet: they are a row of `vehicle_chairs`.
pub fn vehicle_of(row: &Row) -> Option<Vehicle>
    ensures { Reads vehicle_row IsVehicle row.now result }
{
    if row.column_count() != COLUMNS {
        return None;
    }
    let opens = minute_at(row, 5)?;
    let closes = minute_at(row, 6)?;
    if opens > closes {
        return None;
    }
    Some(Vehicle {
        id: id_at(row, 0)?,
        from_day: day_at(row, 1)?,
        days: days_at(row, 2)?,
        depot: id_at(row, 3)?,
        capacity: number_in(row, 4, 1, 30)? as u16,
        chairs: 0,
        opens,
        closes,
        duration: number_in(row, 7, 1, LAST_MINUTE)? as u16,
    })
}

impl OneRow for Vehicles {
    ghost use Rattle.std.specs.Prelude.{refl};
    ghost use Rattle.pt_tables_rows.specs.Rows.{vehicle_row};

    ghost row_of = { vehicle_row };

    ghost one = { λ _. refl };

    fn of_row(_alloc: Global, row: &Row) -> Result<Option<Vehicle>, AllocError> {
        Ok(vehicle_of(row))
    }
}
