ghost use Rattle.std.specs.Prelude.{◌≡◌};
ghost use Rattle.sqlite.specs.Order.{column};
ghost use Rattle.pt_tables_rows.specs.Rows.{number_value, stop_number};
ghost use Rattle.pt_tables_reading.specs.Reading.{Reads};
ghost use Rattle.pt_tables_reading.specs.Fitting.{stop_row, FitsStopAt};

use crate::columns::{day_at, id_at, number_at};
use crate::one_row::OneRow;
use pt_base_records::{Key, Keyed};
use pt_base_values::{Day, VehicleId};
use pt_desk_scheduling::PlannedStop;
use pt_feasible::StopKind;
use pt_tables_rows::tables::TableOf;
use sqlite::Row;
use std::alloc::{AllocError, Global};

/// How many columns a stop's row has.
const COLUMNS: usize = 5;

/// A stop of a vehicle on a day, as a row has it.
#[derive(Clone, Copy)]
pub struct StopAt {
    pub vehicle: VehicleId,
    pub day: Day,
    /// Its place among the stops of the vehicle on the day, counted from 0.
    pub place: u32,
    pub stop: PlannedStop,
}

impl Keyed for StopAt {
    ghost key = { λ at. at.place };

    fn key(&self) -> Key {
        Key::of(self.place)
    }
}

/// Planned stops, a record for each row.
#[derive(Clone, Copy)]
pub struct Stops;

impl TableOf for Stops {
    ghost use Rattle.std.specs.Prelude.{◌∷◌, []};
    ghost use Rattle.pt_tables_rows.specs.Schema.{stops_table};
    ghost use Rattle.pt_tables_reading.specs.Fitting.{FitsStopAt, stop_row};

    type Record = StopAt;

    ghost home = { stops_table };

    ghost Fits = { FitsStopAt };

    ghost rows_of = { λ at. stop_row at ∷ [] };
}

/// The stop of a row.
pub fn stop_of(row: &Row) -> Option<StopAt>
    ensures { Reads stop_row FitsStopAt row.now result }
{
    if row.column_count() != COLUMNS {
        return None;
    }
    Some(StopAt {
        vehicle: id_at(row, 0)?,
        day: day_at(row, 1)?,
        place: number_at(row, 2)?,
        stop: PlannedStop {
            trip: id_at(row, 3)?,
            kind: stop_kind_at(row, 4)?,
        },
    })
}

/// Whether a stop is a pickup or a drop, in a column.
fn stop_kind_at(row: &Row, at: usize) -> Option<StopKind>
    ensures { Reads (λ kind. number_value (stop_number kind)) (λ _. Unit {0}) (column row.now at) result }
{
    match number_at(row, at)? {
        0 => Some(StopKind::Pickup),
        1 => Some(StopKind::Drop),
        _ => None,
    }
}

impl OneRow for Stops {
    ghost use Rattle.std.specs.Prelude.{refl};
    ghost use Rattle.pt_tables_reading.specs.Fitting.{stop_row};

    ghost row_of = { stop_row };

    ghost one = { λ _. refl };

    fn of_row(_alloc: Global, row: &Row) -> Result<Option<StopAt>, AllocError> {
        Ok(stop_of(row))
    }
}
