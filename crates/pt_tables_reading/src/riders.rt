ghost use Rattle.std.specs.Prelude.{◌≡◌};
ghost use Rattle.pt_tables_rows.specs.Rows.{rider_row};
ghost use Rattle.pt_tables_reading.specs.Reading.{Reads};
ghost use Rattle.pt_desk_rules.specs.Ranges.{FitsRider};

use crate::columns::{id_at, kind_at, truth_at};
use crate::one_row::OneRow;
use pt_base_values::Rider;
use pt_tables_rows::tables::Riders;
use sqlite::Row;
use std::alloc::{AllocError, Global};

/// How many columns a rider's row has.
const COLUMNS: usize = 3;

/// The rider of a row. The wheelchair mark is false: it is a row of `rider_chairs`.
pub fn rider_of(row: &Row) -> Option<Rider>
    ensures { Reads rider_row FitsRider row.now result }
{
    if row.column_count() != COLUMNS {
        return None;
    }
    Some(Rider {
        id: id_at(row, 0)?,
        kind: kind_at(row, 1)?,
        attendant: truth_at(row, 2)?,
        wheelchair: false,
    })
}

impl OneRow for Riders {
    ghost use Rattle.std.specs.Prelude.{refl};
    ghost use Rattle.pt_tables_rows.specs.Rows.{rider_row};

    ghost row_of = { rider_row };

    ghost one = { λ _. refl };

    fn of_row(_alloc: Global, row: &Row) -> Result<Option<Rider>, AllocError> {
        Ok(rider_of(row))
    }
}
