ghost use Rattle.sqlite.specs.declared.types.Value.TheVariants.{Int};
ghost use Rattle.sqlite.specs.Order.{column};
ghost use Rattle.pt_base_values.specs.Place.{IsCoordinate};
ghost use Rattle.pt_tables_rows.specs.Rows.{place_row};
ghost use Rattle.pt_tables_reading.specs.Reading.{Reads};
ghost use Rattle.pt_desk_rules.specs.Ranges.{FitsPlace};

use crate::columns::{id_at, signed_at, truth_at};
use crate::one_row::OneRow;
use pt_base_values::{Place, Point};
use pt_tables_rows::tables::Places;
use sqlite::Row;
use std::alloc::{AllocError, Global};

/// How many columns a place's row has.
const COLUMNS: usize = 4;

/// The largest coordinate of a place, in feet from the origin, in either direction.
const FARTHEST: i32 = 1_000_000;

/// The place of a row.
pub fn place_of(row: &Row) -> Option<Place>
    ensures { Reads place_row FitsPlace row.now result }
{
    if row.column_count() != COLUMNS {
        return None;
    }
    let x = coordinate_at(row, 1)?;
    let y = coordinate_at(row, 2)?;
    Some(Place {
        id: id_at(row, 0)?,
        at: Point { x, y },
        core: truth_at(row, 3)?,
    })
}

/// The coordinate in a column.
fn coordinate_at(row: &Row, at: usize) -> Option<i32>
    ensures { Reads Int IsCoordinate (column row.now at) result }
{
    let number = signed_at(row, at)?;
    if number < -FARTHEST || number > FARTHEST {
        return None;
    }
    Some(number)
}

impl OneRow for Places {
    ghost use Rattle.std.specs.Prelude.{refl};
    ghost use Rattle.pt_tables_rows.specs.Rows.{place_row};

    ghost row_of = { place_row };

    ghost one = { λ _. refl };

    fn of_row(_alloc: Global, row: &Row) -> Result<Option<Place>, AllocError> {
        Ok(place_of(row))
    }
}
