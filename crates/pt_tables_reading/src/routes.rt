ghost use Rattle.std.specs.Prelude.{◌≡◌, IfOk, flat_map};
ghost use Rattle.sqlite.specs.declared.types.Value.TheVariants.{Blob};
ghost use Rattle.sqlite.specs.Order.{column};
ghost use Rattle.pt_desk_spelling.specs.Requests.{point_bytes};
ghost use Rattle.pt_tables_rows.specs.Rows.{route_row};
ghost use Rattle.pt_tables_reading.specs.Reading.{Reads};
ghost use Rattle.pt_desk_spelling.specs.Ranges.{IsRoute};

use crate::columns::{bytes_at, id_at, minute_at, number_at, truth_at};
use crate::one_row::OneRow;
use crate::points::{are_points, points_from};
use crate::weekdays::days_at;
use pt_base_values::Point;
use pt_corridor::FixedRoute;
use pt_tables_rows::tables::FixedRoutes;
use sqlite::Row;
use std::alloc::{AllocError, Global};

/// How many columns a fixed route's row has.
const COLUMNS: usize = 7;

/// The fixed route of a row.
pub fn route_of(alloc: Global, row: &Row) -> Result<Option<FixedRoute>, AllocError>
    ensures { IfOk result (Reads route_row IsRoute row.now) }
{
    let Some(bytes) = bytes_at(row, 2) else {
        return Ok(None);
    };
    let Some(points) = points_from(alloc, bytes)? else {
        return Ok(None);
    };
    Ok(route_along(row, points))
}

/// The fixed route of a row, along the points that the row has.
fn route_along(row: &Row, points: Vec<Point>) -> Option<FixedRoute>
    requires { column row.now 2 ≡ Blob (flat_map point_bytes points.items) }
    ensures { Reads route_row IsRoute row.now result }
{
    if row.column_count() != COLUMNS {
        return None;
    }
    are_points(&points);
    let id = id_at(row, 0)?;
    let width = number_at(row, 1)?;
    let accessible = truth_at(row, 3)?;
    let days = days_at(row, 4)?;
    let first = minute_at(row, 5)?;
    let last = minute_at(row, 6)?;
    match FixedRoute::new(id, width, points, accessible, days, first, last) {
        Ok(route) => Some(route),
        Err(_) => None,
    }
}

impl OneRow for FixedRoutes {
    ghost use Rattle.std.specs.Prelude.{refl};
    ghost use Rattle.pt_tables_rows.specs.Rows.{route_row};

    ghost row_of = { route_row };

    ghost one = { λ _. refl };

    fn of_row(alloc: Global, row: &Row) -> Result<Option<FixedRoute>, AllocError> {
        route_of(alloc, row)
    }
}
