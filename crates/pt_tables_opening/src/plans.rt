ghost use Rattle.std.specs.Prelude.{◌≡◌, pos, List, IfOk, MatchOption};
ghost use Rattle.pt_desk_scheduling.specs.declared.planned.PlannedStop.{PlannedStop};
ghost use Rattle.pt_tables_opening.specs.Gathered.{FitStops, FitsRows};
ghost use Rattle.pt_tables_reading.specs.Fitting.{FitsStopAt};
ghost use Rattle.pt_tables_reading.specs.Reading.{Reads};
ghost use Rattle.pt_tables_rows.specs.Rows.{stop_row, stop_rows, stop_rows_from};
ghost use Rattle.pt_tables_rows.specs.Tables.{IsStoredPlan};

use crate::gathered::{Gathered, is_zero};
use pt_base_values::{Day, VehicleId};
use pt_desk_scheduling::{Plan, PlannedStop};
use pt_tables_reading::stop_of;
use pt_tables_rows::tables::Plans;
use sqlite::Row;
use std::alloc::{AllocError, Global};

/// The column of a stop's row that has its place among the stops.
const PLACE_COLUMN: usize = 2;

/// The stop of a row, if the row has this vehicle, day and place.
fn stop_at(row: &Row, vehicle: VehicleId, day: Day, place: usize) -> Option<PlannedStop>
    ensures { Reads (stop_row vehicle day (pos place))
        (λ stop. FitsStopAt (record { vehicle = vehicle; day = day; place = place; stop = stop })) row.now result }
{
    let at = stop_of(row)?;
    if at.vehicle != vehicle || at.day != day || at.place as usize != place {
        return None;
    }
    Some(at.stop)
}

/// The stops that have these rows in a plan of this vehicle and day.
fn stops_of(
    alloc: Global,
    vehicle: VehicleId,
    day: Day,
    rows: &[Row],
) -> Result<Option<Vec<PlannedStop>>, AllocError>
    ensures told { IfOk result (λ found. MatchOption found
        ((stops : List PlannedStop)
        → FitsRows stop_rows IsStoredPlan (record { vehicle = vehicle; day = day; stops = stops })
        → stop_rows_from 0 vehicle day stops ≡ rows.now → ⊥)
        (λ stops. (stop_rows_from 0 vehicle day stops.items ≡ rows.now) × FitStops vehicle day stops.items)) }
{
    let mut stops = Vec::new(alloc);
    for (place, row) in rows.iter().enumerate() {
        let Some(stop) = stop_at(row, vehicle, day, place) else {
            return Ok(None);
        };
        stops.push(stop)?;
    }
    Ok(Some(stops))
}

/// The planned route that has these rows.
fn plan_of(alloc: Global, rows: &[Row]) -> Result<Option<Plan>, AllocError>
    ensures told { IfOk result (Reads stop_rows (FitsRows stop_rows IsStoredPlan) rows.now) }
{
    let Some(row) = rows.first() else {
        return Ok(None);
    };
    let Some(first) = stop_of(row) else {
        return Ok(None);
    };
    match stops_of(alloc, first.vehicle, first.day, rows)? {
        Some(stops) => Ok(Some(Plan {
            vehicle: first.vehicle,
            day: first.day,
            stops,
        })),
        None => Ok(None),
    }
}

impl Gathered for Plans {
    ghost use Rattle.pt_tables_opening.specs.Gathered.{BeginsPlan};

    ghost Begins = { BeginsPlan };

    fn begins(row: &Row) -> bool {
        is_zero(row, PLACE_COLUMN)
    }

    fn of_rows(alloc: Global, rows: &[Row]) -> Result<Option<Plan>, AllocError> {
        plan_of(alloc, rows)
    }
}
