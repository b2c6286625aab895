ghost use Rattle.std.specs.Prelude.{◌≡◌, ◌<◌, ◌^◌, ◌∷◌, [], drop, length, take};
ghost use Rattle.pt_desk_scheduling.specs.Plan.{plan_key};
ghost use Rattle.pt_tables_rows.specs.Rows.{stop_number, stop_row, stop_rows, stop_rows_from};
ghost use Rattle.pt_tables_rows.specs.Schema.{stops_table};
ghost use Rattle.pt_tables_rows.specs.Tables.{IsStoredPlan};
ghost use Rattle.pt_tables_writing.specs.Grouped.{Adds, KeepsStops};
ghost use Rattle.pt_tables_writing.specs.Step.{Writes};
ghost use Rattle.pt_tables_writing.specs.Writes.{Replaces};

use crate::stored::Stored;
use pt_base_values::{Day, VehicleId};
use pt_desk_scheduling::{Plan, PlannedStop};
use pt_feasible::StopKind;
use pt_tables_rows::tables::Plans;
use sqlite::{Alter, Error, Transaction, params};

const DELETE_STOPS: &str = "DELETE FROM stops WHERE vehicle = ?1 AND day = ?2";

const DELETE_LATER_STOPS: &str =
    "DELETE FROM stops WHERE vehicle = ?1 AND day = ?2 AND place >= ?3";

const INSERT_STOP: &str = "INSERT INTO stops (vehicle, day, place, trip, kind) \
    VALUES (?1, ?2, ?3, ?4, ?5)";

const INSERT_TWO_STOPS: &str = "INSERT INTO stops (vehicle, day, place, trip, kind) \
    VALUES (?1, ?2, ?3, ?4, ?5), (?1, ?2, ?6, ?7, ?8)";

impl Stored for Plans {
    fn put<S: Alter>(tx: &mut Transaction<'_, S>, plan: &Plan) -> Result<(), Error> {
        Self::take(tx, plan)?;
        insert_stops(tx, plan, 0)
    }

    fn take<S: Alter>(tx: &mut Transaction<'_, S>, plan: &Plan) -> Result<(), Error> {
        tx.execute(
            DELETE_STOPS,
            params![plan.vehicle.number(), plan.day.number()],
        )?;
        Ok(())
    }
}

/// Replaces the stops of a vehicle on a day. The rows of the first stops stay, as far as both plans have the same.
pub(crate) fn replace_plan<S: Alter>(
    tx: &mut Transaction<'_, S>,
    before: &Plan,
    plan: &Plan,
) -> Result<(), Error>
    ensures step { Writes S.Store tx.old tx.new
        (Replaces stops_table plan_key IsStoredPlan stop_rows before.now plan.now) result }
{
    let shared = shared_stops(&before.stops, &plan.stops);
    take_later_stops(tx, plan, shared)?;
    insert_stops(tx, plan, shared)
}

/// How many of the first stops are the same in both.
fn shared_stops(one: &[PlannedStop], other: &[PlannedStop]) -> usize
    ensures same { take result one.now ≡ take result other.now }
    ensures small { result < 2 ^ 63 }
{
    let both = one.len().min(other.len());
    for place in 0..both {
        if one[place] != other[place] {
            return place;
        }
    }
    both
}

/// Deletes the stops of a vehicle on a day from this place on.
fn take_later_stops<S: Alter>(
    tx: &mut Transaction<'_, S>,
    plan: &Plan,
    first: usize,
) -> Result<(), Error>
    requires { first < 2 ^ 63 }
    ensures step { Writes S.Store tx.old tx.new (KeepsStops plan.now first) result }
{
    tx.execute(
        DELETE_LATER_STOPS,
        params![plan.vehicle.number(), plan.day.number(), first as i64],
    )?;
    Ok(())
}

/// Adds the rows of the stops from this place on, counted from 0. A statement adds two.
fn insert_stops<S: Alter>(
    tx: &mut Transaction<'_, S>,
    plan: &Plan,
    first: usize,
) -> Result<(), Error>
    ensures step { Writes S.Store tx.old tx.new
        (Adds stops_table (stop_rows_from first plan.now.vehicle plan.now.day (drop first plan.now.stops))) result }
{
    let stops = plan.stops.as_slice();
    let mut place = first;
    while place < stops.len() {
        insert_stops_at(tx, plan, place)?;
        place += 2;
    }
    Ok(())
}

/// Adds the rows of the stop at this place and of the next, if there is one.
fn insert_stops_at<S: Alter>(
    tx: &mut Transaction<'_, S>,
    plan: &Plan,
    place: usize,
) -> Result<(), Error>
    requires there { place < length plan.now.stops }
    ensures step { Writes S.Store tx.old tx.new
        (Adds stops_table (stop_rows_from place plan.now.vehicle plan.now.day (take 2 (drop place plan.now.stops))))
        result }
{
    let stops = plan.stops.as_slice();
    let stop = stops[place];
    let next = place + 1;
    if next == stops.len() {
        return insert_stop(tx, plan.vehicle, plan.day, place as i64, stop);
    }
    insert_two_stops(
        tx,
        plan.vehicle,
        plan.day,
        place as i64,
        stop,
        next as i64,
        stops[next],
    )
}

/// Adds the rows of two stops, each with its place.
fn insert_two_stops<S: Alter>(
    tx: &mut Transaction<'_, S>,
    vehicle: VehicleId,
    day: Day,
    place: i64,
    stop: PlannedStop,
    next: i64,
    later: PlannedStop,
) -> Result<(), Error>
    ensures step { Writes S.Store tx.old tx.new
        (Adds stops_table (stop_row vehicle day place stop ∷ stop_row vehicle day next later ∷ [])) result }
{
    tx.execute(
        INSERT_TWO_STOPS,
        params![
            vehicle.number(),
            day.number(),
            place,
            stop.trip.number(),
            stop_number(stop.kind),
            next,
            later.trip.number(),
            stop_number(later.kind)
        ],
    )?;
    Ok(())
}

/// Adds the row of a stop with its place.
fn insert_stop<S: Alter>(
    tx: &mut Transaction<'_, S>,
    vehicle: VehicleId,
    day: Day,
    place: i64,
    stop: PlannedStop,
) -> Result<(), Error>
    ensures step { Writes S.Store tx.old tx.new (Adds stops_table (stop_row vehicle day place stop ∷ [])) result }
{
    tx.execute(
        INSERT_STOP,
        params![
            vehicle.number(),
            day.number(),
            place,
            stop.trip.number(),
            stop_number(stop.kind)
        ],
    )?;
    Ok(())
}

/// The number of a kind of stop in its column.
fn stop_number(kind: StopKind) -> u32
    ensures { result ≡ stop_number kind }
{
    match kind {
        StopKind::Pickup => 0,
        StopKind::Drop => 1,
    }
}
