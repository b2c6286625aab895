//! Planned routes, read from their stops.

ghost use Rattle.std.specs.Option.{option_to_list};
ghost use Rattle.std.specs.Prelude.{◌≡◌, ◌++◌, IfErr, IfOk, OnOk, false};
ghost use Rattle.sqlite.specs.Held.{state};
ghost use Rattle.sqlite.specs.State.{HasCleanDisk};
ghost use Rattle.pt_desk_rules.specs.Planned.{planned_on};
ghost use Rattle.pt_desk_rules.specs.State.{State};
ghost use Rattle.pt_base_records.specs.Records.{Each, record_at};
ghost use Rattle.pt_desk_scheduling.specs.Plan.{plan_key};
ghost use Rattle.pt_tables_asking.specs.Asking.{Rests, ShowsCommit};
ghost use Rattle.pt_tables_asking.specs.Content.{IsExcused, Tells};
ghost use Rattle.pt_tables_asking.specs.Plans.{HasFewStops, HasVersionAmong, plan_by_stops, vehicle_ids};
ghost use Rattle.pt_tables_rows.specs.Tables.{IsKept, IsWellFormed};

use crate::asking::{Unread, ask, in_order};
use crate::texts::STOPS_BY_VEHICLE_AND_DAY;
use pt_base_records::{Key, Rows};
use pt_base_values::{Day, Vehicle, VehicleId};
use pt_desk_rules::has_version;
use pt_desk_scheduling::Plan;
use pt_tables_reading::{StopAt, Stops};
use sqlite::{Alter, Connection, params};
use std::alloc::{AllocError, Global};

/// The route of these stops; none if there is no stop.
fn route_of(alloc: Global, stops: &[StopAt]) -> Result<Option<Plan>, AllocError>
    ensures value { IfOk result (λ route. route ≡ plan_by_stops stops.now) }
{
    let Some(first) = stops.first() else {
        return Ok(None);
    };
    let mut planned = Vec::new(alloc);
    for at in stops {
        planned.push(at.stop)?;
    }
    Ok(Some(Plan {
        vehicle: first.vehicle,
        day: first.day,
        stops: planned,
    }))
}

/// The planned route for the vehicle and the day of a key.
pub fn plan_by_key<S: Alter>(
    alloc: Global,
    conn: &mut Connection<S>,
    key: &Key,
) -> Result<Option<Plan>, Unread>
    requires settled { conn.old.in_transaction ≡ false }
    ensures told { Tells (state S.Store conn.old) (state S.Store conn.new)
        (λ s. record_at plan_key key.now s.planned) result }
    ensures excused { HasCleanDisk (state S.Store conn.new) → (content : State) → IsWellFormed content
        → Each HasFewStops content.planned → IsKept content (state S.Store conn.old)
        → IfErr result (IsExcused (state S.Store conn.old) (state S.Store conn.new)) }
    ensures rests { Rests (state S.Store conn.old) (state S.Store conn.new) }
{
    let (vehicle, day) = key.numbers();
    let stops = ask::<S, Stops>(alloc, conn, STOPS_BY_VEHICLE_AND_DAY, params![vehicle, day])?;
    Ok(route_of(alloc, &stops)?)
}

/// The numbers of the vehicles, each once.
fn vehicle_ids(alloc: Global, vehicles: &[Vehicle]) -> Result<Vec<VehicleId>, AllocError>
    ensures value { IfOk result (λ ids. ids.items ≡ vehicle_ids vehicles.now) }
{
    let mut ids = Vec::new(alloc);
    for (at, version) in vehicles.iter().enumerate() {
        let (_, later) = vehicles.split_at(at + 1);
        if !has_version(later, version.id) {
            ids.push(version.id)?;
        }
    }
    Ok(ids)
}

/// Adds the route to the others, if there is one.
fn push_found(found: Option<Plan>, plans: &mut Vec<Plan>) -> Result<(), AllocError>
    ensures value { OnOk result (plans.new.items ≡ plans.old.items ++ option_to_list found) }
{
    if let Some(plan) = found {
        plans.push(plan)?;
    }
    Ok(())
}

/// The planned routes of a day, in the order of their vehicles. `vehicles` must include each vehicle that has a route.
pub fn plans_by_day<S: Alter>(
    alloc: Global,
    conn: &mut Connection<S>,
    vehicles: &[Vehicle],
    day: Day,
) -> Result<Rows<Plan>, Unread>
    requires settled { conn.old.in_transaction ≡ false }
    requires committed { ShowsCommit (state S.Store conn.old) }
    ensures told { HasCleanDisk (state S.Store conn.new) → (content : State) → IsWellFormed content
        → content.vehicles ≡ vehicles.now → Each (HasVersionAmong vehicles.now) content.planned
        → IsKept content (state S.Store conn.old) → IfOk result (λ plans. plans ≡ planned_on day content.planned) }
    ensures excused { HasCleanDisk (state S.Store conn.new) → (content : State) → IsWellFormed content
        → content.vehicles ≡ vehicles.now → Each (HasVersionAmong vehicles.now) content.planned
        → Each HasFewStops content.planned → IsKept content (state S.Store conn.old)
        → IfErr result (IsExcused (state S.Store conn.old) (state S.Store conn.new)) }
    ensures rests { Rests (state S.Store conn.old) (state S.Store conn.new) }
{
    let date = day.number();
    let ids = vehicle_ids(alloc, vehicles)?;
    let mut plans = Vec::new(alloc);
    for id in &ids {
        let found = plan_by_key(alloc, conn, &Key::pair(id.number(), date))?;
        push_found(found, &mut plans)?;
    }
    in_order(plans)
}
