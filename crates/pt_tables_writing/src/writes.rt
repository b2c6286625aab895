ghost use Rattle.std.specs.Prelude.{◌≡◌, ◌∷◌, [], IfSome, IsTrue, None, OnOk, OnErr, false};
ghost use Rattle.std.specs.Option.{unwrap_or};
ghost use Rattle.sqlite.specs.Held.{state};
ghost use Rattle.sqlite.specs.State.{HasCleanDisk, Survives};
ghost use Rattle.pt_desk_rules.specs.State.{State, applied, puts_one};
ghost use Rattle.sqlite.specs.Effect.{IsDatabase};
ghost use Rattle.pt_tables_writing.specs.Groups.{AgreesFor, AgreesWith, Ends, OfEach, Leads, with_people, with_area};
ghost use Rattle.pt_tables_writing.specs.Groups.{with_trips, WritesRiders, WritesVehicles, WritesFleet, WritesTrips};
ghost use Rattle.pt_tables_writing.specs.Groups.{WritesLast};
ghost use Rattle.pt_tables_writing.specs.Committing.{IsMade, LeadsTo};
ghost use Rattle.pt_tables_writing.specs.Least.{IsUndone};
ghost use Rattle.pt_tables_rows.specs.Rows.{desk_row};
ghost use Rattle.pt_tables_rows.specs.Schema.{desk_table};
ghost use Rattle.pt_tables_rows.specs.Tables.{IsWellFormed, PutsWellFormed};
ghost use Rattle.pt_tables_writing.specs.Step.{Writes};
ghost use Rattle.pt_tables_writing.specs.Writes.{Rewrites};

use crate::numbered::{put_kept, write_desk};
use crate::plans::write_plans;
use crate::stored::{put_each, take_spans, write_edits};
use pt_base_records::Table;
use pt_base_values::Policy;
use pt_desk_rules::{Change, Kept};
use pt_desk_scheduling::Plan;
use pt_desk_store::ListKeeper;
use pt_tables_rows::tables::{
    Callers, Entries, FixedRoutes, KeptWrites, Places, RiderChairs, Riders, TravelTables,
    TripChairs, Trips, VehicleChairs, Vehicles,
};
use sqlite::{Alter, Connection, Error, Transaction};

/// Writes the changes of riders, then their rows in the table of wheelchairs.
fn write_riders<S: Alter>(
    tx: &mut Transaction<'_, S>,
    change: &Change,
    known: &ListKeeper,
) -> Result<(), Error>
    ensures step { Writes S.Store tx.old tx.new
        (OfEach (AgreesFor change.now known.now.content) (WritesRiders change.now)) result }
{
    let riders = known.riders_table();
    write_edits::<S, Riders>(tx, &change.riders, riders)?;
    write_edits::<S, RiderChairs>(tx, &change.riders, riders)
}

/// Writes the changes of callers, of riders and of entries.
///
/// `known` must have the stored records that the change removes.
fn write_people<S: Alter>(
    tx: &mut Transaction<'_, S>,
    change: &Change,
    known: &ListKeeper,
) -> Result<(), Error>
    ensures step { Writes S.Store tx.old tx.new
        (OfEach (AgreesFor change.now known.now.content) (λ content.
        Leads change.now content content (with_people change.now content))) result }
{
    write_edits::<S, Callers>(tx, &change.callers, known.callers_table())?;
    write_riders(tx, change, known)?;
    write_edits::<S, Entries>(tx, &change.entries, known.entries_table())
}

/// Writes the changes of vehicles, then the wheelchair places of those that it puts.
fn write_vehicles<S: Alter>(
    tx: &mut Transaction<'_, S>,
    change: &Change,
    known: &ListKeeper,
) -> Result<(), Error>
    ensures step { Writes S.Store tx.old tx.new
        (OfEach (AgreesFor change.now known.now.content) (WritesVehicles change.now)) result }
{
    write_edits::<S, Vehicles>(tx, &change.vehicles, known.vehicles_table())?;
    put_each::<S, VehicleChairs>(tx, change.vehicles.puts())
}

/// Deletes the wheelchair places of the vehicles that the change removes, then writes the changes of vehicles.
fn write_fleet<S: Alter>(
    tx: &mut Transaction<'_, S>,
    change: &Change,
    known: &ListKeeper,
) -> Result<(), Error>
    ensures step { Writes S.Store tx.old tx.new
        (OfEach (AgreesFor change.now known.now.content) (WritesFleet change.now)) result }
{
    take_spans::<S, VehicleChairs>(tx, change.vehicles.spans(), known.vehicles_table())?;
    write_vehicles(tx, change, known)
}

/// Writes the changes of places, routes, vehicles and driving times. Callers and riders are already written.
fn write_area<S: Alter>(
    tx: &mut Transaction<'_, S>,
    change: &Change,
    known: &ListKeeper,
) -> Result<(), Error>
    ensures step { Writes S.Store tx.old tx.new
        (OfEach (AgreesFor change.now known.now.content) (λ content.
        let before = with_people change.now content in
        Leads change.now content before (with_area change.now before))) result }
{
    write_edits::<S, Places>(tx, &change.places, known.places_table())?;
    write_edits::<S, FixedRoutes>(tx, &change.routes, known.routes_table())?;
    write_fleet(tx, change, known)?;
    write_edits::<S, TravelTables>(tx, &change.travel, known.travel_table())
}

/// The policy after the change.
fn policy_after(change: &Change, known: &ListKeeper) -> Policy
    ensures value { result ≡ unwrap_or change.now.policy known.now.content.policy }
{
    match change.policy {
        Some(policy) => policy,
        None => known.current_policy(),
    }
}

/// The number last given to a trip, after the change; 0 before the first trip.
fn last_trip_after(change: &Change, known: &ListKeeper) -> u32
    ensures value { result ≡ unwrap_or change.now.last_trip known.now.content.last_trip }
{
    match change.last_trip {
        Some(id) => id.number(),
        None => known.current_last_trip(),
    }
}

/// Writes the agency's row as it is after the change.
fn write_settings<S: Alter>(
    tx: &mut Transaction<'_, S>,
    change: &Change,
    known: &ListKeeper,
) -> Result<(), Error>
    ensures step { Writes S.Store tx.old tx.new
        (λ old new. OfEach (AgreesFor change.now known.now.content) (λ content old new. (p : _) (n : _) →
        Rewrites desk_table (desk_row p n ∷ [])
        (desk_row (unwrap_or change.now.policy content.policy) (unwrap_or change.now.last_trip content.last_trip) ∷ [])
        old new) old new × IsDatabase new) result }
    ensures open { HasCleanDisk (state S.Store tx.new.conn.now) → IsTrue (state S.Store tx.old.conn.now).in_transaction
        → OnOk result (IsTrue (state S.Store tx.old.conn.now).is_open) }
{
    let policy = policy_after(change, known);
    write_desk(tx, &policy, last_trip_after(change, known))
}

/// Writes the changes of trips, then their rows in the table of wheelchairs.
fn write_booked<S: Alter>(
    tx: &mut Transaction<'_, S>,
    change: &Change,
    known: &ListKeeper,
) -> Result<(), Error>
    ensures step { Writes S.Store tx.old tx.new
        (OfEach (AgreesFor change.now known.now.content) (WritesTrips change.now)) result }
{
    let trips = known.trips_table();
    write_edits::<S, Trips>(tx, &change.trips, trips)?;
    write_edits::<S, TripChairs>(tx, &change.trips, trips)
}

/// The accepted write that the change keeps, if it changes no other and leaves the agency's row.
fn kept_alone(change: &Change) -> Option<&Kept>
    ensures kept { IfSome result (λ kept. change.now.kept ≡ puts_one kept.now) }
    ensures policy { IfSome result (λ kept. change.now.policy ≡ None) }
    ensures last_trip { IfSome result (λ kept. change.now.last_trip ≡ None) }
{
    if change.policy.is_some() || change.last_trip.is_some() || !change.kept.spans().is_empty() {
        return None;
    }
    let [kept] = change.kept.puts() else {
        return None;
    };
    Some(kept)
}

/// Writes the changes of callers' last accepted writes, then the agency's row.
fn write_kept_and_settings<S: Alter>(
    tx: &mut Transaction<'_, S>,
    change: &Change,
    known: &ListKeeper,
) -> Result<(), Error>
    ensures step { Writes S.Store tx.old tx.new
        (OfEach (AgreesFor change.now known.now.content) (WritesLast change.now)) result }
    ensures open { HasCleanDisk (state S.Store tx.new.conn.now) → IsTrue (state S.Store tx.old.conn.now).in_transaction
        → OnOk result (IsTrue (state S.Store tx.old.conn.now).is_open) }
{
    write_edits::<S, KeptWrites>(tx, &change.kept, known.kept_table())?;
    write_settings(tx, change, known)
}

/// Writes the changes of callers' last accepted writes, and the agency's row where the change gives it a new value.
///
/// The last statement is one that always runs.
fn write_last<S: Alter>(
    tx: &mut Transaction<'_, S>,
    change: &Change,
    known: &ListKeeper,
) -> Result<(), Error>
    ensures step { Writes S.Store tx.old tx.new
        (OfEach (AgreesFor change.now known.now.content) (WritesLast change.now)) result }
    ensures open { HasCleanDisk (state S.Store tx.new.conn.now) → IsTrue (state S.Store tx.old.conn.now).in_transaction
        → OnOk result (IsTrue (state S.Store tx.old.conn.now).is_open) }
{
    match kept_alone(change) {
        Some(kept) => put_kept(tx, kept),
        None => write_kept_and_settings(tx, change, known),
    }
}

/// Writes the changes of trips, of planned stops, of callers' last accepted writes and of the agency's row. All other
/// tables are already written.
fn write_trips<S: Alter>(
    tx: &mut Transaction<'_, S>,
    change: &Change,
    known: &ListKeeper,
    plans: &Table<Plan>,
) -> Result<(), Error>
    ensures step { Writes S.Store tx.old tx.new
        (OfEach (AgreesWith change.now known.now.content plans.now.items) (λ content.
        let before = with_area change.now (with_people change.now content) in
        Ends change.now content before (with_trips change.now before))) result }
    ensures open { HasCleanDisk (state S.Store tx.new.conn.now) → IsTrue (state S.Store tx.old.conn.now).in_transaction
        → OnOk result (IsTrue (state S.Store tx.old.conn.now).is_open) }
{
    write_booked(tx, change, known)?;
    write_plans(tx, &change.planned, plans)?;
    write_last(tx, change, known)
}

/// Writes the whole change, each table after the tables that it references.
fn write_tables<S: Alter>(
    tx: &mut Transaction<'_, S>,
    change: &Change,
    known: &ListKeeper,
    plans: &Table<Plan>,
) -> Result<(), Error>
    ensures step { Writes S.Store tx.old tx.new
        (OfEach (AgreesWith change.now known.now.content plans.now.items) (λ content.
        Ends change.now content content (applied change.now content))) result }
    ensures open { HasCleanDisk (state S.Store tx.new.conn.now) → IsTrue (state S.Store tx.old.conn.now).in_transaction
        → OnOk result (IsTrue (state S.Store tx.old.conn.now).is_open) }
{
    write_people(tx, change, known)?;
    write_area(tx, change, known)?;
    write_trips(tx, change, known, plans)
}

/// Makes the change in the tables in one transaction. `known` must have the stored records, except plans, that the
/// change removes. `plans` must have the plans that it removes; a plan that it replaces is there as it is stored, or
/// not at all.
pub fn write_change<S: Alter>(
    conn: &mut Connection<S>,
    change: &Change,
    known: &ListKeeper,
    plans: &Table<Plan>,
) -> Result<(), Error>
    requires settled { conn.old.in_transaction ≡ false }
    requires puts { PutsWellFormed change.now }
    ensures settled { conn.new.in_transaction ≡ false }
    ensures made { (content : State) → IsWellFormed content
        → AgreesWith change.now known.now.content plans.now.items content → HasCleanDisk (state S.Store conn.new)
        → OnOk result (IsMade content (applied change.now content) (state S.Store conn.old) (state S.Store conn.new)) }
    ensures undone { HasCleanDisk (state S.Store conn.new)
        → OnErr result (IsUndone (state S.Store conn.old) (state S.Store conn.new)) }
    ensures survives { (content : State) → IsWellFormed content
        → AgreesWith change.now known.now.content plans.now.items content
        → Survives (state S.Store conn.old) (state S.Store conn.new)
        (LeadsTo content (applied change.now content) (state S.Store conn.old)) }
    ensures always { Survives (state S.Store conn.old) (state S.Store conn.new) (λ _. Unit {0}) }
{
    let mut tx = conn.transaction();
    write_tables(&mut tx, change, known, plans)?;
    tx.commit()
}
