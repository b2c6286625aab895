ghost use Rattle.std.specs.Prelude.{◌≡◌, ◌↔◌, [], Any, IfOk, IsTrue};
ghost use Rattle.pt_base_values.specs.declared.vehicle.Vehicle.{Vehicle};
ghost use Rattle.pt_desk_rules.specs.Booking.{rows_of};
ghost use Rattle.pt_desk_rules.specs.Fleet.{in_force, versions_of};
ghost use Rattle.pt_desk_rules.specs.Sound.{DrivesIn, HasFirstDay, HasTimes};
ghost use Rattle.pt_desk_rules.specs.Travel.{table_on};
ghost use Rattle.pt_feasible.specs.Route.{stops_of};
ghost use Rattle.pt_base_records.specs.Records.{Each};
ghost use Rattle.pt_desk_scheduling.specs.Plan.{stops_among, IsPlannedRoute, IsRoutePlan};
ghost use Rattle.pt_tables_soundness.specs.Tables.{AreSoundTables};

use crate::travel::are_of_places;
use crate::vehicles::versions_of;
use pt_base_records::Table;
use pt_base_values::{Day, Place, Trip, Vehicle};
use pt_desk_rules::limits::MOST_TABLES;
use pt_desk_rules::{TravelTable, in_force, table_on};
use pt_desk_scheduling::{Plan, PlannedStop, stops_among};
use pt_feasible::{Route, settle};
use pt_travel::Raw;
use std::alloc::{AllocError, Global};

/// The route of these stops.
pub(crate) fn route_of(
    alloc: Global,
    trips: &Table<Trip>,
    planned: &[PlannedStop],
) -> Result<Route, AllocError>
    requires route { IsPlannedRoute planned.now }
    ensures { IfOk result (λ route. stops_of route ≡ stops_among trips.now.items planned.now) }
{
    let stops = stops_among(alloc, trips.as_slice(), planned)?;
    Ok(Route::of(stops).unwrap())
}

/// Whether the vehicle can drive the route by the driving times of the table, whatever its loads.
fn can_drive(table: &TravelTable, route: &Route, version: &Vehicle) -> bool
    ensures { IsTrue result ↔ HasTimes table.now.rows (stops_of route.now) version.now }
{
    match settle(route, table.times(), version) {
        Some(_) => true,
        None => false,
    }
}

/// Whether one of these can drive the route by the driving times of the table.
fn can_serve(table: &TravelTable, route: &Route, versions: &[Vehicle]) -> bool
    ensures { IsTrue result ↔ Any (λ version. HasTimes table.now.rows (stops_of route.now) version) versions.now }
{
    for version in versions {
        if can_drive(table, route, version) {
            return true;
        }
    }
    false
}

/// A table of no rows, for a day before the first table's.
fn no_table(alloc: Global, day: Day) -> Result<TravelTable, AllocError>
    ensures { IfOk result (λ table. table.rows ≡ []) }
{
    TravelTable::of(alloc, day, Raw::of(Vec::new(alloc)).unwrap())
}

/// Whether one of these can drive the route by the driving times of the day.
fn can_serve_on(
    alloc: Global,
    travel: &[TravelTable],
    day: Day,
    route: &Route,
    versions: &[Vehicle],
) -> Result<bool, AllocError>
    ensures { IfOk result (λ can. IsTrue can
        ↔ Any (λ version. HasTimes (rows_of (table_on day travel.now)) (stops_of route.now) version) versions.now) }
{
    match table_on(travel, day) {
        Some(table) => Ok(can_serve(table, route, versions)),
        None => {
            let table = no_table(alloc, day)?;
            Ok(can_serve(&table, route, versions))
        }
    }
}

/// Whether a vehicle can drive these stops on the day.
fn can_drive_on(
    alloc: Global,
    versions: &[Vehicle],
    travel: &[TravelTable],
    trips: &Table<Trip>,
    day: Day,
    planned: &[PlannedStop],
) -> Result<bool, AllocError>
    requires route { IsPlannedRoute planned.now }
    ensures { IfOk result (λ can. IsTrue can
        ↔ Any (HasTimes (rows_of (table_on day travel.now)) (stops_among trips.now.items planned.now))
        (in_force day versions.now)) }
{
    let route = route_of(alloc, trips, planned)?;
    let versions = in_force(alloc, versions, day)?;
    can_serve_on(alloc, travel, day, &route, &versions)
}

/// Whether the vehicle of a plan can drive its stops on its day.
fn drives(
    alloc: Global,
    vehicles: &Table<Vehicle>,
    travel: &[TravelTable],
    trips: &Table<Trip>,
    plan: &Plan,
) -> Result<bool, AllocError>
    requires days { Each HasFirstDay vehicles.now.items }
    requires route { IsRoutePlan plan.now }
    ensures { IfOk result (λ drives. IsTrue drives ↔ DrivesIn vehicles.now.items travel.now trips.now.items plan.now) }
{
    let versions = versions_of(vehicles, plan.vehicle);
    can_drive_on(alloc, versions, travel, trips, plan.day, &plan.stops)
}

/// Whether the vehicles of the plans can drive their stops on their days.
fn all_drive(
    alloc: Global,
    vehicles: &Table<Vehicle>,
    travel: &[TravelTable],
    trips: &Table<Trip>,
    plans: &[Plan],
) -> Result<bool, AllocError>
    requires days { Each HasFirstDay vehicles.now.items }
    requires routes { Each IsRoutePlan plans.now }
    ensures { IfOk result (λ drive. IsTrue drive
        ↔ Each (DrivesIn vehicles.now.items travel.now trips.now.items) plans.now) }
{
    for plan in plans {
        if !drives(alloc, vehicles, travel, trips, plan)? {
            return Ok(false);
        }
    }
    Ok(true)
}

/// Whether the travel tables are those of a sound state, and by their times the vehicles can drive their plans.
pub(crate) fn are_sound_tables(
    alloc: Global,
    places: &Table<Place>,
    vehicles: &Table<Vehicle>,
    trips: &Table<Trip>,
    plans: &Table<Plan>,
    travel: &Table<TravelTable>,
) -> Result<bool, AllocError>
    requires days { Each HasFirstDay vehicles.now.items }
    requires routes { Each IsRoutePlan plans.now.items }
    ensures { IfOk result (λ sound. IsTrue sound ↔ AreSoundTables places.now.items vehicles.now.items
        trips.now.items plans.now.items travel.now.items) }
{
    let tables = travel.as_slice();
    if tables.len() > MOST_TABLES || !are_of_places(places, tables) {
        return Ok(false);
    }
    all_drive(alloc, vehicles, tables, trips, plans.as_slice())
}
