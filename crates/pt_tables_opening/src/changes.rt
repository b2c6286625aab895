//! The change that the rows of each table make to a desk that has the earlier tables.

ghost use Rattle.std.specs.Prelude.{◌≡◌, ◌-◌, ◌<◌};
ghost use Rattle.sqlite.specs.Held.{state};
ghost use Rattle.pt_desk_rules.specs.Deciding.{no_change};
ghost use Rattle.pt_desk_rules.specs.State.{State};
ghost use Rattle.pt_desk_rules.specs.TableNames.{number_of};
ghost use Rattle.pt_base_records.specs.Records.{Each, Edit, IsInOrder};
ghost use Rattle.pt_tables_opening.specs.Beside.{AreBeside};
ghost use Rattle.pt_tables_opening.specs.Gathered.{FitsRows, KeepsOrder, KeepsRows};
ghost use Rattle.pt_tables_opening.specs.Opening.{AsksForAll};
ghost use Rattle.pt_tables_opening.specs.Steps.{AddsMarks, AddsRecords, IsReadTo, ReadsTable};
ghost use Rattle.pt_desk_rules.specs.declared.change.Change.{Change};

use crate::OpenFault;
use crate::beside::{Beside, beside_in};
use crate::gathered::{Gathered, gathered_in};
use crate::one_row::RowByRow;
use pt_base_records::Edits;
use pt_base_values::{Place, Rider, Trip, Vehicle};
use pt_corridor::FixedRoute;
use pt_desk_requests::Caller;
use pt_desk_rules::{Change, FiledEntry, Kept, TableName, TravelTable};
use pt_desk_scheduling::Plan;
use pt_desk_store::ListKeeper;
use pt_tables_rows::tables::{
    Callers, Entries, FixedRoutes, KeptWrites, Places, Plans, RiderChairs, Riders, TravelTables,
    TripChairs, Trips, VehicleChairs, Vehicles,
};
use sqlite::{Alter, Connection};
use std::alloc::Global;

const CALLER_ROWS: &str = "SELECT id, role, subject, digest FROM callers ORDER BY id";

const KEPT_ROWS: &str = "SELECT caller, number, request, reply FROM kept ORDER BY caller";

const PLACE_ROWS: &str = "SELECT id, x, y, core FROM places ORDER BY id";

const ROUTE_ROWS: &str =
    "SELECT id, width, points, accessible, days, first_min, last_min FROM fixed ORDER BY \
    id";

const VEHICLE_ROWS: &str =
    "SELECT id, from_day, days, depot, capacity, opens, closes, duration FROM vehicles \
    ORDER BY id, from_day";

const RIDER_ROWS: &str = "SELECT id, kind, attendant FROM riders ORDER BY id";

const ENTRY_ROWS: &str =
    "SELECT rider, place, kind, day, author, a, b, conditions, words FROM entries ORDER \
    BY rider, place";

const TRIP_ROWS: &str =
    "SELECT id, rider, day, wish, origin, goal, latest, attendant, companions, fare, \
    service, ride, vehicle, window_from, window_to, status FROM trips ORDER BY id";

const STOP_ROWS: &str =
    "SELECT vehicle, day, place, trip, kind FROM stops ORDER BY vehicle, day, place";

const TRAVEL_ROWS: &str = "SELECT from_day, a, b, minutes FROM travel ORDER BY from_day, a, b";

const RIDER_CHAIR_ROWS: &str = "SELECT rider FROM rider_chairs ORDER BY rider";

const VEHICLE_CHAIR_ROWS: &str =
    "SELECT id, from_day, chairs FROM vehicle_chairs ORDER BY id, from_day";

const TRIP_CHAIR_ROWS: &str = "SELECT trip FROM trip_chairs ORDER BY trip";

/// A record that a change can put.
trait InChange: Sized {
    /// The change that puts records of this type alone.
    ghost puts: { Edit Self → Change };

    /// The change that puts records of this type alone.
    fn change(alloc: Global, records: Edits<Self>) -> Change
        ensures value { result ≡ puts records };
}

impl InChange for Caller {
    ghost puts = { λ edit. record no_change { callers = edit } };

    fn change(alloc: Global, callers: Edits<Caller>) -> Change
        ensures value { result ≡ record no_change { callers = callers } }
    {
        Change {
            callers,
            ..Change::none(alloc)
        }
    }
}

impl InChange for Kept {
    ghost puts = { λ edit. record no_change { kept = edit } };

    fn change(alloc: Global, kept: Edits<Kept>) -> Change
        ensures value { result ≡ record no_change { kept = kept } }
    {
        Change {
            kept,
            ..Change::none(alloc)
        }
    }
}

impl InChange for Place {
    ghost puts = { λ edit. record no_change { places = edit } };

    fn change(alloc: Global, places: Edits<Place>) -> Change
        ensures value { result ≡ record no_change { places = places } }
    {
        Change {
            places,
            ..Change::none(alloc)
        }
    }
}

impl InChange for FixedRoute {
    ghost puts = { λ edit. record no_change { routes = edit } };

    fn change(alloc: Global, routes: Edits<FixedRoute>) -> Change
        ensures value { result ≡ record no_change { routes = routes } }
    {
        Change {
            routes,
            ..Change::none(alloc)
        }
    }
}

impl InChange for Vehicle {
    ghost puts = { λ edit. record no_change { vehicles = edit } };

    fn change(alloc: Global, vehicles: Edits<Vehicle>) -> Change
        ensures value { result ≡ record no_change { vehicles = vehicles } }
    {
        Change {
            vehicles,
            ..Change::none(alloc)
        }
    }
}

impl InChange for Rider {
    ghost puts = { λ edit. record no_change { riders = edit } };

    fn change(alloc: Global, riders: Edits<Rider>) -> Change
        ensures value { result ≡ record no_change { riders = riders } }
    {
        Change {
            riders,
            ..Change::none(alloc)
        }
    }
}

impl InChange for FiledEntry {
    ghost puts = { λ edit. record no_change { entries = edit } };

    fn change(alloc: Global, entries: Edits<FiledEntry>) -> Change
        ensures value { result ≡ record no_change { entries = entries } }
    {
        Change {
            entries,
            ..Change::none(alloc)
        }
    }
}

impl InChange for Trip {
    ghost puts = { λ edit. record no_change { trips = edit } };

    fn change(alloc: Global, trips: Edits<Trip>) -> Change
        ensures value { result ≡ record no_change { trips = trips } }
    {
        Change {
            trips,
            ..Change::none(alloc)
        }
    }
}

impl InChange for Plan {
    ghost puts = { λ edit. record no_change { planned = edit } };

    fn change(alloc: Global, planned: Edits<Plan>) -> Change
        ensures value { result ≡ record no_change { planned = planned } }
    {
        Change {
            planned,
            ..Change::none(alloc)
        }
    }
}

impl InChange for TravelTable {
    ghost puts = { λ edit. record no_change { travel = edit } };

    fn change(alloc: Global, travel: Edits<TravelTable>) -> Change
        ensures value { result ≡ record no_change { travel = travel } }
    {
        Change {
            travel,
            ..Change::none(alloc)
        }
    }
}

/// The change that puts the records of a table, whose rows this query returns. Code 31: no records in the order of
/// their keys have the rows. Code 32: the store refused or failed. Code 0: out of memory.
fn change_of<S: Alter, T: Gathered>(
    alloc: Global,
    conn: &mut Connection<S>,
    text: &str,
    table: TableName,
) -> Result<Change, OpenFault>
where
    T::Record: InChange,
    requires asked { AsksForAll text.now T.home (KeepsOrder T.Record.key T.rows_of (FitsRows T.rows_of T.Fits)) }
    ensures { (s : State) → AddsRecords table s T.Record.puts T.Record.key T.home T.rows_of T.Fits
        → ReadsTable table (state S.Store conn.old) (state S.Store conn.new) s result }
{
    let records = gathered_in::<S, T>(alloc, conn, text, table)?;
    Ok(T::Record::change(alloc, records))
}

/// The change that puts the known records anew, as the rows of a second table mark them, which this query returns. The
/// codes are those of `change_of`.
fn marks_of<S: Alter, T: Beside>(
    alloc: Global,
    conn: &mut Connection<S>,
    known: &[T::Record],
    text: &str,
    table: TableName,
) -> Result<Change, OpenFault>
where
    T::Record: InChange,
    requires asked { AsksForAll text.now T.home (KeepsRows T.Record.key T.rows_of T.Fits) }
    requires beside { AreBeside T.Record.key T.First.row_of T.rows_of }
    requires fits { Each T.Fits known.now }
    requires order { IsInOrder T.Record.key known.now }
    ensures { (s : State)
        → AddsMarks table s T.Record.puts T.Record.key T.First.home T.home T.First.row_of T.rows_of T.Fits known.now
        → ReadsTable table (state S.Store conn.old) (state S.Store conn.new) s result }
{
    let records = beside_in::<S, T>(alloc, conn, known, text, table)?;
    Ok(T::Record::change(alloc, records))
}

/// The change that puts the records of a table into a desk that has the earlier tables. Code 31: no records in the
/// order of their keys have the rows. Code 32: the store refused or failed. Code 0: out of memory.
pub(crate) fn change_in<S: Alter>(
    alloc: Global,
    conn: &mut Connection<S>,
    keeper: &ListKeeper,
    table: TableName,
) -> Result<Change, OpenFault>
    requires later { 1 < number_of table }
    requires before { IsReadTo (number_of table - 1) keeper.now.content }
    ensures { ReadsTable table (state S.Store conn.old) (state S.Store conn.new) keeper.now.content result }
{
    match table {
        TableName::Desk => Ok(Change::none(alloc)),
        TableName::Callers => change_of::<S, RowByRow<Callers>>(alloc, conn, CALLER_ROWS, table),
        TableName::Kept => change_of::<S, RowByRow<KeptWrites>>(alloc, conn, KEPT_ROWS, table),
        TableName::Places => change_of::<S, RowByRow<Places>>(alloc, conn, PLACE_ROWS, table),
        TableName::Fixed => change_of::<S, RowByRow<FixedRoutes>>(alloc, conn, ROUTE_ROWS, table),
        TableName::Vehicles => change_of::<S, RowByRow<Vehicles>>(alloc, conn, VEHICLE_ROWS, table),
        TableName::Riders => change_of::<S, RowByRow<Riders>>(alloc, conn, RIDER_ROWS, table),
        TableName::Entries => change_of::<S, RowByRow<Entries>>(alloc, conn, ENTRY_ROWS, table),
        TableName::Trips => change_of::<S, RowByRow<Trips>>(alloc, conn, TRIP_ROWS, table),
        TableName::Stops => change_of::<S, Plans>(alloc, conn, STOP_ROWS, table),
        TableName::Travel => change_of::<S, TravelTables>(alloc, conn, TRAVEL_ROWS, table),
        TableName::RiderChairs => {
            let riders = keeper.riders_table().as_slice();
            marks_of::<S, RiderChairs>(alloc, conn, riders, RIDER_CHAIR_ROWS, table)
        }
        TableName::VehicleChairs => {
            let vehicles = keeper.vehicles_table().as_slice();
            marks_of::<S, VehicleChairs>(alloc, conn, vehicles, VEHICLE_CHAIR_ROWS, table)
        }
        TableName::TripChairs => {
            let trips = keeper.trips_table().as_slice();
            marks_of::<S, TripChairs>(alloc, conn, trips, TRIP_CHAIR_ROWS, table)
        }
    }
}
