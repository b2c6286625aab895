//! Records with a row in their own table, and at most one row in a second table.

ghost use Rattle.std.specs.Prelude.{◌≡◌, ◌⊎◌, ◌≤◌, ◌∷◌, [], List, None, Some, length, take, IfOk, IfErr, map, flat_map};
ghost use Rattle.sqlite.specs.Order.{Row as StoredRow};
ghost use Rattle.sqlite.specs.Held.{state};
ghost use Rattle.pt_base_values.specs.declared.fault.Cause.TheVariants as cause;
ghost use Rattle.pt_base_records.specs.Records.{Each, IsInOrder};
ghost use Rattle.pt_desk_rules.specs.TableNames.{number_of};
ghost use Rattle.pt_tables_opening.specs.Beside.{AreBeside, IsAlone, NoneBeside, TellsBeside};
ghost use Rattle.pt_tables_opening.specs.Faults.{fault, unsound};
ghost use Rattle.pt_tables_opening.specs.Gathered.{IsFitting, KeepsRows};
ghost use Rattle.pt_tables_opening.specs.Opening.{AsksForAll, IsCaused, ReadsTables, Rests};
ghost use Rattle.pt_tables_reading.specs.Reading.{ReadsBeside};
ghost use Rattle.pt_tables_rows.specs.Tables.{AreRows};

use crate::OpenFault;
use crate::open_fault::fault_of;
use crate::table_rows::rows_of_table;
use pt_base_records::Edits;
use pt_base_values::{Rider, Trip, Vehicle};
use pt_desk_rules::TableName;
use pt_tables_reading::{OneRow, rider_beside, trip_beside, vehicle_beside};
use pt_tables_rows::tables::{
    RiderChairs, Riders, TableOf, TripChairs, Trips, VehicleChairs, Vehicles,
};
use sqlite::{Alter, Connection, Row};
use std::alloc::{AllocError, Global};

/// A second table, in which a record of another table has at most one row.
pub(crate) trait Beside: TableOf {
    /// The records' own table.
    type First: OneRow<Record = Self::Record>;

    /// The record with no row in the second table.
    fn alone(known: &Self::Record) -> Self::Record
        requires fits { Self.Fits known.now }
        ensures { IsAlone Self.First.row_of Self.rows_of Self.Fits known.now result };

    /// The record with this row in the second table; none if the row is not its own.
    fn mark(known: &Self::Record, row: &Row) -> Option<Self::Record>
        requires fits { Self.Fits known.now }
        ensures { ReadsBeside Self.First.row_of Self.rows_of Self.Fits known.now row.now result };
}

impl Beside for RiderChairs {
    type First = Riders;

    fn alone(known: &Rider) -> Rider {
        Rider {
            wheelchair: false,
            ..*known
        }
    }

    fn mark(known: &Rider, row: &Row) -> Option<Rider> {
        rider_beside(known, row)
    }
}

impl Beside for VehicleChairs {
    type First = Vehicles;

    fn alone(known: &Vehicle) -> Vehicle {
        Vehicle {
            id: known.id,
            from_day: known.from_day,
            days: known.days,
            depot: known.depot,
            capacity: known.capacity,
            chairs: 0,
            opens: known.opens,
            closes: known.closes,
            duration: known.duration,
        }
    }

    fn mark(known: &Vehicle, row: &Row) -> Option<Vehicle> {
        vehicle_beside(known, row)
    }
}

impl Beside for TripChairs {
    type First = Trips;

    fn alone(known: &Trip) -> Trip {
        Trip {
            id: known.id,
            rider: known.rider,
            wish: known.wish,
            wheelchair: false,
            fare: known.fare,
            service: known.service,
            ride: known.ride,
            vehicle: known.vehicle,
            window_from: known.window_from,
            window_to: known.window_to,
            status: known.status,
        }
    }

    fn mark(known: &Trip, row: &Row) -> Option<Trip> {
        trip_beside(known, row)
    }
}

/// The record with what the first row says of it, and how many of the rows are its own: 0 or 1.
fn next_of<T: Beside>(known: &T::Record, rows: &[Row]) -> (T::Record, usize)
    requires fits { T.Fits known.now }
    ensures same { T.First.row_of result.0 ≡ T.First.row_of known.now }
    ensures fits { T.Fits result.0 }
    ensures within { result.1 ≤ length rows.now }
    ensures few { result.1 ≤ 1 }
    ensures rows { T.rows_of result.0 ≡ take result.1 rows.now }
    ensures other { result.1 ≡ 0 → (x : T.Record) (row : StoredRow) (more : List StoredRow) → T.Fits x
        → T.First.row_of x ≡ T.First.row_of known.now → rows.now ≡ row ∷ more → T.rows_of x ≡ row ∷ [] → ⊥ }
{
    if let Some(row) = rows.first() {
        if let Some(marked) = T::mark(known, row) {
            return (marked, 1);
        }
    }
    (T::alone(known), 0)
}

/// Joins the records with the rows of the second table, as an edit that puts them. None if no records in order have
/// both.
fn merge<T: Beside>(
    alloc: Global,
    records: &[T::Record],
    rows: &[Row],
) -> Result<Option<Edits<T::Record>>, AllocError>
    requires beside { AreBeside T.Record.key T.First.row_of T.rows_of }
    requires fits { Each T.Fits records.now }
    requires order { IsInOrder T.Record.key records.now }
    ensures told { IfOk result (TellsBeside T.Record.key T.First.row_of T.rows_of T.Fits records.now rows.now) }
{
    let mut found = Edits::none(alloc);
    let mut left = rows;
    for known in records {
        let (next, own) = next_of::<T>(known, left);
        found.put(next)?;
        let (_, later) = left.split_at(own);
        left = later;
    }
    if !left.is_empty() {
        return Ok(None);
    }
    Ok(Some(found))
}

/// The same with codes of errors. Code 31: no records in order have both. Code 0: out of memory.
fn merged_table<T: Beside>(
    alloc: Global,
    records: &[T::Record],
    rows: &[Row],
    table: TableName,
) -> Result<Edits<T::Record>, OpenFault>
    requires beside { AreBeside T.Record.key T.First.row_of T.rows_of }
    requires fits { Each T.Fits records.now }
    requires order { IsInOrder T.Record.key records.now }
    ensures told { IfOk result (λ edit.
        TellsBeside T.Record.key T.First.row_of T.rows_of T.Fits records.now rows.now (Some edit)) }
    ensures faults { IfErr result (λ refused. (refused ≡ fault cause.Memory)
        ⊎ ((refused ≡ unsound (number_of table))
        × TellsBeside T.Record.key T.First.row_of T.rows_of T.Fits records.now rows.now None)) }
{
    match merge::<T>(alloc, records, rows) {
        Ok(Some(found)) => Ok(found),
        Ok(None) => Err(OpenFault::unsound(table)),
        Err(_) => Err(OpenFault::MEMORY),
    }
}

/// Joins the records with all rows of the second table, read by this query, as an edit that puts them. Code 31, with
/// the number of that table: no records in order have both. Code 32: the store refused or failed. Code 0: out of
/// memory.
pub(crate) fn beside_in<S: Alter, T: Beside>(
    alloc: Global,
    conn: &mut Connection<S>,
    records: &[T::Record],
    text: &str,
    table: TableName,
) -> Result<Edits<T::Record>, OpenFault>
    requires asked { AsksForAll text.now T.home (KeepsRows T.Record.key T.rows_of T.Fits) }
    requires beside { AreBeside T.Record.key T.First.row_of T.rows_of }
    requires fits { Each T.Fits records.now }
    requires order { IsInOrder T.Record.key records.now }
    ensures fitting { IfOk result (IsFitting T.Record.key T.Fits) }
    ensures same { IfOk result (λ edit. map T.First.row_of edit.puts ≡ map T.First.row_of records.now) }
    ensures told { ReadsTables (state S.Store conn.old) (state S.Store conn.new)
        (λ trees. IfOk result (λ edit. AreRows T.home trees (flat_map T.rows_of edit.puts))) }
    ensures faults { IfErr result (λ refused. (refused ≡ fault cause.Memory) ⊎ ((refused ≡ fault cause.StoreFailed)
        ⊎ ((refused ≡ unsound (number_of table)) × (ReadsTables (state S.Store conn.old) (state S.Store conn.new)
        (λ trees. AreRows T.First.home trees (map T.First.row_of records.now)
        → NoneBeside T.Record.key T.First.home T.home T.First.row_of T.rows_of T.Fits trees))))) }
    ensures caused { IfErr result (IsCaused (state S.Store conn.old) (state S.Store conn.new)) }
    ensures rests { Rests (state S.Store conn.old) (state S.Store conn.new) result }
{
    let rows = match rows_of_table(conn, text) {
        Ok(rows) => rows,
        Err(error) => return Err(fault_of(&error)),
    };
    merged_table::<T>(alloc, records, &rows, table)
}
