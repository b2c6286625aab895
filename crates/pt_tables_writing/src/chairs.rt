//! The rows of riders and trips in wheelchairs, and of the wheelchair places of vehicles.

ghost use Rattle.std.specs.Prelude.{◌==◌, not, IsTrue};
ghost use Rattle.pt_desk_rules.specs.State.{rider_key, trip_key};
ghost use Rattle.pt_tables_rows.specs.Rows.{rider_chair_rows, trip_chair_rows, vehicle_chair_rows};
ghost use Rattle.pt_tables_rows.specs.Schema.{rider_chairs_table, trip_chairs_table, vehicle_chairs_table};
ghost use Rattle.pt_tables_writing.specs.Grouped.{Adds};
ghost use Rattle.pt_tables_writing.specs.Step.{Writes};
ghost use Rattle.pt_tables_writing.specs.Writes.{Puts};
ghost use Rattle.pt_desk_rules.specs.Ranges.{FitsRider, FitsTrip};

use crate::stored::Stored;
use pt_base_values::{Rider, Trip, Vehicle};
use pt_tables_rows::tables::{RiderChairs, TripChairs, VehicleChairs};
use sqlite::{Alter, Error, Transaction, params};

const PUT_RIDER_CHAIR: &str = "INSERT INTO rider_chairs (rider) VALUES (?1) \
    ON CONFLICT (rider) DO UPDATE SET rider = ?1";

const TAKE_RIDER_CHAIR: &str = "DELETE FROM rider_chairs WHERE rider = ?1";

const PUT_TRIP_CHAIR: &str = "INSERT INTO trip_chairs (trip) VALUES (?1) \
    ON CONFLICT (trip) DO UPDATE SET trip = ?1";

const TAKE_TRIP_CHAIR: &str = "DELETE FROM trip_chairs WHERE trip = ?1";

const INSERT_VEHICLE_CHAIRS: &str = "INSERT INTO vehicle_chairs (id, from_day, chairs) \
    VALUES (?1, ?2, ?3)";

const DELETE_VEHICLE_CHAIRS: &str = "DELETE FROM vehicle_chairs WHERE id = ?1 AND from_day = ?2";

impl Stored for RiderChairs {
    /// Puts the row of a rider in a wheelchair. If the rider is not in one, deletes the rider's row.
    fn put<S: Alter>(tx: &mut Transaction<'_, S>, rider: &Rider) -> Result<(), Error> {
        if !rider.wheelchair {
            return Self::take(tx, rider);
        }
        add_rider_chair(tx, rider)
    }

    fn take<S: Alter>(tx: &mut Transaction<'_, S>, rider: &Rider) -> Result<(), Error> {
        tx.execute(TAKE_RIDER_CHAIR, params![rider.id.number()])?;
        Ok(())
    }
}

/// Puts the row of a rider in a wheelchair.
fn add_rider_chair<S: Alter>(tx: &mut Transaction<'_, S>, rider: &Rider) -> Result<(), Error>
    requires marked { IsTrue rider.now.wheelchair }
    ensures step { Writes S.Store tx.old tx.new
        (Puts rider_chairs_table rider_key FitsRider rider_chair_rows rider.now) result }
{
    tx.execute(PUT_RIDER_CHAIR, params![rider.id.number()])?;
    Ok(())
}

impl Stored for TripChairs {
    /// Puts the row of the trip of a rider in a wheelchair. If the rider is not in one, deletes the trip's row.
    fn put<S: Alter>(tx: &mut Transaction<'_, S>, trip: &Trip) -> Result<(), Error> {
        if !trip.wheelchair {
            return Self::take(tx, trip);
        }
        add_trip_chair(tx, trip)
    }

    fn take<S: Alter>(tx: &mut Transaction<'_, S>, trip: &Trip) -> Result<(), Error> {
        tx.execute(TAKE_TRIP_CHAIR, params![trip.id.number()])?;
        Ok(())
    }
}

/// Puts the row of the trip of a rider in a wheelchair.
fn add_trip_chair<S: Alter>(tx: &mut Transaction<'_, S>, trip: &Trip) -> Result<(), Error>
    requires marked { IsTrue trip.now.wheelchair }
    ensures step { Writes S.Store tx.old tx.new
        (Puts trip_chairs_table trip_key FitsTrip trip_chair_rows trip.now) result }
{
    tx.execute(PUT_TRIP_CHAIR, params![trip.id.number()])?;
    Ok(())
}

impl Stored for VehicleChairs {
    fn put<S: Alter>(tx: &mut Transaction<'_, S>, version: &Vehicle) -> Result<(), Error> {
        Self::take(tx, version)?;
        insert_vehicle_chairs(tx, version)
    }

    fn take<S: Alter>(tx: &mut Transaction<'_, S>, version: &Vehicle) -> Result<(), Error> {
        tx.execute(
            DELETE_VEHICLE_CHAIRS,
            params![version.id.number(), version.from_day.number()],
        )?;
        Ok(())
    }
}

/// Adds the row of the wheelchair places of a vehicle that has some.
fn insert_vehicle_chairs<S: Alter>(
    tx: &mut Transaction<'_, S>,
    version: &Vehicle,
) -> Result<(), Error>
    ensures step { Writes S.Store tx.old tx.new (Adds vehicle_chairs_table (vehicle_chair_rows version.now)) result }
{
    if version.chairs == 0 {
        return Ok(());
    }
    add_vehicle_chairs(tx, version)
}

/// Adds the row of the wheelchair places of a vehicle, which has at least one.
fn add_vehicle_chairs<S: Alter>(tx: &mut Transaction<'_, S>, version: &Vehicle) -> Result<(), Error>
    requires some { IsTrue (not (version.now.chairs == 0)) }
    ensures step { Writes S.Store tx.old tx.new (Adds vehicle_chairs_table (vehicle_chair_rows version.now)) result }
{
    tx.execute(
        INSERT_VEHICLE_CHAIRS,
        params![
            version.id.number(),
            version.from_day.number(),
            u32::from(version.chairs)
        ],
    )?;
    Ok(())
}
