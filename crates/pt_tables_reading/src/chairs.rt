//! What a row of a wheelchair table adds to a record whose own row is read.

ghost use Rattle.std.specs.Prelude.{◌≡◌};
ghost use Rattle.pt_tables_rows.specs.Rows.{rider_row, vehicle_row, trip_row};
ghost use Rattle.pt_tables_rows.specs.Rows.{rider_chair_rows, vehicle_chair_rows, trip_chair_rows};
ghost use Rattle.pt_desk_spelling.specs.Ranges.{IsVehicle};
ghost use Rattle.pt_tables_reading.specs.Reading.{ReadsBeside};
ghost use Rattle.pt_desk_rules.specs.Ranges.{FitsRider, FitsTrip};

use crate::columns::number_in;
use pt_base_values::{Rider, Trip, Vehicle};
use sqlite::Row;

/// How many columns a row of `rider_chairs` or `trip_chairs` has.
const COLUMNS_OF_MARK: usize = 1;

/// How many columns a row of `vehicle_chairs` has.
const COLUMNS_OF_VEHICLE: usize = 3;

/// The rider, marked as in a wheelchair; none if the row is not this rider's.
pub fn rider_beside(rider: &Rider, row: &Row) -> Option<Rider>
    requires fits { FitsRider rider.now }
    ensures { ReadsBeside rider_row rider_chair_rows FitsRider rider.now row.now result }
{
    if row.column_count() != COLUMNS_OF_MARK {
        return None;
    }
    number_in(row, 0, rider.id.number(), rider.id.number())?;
    Some(Rider {
        id: rider.id,
        kind: rider.kind,
        attendant: rider.attendant,
        wheelchair: true,
    })
}

/// The vehicle with its wheelchair places; none if the row is not that of this version of it.
pub fn vehicle_beside(version: &Vehicle, row: &Row) -> Option<Vehicle>
    requires fits { IsVehicle version.now }
    ensures { ReadsBeside vehicle_row vehicle_chair_rows IsVehicle version.now row.now result }
{
    if row.column_count() != COLUMNS_OF_VEHICLE {
        return None;
    }
    number_in(row, 0, version.id.number(), version.id.number())?;
    number_in(row, 1, version.from_day.number(), version.from_day.number())?;
    Some(Vehicle {
        id: version.id,
        from_day: version.from_day,
        days: version.days,
        depot: version.depot,
        capacity: version.capacity,
        chairs: number_in(row, 2, 1, 10)? as u16,
        opens: version.opens,
        closes: version.closes,
        duration: version.duration,
    })
}

/// The trip, marked as that of a rider in a wheelchair; none if the row is not this trip's.
pub fn trip_beside(trip: &Trip, row: &Row) -> Option<Trip>
    requires fits { FitsTrip trip.now }
    ensures { ReadsBeside trip_row trip_chair_rows FitsTrip trip.now row.now result }
{
    if row.column_count() != COLUMNS_OF_MARK {
        return None;
    }
    number_in(row, 0, trip.id.number(), trip.id.number())?;
    Some(Trip {
        id: trip.id,
        rider: trip.rider,
        wish: trip.wish,
        wheelchair: true,
        fare: trip.fare,
        service: trip.service,
        ride: trip.ride,
        vehicle: trip.vehicle,
        window_from: trip.window_from,
        window_to: trip.window_to,
        status: trip.status,
    })
}
