ghost use Rattle.std.specs.Prelude.{[], ◌∷◌};
ghost use Rattle.pt_tables_rows.specs.Rows.{vehicle_row};
ghost use Rattle.pt_tables_rows.specs.Schema.{vehicles_table};
ghost use Rattle.pt_tables_writing.specs.Grouped.{Adds};
ghost use Rattle.pt_tables_writing.specs.Step.{Writes};

use crate::stored::Stored;
use pt_base_values::Vehicle;
use pt_desk_spelling::days_byte;
use pt_tables_rows::tables::Vehicles;
use sqlite::{Alter, Error, Transaction, params};

const DELETE_VEHICLE: &str = "DELETE FROM vehicles WHERE id = ?1 AND from_day = ?2";

const INSERT_VEHICLE: &str = "INSERT INTO vehicles (id, from_day, days, depot, capacity, opens, \
    closes, duration) VALUES (?1, ?2, ?3, ?4, ?5, ?6, ?7, ?8)";

impl Stored for Vehicles {
    fn put<S: Alter>(tx: &mut Transaction<'_, S>, version: &Vehicle) -> Result<(), Error> {
        Self::take(tx, version)?;
        insert_vehicle(tx, version)
    }

    fn take<S: Alter>(tx: &mut Transaction<'_, S>, version: &Vehicle) -> Result<(), Error> {
        tx.execute(
            DELETE_VEHICLE,
            params![version.id.number(), version.from_day.number()],
        )?;
        Ok(())
    }
}

/// Adds the row of a version of a vehicle.
fn insert_vehicle<S: Alter>(tx: &mut Transaction<'_, S>, version: &Vehicle) -> Result<(), Error>
    ensures step { Writes S.Store tx.old tx.new (Adds vehicles_table (vehicle_row version.now ∷ [])) result }
{
    tx.execute(
        INSERT_VEHICLE,
        params![
            version.id.number(),
            version.from_day.number(),
            u32::from(days_byte(version.days)),
            version.depot.number(),
            u32::from(version.capacity),
            version.opens.number(),
            version.closes.number(),
            u32::from(version.duration)
        ],
    )?;
    Ok(())
}
