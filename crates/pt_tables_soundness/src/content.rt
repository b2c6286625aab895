ghost use Rattle.std.specs.Prelude.{◌↔◌, IfOk, IsTrue};
ghost use Rattle.pt_tables_soundness.specs.Tables.{IsSoundBefore, IsSoundIn, KeepsRangesIn};

use crate::callers::are_sound_callers;
use crate::entries::are_sound_entries;
use crate::fits::are_sound_tables;
use crate::kept::are_sound_kept;
use crate::loads::are_sound_loads;
use crate::places::{are_sound_places, are_sound_riders, are_sound_routes};
use crate::plans::are_sound_plans;
use crate::trips::are_sound_trips;
use crate::vehicles::are_sound_vehicles;
use pt_desk_rules::TableName;
use pt_desk_store::ListKeeper;
use std::alloc::{AllocError, Global};

/// Whether the records of a table are those of a sound state, if all tables before it are sound. Records that were read
/// from rows are known to be in their ranges. The error is out of memory.
pub fn is_sound_in(
    alloc: Global,
    content: &ListKeeper,
    table: TableName,
) -> Result<bool, AllocError>
    requires before { IsSoundBefore content.now.content table }
    requires ranges { KeepsRangesIn content.now.content table }
    ensures { IfOk result (λ sound. IsTrue sound ↔ IsSoundIn content.now.content table) }
{
    let (callers, places) = (content.callers_table(), content.places_table());
    let (riders, vehicles) = (content.riders_table(), content.vehicles_table());
    let (trips, plans) = (content.trips_table(), content.planned_table());
    let sound = match table {
        TableName::Desk | TableName::RiderChairs | TableName::VehicleChairs => true,
        TableName::Callers => are_sound_callers(callers),
        TableName::Kept => are_sound_kept(alloc, callers, content.kept_table())?,
        TableName::Places => are_sound_places(places),
        TableName::Fixed => are_sound_routes(content.routes_table()),
        TableName::Vehicles => are_sound_vehicles(callers, places, vehicles),
        TableName::Riders => are_sound_riders(callers, riders),
        TableName::Entries => are_sound_entries(callers, riders, content.entries_table()),
        TableName::Trips => { are_sound_trips(places, riders, content.current_last_trip(), trips) }
        TableName::Stops => are_sound_plans(trips, plans),
        TableName::Travel => {
            are_sound_tables(
                alloc,
                places,
                vehicles,
                trips,
                plans,
                content.travel_table(),
            )?
        }
        TableName::TripChairs => are_sound_loads(alloc, vehicles, trips, plans)?,
    };
    Ok(sound)
}
