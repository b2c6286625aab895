//! Records read back from the rows of the desk's tables.
#![tactic(auto)]

pub use callers::caller_of;
pub use chairs::{rider_beside, trip_beside, vehicle_beside};
pub use desk::agency_of;
pub use drives::{DriveAt, drive_of};
pub use entries::entry_of;
pub use kept::{KeptRow, kept_of};
pub use one_row::OneRow;
pub use places::place_of;
pub use riders::rider_of;
pub use routes::route_of;
pub use stops::{StopAt, Stops, stop_of};
pub use trips::trip_of;
pub use vehicles::vehicle_of;

mod callers;
mod chairs;
mod columns;
mod conditions;
mod desk;
mod drives;
mod entries;
mod kept;
mod one_row;
mod places;
mod points;
mod riders;
mod routes;
mod stops;
mod trips;
mod vehicles;
mod weekdays;
