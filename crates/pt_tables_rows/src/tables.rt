//! The tables of records. Each type here describes one table.

ghost use Rattle.std.specs.Prelude.{List};
ghost use Rattle.sqlite.specs.Order.{Row};
ghost use Rattle.sqlite.specs.Table.{Table as StoredTable};

use pt_base_records::Keyed;
use pt_base_values::{Place, Rider, Trip, Vehicle};
use pt_corridor::FixedRoute;
use pt_desk_requests::Caller;
use pt_desk_rules::{FiledEntry, Kept, TravelTable};
use pt_desk_scheduling::Plan;

/// A table of records. Each record has rows of its own.
pub trait TableOf {
    /// The type of its records.
    type Record: Keyed;

    /// Its definition in the schema.
    ghost home: { StoredTable };

    /// What is true of each of its records.
    ghost Fits: { Self.Record → Type 0 };

    /// The rows of a record.
    ghost rows_of: { Self.Record → List Row };
}

/// Those who may ask the desk.
#[derive(Clone, Copy)]
pub struct Callers;

impl TableOf for Callers {
    ghost use Rattle.std.specs.Prelude.{◌∷◌, []};
    ghost use Rattle.pt_tables_rows.specs.Rows.{caller_row};
    ghost use Rattle.pt_tables_rows.specs.Schema.{callers_table};
    ghost use Rattle.pt_desk_spelling.specs.Ranges.{IsCaller};

    type Record = Caller;

    ghost home = { callers_table };

    ghost Fits = { IsCaller };

    ghost rows_of = { λ x. caller_row x ∷ [] };
}

/// Each caller's last accepted write, with its reply.
#[derive(Clone, Copy)]
pub struct KeptWrites;

impl TableOf for KeptWrites {
    ghost use Rattle.std.specs.Prelude.{◌∷◌, []};
    ghost use Rattle.pt_tables_rows.specs.Rows.{kept_row};
    ghost use Rattle.pt_tables_rows.specs.Schema.{kept_table};
    ghost use Rattle.pt_desk_rules.specs.Ranges.{FitsKept};

    type Record = Kept;

    ghost home = { kept_table };

    ghost Fits = { FitsKept };

    ghost rows_of = { λ x. kept_row x ∷ [] };
}

/// Places.
#[derive(Clone, Copy)]
pub struct Places;

impl TableOf for Places {
    ghost use Rattle.std.specs.Prelude.{◌∷◌, []};
    ghost use Rattle.pt_tables_rows.specs.Rows.{place_row};
    ghost use Rattle.pt_tables_rows.specs.Schema.{places_table};
    ghost use Rattle.pt_desk_rules.specs.Ranges.{FitsPlace};

    type Record = Place;

    ghost home = { places_table };

    ghost Fits = { FitsPlace };

    ghost rows_of = { λ x. place_row x ∷ [] };
}

/// Fixed routes.
#[derive(Clone, Copy)]
pub struct FixedRoutes;

impl TableOf for FixedRoutes {
    ghost use Rattle.std.specs.Prelude.{◌∷◌, []};
    ghost use Rattle.pt_tables_rows.specs.Rows.{route_row};
    ghost use Rattle.pt_tables_rows.specs.Schema.{fixed_table};
    ghost use Rattle.pt_desk_spelling.specs.Ranges.{IsRoute};

    type Record = FixedRoute;

    ghost home = { fixed_table };

    ghost Fits = { IsRoute };

    ghost rows_of = { λ x. route_row x ∷ [] };
}

/// Vehicles, with all their versions.
#[derive(Clone, Copy)]
pub struct Vehicles;

impl TableOf for Vehicles {
    ghost use Rattle.std.specs.Prelude.{◌∷◌, []};
    ghost use Rattle.pt_tables_rows.specs.Rows.{vehicle_row};
    ghost use Rattle.pt_tables_rows.specs.Schema.{vehicles_table};
    ghost use Rattle.pt_desk_spelling.specs.Ranges.{IsVehicle};

    type Record = Vehicle;

    ghost home = { vehicles_table };

    ghost Fits = { IsVehicle };

    ghost rows_of = { λ x. vehicle_row x ∷ [] };
}

/// Riders.
#[derive(Clone, Copy)]
pub struct Riders;

impl TableOf for Riders {
    ghost use Rattle.std.specs.Prelude.{◌∷◌, []};
    ghost use Rattle.pt_tables_rows.specs.Rows.{rider_row};
    ghost use Rattle.pt_tables_rows.specs.Schema.{riders_table};
    ghost use Rattle.pt_desk_rules.specs.Ranges.{FitsRider};

    type Record = Rider;

    ghost home = { riders_table };

    ghost Fits = { FitsRider };

    ghost rows_of = { λ x. rider_row x ∷ [] };
}

/// Entries of case files.
#[derive(Clone, Copy)]
pub struct Entries;

impl TableOf for Entries {
    ghost use Rattle.std.specs.Prelude.{◌∷◌, []};
    ghost use Rattle.pt_tables_rows.specs.Rows.{entry_row};
    ghost use Rattle.pt_tables_rows.specs.Schema.{entries_table};
    ghost use Rattle.pt_desk_rules.specs.Ranges.{FitsFiled};

    type Record = FiledEntry;

    ghost home = { entries_table };

    ghost Fits = { FitsFiled };

    ghost rows_of = { λ x. entry_row x ∷ [] };
}

/// Driving times, with all their versions.
#[derive(Clone, Copy)]
pub struct TravelTables;

impl TableOf for TravelTables {
    ghost use Rattle.pt_tables_rows.specs.Rows.{travel_rows};
    ghost use Rattle.pt_tables_rows.specs.Schema.{travel_table};
    ghost use Rattle.pt_desk_rules.specs.Ranges.{FitsTravel};

    type Record = TravelTable;

    ghost home = { travel_table };

    ghost Fits = { FitsTravel };

    ghost rows_of = { travel_rows };
}

/// Trips.
#[derive(Clone, Copy)]
pub struct Trips;

impl TableOf for Trips {
    ghost use Rattle.std.specs.Prelude.{◌∷◌, []};
    ghost use Rattle.pt_tables_rows.specs.Rows.{trip_row};
    ghost use Rattle.pt_tables_rows.specs.Schema.{trips_table};
    ghost use Rattle.pt_desk_rules.specs.Ranges.{FitsTrip};

    type Record = Trip;

    ghost home = { trips_table };

    ghost Fits = { FitsTrip };

    ghost rows_of = { λ x. trip_row x ∷ [] };
}

/// Planned routes, with a row for each stop.
#[derive(Clone, Copy)]
pub struct Plans;

impl TableOf for Plans {
    ghost use Rattle.pt_tables_rows.specs.Rows.{stop_rows};
    ghost use Rattle.pt_tables_rows.specs.Schema.{stops_table};
    ghost use Rattle.pt_tables_rows.specs.Tables.{IsStoredPlan};

    type Record = Plan;

    ghost home = { stops_table };

    ghost Fits = { IsStoredPlan };

    ghost rows_of = { stop_rows };
}

/// The riders in wheelchairs.
#[derive(Clone, Copy)]
pub struct RiderChairs;

impl TableOf for RiderChairs {
    ghost use Rattle.pt_tables_rows.specs.Rows.{rider_chair_rows};
    ghost use Rattle.pt_tables_rows.specs.Schema.{rider_chairs_table};
    ghost use Rattle.pt_desk_rules.specs.Ranges.{FitsRider};

    type Record = Rider;

    ghost home = { rider_chairs_table };

    ghost Fits = { FitsRider };

    ghost rows_of = { rider_chair_rows };
}

/// The vehicles with wheelchair places.
#[derive(Clone, Copy)]
pub struct VehicleChairs;

impl TableOf for VehicleChairs {
    ghost use Rattle.pt_tables_rows.specs.Rows.{vehicle_chair_rows};
    ghost use Rattle.pt_tables_rows.specs.Schema.{vehicle_chairs_table};
    ghost use Rattle.pt_desk_spelling.specs.Ranges.{IsVehicle};

    type Record = Vehicle;

    ghost home = { vehicle_chairs_table };

    ghost Fits = { IsVehicle };

    ghost rows_of = { vehicle_chair_rows };
}

/// The trips of riders in wheelchairs.
#[derive(Clone, Copy)]
pub struct TripChairs;

impl TableOf for TripChairs {
    ghost use Rattle.pt_tables_rows.specs.Rows.{trip_chair_rows};
    ghost use Rattle.pt_tables_rows.specs.Schema.{trip_chairs_table};
    ghost use Rattle.pt_desk_rules.specs.Ranges.{FitsTrip};

    type Record = Trip;

    ghost home = { trip_chairs_table };

    ghost Fits = { FitsTrip };

    ghost rows_of = { trip_chair_rows };
}
