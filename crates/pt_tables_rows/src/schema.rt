ghost use Rattle.std.specs.Prelude.{◌≡◌, map};
ghost use Rattle.pt_tables_rows.specs.Schema.{no_schema, statement_count};
ghost use Rattle.pt_tables_rows.specs.Step.{Steps};
ghost use Rattle.pt_tables_rows.specs.Tables.{AddsIfOk, IsBlank, LeadsIfOk};

use sqlite::{Alter, Error, Transaction};

/// The current version of the tables, in column `version` of the agency's row.
pub const TABLE_VERSION: u32 = 2;

/// The `id` of the agency's row, the only one of table `desk`.
pub const DESK: u32 = 1;

/// The statements that create the tables and indexes, in the order of the versions. A table comes after the tables that
/// it references.
const STATEMENTS: [&str; 16] = [
    // Version 1.
    "CREATE TABLE desk (id INTEGER PRIMARY KEY, version INTEGER NOT NULL, base INTEGER NOT NULL, \
     transfer INTEGER NOT NULL, fare INTEGER NOT NULL, service INTEGER NOT NULL, \
     extra_ride INTEGER NOT NULL, min_missed INTEGER NOT NULL, percent INTEGER NOT NULL, \
     span_days INTEGER NOT NULL, last_trip INTEGER NOT NULL) STRICT",
    "CREATE TABLE callers (id INTEGER PRIMARY KEY, role INTEGER NOT NULL, \
     subject INTEGER NOT NULL, digest BLOB NOT NULL UNIQUE) STRICT",
    "CREATE TABLE kept (caller INTEGER PRIMARY KEY REFERENCES callers (id), \
     number INTEGER NOT NULL, request BLOB NOT NULL, reply BLOB NOT NULL) STRICT",
    "CREATE TABLE places (id INTEGER PRIMARY KEY, x INTEGER NOT NULL, y INTEGER NOT NULL, \
     core INTEGER NOT NULL) STRICT",
    "CREATE TABLE fixed (id INTEGER PRIMARY KEY, width INTEGER NOT NULL, points BLOB NOT NULL, \
     accessible INTEGER NOT NULL, days INTEGER NOT NULL, first_min INTEGER NOT NULL, \
     last_min INTEGER NOT NULL) STRICT",
    "CREATE TABLE vehicles (id INTEGER NOT NULL, from_day INTEGER NOT NULL, \
     days INTEGER NOT NULL, depot INTEGER NOT NULL REFERENCES places (id), \
     capacity INTEGER NOT NULL, opens INTEGER NOT NULL, closes INTEGER NOT NULL, \
     duration INTEGER NOT NULL, PRIMARY KEY (id, from_day)) STRICT",
    "CREATE TABLE riders (id INTEGER PRIMARY KEY, kind INTEGER NOT NULL, \
     attendant INTEGER NOT NULL) STRICT",
    "CREATE TABLE entries (rider INTEGER NOT NULL REFERENCES riders (id), \
     place INTEGER NOT NULL, kind INTEGER NOT NULL, day INTEGER NOT NULL, \
     author INTEGER NOT NULL REFERENCES callers (id), a INTEGER NOT NULL, b INTEGER NOT NULL, \
     conditions TEXT NOT NULL, words TEXT NOT NULL, PRIMARY KEY (rider, place)) STRICT",
    "CREATE TABLE trips (id INTEGER PRIMARY KEY, rider INTEGER NOT NULL REFERENCES riders (id), \
     day INTEGER NOT NULL, wish INTEGER NOT NULL, \
     origin INTEGER NOT NULL REFERENCES places (id), \
     goal INTEGER NOT NULL REFERENCES places (id), latest INTEGER NOT NULL, \
     attendant INTEGER NOT NULL, companions INTEGER NOT NULL, fare INTEGER NOT NULL, \
     service INTEGER NOT NULL, ride INTEGER NOT NULL, vehicle INTEGER NOT NULL, \
     window_from INTEGER NOT NULL, window_to INTEGER NOT NULL, status INTEGER NOT NULL) STRICT",
    "CREATE TABLE stops (vehicle INTEGER NOT NULL, day INTEGER NOT NULL, place INTEGER NOT NULL, \
     trip INTEGER NOT NULL REFERENCES trips (id), kind INTEGER NOT NULL, \
     PRIMARY KEY (vehicle, day, place)) STRICT",
    "CREATE TABLE travel (from_day INTEGER NOT NULL, a INTEGER NOT NULL, b INTEGER NOT NULL, \
     minutes INTEGER NOT NULL, PRIMARY KEY (from_day, a, b)) STRICT",
    // Version 2: the tables of wheelchairs, and indexes of trips by rider and by day.
    "CREATE TABLE rider_chairs (rider INTEGER PRIMARY KEY REFERENCES riders (id)) STRICT",
    "CREATE TABLE vehicle_chairs (id INTEGER NOT NULL, from_day INTEGER NOT NULL, \
     chairs INTEGER NOT NULL, PRIMARY KEY (id, from_day), \
     FOREIGN KEY (id, from_day) REFERENCES vehicles (id, from_day)) STRICT",
    "CREATE TABLE trip_chairs (trip INTEGER PRIMARY KEY REFERENCES trips (id)) STRICT",
    "CREATE INDEX trips_rider ON trips (rider)",
    "CREATE INDEX trips_day ON trips (day)",
];

/// How many of the statements make a version: its own, and those of the versions before it.
fn statement_count(version: u32) -> usize
    ensures value { result ≡ statement_count version }
{
    match version {
        0 => 0,
        1 => 11,
        _ => 16,
    }
}

/// Runs the statements of the versions after `from`, up to `to`.
fn run<S: Alter>(
    tx: &mut Transaction<'_, S>,
    statements: &[&str],
    from: u32,
    to: u32,
) -> Result<(), Error>
    requires all { map (λ statement. statement.now) statements.now ≡ map (λ statement. statement.now) STATEMENTS }
    ensures step { Steps S.Store tx.old tx.new (λ old new. AddsIfOk from to old new result) }
{
    for place in statement_count(from)..statement_count(to) {
        tx.execute(statements[place], &[])?;
    }
    Ok(())
}

/// Adds the tables and indexes of the versions after `from`, up to `to`, to a database of version `from`. A database of
/// version 0 is empty.
pub fn add_versions<S: Alter>(tx: &mut Transaction<'_, S>, from: u32, to: u32) -> Result<(), Error>
    ensures step { Steps S.Store tx.old tx.new (λ old new. AddsIfOk from to old new result) }
{
    run(tx, &STATEMENTS, from, to)
}

/// Creates the tables and indexes of the current version in an empty database.
pub fn create_tables<S: Alter>(tx: &mut Transaction<'_, S>) -> Result<(), Error>
    ensures step { Steps S.Store tx.old tx.new
        (λ old new. LeadsIfOk old new (λ db. db.schema ≡ no_schema) IsBlank result) }
{
    add_versions(tx, 0, TABLE_VERSION)
}
