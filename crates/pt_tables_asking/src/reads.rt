//! The reads of the tables that the desk makes for a request.

ghost use Rattle.std.specs.Prelude.{◌≡◌, Bool, IsTrue, IfErr, IfOk, false, filter, map, nat_le};
ghost use Rattle.sqlite.specs.Given.{IsPlain};
ghost use Rattle.sqlite.specs.Held.{state};
ghost use Rattle.sqlite.specs.Listing.{reads_listing, understood};
ghost use Rattle.sqlite.specs.State.{HasCleanDisk};
ghost use Rattle.sqlite.specs.Values.{bound};
ghost use Rattle.pt_base_values.specs.declared.trip.Trip.{Trip as TripRecord};
ghost use Rattle.pt_desk_rules.specs.Planned.{trips_of, trips_on};
ghost use Rattle.pt_desk_rules.specs.State.{State, entries_of, kept_of, rider_of, trip_of};
ghost use Rattle.pt_tables_rows.specs.Rows.{trip_row};
ghost use Rattle.pt_tables_rows.specs.Schema.{desk_schema};
ghost use Rattle.pt_tables_rows.specs.Tables.{IsKept, IsWellFormed};
ghost use Rattle.pt_tables_asking.specs.Asking.{HasAnswer, Rests};
ghost use Rattle.pt_tables_asking.specs.Content.{Excuses, IsExcused, Tells};

use crate::asking::{Unread, ask, first, in_order};
use crate::marks::{mark_all, mark_each};
use crate::texts::{
    ENTRIES_BY_RIDER, KEPT_BY_CALLER, RIDER_BY_NUMBER, RIDER_MARKS, TRIP_BY_NUMBER, TRIP_MARKS,
    TRIPS_BY_DAY, TRIPS_BY_RIDER, TRIPS_FROM_DAY,
};
use pt_base_records::Rows;
use pt_base_values::{CallerId, Day, Rider, RiderId, Trip, TripId};
use pt_desk_rules::{FiledEntry, Kept};
use pt_tables_rows::tables::{Entries, KeptWrites, RiderChairs, Riders, TripChairs, Trips};
use sqlite::types::ValueRef;
use sqlite::{Alter, Connection, params};
use std::alloc::Global;

/// The last accepted write of a caller.
pub fn kept_by_caller<S: Alter>(
    alloc: Global,
    conn: &mut Connection<S>,
    caller: CallerId,
) -> Result<Option<Kept>, Unread>
    requires settled { conn.old.in_transaction ≡ false }
    ensures told { Tells (state S.Store conn.old) (state S.Store conn.new) (kept_of caller) result }
    ensures excused { Excuses (state S.Store conn.old) (state S.Store conn.new) result }
    ensures rests { Rests (state S.Store conn.old) (state S.Store conn.new) }
{
    let found = ask::<S, KeptWrites>(alloc, conn, KEPT_BY_CALLER, params![caller.number()])?;
    Ok(first(found))
}

/// The rider with a number, and with the wheelchair mark.
pub fn rider_by_number<S: Alter>(
    alloc: Global,
    conn: &mut Connection<S>,
    rider: RiderId,
) -> Result<Option<Rider>, Unread>
    requires settled { conn.old.in_transaction ≡ false }
    ensures told { Tells (state S.Store conn.old) (state S.Store conn.new) (rider_of rider) result }
    ensures excused { Excuses (state S.Store conn.old) (state S.Store conn.new) result }
    ensures rests { Rests (state S.Store conn.old) (state S.Store conn.new) }
{
    let riders = ask::<S, Riders>(alloc, conn, RIDER_BY_NUMBER, params![rider.number()])?;
    let found = mark_all::<S, RiderChairs>(alloc, conn, RIDER_MARKS, riders)?;
    Ok(first(found))
}

/// The entries of a rider, in order of their positions.
pub fn entries_by_rider<S: Alter>(
    alloc: Global,
    conn: &mut Connection<S>,
    rider: RiderId,
) -> Result<Rows<FiledEntry>, Unread>
    requires settled { conn.old.in_transaction ≡ false }
    ensures told { Tells (state S.Store conn.old) (state S.Store conn.new) (λ s. entries_of rider s.entries) result }
    ensures excused { Excuses (state S.Store conn.old) (state S.Store conn.new) result }
    ensures rests { Rests (state S.Store conn.old) (state S.Store conn.new) }
{
    let found = ask::<S, Entries>(alloc, conn, ENTRIES_BY_RIDER, params![rider.number()])?;
    in_order(found)
}

/// The trips that a query returns, in the order of their numbers, with their wheelchair marks. It reads all marks from
/// the first trip to the last. Use it for one trip, or for the trips of days, whose numbers are close together.
fn trips_asked<S: Alter>(
    alloc: Global,
    conn: &mut Connection<S>,
    text: &str,
    params: &[ValueRef<'_>],
) -> Result<Rows<Trip>, Unread>
    requires settled { conn.old.in_transaction ≡ false }
    requires plain { IsPlain (understood desk_schema text.now) }
    requires unlisted { reads_listing desk_schema text.now ≡ false }
    ensures told { HasCleanDisk (state S.Store conn.new) → (content : State) → IsWellFormed content
        → IsKept content (state S.Store conn.old) → (passes : TripRecord → Bool)
        → (IsTrue (state S.Store conn.old).is_open → HasAnswer text.now (bound params.now)
        (state S.Store conn.old).now (map trip_row (filter passes content.trips)))
        → IfOk result (λ found. found ≡ filter passes content.trips) }
    ensures excused { HasCleanDisk (state S.Store conn.new) → (content : State) → IsWellFormed content
        → IsKept content (state S.Store conn.old) → (passes : TripRecord → Bool)
        → (IsTrue (state S.Store conn.old).is_open → HasAnswer text.now (bound params.now)
        (state S.Store conn.old).now (map trip_row (filter passes content.trips)))
        → IfErr result (IsExcused (state S.Store conn.old) (state S.Store conn.new)) }
    ensures rests { Rests (state S.Store conn.old) (state S.Store conn.new) }
{
    let trips = ask::<S, Trips>(alloc, conn, text, params)?;
    let found = mark_all::<S, TripChairs>(alloc, conn, TRIP_MARKS, trips)?;
    in_order(found)
}

/// The trip with a number.
pub fn trip_by_number<S: Alter>(
    alloc: Global,
    conn: &mut Connection<S>,
    trip: TripId,
) -> Result<Option<Trip>, Unread>
    requires settled { conn.old.in_transaction ≡ false }
    ensures told { Tells (state S.Store conn.old) (state S.Store conn.new) (trip_of trip) result }
    ensures excused { Excuses (state S.Store conn.old) (state S.Store conn.new) result }
    ensures rests { Rests (state S.Store conn.old) (state S.Store conn.new) }
{
    let found = trips_asked(alloc, conn, TRIP_BY_NUMBER, params![trip.number()])?;
    Ok(found.as_slice().first().copied())
}

/// The trips of a rider, in the order of their numbers. Trips of other riders lie between them, so each mark is a query
/// of its own.
pub fn trips_by_rider<S: Alter>(
    alloc: Global,
    conn: &mut Connection<S>,
    rider: RiderId,
) -> Result<Rows<Trip>, Unread>
    requires settled { conn.old.in_transaction ≡ false }
    ensures told { Tells (state S.Store conn.old) (state S.Store conn.new) (λ s. trips_of rider s.trips) result }
    ensures excused { Excuses (state S.Store conn.old) (state S.Store conn.new) result }
    ensures rests { Rests (state S.Store conn.old) (state S.Store conn.new) }
{
    let trips = ask::<S, Trips>(alloc, conn, TRIPS_BY_RIDER, params![rider.number()])?;
    let found = mark_each::<S, TripChairs>(alloc, conn, TRIP_MARKS, trips)?;
    in_order(found)
}

/// The trips of a day, in order of their numbers.
pub fn trips_by_day<S: Alter>(
    alloc: Global,
    conn: &mut Connection<S>,
    day: Day,
) -> Result<Rows<Trip>, Unread>
    requires settled { conn.old.in_transaction ≡ false }
    ensures told { Tells (state S.Store conn.old) (state S.Store conn.new) (λ s. trips_on day s.trips) result }
    ensures excused { Excuses (state S.Store conn.old) (state S.Store conn.new) result }
    ensures rests { Rests (state S.Store conn.old) (state S.Store conn.new) }
{
    trips_asked(alloc, conn, TRIPS_BY_DAY, params![day.number()])
}

/// The trips of a day and later, in order of their numbers.
pub fn trips_from_day<S: Alter>(
    alloc: Global,
    conn: &mut Connection<S>,
    day: Day,
) -> Result<Rows<Trip>, Unread>
    requires settled { conn.old.in_transaction ≡ false }
    ensures told { Tells (state S.Store conn.old) (state S.Store conn.new)
        (λ s. filter (λ trip. nat_le day trip.wish.day) s.trips) result }
    ensures excused { Excuses (state S.Store conn.old) (state S.Store conn.new) result }
    ensures rests { Rests (state S.Store conn.old) (state S.Store conn.new) }
{
    trips_asked(alloc, conn, TRIPS_FROM_DAY, params![day.number()])
}
