ghost use Rattle.std.specs.Prelude.{◌≡◌, ◌<◌, ◌↔◌, IfErr, OnErr, OnOk, false, length};
ghost use Rattle.pt_desk_store.specs.Listed.{known_of};
ghost use Rattle.pt_desk_store.specs.Store.{Commits, Fits, Goes, IsByRules, Reads, Refuses};
ghost use Rattle.pt_desk_store.specs.declared.keeper.StoreFault.TheVariants.{Memory, Store as Failed};
ghost use Rattle.pt_desk_rules.specs.Arrival.{arrival_of};
ghost use Rattle.pt_desk_rules.specs.Planned.{is_booked_from, planned_on, trips_of, trips_on};
ghost use Rattle.pt_desk_rules.specs.State.{applied, file_of, kept_of, plan_of, rider_of, trip_of};
ghost use Rattle.sqlite.specs.Held.{state};
ghost use Rattle.sqlite.specs.State.{HasCleanDisk};
ghost use Rattle.pt_base_records.specs.Records.{Each};
ghost use Rattle.pt_tables_asking.specs.Plans.{HasFewStops, HasVersionAmong};
ghost use Rattle.pt_tables_asking.specs.declared.asking.Unread.TheVariants.{Memory as Wanted};
ghost use Rattle.pt_tables_rows.specs.Tables.{IsWellFormed, IsKept};
ghost use Rattle.pt_tables_writing.specs.Committing.{LeavesDesk};
ghost use Rattle.pt_tables_keeper.specs.Keeper.{Counts, IsCaused, store_of};
ghost use Rattle.pt_tables_keeper.specs.Writable.{IsWritable};

use crate::known::Known;
use crate::writable::is_writable;
use crate::writing::write_over;
use pt_base_records::{Key, Keyed, Rows, Table};
use pt_base_values::{
    CallerId, Day, Place, PlaceId, Policy, Rider, RiderId, RouteId, Trip, TripId, Vehicle,
    VehicleId,
};
use pt_corridor::FixedRoute;
use pt_desk_requests::{Caller, Digest};
use pt_desk_rules::{Arrival, Change, TravelTable, has_version, table_on};
use pt_desk_scheduling::Plan;
use pt_desk_spelling::Spelling;
use pt_desk_store::{
    Keeper, ListKeeper, StoreFault, file_with, find_caller, is_booked_from, table_count_before,
};
use pt_rights_files::CaseFile;
use pt_tables_asking::{
    Unread, entries_by_rider, kept_by_caller, plan_by_key, plans_by_day, rider_by_number,
    trip_by_number, trips_by_day, trips_by_rider, trips_from_day,
};
use sqlite::{Alter, Connection};
use std::alloc::Global;
use std::marker::Model;

/// The failures of a store that has not failed.
const NEVER_FAILED: u32 = 0;

/// The failures of a store that has failed.
const FAILED: u32 = 1;

/// The mark of a store whose changes could all be written.
const ALL_FIT: u32 = 0;

/// The mark of a store that was given a change that cannot be written.
const UNFIT: u32 = 1;

/// The store over the tables of a desk's database. The settings and the number of riders are in memory, and all other
/// records are read when needed.
#[derive(Drop)]
pub struct SqlKeeper<S: Alter> {
    alloc: Global,
    conn: Connection<S>,
    /// 0 until the store fails in a call, then 1 for good.
    failures: u32,
    /// 0 until a change that cannot be written is given, then 1 for good. Only clauses read it.
    unfit: u32,
    known: Known,
    rider_count: usize,
}

impl<S: Alter> Model for SqlKeeper<S> {
    ghost use Rattle.sqlite.specs.Held.{state};
    ghost use Rattle.pt_tables_keeper.specs.Keeper.{AreInStep, KeptTables, kept_tables_code};

    ghost Value = { KeptTables S };

    ghost coded = { kept_tables_code S.code };

    ghost view = { λ k. record {
      conn = k.conn;
      failures = k.failures;
      unfit = k.unfit;
      content = k.known.content;
    } };

    ghost invariant = { λ k. AreInStep k.known.content k.rider_count k.failures (state S.Store k.conn) };
}

/// The fault of a failed read or write. It counts as a failure, unless it is out of memory.
fn blame(failures: &mut u32, unread: Unread) -> StoreFault
    requires { failures.old ≡ 0 }
    ensures failed { result ≡ Failed → failures.new ≡ 1 }
    ensures memory { result ≡ Memory → failures.new ≡ 0 }
    ensures cause { result ≡ Memory ↔ unread ≡ Wanted }
{
    match unread {
        Unread::Memory => StoreFault::Memory,
        Unread::Store | Unread::Row => {
            *failures = FAILED;
            StoreFault::Store
        }
    }
}

/// The result of a read. A failed read counts as a failure, unless it is out of memory.
fn count<T>(failures: &mut u32, found: Result<T, Unread>) -> Result<T, StoreFault>
    requires { failures.old ≡ 0 }
    ensures counts { Counts failures.new found result }
{
    match found {
        Ok(value) => Ok(value),
        Err(unread) => Err(blame(failures, unread)),
    }
}

impl<S: Alter> SqlKeeper<S> {
    /// The store over a database. Its tables must have the content that `known` is part of, with `rider_count` riders.
    /// A crash must leave a desk's database.
    pub fn of(alloc: Global, conn: Connection<S>, known: Known, rider_count: usize) -> SqlKeeper<S>
        requires settled { conn.in_transaction ≡ false }
        requires readable { IsWellFormed known.content }
        requires carried { Each (HasVersionAmong known.content.vehicles) known.content.planned }
        requires kept { HasCleanDisk (state S.Store conn) → IsKept known.content (state S.Store conn) }
        requires leaves { LeavesDesk (state S.Store conn) }
        requires riders { rider_count ≡ length known.content.riders }
        ensures conn { result.conn ≡ conn }
        ensures content { result.content ≡ known.content }
        ensures serves { result.failures ≡ 0 }
        ensures fits { result.unfit ≡ 0 }
    {
        SqlKeeper {
            alloc,
            conn,
            failures: NEVER_FAILED,
            unfit: ALL_FIT,
            known,
            rider_count,
        }
    }

    /// Returns the connection. Unless the store has failed, its tables have the rows of the content, all committed.
    /// Even if it has failed, a crash leaves a desk's database.
    pub fn release(self) -> Connection<S>
        ensures same { result ≡ self.conn }
        ensures settled { result.in_transaction ≡ false }
        ensures rows { self.failures ≡ 0 → HasCleanDisk (state S.Store result)
            → IsKept self.content (state S.Store result) }
        ensures leaves { LeavesDesk (state S.Store result) }
    {
        let SqlKeeper {
            alloc: _,
            conn,
            failures: _,
            unfit: _,
            known: _,
            rider_count: _,
        } = self;
        conn
    }

    /// Refuses to serve once the store has failed.
    fn serve(&self) -> Result<(), StoreFault>
        ensures served { OnOk result (self.now.failures ≡ 0) }
        ensures failed { OnErr result (0 < self.now.failures) }
        ensures fault { IfErr result (λ fault. fault ≡ Failed) }
    {
        if self.failures > NEVER_FAILED {
            return Err(StoreFault::Store);
        }
        Ok(())
    }

    /// What is known in memory.
    fn lists(&self) -> &ListKeeper
        ensures known { result.now.content ≡ known_of self.now.content }
    {
        self.known.lists()
    }

    /// Returns a value that is known in memory, unless the store has failed.
    fn serve_known<T: Drop>(&self, value: T) -> Result<T, StoreFault>
        ensures reads { Goes (store_of S.Store self.now) (store_of S.Store self.now) value None result }
        ensures refuses { Refuses (store_of S.Store self.now) (store_of S.Store self.now) result }
    {
        self.serve()?;
        Ok(value)
    }

    /// Returns a copy of records that are known in memory, unless the store has failed.
    fn copy<T: Keyed + Clone + Drop>(
        &self,
        alloc: Global,
        records: &Table<T>,
    ) -> Result<Rows<T>, StoreFault>
        requires copies { (x y : T) → T.is_clone x y → y ≡ x }
        ensures reads { Goes (store_of S.Store self.now) (store_of S.Store self.now) records.now.items None result }
        ensures refuses { Refuses (store_of S.Store self.now) (store_of S.Store self.now) result }
    {
        self.serve()?;
        Ok(Rows::of(records.as_slice().to_vec(alloc)?))
    }

    /// The rider with this number, read from the tables.
    fn read_rider(&mut self, id: RiderId) -> Result<Option<Rider>, StoreFault>
        ensures reads { Reads (store_of S.Store self.old) (store_of S.Store self.new) (rider_of id) result }
        ensures refuses { Refuses (store_of S.Store self.old) (store_of S.Store self.new) result }
        ensures caused { IsCaused S.Store self.old self.new result }
        ensures content { self.new.content ≡ self.old.content }
        ensures unfit { self.new.unfit ≡ self.old.unfit }
    {
        self.serve()?;
        let found = rider_by_number(self.alloc, &mut self.conn, id);
        count(&mut self.failures, found)
    }

    /// How many riders there are after the change: one more if it puts a rider that is not stored yet.
    fn rider_count_after(&mut self, change: &Change) -> Result<usize, StoreFault>
        requires serves { self.old.failures ≡ 0 }
        requires writable { IsWritable self.old.content.vehicles change.now }
        ensures reads { Reads (store_of S.Store self.old) (store_of S.Store self.new)
            (λ s. length (applied change.now s).riders) result }
        ensures content { self.new.content ≡ self.old.content }
        ensures unfit { self.new.unfit ≡ self.old.unfit }
    {
        let Some(new) = change.riders.puts().first() else {
            return Ok(self.rider_count);
        };
        match self.read_rider(new.id)? {
            Some(_) => Ok(self.rider_count),
            None => Ok(self.rider_count.saturating_add(1)),
        }
    }

    /// Makes the change in the tables, and then in memory. `rider_count` is the number of riders after it.
    fn make(&mut self, change: Change, rider_count: usize) -> Result<(), StoreFault>
        requires serves { self.old.failures ≡ 0 }
        requires writable { IsWritable self.old.content.vehicles change }
        requires counted { HasCleanDisk (state S.Store self.old.conn)
            → rider_count ≡ length (applied change self.old.content).riders }
        ensures commits { Commits (store_of S.Store self.old) (store_of S.Store self.new) (applied change) result }
        ensures unfit { self.new.unfit ≡ self.old.unfit }
    {
        self.known.reserve(&change)?;
        match write_over(self.alloc, &mut self.conn, &change, self.known.lists()) {
            Ok(()) => {
                self.known.make(change);
                self.rider_count = rider_count;
                Ok(())
            }
            Err(unread) => Err(blame(&mut self.failures, unread)),
        }
    }
}

impl<S: Alter> Keeper for SqlKeeper<S> {
    ghost use Rattle.pt_tables_keeper.specs.Keeper.{store_of};

    ghost store = { λ k. store_of S.Store k };

    ghost found_clean = { λ _ _ may. may.0 };

    fn caller_with(&mut self, digest: &Digest) -> Result<Option<Caller>, StoreFault> {
        let callers = self.lists().callers_table();
        self.serve_known(find_caller(callers.as_slice(), digest))
    }

    fn caller(&mut self, id: CallerId) -> Result<Option<Caller>, StoreFault> {
        let callers = self.lists().callers_table();
        self.serve_known(callers.find(&Key::of(id.number())).copied())
    }

    fn caller_count(&mut self) -> Result<usize, StoreFault> {
        self.serve_known(self.lists().callers_table().as_slice().len())
    }

    fn arrival(
        &mut self,
        caller: CallerId,
        number: u32,
        request: &Spelling,
    ) -> Result<Arrival, StoreFault>
        ensures reads { Reads (store_of S.Store self.old) (store_of S.Store self.new)
            (λ s. arrival_of number request.now (kept_of caller s)) result }
        ensures refuses { Refuses (store_of S.Store self.old) (store_of S.Store self.new) result }
        ensures caused { IsCaused S.Store self.old self.new result }
    {
        self.serve()?;
        let found = kept_by_caller(self.alloc, &mut self.conn, caller);
        let last = count(&mut self.failures, found)?;
        Ok(Arrival::of(number, request, last.as_ref()))
    }

    fn policy(&mut self) -> Result<Policy, StoreFault> {
        self.serve_known(self.lists().current_policy())
    }

    fn place(&mut self, id: PlaceId) -> Result<Option<Place>, StoreFault> {
        let places = self.lists().places_table();
        self.serve_known(places.find(&Key::of(id.number())).copied())
    }

    fn place_count(&mut self) -> Result<usize, StoreFault> {
        self.serve_known(self.lists().places_table().as_slice().len())
    }

    fn places(&mut self, alloc: Global) -> Result<Rows<Place>, StoreFault> {
        self.copy(alloc, self.lists().places_table())
    }

    fn has_route(&mut self, id: RouteId) -> Result<bool, StoreFault> {
        let routes = self.lists().routes_table();
        self.serve_known(routes.find(&Key::of(id.number())).is_some())
    }

    fn route_count(&mut self) -> Result<usize, StoreFault> {
        self.serve_known(self.lists().routes_table().as_slice().len())
    }

    fn routes(&mut self, alloc: Global) -> Result<Rows<FixedRoute>, StoreFault> {
        self.copy(alloc, self.lists().routes_table())
    }

    fn rider(&mut self, id: RiderId) -> Result<Option<Rider>, StoreFault>
        ensures reads { Reads (store_of S.Store self.old) (store_of S.Store self.new) (rider_of id) result }
        ensures refuses { Refuses (store_of S.Store self.old) (store_of S.Store self.new) result }
        ensures caused { IsCaused S.Store self.old self.new result }
    {
        self.read_rider(id)
    }

    fn rider_count(&mut self) -> Result<usize, StoreFault> {
        self.serve()?;
        Ok(self.rider_count)
    }

    fn case_file(&mut self, alloc: Global, rider: RiderId) -> Result<CaseFile, StoreFault>
        ensures reads { Reads (store_of S.Store self.old) (store_of S.Store self.new) (file_of rider) result }
        ensures refuses { Refuses (store_of S.Store self.old) (store_of S.Store self.new) result }
        ensures caused { IsCaused S.Store self.old self.new result }
    {
        self.serve()?;
        let found = entries_by_rider(alloc, &mut self.conn, rider);
        let entries = count(&mut self.failures, found)?;
        Ok(file_with(alloc, entries.as_slice())?)
    }

    fn has_vehicle(&mut self, id: VehicleId) -> Result<bool, StoreFault> {
        let vehicles = self.lists().vehicles_table();
        self.serve_known(has_version(vehicles.as_slice(), id))
    }

    fn vehicles(&mut self, alloc: Global) -> Result<Rows<Vehicle>, StoreFault> {
        self.copy(alloc, self.lists().vehicles_table())
    }

    fn table_count_before(&mut self, day: Day) -> Result<usize, StoreFault> {
        let travel = self.lists().travel_table();
        self.serve_known(table_count_before(travel.as_slice(), day))
    }

    fn travel_on(&mut self, alloc: Global, day: Day) -> Result<Option<TravelTable>, StoreFault> {
        self.serve()?;
        match table_on(self.known.lists().travel_table().as_slice(), day) {
            Some(table) => Ok(Some(table.copy(alloc)?)),
            None => Ok(None),
        }
    }

    fn is_booked_from(&mut self, vehicle: Option<VehicleId>, day: Day) -> Result<bool, StoreFault>
        ensures reads { Reads (store_of S.Store self.old) (store_of S.Store self.new)
            (λ s. is_booked_from vehicle day s.trips) result }
        ensures refuses { Refuses (store_of S.Store self.old) (store_of S.Store self.new) result }
        ensures caused { IsCaused S.Store self.old self.new result }
    {
        self.serve()?;
        let found = trips_from_day(self.alloc, &mut self.conn, day);
        let trips = count(&mut self.failures, found)?;
        Ok(is_booked_from(trips.as_slice(), &vehicle, day))
    }

    fn trip(&mut self, id: TripId) -> Result<Option<Trip>, StoreFault>
        ensures reads { Reads (store_of S.Store self.old) (store_of S.Store self.new) (trip_of id) result }
        ensures refuses { Refuses (store_of S.Store self.old) (store_of S.Store self.new) result }
        ensures caused { IsCaused S.Store self.old self.new result }
    {
        self.serve()?;
        let found = trip_by_number(self.alloc, &mut self.conn, id);
        count(&mut self.failures, found)
    }

    fn trips_of(&mut self, alloc: Global, rider: RiderId) -> Result<Rows<Trip>, StoreFault>
        ensures reads { Reads (store_of S.Store self.old) (store_of S.Store self.new)
            (λ s. trips_of rider s.trips) result }
        ensures refuses { Refuses (store_of S.Store self.old) (store_of S.Store self.new) result }
        ensures caused { IsCaused S.Store self.old self.new result }
    {
        self.serve()?;
        let found = trips_by_rider(alloc, &mut self.conn, rider);
        count(&mut self.failures, found)
    }

    fn trips_on(&mut self, alloc: Global, day: Day) -> Result<Rows<Trip>, StoreFault>
        ensures reads { Reads (store_of S.Store self.old) (store_of S.Store self.new)
            (λ s. trips_on day s.trips) result }
        ensures refuses { Refuses (store_of S.Store self.old) (store_of S.Store self.new) result }
        ensures caused { IsCaused S.Store self.old self.new result }
    {
        self.serve()?;
        let found = trips_by_day(alloc, &mut self.conn, day);
        count(&mut self.failures, found)
    }

    fn planned_on(&mut self, alloc: Global, day: Day) -> Result<Rows<Plan>, StoreFault>
        ensures reads { Reads (store_of S.Store self.old) (store_of S.Store self.new)
            (λ s. planned_on day s.planned) result }
        ensures refuses { Refuses (store_of S.Store self.old) (store_of S.Store self.new) result }
        ensures caused { Each HasFewStops self.old.content.planned → IsCaused S.Store self.old self.new result }
    {
        self.serve()?;
        let vehicles = self.known.lists().vehicles_table();
        let found = plans_by_day(alloc, &mut self.conn, vehicles.as_slice(), day);
        count(&mut self.failures, found)
    }

    fn last_trip(&mut self) -> Result<u32, StoreFault> {
        self.serve_known(self.lists().current_last_trip())
    }

    fn planned_route(
        &mut self,
        alloc: Global,
        vehicle: VehicleId,
        day: Day,
    ) -> Result<Option<Plan>, StoreFault>
        ensures reads { Reads (store_of S.Store self.old) (store_of S.Store self.new) (plan_of vehicle day) result }
        ensures refuses { Refuses (store_of S.Store self.old) (store_of S.Store self.new) result }
        ensures caused { Each HasFewStops self.old.content.planned → IsCaused S.Store self.old self.new result }
    {
        self.serve()?;
        let key = Key::pair(vehicle.number(), day.number());
        let found = plan_by_key(alloc, &mut self.conn, &key);
        count(&mut self.failures, found)
    }

    fn commit(&mut self, change: Change) -> Result<(), StoreFault>
        ensures commits { Commits (store_of S.Store self.old) (store_of S.Store self.new) (applied change) result }
        ensures fits { Fits (store_of S.Store self.old) (store_of S.Store self.new) (IsByRules change) }
        ensures refuses { Refuses (store_of S.Store self.old) (store_of S.Store self.new) result }
        // While the store serves, each change that cannot be written sets the mark. No other does.
        ensures marks { self.old.failures ≡ 0 → ¬ IsWritable self.old.content.vehicles change → self.new.unfit ≡ 1 }
        ensures spares { IsWritable self.old.content.vehicles change → self.new.unfit ≡ self.old.unfit }
        ensures keeps { 0 < self.old.failures → self.new.unfit ≡ self.old.unfit }
    {
        self.serve()?;
        let vehicles = self.known.lists().vehicles_table();
        if !is_writable(&change, vehicles.as_slice()) {
            self.failures = FAILED;
            self.unfit = UNFIT;
            return Err(StoreFault::Store);
        }
        let rider_count = self.rider_count_after(&change)?;
        self.make(change, rider_count)
    }

    fn failures(&self) -> u32 {
        self.failures
    }
}
