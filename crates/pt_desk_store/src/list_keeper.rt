ghost use Rattle.std.specs.Prelude.{◌≡◌, IfOk, OnOk, IfErr};
ghost use Rattle.pt_base_values.specs.Fault.{fault};
ghost use Rattle.pt_base_values.specs.declared.fault.Cause.TheVariants as cause;
ghost use Rattle.pt_desk_rules.specs.State.{span_of};

use crate::answers::{
    file_with, find_caller, is_booked_from, planned_on, table_count_before, trips_of, trips_on,
};
use crate::{Keeper, StoreFault};
use pt_base_records::{Edits, Key, Rows, Span, Table};
use pt_base_values::{
    CallerId, Day, Fault, Place, PlaceId, Policy, Rider, RiderId, RouteId, Trip, TripId, Vehicle,
    VehicleId,
};
use pt_corridor::FixedRoute;
use pt_desk_requests::{Caller, Digest, Role};
use pt_desk_rules::{Arrival, Change, FiledEntry, Kept, TravelTable, has_version, table_on};
use pt_desk_scheduling::Plan;
use pt_desk_spelling::Spelling;
use pt_rights_files::CaseFile;
use std::alloc::{AllocError, Global};
use std::marker::Model;

/// The policy of an agency that has settled nothing.
const LEAST_POLICY: Policy = Policy {
    base: 0,
    transfer: 0,
    fare: 0,
    service: 0,
    extra_ride: 0,
    min_missed: 1,
    percent: 100,
    span_days: 1,
};

/// The failures of a store that cannot fail.
const NEVER_FAILED: u32 = 0;

/// The desk's records in memory, in plain lists, for rehearsals and tests. It is always clean and never fails.
#[derive(Drop)]
pub struct ListKeeper {
    callers: Table<Caller>,
    kept: Table<Kept>,
    policy: Policy,
    places: Table<Place>,
    routes: Table<FixedRoute>,
    riders: Table<Rider>,
    entries: Table<FiledEntry>,
    vehicles: Table<Vehicle>,
    travel: Table<TravelTable>,
    trips: Table<Trip>,
    planned: Table<Plan>,
    /// The number that was last given to a trip, if any was.
    last_trip: Option<TripId>,
}

impl Model for ListKeeper {
    ghost use Rattle.std.specs.Option.{unwrap_or};
    ghost use Rattle.pt_desk_store.specs.Listed.{Listed};

    ghost Value = { Listed };

    ghost view = { λ k. record {
      content = record {
        callers = k.callers.items;
        kept = k.kept.items;
        policy = k.policy;
        places = k.places.items;
        routes = k.routes.items;
        riders = k.riders.items;
        entries = k.entries.items;
        vehicles = k.vehicles.items;
        travel = k.travel.items;
        trips = k.trips.items;
        planned = k.planned.items;
        last_trip = unwrap_or k.last_trip 0;
      };
      room = record {
        callers = k.callers.room;
        kept = k.kept.room;
        places = k.places.room;
        routes = k.routes.room;
        riders = k.riders.room;
        entries = k.entries.room;
        vehicles = k.vehicles.room;
        travel = k.travel.room;
        trips = k.trips.room;
        planned = k.planned.room;
      };
    } };
}

impl ListKeeper {
    ghost use Rattle.pt_desk_store.specs.LeastState.{IsLeastState};
    ghost use Rattle.pt_desk_store.specs.Listed.{HasRoom, HasKnownRoom, known_of, with_known};
    ghost use Rattle.pt_desk_store.specs.Store.{IsSettled};
    ghost use Rattle.pt_desk_rules.specs.Sound.{IsSound};
    ghost use Rattle.pt_desk_rules.specs.State.{applied};

    /// The least state, whose one caller is the admin with this key. The fault is out of memory.
    pub fn new(alloc: Global, admin_key: &[u8]) -> Result<Self, Fault>
        ensures least { IfOk result (λ keeper. IsLeastState admin_key.now keeper.content) }
        ensures sound { IfOk result (λ keeper. IsSound keeper.content) }
        ensures settled { IfOk result (λ keeper. IsSettled (⟦<ListKeeper as Keeper>⟧.store keeper)) }
        ensures memory { IfErr result (λ refused. refused ≡ fault cause.Memory) }
    {
        let admin = Caller {
            id: CallerId::of(1).unwrap(),
            role: Role::Admin,
            digest: Digest::of_key(admin_key),
        };
        let mut first = Edits::none(alloc);
        first.put(admin)?;
        let mut callers = Table::none(alloc);
        callers.reserve(&first)?;
        callers.edit(first);
        Ok(ListKeeper {
            callers,
            kept: Table::none(alloc),
            policy: LEAST_POLICY,
            places: Table::none(alloc),
            routes: Table::none(alloc),
            riders: Table::none(alloc),
            entries: Table::none(alloc),
            vehicles: Table::none(alloc),
            travel: Table::none(alloc),
            trips: Table::none(alloc),
            planned: Table::none(alloc),
            last_trip: None,
        })
    }

    /// Makes room for what the change puts into the tables that a keeper over a database knows in memory. Want of
    /// memory leaves the room in some tables, and no record changed.
    pub fn reserve_known(&mut self, change: &Change) -> Result<(), AllocError>
        ensures content { self.new.content ≡ self.old.content }
        ensures room { OnOk result (HasKnownRoom change.now self.new.room) }
    {
        self.callers.reserve(&change.callers)?;
        self.places.reserve(&change.places)?;
        self.routes.reserve(&change.routes)?;
        self.vehicles.reserve(&change.vehicles)?;
        self.travel.reserve(&change.travel)
    }

    /// Makes room for all that the change puts. Want of memory leaves the room in some tables, and no record changed.
    pub fn reserve(&mut self, change: &Change) -> Result<(), AllocError>
        ensures content { self.new.content ≡ self.old.content }
        ensures room { OnOk result (HasRoom change.now self.new.room) }
    {
        self.reserve_known(change)?;
        self.kept.reserve(&change.kept)?;
        self.riders.reserve(&change.riders)?;
        self.entries.reserve(&change.entries)?;
        self.trips.reserve(&change.trips)?;
        self.planned.reserve(&change.planned)
    }

    /// Makes the change, where there is room for it, and takes no memory.
    pub fn make(&mut self, change: Change)
        requires { HasRoom change self.old.room }
        ensures content { self.new.content ≡ applied change self.old.content }
    {
        self.callers.edit(change.callers);
        self.kept.edit(change.kept);
        self.policy = change.policy.unwrap_or(self.policy);
        self.places.edit(change.places);
        self.routes.edit(change.routes);
        self.riders.edit(change.riders);
        self.entries.edit(change.entries);
        self.vehicles.edit(change.vehicles);
        self.travel.edit(change.travel);
        self.trips.edit(change.trips);
        self.planned.edit(change.planned);
        self.last_trip = change.last_trip.or(self.last_trip);
    }

    /// Makes of the known tables what the change makes of them, where there is room for it, and takes no memory.
    pub fn make_known(&mut self, change: Change)
        requires { HasKnownRoom change self.old.room }
        ensures content { self.new.content ≡ with_known (applied change self.old.content) self.old.content }
    {
        self.callers.edit(change.callers);
        self.policy = change.policy.unwrap_or(self.policy);
        self.places.edit(change.places);
        self.routes.edit(change.routes);
        self.vehicles.edit(change.vehicles);
        self.travel.edit(change.travel);
        self.last_trip = change.last_trip.or(self.last_trip);
    }

    /// The known tables alone. What is kept of writes, riders, entries, trips and planned routes are let go.
    pub fn into_known(self, alloc: Global) -> Self
        ensures content { result.content ≡ known_of self.content }
    {
        ListKeeper {
            callers: self.callers,
            kept: Table::none(alloc),
            policy: self.policy,
            places: self.places,
            routes: self.routes,
            riders: Table::none(alloc),
            entries: Table::none(alloc),
            vehicles: self.vehicles,
            travel: self.travel,
            trips: Table::none(alloc),
            planned: Table::none(alloc),
            last_trip: self.last_trip,
        }
    }

    /// The policy.
    pub fn current_policy(&self) -> Policy
        ensures value { result ≡ self.now.content.policy }
    {
        self.policy
    }

    /// The number that was last given to a trip; 0 before the first.
    pub fn current_last_trip(&self) -> u32
        ensures value { result ≡ self.now.content.last_trip }
    {
        match self.last_trip {
            Some(id) => id.number(),
            None => 0,
        }
    }

    /// The callers.
    pub fn callers_table(&self) -> &Table<Caller>
        ensures value { result.now.items ≡ self.now.content.callers }
    {
        &self.callers
    }

    /// The last accepted writes.
    pub fn kept_table(&self) -> &Table<Kept>
        ensures value { result.now.items ≡ self.now.content.kept }
    {
        &self.kept
    }

    /// The places.
    pub fn places_table(&self) -> &Table<Place>
        ensures value { result.now.items ≡ self.now.content.places }
    {
        &self.places
    }

    /// The fixed routes.
    pub fn routes_table(&self) -> &Table<FixedRoute>
        ensures value { result.now.items ≡ self.now.content.routes }
    {
        &self.routes
    }

    /// The riders.
    pub fn riders_table(&self) -> &Table<Rider>
        ensures value { result.now.items ≡ self.now.content.riders }
    {
        &self.riders
    }

    /// The entries of all case files.
    pub fn entries_table(&self) -> &Table<FiledEntry>
        ensures value { result.now.items ≡ self.now.content.entries }
    {
        &self.entries
    }

    /// The vehicles with their versions.
    pub fn vehicles_table(&self) -> &Table<Vehicle>
        ensures value { result.now.items ≡ self.now.content.vehicles }
    {
        &self.vehicles
    }

    /// The travel tables.
    pub fn travel_table(&self) -> &Table<TravelTable>
        ensures value { result.now.items ≡ self.now.content.travel }
    {
        &self.travel
    }

    /// The trips.
    pub fn trips_table(&self) -> &Table<Trip>
        ensures value { result.now.items ≡ self.now.content.trips }
    {
        &self.trips
    }

    /// The routes that have stops.
    pub fn planned_table(&self) -> &Table<Plan>
        ensures value { result.now.items ≡ self.now.content.planned }
    {
        &self.planned
    }
}

/// The keys of a rider's entries.
fn span_of(rider: RiderId) -> Span
    ensures value { result ≡ span_of rider }
{
    Span {
        from: Key::pair(rider.number(), 0),
        to: Key::pair(rider.number(), u32::MAX),
    }
}

impl Keeper for ListKeeper {
    ghost use Rattle.std.specs.Prelude.{refl, Some};

    ghost store = { λ k. record {
      content = k.content;
      doubt = 0;
      shut = 0;
      failures = 0;
      unfit = 0;
      found = λ o. o ≡ Some k.content;
    } };

    ghost found_clean = { λ _ _ _. refl };

    fn caller_with(&mut self, digest: &Digest) -> Result<Option<Caller>, StoreFault> {
        Ok(find_caller(self.callers.as_slice(), digest))
    }

    fn caller(&mut self, id: CallerId) -> Result<Option<Caller>, StoreFault> {
        Ok(self.callers.find(&Key::of(id.number())).copied())
    }

    fn caller_count(&mut self) -> Result<usize, StoreFault> {
        Ok(self.callers.as_slice().len())
    }

    fn arrival(
        &mut self,
        caller: CallerId,
        number: u32,
        request: &Spelling,
    ) -> Result<Arrival, StoreFault> {
        let last = self.kept.find(&Key::of(caller.number()));
        Ok(Arrival::of(number, request, last))
    }

    fn policy(&mut self) -> Result<Policy, StoreFault> {
        Ok(self.current_policy())
    }

    fn place(&mut self, id: PlaceId) -> Result<Option<Place>, StoreFault> {
        Ok(self.places.find(&Key::of(id.number())).copied())
    }

    fn place_count(&mut self) -> Result<usize, StoreFault> {
        Ok(self.places.as_slice().len())
    }

    fn places(&mut self, alloc: Global) -> Result<Rows<Place>, StoreFault> {
        Ok(Rows::of(self.places.as_slice().to_vec(alloc)?))
    }

    fn has_route(&mut self, id: RouteId) -> Result<bool, StoreFault> {
        Ok(self.routes.find(&Key::of(id.number())).is_some())
    }

    fn route_count(&mut self) -> Result<usize, StoreFault> {
        Ok(self.routes.as_slice().len())
    }

    fn routes(&mut self, alloc: Global) -> Result<Rows<FixedRoute>, StoreFault> {
        Ok(Rows::of(self.routes.as_slice().to_vec(alloc)?))
    }

    fn rider(&mut self, id: RiderId) -> Result<Option<Rider>, StoreFault> {
        Ok(self.riders.find(&Key::of(id.number())).copied())
    }

    fn rider_count(&mut self) -> Result<usize, StoreFault> {
        Ok(self.riders.as_slice().len())
    }

    fn case_file(&mut self, alloc: Global, rider: RiderId) -> Result<CaseFile, StoreFault> {
        Ok(file_with(alloc, self.entries.within(&span_of(rider)))?)
    }

    fn has_vehicle(&mut self, id: VehicleId) -> Result<bool, StoreFault> {
        Ok(has_version(self.vehicles.as_slice(), id))
    }

    fn vehicles(&mut self, alloc: Global) -> Result<Rows<Vehicle>, StoreFault> {
        Ok(Rows::of(self.vehicles.as_slice().to_vec(alloc)?))
    }

    fn table_count_before(&mut self, day: Day) -> Result<usize, StoreFault> {
        Ok(table_count_before(self.travel.as_slice(), day))
    }

    fn travel_on(&mut self, alloc: Global, day: Day) -> Result<Option<TravelTable>, StoreFault> {
        match table_on(self.travel.as_slice(), day) {
            Some(table) => Ok(Some(table.copy(alloc)?)),
            None => Ok(None),
        }
    }

    fn is_booked_from(&mut self, vehicle: Option<VehicleId>, day: Day) -> Result<bool, StoreFault> {
        Ok(is_booked_from(self.trips.as_slice(), &vehicle, day))
    }

    fn trip(&mut self, id: TripId) -> Result<Option<Trip>, StoreFault> {
        Ok(self.trips.find(&Key::of(id.number())).copied())
    }

    fn trips_of(&mut self, alloc: Global, rider: RiderId) -> Result<Rows<Trip>, StoreFault> {
        Ok(trips_of(alloc, self.trips.as_slice(), rider)?)
    }

    fn trips_on(&mut self, alloc: Global, day: Day) -> Result<Rows<Trip>, StoreFault> {
        Ok(trips_on(alloc, self.trips.as_slice(), day)?)
    }

    fn planned_on(&mut self, alloc: Global, day: Day) -> Result<Rows<Plan>, StoreFault> {
        Ok(planned_on(alloc, self.planned.as_slice(), day)?)
    }

    fn last_trip(&mut self) -> Result<u32, StoreFault> {
        Ok(self.current_last_trip())
    }

    fn planned_route(
        &mut self,
        alloc: Global,
        vehicle: VehicleId,
        day: Day,
    ) -> Result<Option<Plan>, StoreFault> {
        match self
            .planned
            .find(&Key::pair(vehicle.number(), day.number()))
        {
            Some(route) => Ok(Some(route.copy(alloc)?)),
            None => Ok(None),
        }
    }

    fn commit(&mut self, change: Change) -> Result<(), StoreFault> {
        self.reserve(&change)?;
        self.make(change);
        Ok(())
    }

    fn failures(&self) -> u32 {
        NEVER_FAILED
    }
}
