ghost use Rattle.std.specs.Prelude.{◌≡◌, ◌≤◌, length, Option, is_some};
ghost use Rattle.pt_desk_rules.specs.State.{State, caller_with, caller_of, kept_of, place_of, rider_of, route_of};
ghost use Rattle.pt_desk_rules.specs.State.{file_of, tables_before, trip_of, plan_of, applied};
ghost use Rattle.pt_desk_rules.specs.Arrival.{arrival_of};
ghost use Rattle.pt_desk_rules.specs.Fleet.{has_version};
ghost use Rattle.pt_desk_rules.specs.Planned.{is_booked_from, planned_on, trips_of, trips_on};
ghost use Rattle.pt_desk_rules.specs.Travel.{table_on};
ghost use Rattle.pt_desk_store.specs.Store.{Store, Reads, Refuses, Commits, Fits, IsByRules};

use pt_base_records::Rows;
use pt_base_values::{
    CallerId, Day, Place, PlaceId, Policy, Rider, RiderId, RouteId, Trip, TripId, Vehicle,
    VehicleId,
};
use pt_corridor::FixedRoute;
use pt_desk_requests::{Answer, Caller, Digest};
use pt_desk_rules::{Arrival, Change, TravelTable};
use pt_desk_scheduling::Plan;
use pt_desk_spelling::Spelling;
use pt_rights_files::CaseFile;
use std::alloc::{AllocError, Global};

/// Why a store did not serve.
#[derive(Clone, Copy, Debug)]
pub enum StoreFault {
    /// Memory was refused, and nothing is changed.
    Memory,
    /// The store failed, and has to be opened again.
    Store,
}

/// The reply to a caller: the rules' answer, or that memory or the store failed.
pub type Reply = Result<Answer, StoreFault>;

impl From<AllocError> for StoreFault {
    ghost use Rattle.pt_desk_store.specs.declared.keeper.StoreFault.TheVariants.{Memory};

    ghost from_gives = { λ _ fault. fault ≡ Memory };

    fn from(_error: AllocError) -> Self {
        StoreFault::Memory
    }
}

/// A store of the desk's records.
///
/// Its contracts speak of the content only if `doubt` is 0 when the call ends: nobody else wrote to it, and reads
/// return what was written. A store that is shut serves no longer: it has failed, or answers out of memory.
pub trait Keeper {
    /// All that contracts say of it.
    ghost store: { Self → Store };

    /// The caller whose key has this digest.
    fn caller_with(&mut self, digest: &Digest) -> Result<Option<Caller>, StoreFault>
        ensures reads { Reads (store self.old) (store self.new) (caller_with digest.now) result }
        ensures refuses { Refuses (store self.old) (store self.new) result };

    /// The caller of this number.
    fn caller(&mut self, id: CallerId) -> Result<Option<Caller>, StoreFault>
        ensures reads { Reads (store self.old) (store self.new) (caller_of id) result }
        ensures refuses { Refuses (store self.old) (store self.new) result };

    /// How many callers there are.
    fn caller_count(&mut self) -> Result<usize, StoreFault>
        ensures reads { Reads (store self.old) (store self.new) (λ s. length s.callers) result }
        ensures refuses { Refuses (store self.old) (store self.new) result };

    /// How a write of a caller comes in, with this number and spelling, beside the caller's last accepted one.
    fn arrival(
        &mut self,
        caller: CallerId,
        number: u32,
        request: &Spelling,
    ) -> Result<Arrival, StoreFault>
        ensures reads { Reads (store self.old) (store self.new)
            (λ s. arrival_of number request.now (kept_of caller s)) result }
        ensures refuses { Refuses (store self.old) (store self.new) result };

    /// The agency's policy.
    fn policy(&mut self) -> Result<Policy, StoreFault>
        ensures reads { Reads (store self.old) (store self.new) (λ s. s.policy) result }
        ensures refuses { Refuses (store self.old) (store self.new) result };

    /// The place of this number.
    fn place(&mut self, id: PlaceId) -> Result<Option<Place>, StoreFault>
        ensures reads { Reads (store self.old) (store self.new) (place_of id) result }
        ensures refuses { Refuses (store self.old) (store self.new) result };

    /// How many places there are.
    fn place_count(&mut self) -> Result<usize, StoreFault>
        ensures reads { Reads (store self.old) (store self.new) (λ s. length s.places) result }
        ensures refuses { Refuses (store self.old) (store self.new) result };

    /// All places in order of their numbers.
    fn places(&mut self, alloc: Global) -> Result<Rows<Place>, StoreFault>
        ensures reads { Reads (store self.old) (store self.new) (λ s. s.places) result }
        ensures refuses { Refuses (store self.old) (store self.new) result };

    /// Whether the fixed route of this number is there.
    fn has_route(&mut self, id: RouteId) -> Result<bool, StoreFault>
        ensures reads { Reads (store self.old) (store self.new) (λ s. is_some (route_of id s)) result }
        ensures refuses { Refuses (store self.old) (store self.new) result };

    /// How many fixed routes there are.
    fn route_count(&mut self) -> Result<usize, StoreFault>
        ensures reads { Reads (store self.old) (store self.new) (λ s. length s.routes) result }
        ensures refuses { Refuses (store self.old) (store self.new) result };

    /// All fixed routes in order of their numbers.
    fn routes(&mut self, alloc: Global) -> Result<Rows<FixedRoute>, StoreFault>
        ensures reads { Reads (store self.old) (store self.new) (λ s. s.routes) result }
        ensures refuses { Refuses (store self.old) (store self.new) result };

    /// The rider of this number.
    fn rider(&mut self, id: RiderId) -> Result<Option<Rider>, StoreFault>
        ensures reads { Reads (store self.old) (store self.new) (rider_of id) result }
        ensures refuses { Refuses (store self.old) (store self.new) result };

    /// How many riders there are.
    fn rider_count(&mut self) -> Result<usize, StoreFault>
        ensures reads { Reads (store self.old) (store self.new) (λ s. length s.riders) result }
        ensures refuses { Refuses (store self.old) (store self.new) result };

    /// The case file of a rider, empty where nothing was entered.
    fn case_file(&mut self, alloc: Global, rider: RiderId) -> Result<CaseFile, StoreFault>
        ensures reads { Reads (store self.old) (store self.new) (file_of rider) result }
        ensures refuses { Refuses (store self.old) (store self.new) result };

    /// Whether some version of the vehicle is there.
    fn has_vehicle(&mut self, id: VehicleId) -> Result<bool, StoreFault>
        ensures reads { Reads (store self.old) (store self.new) (λ s. has_version id s.vehicles) result }
        ensures refuses { Refuses (store self.old) (store self.new) result };

    /// All vehicles with their versions, in order of their numbers and days.
    fn vehicles(&mut self, alloc: Global) -> Result<Rows<Vehicle>, StoreFault>
        ensures reads { Reads (store self.old) (store self.new) (λ s. s.vehicles) result }
        ensures refuses { Refuses (store self.old) (store self.new) result };

    /// How many travel tables hold from a day before this one.
    fn table_count_before(&mut self, day: Day) -> Result<usize, StoreFault>
        ensures reads { Reads (store self.old) (store self.new) (λ s. length (tables_before day s.travel)) result }
        ensures refuses { Refuses (store self.old) (store self.new) result };

    /// The travel table that holds on a day, if one does.
    fn travel_on(&mut self, alloc: Global, day: Day) -> Result<Option<TravelTable>, StoreFault>
        ensures reads { Reads (store self.old) (store self.new) (λ s. table_on day s.travel) result }
        ensures refuses { Refuses (store self.old) (store self.new) result };

    /// Whether a trip of the vehicle, or of any where none is named, stands on the day or later.
    fn is_booked_from(&mut self, vehicle: Option<VehicleId>, day: Day) -> Result<bool, StoreFault>
        ensures reads { Reads (store self.old) (store self.new) (λ s. is_booked_from vehicle day s.trips) result }
        ensures refuses { Refuses (store self.old) (store self.new) result };

    /// The trip of this number.
    fn trip(&mut self, id: TripId) -> Result<Option<Trip>, StoreFault>
        ensures reads { Reads (store self.old) (store self.new) (trip_of id) result }
        ensures refuses { Refuses (store self.old) (store self.new) result };

    /// The trips of a rider, in order of their numbers.
    fn trips_of(&mut self, alloc: Global, rider: RiderId) -> Result<Rows<Trip>, StoreFault>
        ensures reads { Reads (store self.old) (store self.new) (λ s. trips_of rider s.trips) result }
        ensures refuses { Refuses (store self.old) (store self.new) result };

    /// The trips of a day, in order of their numbers.
    fn trips_on(&mut self, alloc: Global, day: Day) -> Result<Rows<Trip>, StoreFault>
        ensures reads { Reads (store self.old) (store self.new) (λ s. trips_on day s.trips) result }
        ensures refuses { Refuses (store self.old) (store self.new) result };

    /// The routes of a day that have stops, in order of their vehicles.
    fn planned_on(&mut self, alloc: Global, day: Day) -> Result<Rows<Plan>, StoreFault>
        ensures reads { Reads (store self.old) (store self.new) (λ s. planned_on day s.planned) result }
        ensures refuses { Refuses (store self.old) (store self.new) result };

    /// The number that was last given to a trip; 0 before the first.
    fn last_trip(&mut self) -> Result<u32, StoreFault>
        ensures reads { Reads (store self.old) (store self.new) (λ s. s.last_trip) result }
        ensures refuses { Refuses (store self.old) (store self.new) result };

    /// The route of a vehicle on a day, where it has stops.
    fn planned_route(
        &mut self,
        alloc: Global,
        vehicle: VehicleId,
        day: Day,
    ) -> Result<Option<Plan>, StoreFault>
        ensures reads { Reads (store self.old) (store self.new) (plan_of vehicle day) result }
        ensures refuses { Refuses (store self.old) (store self.new) result };

    /// Makes all of the change or nothing of it.
    fn commit(&mut self, change: Change) -> Result<(), StoreFault>
        ensures commits { Commits (store self.old) (store self.new) (applied change) result }
        // A change that the rules make in a sound state is one that it takes.
        ensures fits { Fits (store self.old) (store self.new) (IsByRules change) }
        ensures refuses { Refuses (store self.old) (store self.new) result };

    /// 0, and 1 for good once the store has failed in a call.
    fn failures(&self) -> u32
        ensures value { result ≡ (store self.now).failures }
        ensures most { result ≤ 1 };

    /// A crash is spoken of only where the store is clean.
    ghost found_clean: { (k : Self) (s : Option State) → (store k).found s → (store k).doubt ≡ 0 };
}
