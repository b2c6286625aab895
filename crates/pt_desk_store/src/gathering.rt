ghost use Rattle.std.specs.Prelude.{[], None};
ghost use Rattle.pt_desk_rules.specs.Facts.{facts_of, read_facts_of, has_subject};
ghost use Rattle.pt_desk_rules.specs.Facts.{agency_facts, booking_facts, day_of, no_day, plan_for, wish_facts};
ghost use Rattle.pt_desk_rules.specs.Facts.{rider_for, tallies_for, tour_facts, trips_counted_for};
ghost use Rattle.pt_desk_requests.specs.declared.request.Read.TheVariants.{Export, Letter, Manifest, Standing, Trips};
ghost use Rattle.pt_desk_rules.specs.State.{rider_of, file_of, trip_of};
ghost use Rattle.pt_desk_requests.specs.declared.request.Write.TheVariants.{Book, Cancel, Change, Enter, PutCaller, PutPlace};
ghost use Rattle.pt_desk_requests.specs.declared.request.Write.TheVariants.{PutRider, PutRoute, PutVehicle, Travel};
ghost use Rattle.pt_desk_store.specs.Enough.{IsEnough};
ghost use Rattle.pt_desk_store.specs.Store.{Store, Reads, ReadsSome};
ghost use Rattle.pt_desk_store.specs.Wished.{asked_facts, facts_of_old, IsEnoughFor};

use crate::manifests::gather_manifest;
use crate::wished::{gather_wished, with_day};
use crate::{Keeper, StoreFault};
use pt_base_records::Rows;
use pt_base_values::{
    Day, Moment, Place, Residence, Rider, RiderId, Trip, TripId, Vehicle, VehicleId, Wish,
};
use pt_corridor::FixedRoute;
use pt_desk_requests::{Caller, Read, Role};
use pt_desk_rules::{
    BookingFacts, CallerFacts, CancelFacts, DayFacts, EntryFacts, PlaceFacts, ReadFacts,
    RiderFacts, RouteFacts, Tallies, TravelFacts, VehicleFacts, WishFacts, asked_booking,
    asked_change,
};
use pt_desk_scheduling::Plan;
use pt_rights_files::{CaseFile, Entry};
use std::alloc::Global;

/// Whether the rider or the vehicle that a role names exists.
fn has_subject<K: Keeper>(keeper: &mut K, role: Role) -> Result<bool, StoreFault>
    ensures reads { Reads (K.store keeper.old) (K.store keeper.new)
        (λ s. has_subject role s.riders s.vehicles) result }
{
    match role {
        Role::Rider(rider) => Ok(keeper.rider(rider)?.is_some()),
        Role::Driver(vehicle) => keeper.has_vehicle(vehicle),
        Role::Clerk | Role::Examiner | Role::Officer | Role::Dispatcher | Role::Admin => Ok(true),
    }
}

/// The facts for the record of a caller. The error is the store's or out of memory.
pub fn gather_caller<K: Keeper>(keeper: &mut K, new: &Caller) -> Result<CallerFacts, StoreFault>
    ensures reads { Reads (K.store keeper.old) (K.store keeper.new) (facts_of (PutCaller new.now)) result }
{
    Ok(CallerFacts {
        has_subject: has_subject(keeper, new.role)?,
        caller: keeper.caller(new.id)?,
        holder: keeper.caller_with(&new.digest)?,
        caller_count: keeper.caller_count()?,
    })
}

/// The facts for a new place. The error is the store's or out of memory.
pub fn gather_place<K: Keeper>(keeper: &mut K, new: &Place) -> Result<PlaceFacts, StoreFault>
    ensures reads { Reads (K.store keeper.old) (K.store keeper.new) (facts_of (PutPlace new.now)) result }
{
    Ok(PlaceFacts {
        has_place: keeper.place(new.id)?.is_some(),
        place_count: keeper.place_count()?,
    })
}

/// The facts for a fixed route. The error is the store's or out of memory.
pub fn gather_route<K: Keeper>(keeper: &mut K, new: &FixedRoute) -> Result<RouteFacts, StoreFault>
    ensures reads { Reads (K.store keeper.old) (K.store keeper.new) (facts_of (PutRoute new.now)) result }
{
    Ok(RouteFacts {
        has_route: keeper.has_route(new.id())?,
        route_count: keeper.route_count()?,
    })
}

/// The facts for the record of a rider. The error is the store's or out of memory.
pub fn gather_rider<K: Keeper>(keeper: &mut K, new: &Rider) -> Result<RiderFacts, StoreFault>
    ensures reads { Reads (K.store keeper.old) (K.store keeper.new) (facts_of (PutRider new.now)) result }
{
    Ok(RiderFacts {
        rider: keeper.rider(new.id)?,
        rider_count: keeper.rider_count()?,
    })
}

/// A rider's record and case file.
fn rider_with_file<K: Keeper>(
    alloc: Global,
    keeper: &mut K,
    rider: RiderId,
) -> Result<(Option<Rider>, CaseFile), StoreFault>
    ensures reads { Reads (K.store keeper.old) (K.store keeper.new)
        (λ s. (rider_of rider s, file_of rider s)) result }
{
    Ok((keeper.rider(rider)?, keeper.case_file(alloc, rider)?))
}

/// The trips that count as days of use for this rider, if there is one: those of a visitor, and none for a resident.
fn gather_counted<K: Keeper>(
    alloc: Global,
    keeper: &mut K,
    found: &Option<Rider>,
) -> Result<Rows<Trip>, StoreFault>
    ensures reads { Reads (K.store keeper.old) (K.store keeper.new)
        (λ s. trips_counted_for found.now s.trips) result }
{
    match found {
        Some(rider) => match rider.kind {
            Residence::Visitor => keeper.trips_of(alloc, rider.id),
            Residence::Resident => Ok(Rows::none(alloc)),
        },
        None => Ok(Rows::none(alloc)),
    }
}

/// The outcomes that an entry's rules read.
fn gather_tallies<K: Keeper>(
    alloc: Global,
    keeper: &mut K,
    rider: RiderId,
    entry: &Entry,
) -> Result<Tallies, StoreFault>
    ensures reads { Reads (K.store keeper.old) (K.store keeper.new) (tallies_for entry.now rider) result }
{
    match entry {
        Entry::Notice(_) => {
            let trips = keeper.trips_of(alloc, rider)?;
            Ok(Tallies::of(alloc, trips.as_slice())?)
        }
        _ => Ok(Tallies::none(alloc)),
    }
}

/// The facts for an entry of a case file. The error is the store's or out of memory.
pub fn gather_entry<K: Keeper>(
    alloc: Global,
    keeper: &mut K,
    rider: RiderId,
    entry: &Entry,
) -> Result<EntryFacts, StoreFault>
    ensures reads { Reads (K.store keeper.old) (K.store keeper.new) (facts_of (Enter rider entry.now)) result }
{
    let tallies = gather_tallies(alloc, keeper, rider, entry)?;
    let (rider, file) = rider_with_file(alloc, keeper, rider)?;
    Ok(EntryFacts {
        policy: keeper.policy()?,
        rider,
        file,
        tallies,
    })
}

/// The facts for a version of a vehicle. The error is the store's or out of memory.
pub fn gather_vehicle<K: Keeper>(
    alloc: Global,
    keeper: &mut K,
    new: &Vehicle,
) -> Result<VehicleFacts, StoreFault>
    ensures reads { Reads (K.store keeper.old) (K.store keeper.new) (facts_of (PutVehicle new.now)) result }
{
    Ok(VehicleFacts {
        has_depot: keeper.place(new.depot)?.is_some(),
        vehicles: keeper.vehicles(alloc)?,
        is_booked: keeper.is_booked_from(Some(new.id), new.from_day)?,
    })
}

/// The facts for a travel table of this day. The error is the store's or out of memory.
pub fn gather_travel<K: Keeper>(
    alloc: Global,
    keeper: &mut K,
    day: Day,
) -> Result<TravelFacts, StoreFault>
    ensures reads { Reads (K.store keeper.old) (K.store keeper.new) (facts_of (Travel day [])) result }
{
    Ok(TravelFacts {
        places: keeper.places(alloc)?,
        tables_before: keeper.table_count_before(day)?,
        is_booked: keeper.is_booked_from(None, day)?,
    })
}

/// The facts that every booking reads.
fn gather_agency<K: Keeper>(alloc: Global, keeper: &mut K) -> Result<WishFacts, StoreFault>
    ensures reads { Reads (K.store keeper.old) (K.store keeper.new) agency_facts result }
{
    Ok(WishFacts {
        places: keeper.places(alloc)?,
        vehicles: keeper.vehicles(alloc)?,
        ..WishFacts::none(alloc, keeper.policy()?)
    })
}

/// The facts about a day: its travel table, trips and plans.
fn gather_day<K: Keeper>(alloc: Global, keeper: &mut K, day: Day) -> Result<DayFacts, StoreFault>
    ensures reads { Reads (K.store keeper.old) (K.store keeper.new) (day_of day) result }
{
    let travel = keeper.travel_on(alloc, day)?;
    let trips = keeper.trips_on(alloc, day)?;
    let plans = keeper.planned_on(alloc, day)?;
    Ok(DayFacts {
        travel,
        trips,
        plans,
    })
}

/// The plan of the trip's vehicle on its day, if there is a trip.
fn gather_plan<K: Keeper>(
    alloc: Global,
    keeper: &mut K,
    old: &Option<Trip>,
) -> Result<Option<Plan>, StoreFault>
    ensures reads { Reads (K.store keeper.old) (K.store keeper.new) (plan_for old.now) result }
{
    match old {
        Some(trip) => keeper.planned_route(alloc, trip.vehicle, trip.wish.day),
        None => Ok(None),
    }
}

/// The facts for this rider's wish except those about its day. `old` is the trip that it changes, if any.
fn gather_booking<K: Keeper>(
    alloc: Global,
    keeper: &mut K,
    found: &Option<Rider>,
    old: &Option<Trip>,
) -> Result<BookingFacts, StoreFault>
    ensures reads { Reads (K.store keeper.old) (K.store keeper.new)
        (λ s. record (booking_facts found.now 0 old.now s) { day = no_day }) result }
{
    let last_trip = keeper.last_trip()?;
    let trips = gather_counted(alloc, keeper, found)?;
    let plan = gather_plan(alloc, keeper, old)?;
    let routes = keeper.routes(alloc)?;
    Ok(BookingFacts {
        trip: *old,
        plan,
        routes,
        last_trip,
        trips,
        day: DayFacts::none(alloc),
    })
}

/// The facts about a rider's wish except those about its day. `old` is the trip that it changes, if any.
fn gather_asked<K: Keeper>(
    alloc: Global,
    keeper: &mut K,
    rider: RiderId,
    old: &Option<Trip>,
) -> Result<WishFacts, StoreFault>
    ensures reads { Reads (K.store keeper.old) (K.store keeper.new) (asked_facts rider old.now) result }
{
    let agency = gather_agency(alloc, keeper)?;
    let (rider, file) = rider_with_file(alloc, keeper, rider)?;
    let booking = gather_booking(alloc, keeper, &rider, old)?;
    Ok(WishFacts {
        rider,
        file,
        booking,
        ..agency
    })
}

/// All facts of the state about a rider's wish. `old` is the trip that it changes, if any. The error is the store's or
/// out of memory.
pub fn gather_wish<K: Keeper>(
    alloc: Global,
    keeper: &mut K,
    rider: RiderId,
    wish: &Wish,
    old: &Option<Trip>,
) -> Result<WishFacts, StoreFault>
    ensures reads { Reads (K.store keeper.old) (K.store keeper.new) (wish_facts rider wish.now old.now) result }
{
    let asked = gather_asked(alloc, keeper, rider, old)?;
    let day = gather_day(alloc, keeper, wish.day)?;
    Ok(with_day(asked, day))
}

/// The facts that the rules of a booking need by this caller at the moment `now`. The error is the store's or out of
/// memory.
pub fn gather_new_trip<K: Keeper>(
    alloc: Global,
    keeper: &mut K,
    me: &Caller,
    now: Moment,
    rider: RiderId,
    wish: &Wish,
) -> Result<WishFacts, StoreFault>
    ensures reads { ReadsSome (K.store keeper.old) (K.store keeper.new)
        (IsEnoughFor (Book rider wish.now) me.now now) result }
{
    let facts = gather_asked(alloc, keeper, rider, &None)?;
    match asked_booking(&facts, me, rider, wish) {
        Ok((asking, number)) => gather_wished(
            alloc, keeper, facts, &asking, number, &None, now.0, wish,
        ),
        Err(_) => Ok(facts),
    }
}

/// The facts about a wish that changes this trip, if the trip exists, except those about the wished day.
fn gather_old<K: Keeper>(
    alloc: Global,
    keeper: &mut K,
    trip: TripId,
) -> Result<WishFacts, StoreFault>
    ensures reads { Reads (K.store keeper.old) (K.store keeper.new) (λ s. facts_of_old (trip_of trip s) s) result }
{
    let old = keeper.trip(trip)?;
    match &old {
        Some(there) => gather_asked(alloc, keeper, there.rider, &old),
        None => gather_agency(alloc, keeper),
    }
}

/// The facts that the rules of a change need by this caller at the moment `now`. The error is the store's or out of
/// memory.
pub fn gather_change<K: Keeper>(
    alloc: Global,
    keeper: &mut K,
    me: &Caller,
    now: Moment,
    trip: TripId,
    wish: &Wish,
) -> Result<WishFacts, StoreFault>
    ensures reads { ReadsSome (K.store keeper.old) (K.store keeper.new)
        (IsEnoughFor (Change trip wish.now) me.now now) result }
{
    let facts = gather_old(alloc, keeper, trip)?;
    let today = now.0;
    match asked_change(&facts, me, now, wish) {
        Ok((asking, old)) => {
            let left_out = Some(old.id);
            gather_wished(
                alloc, keeper, facts, &asking, old.id, &left_out, today, wish,
            )
        }
        Err(_) => Ok(facts),
    }
}

/// The trip's rider, if there is a trip.
fn gather_owner<K: Keeper>(
    keeper: &mut K,
    found: &Option<Trip>,
) -> Result<Option<Rider>, StoreFault>
    ensures reads { Reads (K.store keeper.old) (K.store keeper.new) (rider_for found.now) result }
{
    match found {
        Some(trip) => keeper.rider(trip.rider),
        None => Ok(None),
    }
}

/// The facts for the cancellation of a trip. The error is the store's or out of memory.
pub fn gather_cancel<K: Keeper>(
    alloc: Global,
    keeper: &mut K,
    trip: TripId,
) -> Result<CancelFacts, StoreFault>
    ensures reads { Reads (K.store keeper.old) (K.store keeper.new) (facts_of (Cancel trip)) result }
{
    let found = keeper.trip(trip)?;
    let rider = gather_owner(keeper, &found)?;
    let plan = gather_plan(alloc, keeper, &found)?;
    Ok(CancelFacts {
        trip: found,
        rider,
        plan,
    })
}

fn gather_standing<K: Keeper>(
    alloc: Global,
    keeper: &mut K,
    rider: RiderId,
) -> Result<ReadFacts, StoreFault>
    ensures reads { Reads (K.store keeper.old) (K.store keeper.new) (read_facts_of (Standing rider 0)) result }
{
    let (rider, file) = rider_with_file(alloc, keeper, rider)?;
    let trips = gather_counted(alloc, keeper, &rider)?;
    Ok(ReadFacts {
        rider,
        file,
        trips,
        ..ReadFacts::none(alloc)
    })
}

fn gather_trips<K: Keeper>(
    alloc: Global,
    keeper: &mut K,
    rider: RiderId,
) -> Result<ReadFacts, StoreFault>
    ensures reads { Reads (K.store keeper.old) (K.store keeper.new) (read_facts_of (Trips rider)) result }
{
    Ok(ReadFacts {
        rider: keeper.rider(rider)?,
        trips: keeper.trips_of(alloc, rider)?,
        ..ReadFacts::none(alloc)
    })
}

fn gather_letter<K: Keeper>(
    alloc: Global,
    keeper: &mut K,
    rider: RiderId,
) -> Result<ReadFacts, StoreFault>
    ensures reads { Reads (K.store keeper.old) (K.store keeper.new) (read_facts_of (Letter rider 0)) result }
{
    let (rider, file) = rider_with_file(alloc, keeper, rider)?;
    Ok(ReadFacts {
        rider,
        file,
        ..ReadFacts::none(alloc)
    })
}

fn gather_export<K: Keeper>(
    alloc: Global,
    keeper: &mut K,
    day: Day,
) -> Result<ReadFacts, StoreFault>
    ensures reads { Reads (K.store keeper.old) (K.store keeper.new) (read_facts_of (Export day)) result }
{
    Ok(ReadFacts {
        trips: keeper.trips_on(alloc, day)?,
        ..ReadFacts::none(alloc)
    })
}

/// The facts for manifests.
fn gather_tours<K: Keeper>(alloc: Global, keeper: &mut K, day: Day) -> Result<ReadFacts, StoreFault>
    ensures reads { Reads (K.store keeper.old) (K.store keeper.new) (tour_facts day) result }
{
    let vehicles = keeper.vehicles(alloc)?;
    let day = gather_day(alloc, keeper, day)?;
    Ok(ReadFacts {
        vehicles,
        day,
        ..ReadFacts::none(alloc)
    })
}

/// All facts of the state about the read.
fn gather_all<K: Keeper>(
    alloc: Global,
    keeper: &mut K,
    read: &Read,
) -> Result<ReadFacts, StoreFault>
    ensures reads { Reads (K.store keeper.old) (K.store keeper.new) (read_facts_of read.now) result }
{
    match *read {
        Read::Standing { rider, day: _ } => gather_standing(alloc, keeper, rider),
        Read::Trips(rider) => gather_trips(alloc, keeper, rider),
        Read::Letter { rider, position: _ } => gather_letter(alloc, keeper, rider),
        Read::Manifest { vehicle: _, day } => gather_tours(alloc, keeper, day),
        Read::DaySheet(day) => gather_tours(alloc, keeper, day),
        Read::Export(day) => gather_export(alloc, keeper, day),
    }
}

/// The facts for the manifest of a vehicle.
fn gather_run<K: Keeper>(
    alloc: Global,
    keeper: &mut K,
    vehicle: VehicleId,
    day: Day,
) -> Result<ReadFacts, StoreFault>
    ensures reads { ReadsSome (K.store keeper.old) (K.store keeper.new) (IsEnough (Manifest vehicle day)) result }
{
    match gather_manifest(alloc, keeper, vehicle, day)? {
        Some(facts) => Ok(facts),
        None => gather_tours(alloc, keeper, day),
    }
}

/// The facts that the read's rules and its answer need. The error is the store's or out of memory.
pub fn gather_read<K: Keeper>(
    alloc: Global,
    keeper: &mut K,
    read: &Read,
) -> Result<ReadFacts, StoreFault>
    ensures reads { ReadsSome (K.store keeper.old) (K.store keeper.new) (IsEnough read.now) result }
{
    if let Read::Manifest { vehicle, day } = *read {
        return gather_run(alloc, keeper, vehicle, day);
    }
    gather_all(alloc, keeper, read)
}
