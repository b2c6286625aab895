//! Look-ups in lists of records, whoever holds the lists.
ghost use Rattle.std.specs.Prelude.{◌≡◌, ◌<◌, ◌++◌, ◌∷◌, [], IfOk, OnOk, bytes_eq, find, length};
ghost use Rattle.pt_desk_rules.specs.Planned.{is_booked_from, is_standing_from, planned_on, trips_of, trips_on};
ghost use Rattle.pt_desk_rules.specs.State.{file_with, most_entries, tables_before, trip_key};
ghost use Rattle.pt_base_records.specs.Records.{IsInOrder};
ghost use Rattle.pt_desk_scheduling.specs.Plan.{plan_key};

use pt_base_records::Rows;
use pt_base_values::{Day, RiderId, Trip, VehicleId};
use pt_desk_requests::{Caller, Digest};
use pt_desk_rules::{FiledEntry, TravelTable};
use pt_desk_scheduling::Plan;
use pt_rights_files::{CaseFile, Entered};
use std::alloc::{AllocError, Global};

/// The first caller whose key has this digest.
pub fn find_caller(callers: &[Caller], digest: &Digest) -> Option<Caller>
    ensures value { result ≡ find (λ caller. bytes_eq caller.digest digest.now) callers.now }
{
    for caller in callers {
        if caller.digest == *digest {
            return Some(*caller);
        }
    }
    None
}

/// The number of travel tables whose first day is before this day.
pub fn table_count_before(tables: &[TravelTable], day: Day) -> usize
    ensures value { result ≡ length (tables_before day tables.now) }
{
    let mut count = 0;
    for table in tables {
        if table.from_day() < day {
            count += 1;
        }
    }
    count
}

/// Whether the trip is not cancelled, is on the day or later, and is in the vehicle if one is given.
fn stands_from(trip: &Trip, vehicle: &Option<VehicleId>, day: Day) -> bool
    ensures value { result ≡ is_standing_from vehicle.now day trip.now }
{
    let is_of = match vehicle {
        Some(id) => trip.vehicle == *id,
        None => true,
    };
    trip.status.stands() && day <= trip.wish.day && is_of
}

/// Whether some trip is not cancelled, is on the day or later, and is in the vehicle if one is given.
pub fn is_booked_from(trips: &[Trip], vehicle: &Option<VehicleId>, day: Day) -> bool
    ensures value { result ≡ is_booked_from vehicle.now day trips.now }
{
    for trip in trips {
        if stands_from(trip, vehicle, day) {
            return true;
        }
    }
    false
}

/// The trips of a rider.
pub(crate) fn trips_of(
    alloc: Global,
    trips: &[Trip],
    rider: RiderId,
) -> Result<Rows<Trip>, AllocError>
    requires order { IsInOrder trip_key trips.now }
    ensures value { IfOk result (λ found. found ≡ trips_of rider trips.now) }
{
    let mut found = Vec::new(alloc);
    for trip in trips {
        if trip.rider == rider {
            found.push(*trip)?;
        }
    }
    Ok(Rows::of(found))
}

/// The trips of a day.
pub(crate) fn trips_on(alloc: Global, trips: &[Trip], day: Day) -> Result<Rows<Trip>, AllocError>
    requires order { IsInOrder trip_key trips.now }
    ensures value { IfOk result (λ found. found ≡ trips_on day trips.now) }
{
    let mut found = Vec::new(alloc);
    for trip in trips {
        if trip.wish.day == day {
            found.push(*trip)?;
        }
    }
    Ok(Rows::of(found))
}

/// The routes of a day.
pub(crate) fn planned_on(alloc: Global, plans: &[Plan], day: Day) -> Result<Rows<Plan>, AllocError>
    requires order { IsInOrder plan_key plans.now }
    ensures value { IfOk result (λ found. found ≡ planned_on day plans.now) }
{
    let mut found = Vec::new(alloc);
    for plan in plans {
        if plan.day == day {
            found.push(plan.copy(alloc)?)?;
        }
    }
    Ok(Rows::of(found))
}

/// Adds a copy of the entry at the end of the file. The error is out of memory.
fn push_copy(file: &mut CaseFile, new: &Entered) -> Result<(), AllocError>
    requires { length file.old < most_entries }
    ensures value { OnOk result (file.new ≡ file.old ++ new.now ∷ []) }
{
    let Entered { entry, day, author } = new.clone()?;
    match file.push(entry, day, author) {
        Ok(()) => Ok(()),
        Err(_) => Err(AllocError),
    }
}

/// The entries as a case file, as far as it has room for them. The error is out of memory.
pub fn file_with(alloc: Global, entries: &[FiledEntry]) -> Result<CaseFile, AllocError>
    ensures value { IfOk result (λ file. file ≡ file_with entries.now) }
{
    let mut file = CaseFile::new(alloc);
    for filed in entries {
        if file.is_full() {
            return Ok(file);
        }
        push_copy(&mut file, &filed.entered)?;
    }
    Ok(file)
}
