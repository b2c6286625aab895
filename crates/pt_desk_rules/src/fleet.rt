ghost use Rattle.std.specs.Prelude.{◌≡◌, ◌==◌, ◌&&◌, not, length, IfOk};
ghost use Rattle.std.specs.List.{list_any};
ghost use Rattle.pt_desk_rules.specs.Fleet.{has_version, vehicle_count, versions_before, versions_of_others};
ghost use Rattle.std.specs.Option.{option_copied};
ghost use Rattle.pt_desk_rules.specs.Fleet.{duty_of, in_force, is_in_force, is_newer, is_on_duty, on_duty};

use pt_base_values::{Day, Vehicle, VehicleId};
use std::alloc::{AllocError, Global};

/// Whether some version of this vehicle is among these.
pub fn has_version(vehicles: &[Vehicle], id: VehicleId) -> bool
    ensures value { result ≡ has_version id vehicles.now }
{
    for version in vehicles {
        if version.id == id {
            return true;
        }
    }
    false
}

/// The number of versions of the vehicle whose first day is before this day.
pub(crate) fn version_count_before(vehicles: &[Vehicle], id: VehicleId, day: Day) -> usize
    ensures value { result ≡ length (versions_before id day vehicles.now) }
{
    let mut count = 0;
    for version in vehicles {
        if version.id == id && version.from_day < day {
            count += 1;
        }
    }
    count
}

/// Whether it is the last version of another vehicle.
fn is_last_of_another(version: &Vehicle, later: &[Vehicle], id: VehicleId) -> bool
    ensures value { result ≡ (not (version.now.id == id) && not (has_version version.now.id later.now)) }
{
    version.id != id && !has_version(later, version.id)
}

/// The number of other vehicles.
pub(crate) fn other_vehicle_count(vehicles: &[Vehicle], id: VehicleId) -> usize
    ensures value { result ≡ vehicle_count (versions_of_others id vehicles.now) }
{
    let mut count = 0;
    for (at, version) in vehicles.iter().enumerate() {
        let (_, later) = vehicles.split_at(at + 1);
        if is_last_of_another(version, later, id) {
            count += 1;
        }
    }
    count
}

/// Whether the day of a later version of the same vehicle has come by `day`.
fn has_newer(vehicles: &[Vehicle], version: &Vehicle, day: Day) -> bool
    ensures value { result ≡ list_any (is_newer day version.now) vehicles.now }
{
    for other in vehicles {
        if other.id == version.id && version.from_day < other.from_day && other.from_day <= day {
            return true;
        }
    }
    false
}

/// Whether the version is in force on the day.
fn is_in_force(vehicles: &[Vehicle], version: &Vehicle, day: Day) -> bool
    ensures value { result ≡ is_in_force day vehicles.now version.now }
{
    version.from_day <= day && !has_newer(vehicles, version, day)
}

/// Whether the version is on duty on the day.
fn is_on_duty(vehicles: &[Vehicle], version: &Vehicle, day: Day) -> bool
    ensures value { result ≡ is_on_duty day vehicles.now version.now }
{
    version.from_day <= day
        && version.days.contains(day.weekday())
        && !has_newer(vehicles, version, day)
}

/// The versions in force on a day, in their order. The error is out of memory.
pub fn in_force(alloc: Global, vehicles: &[Vehicle], day: Day) -> Result<Vec<Vehicle>, AllocError>
    ensures value { IfOk result (λ found. found.items ≡ in_force day vehicles.now) }
{
    let mut found = Vec::new(alloc);
    for version in vehicles {
        if is_in_force(vehicles, version, day) {
            found.push(*version)?;
        }
    }
    Ok(found)
}

/// The version of a vehicle that is on duty on a day, if one is.
pub fn duty_of(vehicles: &[Vehicle], id: VehicleId, day: Day) -> Option<&Vehicle>
    ensures value { option_copied result ≡ duty_of id day vehicles.now }
{
    for version in vehicles {
        if version.id == id && is_on_duty(vehicles, version, day) {
            return Some(version);
        }
    }
    None
}

/// The vehicles on duty on a day, each in its version of that day, by rising number. The error is out of memory.
pub fn on_duty(alloc: Global, vehicles: &[Vehicle], day: Day) -> Result<Vec<Vehicle>, AllocError>
    ensures value { IfOk result (λ found. found.items ≡ on_duty day vehicles.now) }
{
    let mut found = Vec::new(alloc);
    for version in vehicles {
        if is_on_duty(vehicles, version, day) {
            found.push(*version)?;
        }
    }
    Ok(found)
}
