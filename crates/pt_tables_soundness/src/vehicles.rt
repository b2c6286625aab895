ghost use Rattle.std.specs.Prelude.{◌≡◌, ℕ, ◌≤◌, ◌↔◌, ◌∷◌, IsTrue, length};
ghost use Rattle.pt_base_records.specs.Records.{Each, IsInOrder};
ghost use Rattle.pt_desk_rules.specs.Fleet.{has_version, vehicle_count, versions_of};
ghost use Rattle.pt_desk_rules.specs.State.{most_versions};
ghost use Rattle.pt_desk_rules.specs.Sound.{HasDepot, HasFirstDay, IsFleet};
ghost use Rattle.pt_desk_rules.specs.State.{vehicle_key, versions_from};
ghost use Rattle.pt_tables_soundness.specs.Tables.{AreSoundVehicles, HasDriven};

use pt_base_records::{Key, Span, Table};
use pt_base_values::{Place, Vehicle, VehicleId};
use pt_desk_requests::{Caller, Role};
use pt_desk_rules::limits::{MOST_VEHICLES, MOST_VERSIONS};

/// Whether the depot of a version exists.
fn has_depot(places: &Table<Place>, version: &Vehicle) -> bool
    ensures { IsTrue result ↔ HasDepot places.now.items version.now }
{
    places.find(&Key::of(version.depot.number())).is_some()
}

/// The keys of a vehicle's versions.
fn keys_of(id: VehicleId) -> Span
    ensures { result ≡ versions_from id 0 }
{
    Span {
        from: Key::pair(id.number(), 0),
        to: Key::pair(id.number(), u32::MAX),
    }
}

/// The versions of a vehicle.
pub(crate) fn versions_of(vehicles: &Table<Vehicle>, id: VehicleId) -> &[Vehicle]
    requires days { Each HasFirstDay vehicles.now.items }
    ensures { result.now ≡ versions_of id vehicles.now.items }
{
    vehicles.within(&keys_of(id))
}

/// Whether some version of the vehicle exists.
pub(crate) fn has_version(vehicles: &Table<Vehicle>, id: VehicleId) -> bool
    requires days { Each HasFirstDay vehicles.now.items }
    ensures { result ≡ has_version id vehicles.now.items }
{
    !versions_of(vehicles, id).is_empty()
}

/// Whether the vehicle of a version has at most 20 of them.
fn has_few_versions(vehicles: &Table<Vehicle>, version: &Vehicle) -> bool
    requires days { Each HasFirstDay vehicles.now.items }
    ensures { IsTrue result ↔ (length (versions_of version.now.id vehicles.now.items) ≤ most_versions) }
{
    versions_of(vehicles, version.id).len() <= MOST_VERSIONS
}

/// Whether the vehicle of each of these versions has at most 20 of them.
fn are_few_versions(vehicles: &Table<Vehicle>, versions: &[Vehicle]) -> bool
    requires days { Each HasFirstDay vehicles.now.items }
    ensures { IsTrue result
        ↔ Each (λ version. length (versions_of version.id vehicles.now.items) ≤ most_versions) versions.now }
{
    versions
        .iter()
        .all(|version| has_few_versions(vehicles, version))
}

/// Whether each vehicle has at most 20 versions.
fn have_few_versions(vehicles: &Table<Vehicle>) -> bool
    requires days { Each HasFirstDay vehicles.now.items }
    ensures { IsTrue result ↔ ((id : ℕ) → length (versions_of id vehicles.now.items) ≤ most_versions) }
{
    are_few_versions(vehicles, vehicles.as_slice())
}

/// Whether a version of the same vehicle is among the later ones; if so, the next one is.
fn has_later(version: &Vehicle, later: &[Vehicle]) -> bool
    requires order { IsInOrder vehicle_key (version.now ∷ later.now) }
    requires days { Each HasFirstDay (version.now ∷ later.now) }
    ensures { result ≡ has_version version.now.id later.now }
{
    match later.first() {
        Some(next) => next.id == version.id,
        None => false,
    }
}

/// The number of vehicles.
fn vehicle_count(versions: &[Vehicle]) -> usize
    requires order { IsInOrder vehicle_key versions.now }
    requires days { Each HasFirstDay versions.now }
    ensures { result ≡ vehicle_count versions.now }
{
    let mut count = 0;
    for (at, version) in versions.iter().enumerate() {
        let (_, later) = versions.split_at(at + 1);
        if !has_later(version, later) {
            count += 1;
        }
    }
    count
}

/// Whether there are at most 50 vehicles of at most 20 versions each.
fn is_fleet(vehicles: &Table<Vehicle>) -> bool
    requires days { Each HasFirstDay vehicles.now.items }
    ensures { IsTrue result ↔ IsFleet vehicles.now.items }
{
    vehicle_count(vehicles.as_slice()) <= MOST_VEHICLES && have_few_versions(vehicles)
}

/// Whether the vehicle that the caller's role names exists, if it names one.
fn has_driven(vehicles: &Table<Vehicle>, caller: &Caller) -> bool
    requires days { Each HasFirstDay vehicles.now.items }
    ensures { IsTrue result ↔ HasDriven vehicles.now.items caller.now }
{
    match caller.role {
        Role::Driver(id) => has_version(vehicles, id),
        _ => true,
    }
}

/// Whether the depots exist.
fn have_depots(places: &Table<Place>, versions: &[Vehicle]) -> bool
    ensures { IsTrue result ↔ Each (HasDepot places.now.items) versions.now }
{
    versions.iter().all(|version| has_depot(places, version))
}

/// Whether the vehicles of the drivers exist.
fn are_driven(vehicles: &Table<Vehicle>, callers: &[Caller]) -> bool
    requires days { Each HasFirstDay vehicles.now.items }
    ensures { IsTrue result ↔ Each (HasDriven vehicles.now.items) callers.now }
{
    callers.iter().all(|caller| has_driven(vehicles, caller))
}

/// Whether the vehicles are those of a sound state, together with the callers who are drivers.
pub(crate) fn are_sound_vehicles(
    callers: &Table<Caller>,
    places: &Table<Place>,
    vehicles: &Table<Vehicle>,
) -> bool
    requires days { Each HasFirstDay vehicles.now.items }
    ensures { IsTrue result ↔ AreSoundVehicles callers.now.items places.now.items vehicles.now.items }
{
    let versions = vehicles.as_slice();
    have_depots(places, versions) && is_fleet(vehicles) && are_driven(vehicles, callers.as_slice())
}
