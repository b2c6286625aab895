ghost use Rattle.std.specs.Prelude.{◌≡◌, ◌↔◌, Any, IfOk, IsTrue};
ghost use Rattle.pt_desk_rules.specs.Fleet.{in_force};
ghost use Rattle.pt_desk_rules.specs.Sound.{HasFirstDay, LoadsFitIn};
ghost use Rattle.pt_feasible.specs.Loads.{LoadsFit};
ghost use Rattle.pt_feasible.specs.Route.{stops_of};
ghost use Rattle.pt_base_records.specs.Records.{Each};
ghost use Rattle.pt_desk_scheduling.specs.Plan.{stops_among, IsPlannedRoute, IsRoutePlan};
ghost use Rattle.pt_tables_soundness.specs.Tables.{AreSoundLoads};

use crate::fits::route_of;
use crate::vehicles::versions_of;
use pt_base_records::Table;
use pt_base_values::{Day, Trip, Vehicle};
use pt_desk_rules::in_force;
use pt_desk_scheduling::{Plan, PlannedStop};
use pt_feasible::{Route, loads_fit};
use std::alloc::{AllocError, Global};

/// Whether one of these has room for all who are aboard on the route.
fn has_room(route: &Route, versions: &[Vehicle]) -> bool
    ensures { IsTrue result ↔ Any (λ version. LoadsFit version (stops_of route.now)) versions.now }
{
    for version in versions {
        if loads_fit(route, version) {
            return true;
        }
    }
    false
}

/// Whether a vehicle has room for all who are aboard at these stops on the day.
fn has_room_on(
    alloc: Global,
    versions: &[Vehicle],
    trips: &Table<Trip>,
    day: Day,
    planned: &[PlannedStop],
) -> Result<bool, AllocError>
    requires route { IsPlannedRoute planned.now }
    ensures { IfOk result (λ room. IsTrue room
        ↔ Any (λ version. LoadsFit version (stops_among trips.now.items planned.now)) (in_force day versions.now)) }
{
    let route = route_of(alloc, trips, planned)?;
    let versions = in_force(alloc, versions, day)?;
    Ok(has_room(&route, &versions))
}

/// Whether the vehicle of a plan has room for all who are aboard at its stops on its day.
fn has_room_for(
    alloc: Global,
    vehicles: &Table<Vehicle>,
    trips: &Table<Trip>,
    plan: &Plan,
) -> Result<bool, AllocError>
    requires days { Each HasFirstDay vehicles.now.items }
    requires route { IsRoutePlan plan.now }
    ensures { IfOk result (λ room. IsTrue room ↔ LoadsFitIn vehicles.now.items trips.now.items plan.now) }
{
    let versions = versions_of(vehicles, plan.vehicle);
    has_room_on(alloc, versions, trips, plan.day, &plan.stops)
}

/// Whether the vehicles of the plans have room for all who are aboard at their stops on their days.
fn have_room(
    alloc: Global,
    vehicles: &Table<Vehicle>,
    trips: &Table<Trip>,
    plans: &[Plan],
) -> Result<bool, AllocError>
    requires days { Each HasFirstDay vehicles.now.items }
    requires routes { Each IsRoutePlan plans.now }
    ensures { IfOk result (λ room. IsTrue room
        ↔ Each (LoadsFitIn vehicles.now.items trips.now.items) plans.now) }
{
    for plan in plans {
        if !has_room_for(alloc, vehicles, trips, plan)? {
            return Ok(false);
        }
    }
    Ok(true)
}

/// Whether the loads of the plans are those of a sound state.
pub(crate) fn are_sound_loads(
    alloc: Global,
    vehicles: &Table<Vehicle>,
    trips: &Table<Trip>,
    plans: &Table<Plan>,
) -> Result<bool, AllocError>
    requires days { Each HasFirstDay vehicles.now.items }
    requires routes { Each IsRoutePlan plans.now.items }
    ensures { IfOk result (λ sound. IsTrue sound
        ↔ AreSoundLoads vehicles.now.items trips.now.items plans.now.items) }
{
    have_room(alloc, vehicles, trips, plans.as_slice())
}
