ghost use Rattle.std.specs.Prelude.{◌↔◌, IsTrue};
ghost use Rattle.pt_base_records.specs.Records.{Each};
ghost use Rattle.pt_tables_soundness.specs.Tables.{AreSoundPlaces, AreSoundRoutes, AreSoundRiders, HasRider};

use pt_base_records::{Key, Table};
use pt_base_values::{Place, Rider};
use pt_corridor::FixedRoute;
use pt_desk_requests::{Caller, Role};
use pt_desk_rules::limits::{MOST_PLACES, MOST_RIDERS, MOST_ROUTES};

/// Whether the places are those of a sound state.
pub(crate) fn are_sound_places(places: &Table<Place>) -> bool
    ensures { IsTrue result ↔ AreSoundPlaces places.now.items }
{
    places.as_slice().len() <= MOST_PLACES
}

/// Whether the fixed routes are those of a sound state.
pub(crate) fn are_sound_routes(routes: &Table<FixedRoute>) -> bool
    ensures { IsTrue result ↔ AreSoundRoutes routes.now.items }
{
    routes.as_slice().len() <= MOST_ROUTES
}

/// Whether the rider that the caller's role names exists, if it names one.
fn has_rider(riders: &Table<Rider>, caller: &Caller) -> bool
    ensures { IsTrue result ↔ HasRider riders.now.items caller.now }
{
    match caller.role {
        Role::Rider(id) => riders.find(&Key::of(id.number())).is_some(),
        _ => true,
    }
}

/// Whether the riders that the callers' roles name exist.
fn have_riders(riders: &Table<Rider>, callers: &[Caller]) -> bool
    ensures { IsTrue result ↔ Each (HasRider riders.now.items) callers.now }
{
    callers.iter().all(|caller| has_rider(riders, caller))
}

/// Whether the riders are those of a sound state, together with the callers who are riders.
pub(crate) fn are_sound_riders(callers: &Table<Caller>, riders: &Table<Rider>) -> bool
    ensures { IsTrue result ↔ AreSoundRiders callers.now.items riders.now.items }
{
    riders.as_slice().len() <= MOST_RIDERS && have_riders(riders, callers.as_slice())
}
