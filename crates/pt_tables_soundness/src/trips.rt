ghost use Rattle.std.specs.Prelude.{◌↔◌, IsTrue};
ghost use Rattle.pt_base_records.specs.Records.{Each};
ghost use Rattle.pt_desk_rules.specs.Sound.{HasPlaces, IsNumberedTo, IsOfRider};
ghost use Rattle.pt_tables_soundness.specs.Tables.{AreSoundTrips};

use pt_base_records::{Key, Table};
use pt_base_values::{Place, Rider, Trip};

/// Whether the trip's number is at most the last number given.
fn is_numbered_to(last: u32, trip: &Trip) -> bool
    ensures { IsTrue result ↔ IsNumberedTo last trip.now }
{
    trip.id.number() <= last
}

/// Whether the rider of the trip exists.
fn is_of_rider(riders: &Table<Rider>, trip: &Trip) -> bool
    ensures { IsTrue result ↔ IsOfRider riders.now.items trip.now }
{
    riders.find(&Key::of(trip.rider.number())).is_some()
}

/// Whether both places of the trip exist.
fn has_places(places: &Table<Place>, trip: &Trip) -> bool
    ensures { IsTrue result ↔ HasPlaces places.now.items trip.now }
{
    places.find(&Key::of(trip.wish.from.number())).is_some()
        && places.find(&Key::of(trip.wish.to.number())).is_some()
}

/// Whether the trips' numbers are at most the last number given.
fn are_numbered_to(last: u32, trips: &[Trip]) -> bool
    ensures { IsTrue result ↔ Each (IsNumberedTo last) trips.now }
{
    trips.iter().all(|trip| is_numbered_to(last, trip))
}

/// Whether the riders of the trips exist.
fn are_of_riders(riders: &Table<Rider>, trips: &[Trip]) -> bool
    ensures { IsTrue result ↔ Each (IsOfRider riders.now.items) trips.now }
{
    trips.iter().all(|trip| is_of_rider(riders, trip))
}

/// Whether the places of the trips exist.
fn have_places(places: &Table<Place>, trips: &[Trip]) -> bool
    ensures { IsTrue result ↔ Each (HasPlaces places.now.items) trips.now }
{
    trips.iter().all(|trip| has_places(places, trip))
}

/// Whether the trips are those of a sound state with these places and riders.
pub(crate) fn are_sound_trips(
    places: &Table<Place>,
    riders: &Table<Rider>,
    last: u32,
    trips: &Table<Trip>,
) -> bool
    ensures { IsTrue result ↔ AreSoundTrips places.now.items riders.now.items last trips.now.items }
{
    let trips = trips.as_slice();
    are_numbered_to(last, trips) && are_of_riders(riders, trips) && have_places(places, trips)
}
