ghost use Rattle.std.specs.Prelude.{◌≡◌, ◌↔◌, IsTrue, is_some};
ghost use Rattle.pt_desk_rules.specs.Rules.{are_there};
ghost use Rattle.pt_desk_rules.specs.Sound.{IsOfPlaces};
ghost use Rattle.pt_desk_rules.specs.State.{place_key};
ghost use Rattle.pt_base_records.specs.Records.{Each, record_at};

use pt_base_records::{Key, Table};
use pt_base_values::{Place, PlaceId};
use pt_desk_rules::TravelTable;
use pt_travel::Row;

/// Whether the place of this number exists.
fn is_there(places: &Table<Place>, id: PlaceId) -> bool
    ensures { result ≡ is_some (record_at place_key id places.now.items) }
{
    places.find(&Key::of(id.number())).is_some()
}

/// Whether both places of each row exist.
fn are_there(places: &Table<Place>, rows: &[Row]) -> bool
    ensures { result ≡ are_there rows.now places.now.items }
{
    for (from, to, _) in rows {
        if !is_there(places, *from) || !is_there(places, *to) {
            return false;
        }
    }
    true
}

/// Whether the places in the rows of a table exist.
fn is_of_places(places: &Table<Place>, table: &TravelTable) -> bool
    ensures { IsTrue result ↔ IsOfPlaces places.now.items table.now }
{
    are_there(places, table.rows())
}

/// Whether the places in the rows of the tables exist.
pub(crate) fn are_of_places(places: &Table<Place>, tables: &[TravelTable]) -> bool
    ensures { IsTrue result ↔ Each (IsOfPlaces places.now.items) tables.now }
{
    for table in tables {
        if !is_of_places(places, table) {
            return false;
        }
    }
    true
}
