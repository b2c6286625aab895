ghost use Rattle.std.specs.Prelude.{◌≡◌, is_some};
ghost use Rattle.pt_rights_files.specs.Rules.{first_failing};
ghost use Rattle.pt_desk_rules.specs.Rules.{rules_of, is_nobody_else, is_nobody_of_another_kind, are_there};
ghost use Rattle.pt_desk_rules.specs.Rules.{has_room_for};
ghost use Rattle.pt_desk_rules.specs.State.{place_key};
ghost use Rattle.pt_base_records.specs.Records.{record_at};
ghost use Rattle.pt_desk_requests.specs.declared.request.Write.TheVariants.{Enter};

use crate::EntryFacts;
use crate::fleet::{other_vehicle_count, version_count_before};
use crate::limits::{MOST_VEHICLES, MOST_VERSIONS};
use crate::permission::may_enter;
use pt_base_records::{Key, Rows};
use pt_base_values::{CallerId, Moment, Place, PlaceId, Residence, Rider, RiderId, Rule, Vehicle};
use pt_desk_requests::Caller;
use pt_rights_files::Entry;
use pt_travel::Row;

/// Whether both places of each row exist.
pub(crate) fn are_there(rows: &[Row], places: &Rows<Place>) -> bool
    ensures value { result ≡ are_there rows.now places.now }
{
    for (from, to, _) in rows {
        if !is_there(*from, places) || !is_there(*to, places) {
            return false;
        }
    }
    true
}

/// Whether the place of this number exists.
pub(crate) fn is_there(id: PlaceId, places: &Rows<Place>) -> bool
    ensures value { result ≡ is_some (record_at place_key id places.now) }
{
    places.find(&Key::of(id.number())).is_some()
}

/// Whether the other vehicles, and the earlier versions of this one, leave room for a new version.
pub(crate) fn has_room_for(new: &Vehicle, vehicles: &[Vehicle]) -> bool
    ensures value { result ≡ has_room_for new.now vehicles.now }
{
    version_count_before(vehicles, new.id, new.from_day) < MOST_VERSIONS
        && other_vehicle_count(vehicles, new.id) < MOST_VEHICLES
}

/// Whether there is no such caller, or it is the caller of this number.
pub(crate) fn is_nobody_else(id: CallerId, found: Option<Caller>) -> bool
    ensures value { result ≡ is_nobody_else id found }
{
    match found {
        Some(there) => there.id == id,
        None => true,
    }
}

/// Whether there is no such rider, or the rider is of this kind.
pub(crate) fn is_nobody_of_another_kind(kind: Residence, found: Option<Rider>) -> bool
    ensures value { result ≡ is_nobody_of_another_kind kind found }
{
    match found {
        Some(there) => there.kind == kind,
        None => true,
    }
}

/// The first rule that denies an entry at the moment `now`.
pub(crate) fn entry_denial(
    facts: &EntryFacts,
    me: &Caller,
    now: Moment,
    rider: RiderId,
    entry: &Entry,
) -> Option<Rule>
    ensures value { result ≡ first_failing (rules_of (Enter rider entry.now) me.now now facts.now) }
{
    if !may_enter(me.role, rider, &facts.rider, entry) {
        return Some(Rule::Caller);
    }
    let Some(there) = &facts.rider else {
        return Some(Rule::Unknown);
    };
    if facts.file.is_full() {
        return Some(Rule::Full);
    }
    facts.file.admits(
        there,
        entry,
        now.0,
        me.id,
        facts.tallies.as_slice(),
        &facts.policy,
    )
}
