//! Whether a keeper over tables can write a change.
ghost use Rattle.std.specs.Prelude.{◌≡◌, ◌≢◌, ◌↔◌, ◌∷◌, [], IsTrue, MatchOption, length};
ghost use Rattle.pt_desk_rules.specs.State.{versions_from};
ghost use Rattle.pt_base_records.specs.Records.{Each};
ghost use Rattle.pt_tables_asking.specs.Plans.{HasVersionAmong};
ghost use Rattle.pt_tables_keeper.specs.Plans.{IsFleetEdit, IsOneKey};
ghost use Rattle.pt_tables_keeper.specs.Writable.{IsWritable};

use pt_base_records::{Edits, Key, Span};
use pt_base_values::Vehicle;
use pt_desk_rules::{Change, has_version};
use pt_desk_scheduling::Plan;
use pt_tables_writing::is_well_formed;
use std::cmp::Ordering;

/// The riders that one change puts, at most.
const MOST_RIDERS_PUT: usize = 1;

/// Whether two keys are the same.
fn is_same(one: &Key, other: &Key) -> bool
    ensures value { IsTrue result ↔ (one.now ≡ other.now) }
{
    one.compare(other) == Ordering::Equal
}

/// Whether the span is a single key.
fn is_one_key(span: &Span) -> bool
    ensures value { IsTrue result ↔ IsOneKey span.now }
{
    is_same(&span.from, &span.to)
}

/// Whether each of the spans is a single key.
fn are_one_key(spans: &[Span]) -> bool
    ensures value { IsTrue result ↔ Each IsOneKey spans.now }
{
    spans.iter().all(is_one_key)
}

/// Whether the span is that of the versions that this one replaces: its vehicle's, from its day on.
fn is_followed_by(span: &Span, version: &Vehicle) -> bool
    ensures value { IsTrue result ↔ (span.now ≡ versions_from version.now.id version.now.from_day) }
{
    let (id, day) = (version.id.number(), version.from_day.number());
    is_same(&span.from, &Key::pair(id, day)) && is_same(&span.to, &Key::pair(id, u32::MAX))
}

/// The only item; none if there is not exactly one.
fn only<T>(items: &[T]) -> Option<&T>
    ensures value { MatchOption result (length items.now ≢ 1) (λ item. items.now ≡ item.now ∷ []) }
{
    if items.len() != 1 {
        return None;
    }
    items.first()
}

/// Whether vehicles stay as they are, or one version replaces those of its vehicle from its day on.
fn is_fleet_edit(edits: &Edits<Vehicle>) -> bool
    ensures value { IsTrue result ↔ IsFleetEdit edits.now }
{
    let (spans, puts) = (edits.spans(), edits.puts());
    if let (Some(span), Some(version)) = (only(spans), only(puts)) {
        return is_followed_by(span, version);
    }
    spans.is_empty() && puts.is_empty()
}

/// Whether the vehicle of each plan is among these.
fn have_vehicles(plans: &[Plan], vehicles: &[Vehicle]) -> bool
    ensures value { IsTrue result ↔ Each (HasVersionAmong vehicles.now) plans.now }
{
    plans.iter().all(|plan| has_version(vehicles, plan.vehicle))
}

/// Whether the change can be written, and then read back from its rows. A change that the rules make passes.
pub(crate) fn is_writable(change: &Change, vehicles: &[Vehicle]) -> bool
    ensures writable { IsTrue result ↔ IsWritable vehicles.now change.now }
{
    is_well_formed(change)
        && change.kept.spans().is_empty()
        && change.riders.spans().is_empty()
        && change.entries.spans().is_empty()
        && change.trips.spans().is_empty()
        && change.riders.put_count() <= MOST_RIDERS_PUT
        && is_fleet_edit(&change.vehicles)
        && are_one_key(change.planned.spans())
        && have_vehicles(change.planned.puts(), vehicles)
}
