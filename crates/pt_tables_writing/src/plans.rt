ghost use Rattle.std.specs.Prelude.{◌≡◌, ◌↔◌, IfSome, IsTrue, Some};
ghost use Rattle.pt_base_records.specs.Records.{record_at, Each};
ghost use Rattle.pt_desk_scheduling.specs.Plan.{plan_key};
ghost use Rattle.pt_tables_rows.specs.Rows.{stop_rows};
ghost use Rattle.pt_tables_rows.specs.Schema.{stops_table};
ghost use Rattle.pt_tables_rows.specs.Tables.{IsStoredPlan};
ghost use Rattle.pt_tables_writing.specs.Groups.{KnowsEdited, OfEach};
ghost use Rattle.pt_tables_writing.specs.Step.{Writes};
ghost use Rattle.pt_tables_writing.specs.Stored.{EditsTable, IsKey, OnlyPuts};

use crate::grouped::replace_plan;
use crate::stored::write_edits;
use pt_base_records::{Edits, Key, Keyed, Span, Table};
use pt_desk_scheduling::Plan;
use pt_tables_rows::tables::Plans;
use sqlite::{Alter, Error, Transaction};
use std::cmp::Ordering;

/// Whether the span is this key alone.
fn is_key(span: &Span, key: &Key) -> bool
    ensures { IsTrue result ↔ IsKey key.now span.now }
{
    span.from.compare(key) == Ordering::Equal && span.to.compare(key) == Ordering::Equal
}

/// Whether each of the spans is this key alone.
fn are_key(spans: &[Span], key: &Key) -> bool
    ensures { IsTrue result ↔ Each (IsKey key.now) spans.now }
{
    spans.iter().all(|span| is_key(span, key))
}

/// The stored plan and the one that replaces it, if the edit does nothing else.
fn replacement<'a>(edits: &'a Edits<Plan>, records: &'a Table<Plan>) -> Option<(&'a Plan, &'a Plan)>
    ensures alone { IfSome result (λ r. OnlyPuts plan_key r.1.now edits.now) }
    ensures there { IfSome result (λ r. record_at plan_key (plan_key r.1.now) records.now.items ≡ Some r.0.now) }
{
    let [plan] = edits.puts() else {
        return None;
    };
    let key = plan.key();
    if !are_key(edits.spans(), &key) {
        return None;
    }
    let before = records.find(&key)?;
    Some((before, plan))
}

/// Makes the edit in the table of plans. `records` must have the stored plans that it removes.
///
/// A booking or a cancellation only replaces a plan that `records` has. Then the rows of the first stops stay, as far as
/// both plans have the same.
pub(crate) fn write_plans<S: Alter>(
    tx: &mut Transaction<'_, S>,
    edits: &Edits<Plan>,
    records: &Table<Plan>,
) -> Result<(), Error>
    ensures step { Writes S.Store tx.old tx.new
        (OfEach (KnowsEdited plan_key edits.now records.now.items)
        (EditsTable stops_table plan_key IsStoredPlan stop_rows edits.now)) result }
{
    match replacement(edits, records) {
        Some((before, plan)) => replace_plan(tx, before, plan),
        None => write_edits::<S, Plans>(tx, edits, records),
    }
}
