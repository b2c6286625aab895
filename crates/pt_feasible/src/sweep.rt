ghost use Rattle.std.specs.Prelude.{◌≡◌, ◌≢◌, ℕ, ◌+◌, ◌<◌, ◌≤◌, List, length, sum, slice_index, slice_index_or};
ghost use Rattle.std.specs.Prelude.{IfSome, IfNone};
ghost use Rattle.pt_feasible.specs.Limits.{KeepsAll, LookBack, AreInWindows};
ghost use Rattle.pt_feasible.specs.Sweep.{Raises, IsWalkedTo};
ghost use Rattle.pt_feasible.specs.ServiceTimes.{IsNeverLater};

use crate::limits::Limits;
use crate::timeline::Timeline;
use crate::{Passes, Schedule};
use std::sync::ledger::Ledger;

/// What a pass did to the bounds.
#[derive(Clone, Copy, PartialEq, Eq)]
pub(crate) enum Pass {
    /// No bound was raised.
    Stayed,
    /// A bound was raised.
    Raised,
    /// A bound would pass the end of its window.
    Broken,
}

/// The least times, from the timeline's bounds on, that keep all its limits; `None` if there are none.
pub(crate) fn least_times<L: Ledger>(timeline: Timeline, passes: &mut Passes<L>) -> Option<Schedule>
    requires same_length { length timeline.earliest.items ≡ length timeline.limits.items }
    requires look_back { LookBack timeline.limits.items }
    requires in_windows { AreInWindows timeline.limits.items timeline.earliest.items }
    ensures count { IfSome result (λ times. length times.items ≡ length timeline.earliest.items) }
    ensures rises { IfSome result (λ times. IsNeverLater timeline.earliest.items times.items) }
    ensures kept { IfSome result (λ times. KeepsAll timeline.limits.items times.items) }
    ensures least { IfSome result (λ times. (b : List ℕ) → IsNeverLater timeline.earliest.items b
        → KeepsAll timeline.limits.items b → IsNeverLater times.items b) }
    ensures none { IfNone result ((b : List ℕ) → length b ≡ length timeline.earliest.items
        → IsNeverLater timeline.earliest.items b → ¬ KeepsAll timeline.limits.items b) }
    ensures counted { IfSome result (λ _. passes.old < passes.new) }
    ensures passes { passes.new ≤ passes.old + length timeline.limits.items + 1 }
{
    let Timeline {
        earliest: mut bounds,
        limits,
    } = timeline;
    for _ in 0..limits.len() + 1 {
        match sweep(bounds.as_mut_slice(), limits.as_slice(), passes) {
            Pass::Stayed => return Some(bounds),
            Pass::Raised => {}
            Pass::Broken => return None,
        }
    }
    None
}

/// One pass: a walk over all visits, which raises each bound as far as a limit requires.
fn sweep<L: Ledger>(bounds: &mut [u16], limits: &[Limits], passes: &mut Passes<L>) -> Pass
    requires same_length { length bounds.old ≡ length limits.now }
    requires look_back { LookBack limits.now }
    ensures raises { Raises limits.now bounds.old bounds.new result }
    ensures walked { result ≢ Pass.Broken → IsWalkedTo limits.now bounds.old bounds.new (length limits.now) }
    ensures counted { passes.new ≡ passes.old + 1 }
{
    passes.count();
    let mut done = Pass::Stayed;
    for k in 0..limits.len() {
        match raise_from(bounds, limits, k) {
            Pass::Stayed => {}
            Pass::Raised => done = Pass::Raised,
            Pass::Broken => return Pass::Broken,
        }
    }
    done
}

/// Raises the bounds as the time of one visit requires.
fn raise_from(bounds: &mut [u16], limits: &[Limits], k: usize) -> Pass
    requires same_length { length bounds.old ≡ length limits.now }
    requires look_back { LookBack limits.now }
    requires among { k < length limits.now }
    ensures raises { Raises limits.now bounds.old bounds.new result }
    ensures ended { result ≢ Pass.Broken → (d : Limits) →
        slice_index bounds.old k ≤ slice_index bounds.new (slice_index_or limits.now k d).since.visit
        + (slice_index_or limits.now k d).since.most }
    ensures driven { result ≢ Pass.Broken → (d : Limits) → k + 1 < length limits.now →
        slice_index bounds.old k + (slice_index_or limits.now k d).step ≤ slice_index bounds.new (k + 1) }
{
    let Limits { step, since, .. } = limits[k];
    let needed = u64::from(bounds[k]).saturating_sub(u64::from(since.most));
    let back = raise(bounds, limits, since.visit, needed);
    if back == Pass::Broken || k + 1 == limits.len() {
        return back;
    }
    let needed = u64::from(bounds[k]) + u64::from(step);
    match raise(bounds, limits, k + 1, needed) {
        Pass::Stayed => back,
        on => on,
    }
}

/// Raises a bound to the minute that is needed, if that is within its window.
fn raise(bounds: &mut [u16], limits: &[Limits], k: usize, needed: u64) -> Pass
    requires same_length { length bounds.old ≡ length limits.now }
    requires among { k < length limits.now }
    requires needed { (b : List ℕ) → IsNeverLater bounds.old b → KeepsAll limits.now b → needed ≤ slice_index b k }
    ensures raises { Raises limits.now bounds.old bounds.new result }
    ensures reached { result ≢ Pass.Broken → needed ≤ slice_index bounds.new k }
{
    if needed <= u64::from(bounds[k]) {
        return Pass::Stayed;
    }
    if needed > u64::from(limits[k].latest) {
        return Pass::Broken;
    }
    bounds[k] = needed as u16;
    Pass::Raised
}
