ghost use Rattle.std.specs.Prelude.{◌≡◌, ℕ, ◌+◌, ◌&&◌, ◌||◌, not, ◌==◌, nat_le, option_copied};
ghost use Rattle.pt_rights_files.specs.Appeals.{disputed, disputes, is_appealable, is_appealed, may_appeal};
ghost use Rattle.pt_rights_files.specs.Appeals.{may_answer, some_pending, awaits_hearing, may_decide, is_overdue};
ghost use Rattle.pt_rights_files.specs.Kinds.{is_appeal, is_refusal, is_hearing, decides_appeal};
ghost use Rattle.pt_rights_files.specs.Marks.{earlier, has_come};
ghost use Rattle.pt_rights_files.specs.Limits.{days_to_decide};

use crate::walk::{followed_after, open_after};
use crate::{Entered, Entry, Position};
use pt_base_values::{CallerId, Day};

/// How many days after a decision an appeal against it may be entered.
const APPEAL_WITHIN: u32 = 60;

/// The disputed entry, if this one is an appeal against one of the entries.
fn disputed_entry<'a>(entries: &'a [Entered], entry: &Entry) -> Option<&'a Entered>
    ensures { option_copied result ≡ disputed entries.now entry.now }
{
    match entry {
        Entry::Appeal { against } => entries.get(against.number() as usize),
        _ => None,
    }
}

/// Whether the entry is an appeal against a refusal.
fn disputes_refusal(entries: &[Entered], entry: &Entry) -> bool
    ensures { result ≡ disputes (λ e. is_refusal e.entry) entries.now entry.now }
{
    match disputed_entry(entries, entry) {
        Some(refusal) => refusal.entry.is_refusal(),
        None => false,
    }
}

/// Whether the entry is an appeal that the decision fits, and the author did not make the disputed entry.
fn is_answered(entries: &[Entered], entry: &Entry, decision: &Entry, author: CallerId) -> bool
    ensures { result
        ≡ disputes (λ e. may_answer decision.now e.entry && not (e.author == author)) entries.now entry.now }
{
    match disputed_entry(entries, entry) {
        Some(before) => decision.may_answer(&before.entry) && before.author != author,
        None => false,
    }
}

/// Whether an appeal is pending.
fn is_pending(entries: &[Entered]) -> bool
    ensures { result ≡ some_pending is_appeal entries.now }
{
    let mut pending = false;
    for Entered { entry, .. } in entries {
        pending = open_after(pending, entry.decides_appeal(), entry.is_appeal());
    }
    pending
}

/// Whether an appeal is pending and was not heard.
pub(crate) fn awaits_hearing(entries: &[Entered]) -> bool
    ensures { result ≡ awaits_hearing entries.now }
{
    let mut awaited = false;
    for Entered { entry, .. } in entries {
        awaited = open_after(awaited, entry.answers_appeal(), entry.is_appeal());
    }
    awaited
}

/// Whether the entry is a refusal or a suspension, and an appeal on the day `today` comes in time.
fn is_appealable(entered: &Entered, today: Day) -> bool
    ensures { result ≡ is_appealable today entered.now }
{
    let kind = entered.entry.is_refusal() || entered.entry.is_suspension();
    kind && today.number() <= entered.day.number() + APPEAL_WITHIN
}

/// Whether some entry is an appeal against the entry at the position.
fn is_appealed(entries: &[Entered], against: usize) -> bool
    ensures { result ≡ is_appealed entries.now against }
{
    entries
        .iter()
        .any(|entered| entered.entry.appeals_against(against))
}

/// Whether the entry at the position may be appealed against on the day `today`.
pub(crate) fn may_appeal(entries: &[Entered], today: Day, against: Position) -> bool
    ensures { result ≡ may_appeal entries.now today against }
{
    let against = against.number() as usize;
    let Some(disputed) = entries.get(against) else {
        return false;
    };
    is_appealable(disputed, today) && !is_appealed(entries, against) && !is_pending(entries)
}

/// Whether the author may enter the decision of an appeal.
pub(crate) fn may_decide(entries: &[Entered], decision: &Entry, author: CallerId) -> bool
    ensures { result ≡ may_decide entries.now decision.now author }
{
    let mut pending = false;
    let mut heard = false;
    for Entered { entry, .. } in entries {
        let decided = entry.decides_appeal();
        heard = followed_after(heard, pending, decided, entry.is_hearing());
        pending = open_after(
            pending,
            decided,
            is_answered(entries, entry, decision, author),
        );
    }
    heard
}

/// The earliest day on which a pending appeal against a refusal was heard.
pub(crate) fn heard_since(entries: &[Entered]) -> Option<Day>
    ensures { (today : ℕ) → is_overdue entries.now today ≡ has_come days_to_decide result today }
{
    let mut pending = false;
    let mut heard = None;
    for Entered { entry, day, .. } in entries {
        heard = heard_after(heard, pending, entry, *day);
        let disputes = disputes_refusal(entries, entry);
        pending = open_after(pending, entry.decides_appeal(), disputes);
    }
    heard
}

/// The earliest day on which the pending appeal was heard, after an entry of this day that may decide or hear it.
fn heard_after(heard: Option<Day>, pending: bool, entry: &Entry, day: Day) -> Option<Day>
    ensures { (today : ℕ) → has_come days_to_decide result today ≡ (not (decides_appeal entry.now)
        && (has_come days_to_decide heard today
        || (pending && (is_hearing entry.now && nat_le (day + days_to_decide) today)))) }
{
    if entry.decides_appeal() {
        None
    } else if pending && entry.is_hearing() {
        earlier(heard, day)
    } else {
        heard
    }
}

/// The earlier of two days, or the second if there is no first.
pub(crate) fn earlier(before: Option<Day>, day: Day) -> Option<Day>
    ensures { result ≡ earlier before day }
{
    match before {
        Some(before) if before <= day => Some(before),
        _ => Some(day),
    }
}
