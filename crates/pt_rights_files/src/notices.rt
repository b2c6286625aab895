ghost use Rattle.std.specs.Prelude.{◌≡◌};
ghost use Rattle.pt_rights_files.specs.Notices.{is_missed, is_recent, recent, missed, is_pattern};
ghost use Rattle.pt_rights_files.specs.Notices.{awaits_notice_hearing, may_suspend, is_term};

use crate::walk::{followed_after, open_after};
use crate::{Entered, Outcome, Tally};
use pt_base_values::{Day, Policy};

/// The most days from the first day of a suspension to its last.
const MOST_FURTHER_DAYS: u32 = 29;

impl Outcome {
    /// Whether the rider missed the trip.
    fn is_missed(self) -> bool
        ensures { result ≡ is_missed self }
    {
        matches!(self, Outcome::MissedRider)
    }
}

impl Tally {
    /// Whether the trip's day is one of the policy's days before today.
    fn is_recent(&self, policy: &Policy, today: Day) -> bool
        ensures { result ≡ is_recent policy.now.span_days today self.now.day }
    {
        today.number() <= self.day.number() + u32::from(policy.span_days) && self.day < today
    }
}

/// How many of the trips were on the policy's days before today.
fn count_recent(tallies: &[Tally], policy: &Policy, today: Day) -> usize
    ensures { result ≡ recent tallies.now policy.now today }
{
    tallies
        .iter()
        .filter(|tally| tally.is_recent(policy, today))
        .count()
}

/// How many of the trips on those days the rider missed.
fn count_missed(tallies: &[Tally], policy: &Policy, today: Day) -> usize
    ensures { result ≡ missed tallies.now policy.now today }
{
    tallies
        .iter()
        .filter(|tally| tally.is_recent(policy, today) && tally.outcome.is_missed())
        .count()
}

/// Whether the rider's missed trips make a pattern by the policy.
pub(crate) fn is_pattern(tallies: &[Tally], policy: &Policy, today: Day) -> bool
    ensures { result ≡ is_pattern tallies.now policy.now today }
{
    let recent = count_recent(tallies, policy, today) as u128;
    let missed = count_missed(tallies, policy, today) as u128;
    u128::from(policy.min_missed) <= missed && u128::from(policy.percent) * recent <= 100 * missed
}

/// Whether a notice waits for its hearing.
pub(crate) fn awaits_notice_hearing(entries: &[Entered]) -> bool
    ensures { result ≡ awaits_notice_hearing entries.now }
{
    let mut awaited = false;
    for Entered { entry, .. } in entries {
        awaited = open_after(awaited, entry.answers_notice(), entry.is_notice());
    }
    awaited
}

/// Whether the rider was heard on a notice that no suspension has followed.
pub(crate) fn may_suspend(entries: &[Entered]) -> bool
    ensures { result ≡ may_suspend entries.now }
{
    let mut noticed = false;
    let mut heard = false;
    for Entered { entry, .. } in entries {
        let closes = entry.ends_notice();
        heard = followed_after(heard, noticed, closes, entry.is_notice_hearing());
        noticed = open_after(noticed, closes, entry.is_notice());
    }
    heard
}

/// Whether a suspension that is entered today may last from `starts` to `ends`.
pub(crate) fn is_term(today: Day, starts: Day, ends: Day) -> bool
    ensures { result ≡ is_term today starts ends }
{
    today < starts && starts <= ends && ends.number() <= starts.number() + MOST_FURTHER_DAYS
}
