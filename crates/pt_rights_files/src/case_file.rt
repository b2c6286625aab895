ghost use Rattle.std.specs.Prelude.{◌≡◌, ◌<◌, ◌≤◌, ◌↔◌, [], ◌∷◌, ◌++◌, length, IsTrue, IfErr, OnOk, OnErr};
ghost use Rattle.pt_base_values.specs.Fault.{fault_at};
ghost use Rattle.pt_base_values.specs.declared.fault.Cause.TheVariants as cause;
ghost use Rattle.pt_rights_files.specs.Admission.{admission_rules};
ghost use Rattle.pt_rights_files.specs.ByPosition.{IsWaiting, IsPresumed, IsOverdue, IsGrantedFor, IsSuspended};
ghost use Rattle.pt_rights_files.specs.Kinds.{grant_of};
ghost use Rattle.pt_rights_files.specs.Marks.{has_come, waiting_with};
ghost use Rattle.pt_rights_files.specs.Rules.{first_failing};
ghost use Rattle.pt_rights_files.specs.Standing.{is_waiting, standing_of};
ghost use Rattle.pt_rights_files.specs.Suspension.{is_suspended};
ghost use Rattle.pt_rights_files.specs.declared.entry.Grant.{Grant};
ghost use Rattle.pt_rights_files.specs.Limits.{most_entries};

use crate::{Entered, Entry, Grant, Tally, appeals, notices, suspensions};
use pt_base_values::{CallerId, Cause, Day, Fault, Policy, Residence, Rider, Rule};
use std::alloc::{AllocError, Global};
use std::marker::Model;

/// The most entries of a case file.
pub const MOST_ENTRIES: usize = 200;

/// Days from a complete application to its presumed grant, if nobody answers it.
const PRESUMED_AFTER: u16 = 21;

/// Days from the hearing of an appeal until it is overdue, if nobody decides it.
const OVERDUE_AFTER: u16 = 30;

/// What a rider's case file entitles the rider to.
#[derive(Drop)]
pub enum Standing {
    /// An application went unanswered for 21 days.
    Presumed,
    /// An appeal against a refusal went undecided for 30 days from its hearing.
    AppealOverdue,
    /// The last grant has not expired.
    Granted(Grant),
    /// None of these.
    None,
}

/// A resident's case file: its entries in the order in which they were entered.
#[derive(Drop)]
pub struct CaseFile {
    entries: Vec<Entered>,
    /// The earliest day of an unanswered application.
    waiting: Option<Day>,
    /// The last grant.
    granted: Option<Grant>,
    /// The earliest day on which a pending appeal against a refusal was heard.
    heard: Option<Day>,
}

impl Model for CaseFile {
    ghost use Rattle.std.specs.Prelude.{List};
    ghost use Rattle.pt_rights_files.specs.declared.entry.Entered.{Entered};

    ghost Value = { List Entered };

    ghost use Rattle.pt_rights_files.specs.Marks.{AreMarks};

    ghost view = { λ file. file.entries.items };

    ghost invariant = { λ file. AreMarks file.entries.items file.waiting file.granted file.heard };
}

impl CaseFile {
    /// A file with no entry, which takes no memory until the first one is pushed.
    pub fn new(alloc: Global) -> Self
        ensures { result ≡ [] }
    {
        CaseFile {
            entries: Vec::new(alloc),
            waiting: None,
            granted: None,
            heard: None,
        }
    }

    /// The entries, in the order in which they were entered.
    pub fn entries(&self) -> &[Entered]
        ensures value { result.now ≡ self.now }
        ensures within { length result.now ≤ most_entries }
    {
        &self.entries
    }

    /// The number of entries.
    pub fn len(&self) -> usize
        ensures value { result ≡ length self.now }
        ensures within { result ≤ most_entries }
    {
        self.entries.len()
    }

    /// Whether there is no entry.
    pub fn is_empty(&self) -> bool
        ensures { IsTrue result ↔ (self.now ≡ []) }
    {
        self.entries.is_empty()
    }

    /// Whether there is no room for one more entry.
    pub fn is_full(&self) -> bool
        ensures value { IsTrue result ↔ (length self.now ≡ most_entries) }
        ensures within { length self.now ≤ most_entries }
    {
        self.len() == MOST_ENTRIES
    }

    /// Whether an application waits for its decision.
    pub fn is_waiting(&self) -> bool
        ensures value { result ≡ is_waiting self.now }
        ensures by_position { IsTrue result ↔ IsWaiting self.now }
    {
        self.waiting.is_some()
    }

    /// The rule by which the rider's file refuses the entry on the day `today`; `None` if it is admitted.
    ///
    /// The tallies are those of the rider's trips; for a notice, those of the policy's days before `today` count.
    pub fn admits(
        &self,
        rider: &Rider,
        entry: &Entry,
        today: Day,
        author: CallerId,
        tallies: &[Tally],
        policy: &Policy,
    ) -> Option<Rule>
        ensures { result ≡ first_failing
            (admission_rules self.now rider.now entry.now today author tallies.now policy.now) }
    {
        if rider.kind == Residence::Visitor {
            return Some(Rule::Residents);
        }
        let entries = self.entries();
        let (rule, holds) = match entry {
            Entry::Complete => (Rule::Application, !self.is_waiting()),
            Entry::Grant(_) | Entry::Refuse(_) => (Rule::Application, self.is_waiting()),
            Entry::Appeal { against } => {
                (Rule::Appeal, appeals::may_appeal(entries, today, *against))
            }
            Entry::Heard => (Rule::Appeal, appeals::awaits_hearing(entries)),
            Entry::AppealGranted(_) | Entry::AppealDenied(_) | Entry::Overturn => {
                (Rule::Appeal, appeals::may_decide(entries, entry, author))
            }
            Entry::Notice(_) => (
                Rule::Suspension,
                notices::is_pattern(tallies, policy, today),
            ),
            Entry::NoticeHeard => (Rule::Suspension, notices::awaits_notice_hearing(entries)),
            Entry::Suspend { starts, ends, .. } => (
                Rule::Suspension,
                notices::may_suspend(entries) && notices::is_term(today, *starts, *ends),
            ),
        };
        if !holds {
            return Some(rule);
        }
        match entry {
            Entry::Grant(grant) | Entry::AppealGranted(grant) if grant.until < today => {
                Some(Rule::LastDay)
            }
            _ => None,
        }
    }

    /// Adds an entry of this day and author at the end, admitted or not.
    ///
    /// The error is out of memory, and returns the entry.
    pub fn push(&mut self, entry: Entry, today: Day, author: CallerId) -> Result<(), (Entry, Fault)>
        requires { length self.old < most_entries }
        ensures ok { OnOk result (self.new
            ≡ self.old ++ record { entry = entry; day = today; author = author } ∷ []) }
        ensures unchanged { OnErr result (self.new ≡ self.old) }
        ensures returned { IfErr result (λ refused. refused.0 ≡ entry) }
        ensures fault { IfErr result (λ refused. refused.1 ≡ fault_at cause.Memory 0) }
    {
        let waiting = waiting_after(self.waiting, &entry, today);
        let granted = entry.grant();
        let entered = Entered {
            entry,
            day: today,
            author,
        };
        match self.entries.push(entered) {
            Ok(()) => {
                self.waiting = waiting;
                if granted.is_some() {
                    self.granted = granted;
                }
                self.heard = appeals::heard_since(&self.entries);
                Ok(())
            }
            Err(refused) => Err((refused.value.entry, Fault::of(Cause::Memory))),
        }
    }

    /// The rider's standing for a trip on the day `day`, as seen on the day `today`.
    pub fn standing(&self, today: Day, day: Day) -> Standing
        ensures value { result ≡ standing_of self.now today day }
        ensures presumed { (result ≡ Standing.Presumed) ↔ IsPresumed self.now today }
        ensures overdue { (result ≡ Standing.AppealOverdue)
            ↔ ((¬ IsPresumed self.now today) × IsOverdue self.now today) }
        ensures granted { (grant : Grant) → (result ≡ Standing.Granted grant)
            ↔ ((¬ IsPresumed self.now today) × (¬ IsOverdue self.now today) × IsGrantedFor self.now day grant) }
    {
        self.first_standing(today, day)
    }

    /// The first of presumed, overdue, granted and none that holds.
    fn first_standing(&self, today: Day, day: Day) -> Standing
        ensures { result ≡ standing_of self.now today day }
    {
        if has_come(self.waiting, PRESUMED_AFTER, today) {
            return Standing::Presumed;
        }
        if has_come(self.heard, OVERDUE_AFTER, today) {
            return Standing::AppealOverdue;
        }
        match &self.granted {
            Some(grant) if day <= grant.until => Standing::Granted(grant.copy()),
            _ => Standing::None,
        }
    }

    /// Whether the rider is suspended on the day.
    pub fn suspended(&self, day: Day) -> bool
        ensures value { result ≡ is_suspended self.now day }
        ensures by_position { IsTrue result ↔ IsSuspended self.now day }
    {
        suspensions::is_suspended(&self.entries, day)
    }
}

impl Clone for CaseFile {
    ghost is_clone = { λ file copy. copy ≡ file };

    fn clone(&self) -> Result<Self, AllocError> {
        let granted = match &self.granted {
            Some(grant) => Some(grant.copy()),
            None => None,
        };
        Ok(CaseFile {
            entries: self.entries.clone()?,
            waiting: self.waiting,
            granted,
            heard: self.heard,
        })
    }
}

/// Whether the day `today` is this many days after `since`, or later; false if there is no `since`.
fn has_come(since: Option<Day>, days: u16, today: Day) -> bool
    ensures { result ≡ has_come days since today }
{
    match since {
        Some(since) => since.number() + u32::from(days) <= today.number(),
        None => false,
    }
}

/// The earliest day of an unanswered application, with one more entry of this day.
fn waiting_after(waiting: Option<Day>, entry: &Entry, day: Day) -> Option<Day>
    ensures { result ≡ waiting_with waiting entry.now day }
{
    match entry {
        Entry::Complete => appeals::earlier(waiting, day),
        Entry::Grant(_) | Entry::Refuse(_) => None,
        _ => waiting,
    }
}
