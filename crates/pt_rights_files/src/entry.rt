ghost use Rattle.std.specs.Prelude.{⊤, ◌≡◌, ◌||◌};
ghost use Rattle.pt_rights_files.specs.Appeals.{appeals_against, may_answer};
ghost use Rattle.pt_rights_files.specs.Kinds.{grant_of, is_refusal, is_appeal, is_hearing, is_overturn};
ghost use Rattle.pt_rights_files.specs.Kinds.{decides_appeal, is_notice, is_notice_hearing, is_suspension, suspends};

use crate::{Conditions, Position, Reasons};
use pt_base_values::{CallerId, Day};
use std::alloc::AllocError;

/// What a grant of eligibility allows.
#[derive(Drop)]
pub struct Grant {
    /// The last day of eligibility.
    pub until: Day,
    pub conditions: Conditions,
}

impl Grant {
    /// A copy, which takes no memory.
    pub fn copy(&self) -> Self
        ensures { result ≡ self.now }
    {
        Grant {
            until: self.until,
            conditions: self.conditions.copy(),
        }
    }
}

impl Clone for Grant {
    ghost is_clone = { λ grant copy. copy ≡ grant };

    ghost is_infallible = { λ _. ⊤ };

    fn clone(&self) -> Result<Self, AllocError> {
        Ok(self.copy())
    }
}

/// What an entry of a case file says.
#[derive(Drop)]
pub enum Entry {
    /// The application is complete.
    Complete,
    /// The application is granted.
    Grant(Grant),
    /// The application is refused.
    Refuse(Reasons),
    /// An appeal against a refusal or a suspension.
    Appeal {
        /// The position in the case file of the entry that it is against, counted from 0.
        against: Position,
    },
    /// The appeal was heard.
    Heard,
    /// The appeal against a refusal is granted.
    AppealGranted(Grant),
    /// The appeal is denied.
    AppealDenied(Reasons),
    /// The appeal against a suspension is granted.
    Overturn,
    /// A suspension is proposed, on this basis.
    Notice(Reasons),
    /// The rider was heard on the notice.
    NoticeHeard,
    /// The rider is suspended.
    Suspend {
        /// The first day of the suspension.
        starts: Day,
        /// The last day of the suspension.
        ends: Day,
        reasons: Reasons,
    },
}

impl Entry {
    /// A copy of what the entry grants, if it grants.
    pub(crate) fn grant(&self) -> Option<Grant>
        ensures { result ≡ grant_of self.now }
    {
        match self {
            Entry::Grant(grant) | Entry::AppealGranted(grant) => Some(grant.copy()),
            _ => None,
        }
    }

    /// Whether it refuses an application.
    pub(crate) fn is_refusal(&self) -> bool
        ensures { result ≡ is_refusal self.now }
    {
        matches!(self, Entry::Refuse(_))
    }

    /// Whether it is an appeal.
    pub(crate) fn is_appeal(&self) -> bool
        ensures { result ≡ is_appeal self.now }
    {
        matches!(self, Entry::Appeal { .. })
    }

    /// Whether it is an appeal against the entry at the position.
    pub(crate) fn appeals_against(&self, position: usize) -> bool
        ensures { result ≡ appeals_against position self.now }
    {
        match self {
            Entry::Appeal { against } => against.number() as usize == position,
            _ => false,
        }
    }

    /// Whether an appeal was heard.
    pub(crate) fn is_hearing(&self) -> bool
        ensures { result ≡ is_hearing self.now }
    {
        matches!(self, Entry::Heard)
    }

    /// Whether it overturns what is appealed against.
    pub(crate) fn is_overturn(&self) -> bool
        ensures { result ≡ is_overturn self.now }
    {
        matches!(self, Entry::Overturn)
    }

    /// Whether it decides an appeal.
    pub(crate) fn decides_appeal(&self) -> bool
        ensures { result ≡ decides_appeal self.now }
    {
        matches!(
            self,
            Entry::AppealGranted(_) | Entry::AppealDenied(_) | Entry::Overturn
        )
    }

    /// Whether an appeal was heard, or is decided.
    pub(crate) fn answers_appeal(&self) -> bool
        ensures { result ≡ (decides_appeal self.now || is_hearing self.now) }
    {
        self.decides_appeal() || self.is_hearing()
    }

    /// Whether it is a decision of an appeal that fits an appeal against that entry.
    pub(crate) fn may_answer(&self, disputed: &Entry) -> bool
        ensures { result ≡ may_answer self.now disputed.now }
    {
        match self {
            Entry::AppealGranted(_) => disputed.is_refusal(),
            Entry::AppealDenied(_) => disputed.is_refusal() || disputed.is_suspension(),
            Entry::Overturn => disputed.is_suspension(),
            _ => false,
        }
    }

    /// Whether it gives notice of a suspension.
    pub(crate) fn is_notice(&self) -> bool
        ensures { result ≡ is_notice self.now }
    {
        matches!(self, Entry::Notice(_))
    }

    /// Whether the rider was heard on a notice.
    pub(crate) fn is_notice_hearing(&self) -> bool
        ensures { result ≡ is_notice_hearing self.now }
    {
        matches!(self, Entry::NoticeHeard)
    }

    /// Whether it uses up an earlier notice: it suspends the rider or gives a new notice.
    pub(crate) fn ends_notice(&self) -> bool
        ensures { result ≡ (is_suspension self.now || is_notice self.now) }
    {
        self.is_suspension() || self.is_notice()
    }

    /// Whether an earlier notice needs no hearing after it: it says that the rider was heard, or uses the notice up.
    pub(crate) fn answers_notice(&self) -> bool
        ensures { result ≡ (is_notice_hearing self.now || (is_suspension self.now || is_notice self.now)) }
    {
        self.is_notice_hearing() || self.ends_notice()
    }

    /// Whether it suspends the rider.
    pub(crate) fn is_suspension(&self) -> bool
        ensures { result ≡ is_suspension self.now }
    {
        matches!(self, Entry::Suspend { .. })
    }

    /// Whether it suspends the rider on the day.
    pub(crate) fn suspends(&self, day: Day) -> bool
        ensures { result ≡ suspends day self.now }
    {
        match self {
            Entry::Suspend { starts, ends, .. } => *starts <= day && day <= *ends,
            _ => false,
        }
    }
}

impl Clone for Entry {
    ghost is_clone = { λ entry copy. copy ≡ entry };

    fn clone(&self) -> Result<Self, AllocError> {
        match self {
            Entry::Complete => Ok(Entry::Complete),
            Entry::Grant(grant) => Ok(Entry::Grant(grant.copy())),
            Entry::Refuse(reasons) => Ok(Entry::Refuse(reasons.clone()?)),
            Entry::Appeal { against } => Ok(Entry::Appeal { against: *against }),
            Entry::Heard => Ok(Entry::Heard),
            Entry::AppealGranted(grant) => Ok(Entry::AppealGranted(grant.copy())),
            Entry::AppealDenied(reasons) => Ok(Entry::AppealDenied(reasons.clone()?)),
            Entry::Overturn => Ok(Entry::Overturn),
            Entry::Notice(basis) => Ok(Entry::Notice(basis.clone()?)),
            Entry::NoticeHeard => Ok(Entry::NoticeHeard),
            Entry::Suspend {
                starts,
                ends,
                reasons,
            } => Ok(Entry::Suspend {
                starts: *starts,
                ends: *ends,
                reasons: reasons.clone()?,
            }),
        }
    }
}

/// An entry of a case file, with its day and author.
#[derive(Drop)]
pub struct Entered {
    pub entry: Entry,
    /// The day on which it was entered.
    pub day: Day,
    /// Who entered it.
    pub author: CallerId,
}

impl Clone for Entered {
    ghost is_clone = { λ entered copy. copy ≡ entered };

    fn clone(&self) -> Result<Self, AllocError> {
        Ok(Entered {
            entry: self.entry.clone()?,
            day: self.day,
            author: self.author,
        })
    }
}
