ghost use Rattle.std.specs.Prelude.{◌≡◌};
ghost use Rattle.pt_desk_requests.specs.Letters.{decision_of};

use pt_base_values::{Day, Rider};
use pt_rights_files::{Entry, Grant, Reasons};

/// A decision on a rider's application, appeal or suspension that the rider gets by letter.
#[derive(Drop)]
pub enum Determination {
    /// The application is granted.
    Granted(Grant),
    /// The application is refused.
    Refused(Reasons),
    /// The appeal against a refusal is granted.
    AppealGranted(Grant),
    /// The appeal is denied.
    AppealDenied(Reasons),
    /// The appeal against a suspension is granted.
    Overturned,
    /// A suspension is proposed, on this basis.
    Notice(Reasons),
    /// The rider is suspended.
    Suspended {
        /// The first day of the suspension.
        starts: Day,
        /// The last day of the suspension.
        ends: Day,
        reasons: Reasons,
    },
}

impl Determination {
    /// The decision that an entry makes; `None` if its kind has no letter.
    pub fn of(entry: Entry) -> Option<Self>
        ensures value { result ≡ decision_of entry }
    {
        match entry {
            Entry::Grant(grant) => Some(Determination::Granted(grant)),
            Entry::Refuse(reasons) => Some(Determination::Refused(reasons)),
            Entry::AppealGranted(grant) => Some(Determination::AppealGranted(grant)),
            Entry::AppealDenied(reasons) => Some(Determination::AppealDenied(reasons)),
            Entry::Overturn => Some(Determination::Overturned),
            Entry::Notice(basis) => Some(Determination::Notice(basis)),
            Entry::Suspend {
                starts,
                ends,
                reasons,
            } => Some(Determination::Suspended {
                starts,
                ends,
                reasons,
            }),
            Entry::Complete | Entry::Appeal { .. } | Entry::Heard | Entry::NoticeHeard => None,
        }
    }
}

/// The content of a letter to a rider.
#[derive(Drop)]
pub struct Letter {
    /// The rider's record as it is now.
    pub rider: Rider,
    /// The day of the decision.
    pub day: Day,
    pub decision: Determination,
}
