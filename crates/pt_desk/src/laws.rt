ghost use Rattle.pt_desk.specs.Refusals.{RefusalsAreTold};
ghost use Rattle.pt_desk.specs.Run.{IsToldAfterACrash, RunsAreCalls, RunsLeaveAcceptedWrites};

use pt_desk_store::Keeper;

/// A law: the answered calls of a run are a list of calls by the rules, with the answers in their replies. If the store
/// has not failed, they lead to the state that is left. So the laws over lists of calls, such as that numbers rise,
/// hold for every run.
pub fn runs_are_calls()
    ensures { RunsAreCalls }
{}

/// A law: if the store has not failed, a run's accepted writes alone, each made once, leave the same state as the run.
pub fn runs_leave_accepted_writes()
    ensures { RunsLeaveAcceptedWrites }
{}

/// A law: an answered call that comes again at the same moment after a crash gets the same answer and changes nothing.
pub fn answers_outlive_crashes<K: Keeper>(before: &K, after: &K)
    ensures { IsToldAfterACrash (K.store before.now) (K.store after.now) }
{}

/// A law: suppose that no vehicle of a refusal's facts has a place for the trip. Then the wish is denied `no vehicle`
/// in that state, and by no other rule. So an audit of a refusal log over the facts shows what the desk answers.
pub fn refusals_are_told()
    ensures { RefusalsAreTold }
{}
