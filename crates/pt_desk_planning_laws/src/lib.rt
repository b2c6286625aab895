//! Laws of the planner, of explanations and of logs. Each law is a public function whose contract is the theorem. Its
//! body is empty, or names a law that it rests on.
#![tactic(auto)]

ghost use Rattle.pt_desk_planning_laws.specs.Explanations.{ExplanationsAreRight};
ghost use Rattle.pt_desk_planning_laws.specs.Floors.{OldSchedulesAreFloors};
ghost use Rattle.pt_desk_planning_laws.specs.Logs.{DenialsHaveLogs};

use pt_desk_laws::denials_are_right;

/// A law: at an old stop, the least service time without a trip is never later than any fitting time with the trip. So
/// an old schedule is a lawful floor for `settle_from`.
pub fn old_schedules_are_floors()
    ensures { OldSchedulesAreFloors }
{}

/// A law: in a sound state, a dispatcher asks about a wish and it is denied. Then the named rule is the first of all
/// its rules to fail.
pub fn explanations_are_right()
    ensures { ExplanationsAreRight }
{}

/// A law: in a sound state, each request that is denied `no vehicle` has the text of a right log. An audit of the log
/// never says no to the question about that wish in that state.
pub fn denials_have_logs()
    ensures { DenialsHaveLogs }
{
    denials_are_right();
}
