//! `pt_rights`: case files, the days of visitors, conditions of grants.
ghost use Rattle.std.specs.Prelude.{◌<◌, length};
ghost use Rattle.std.specs.List.Sorted.{IsStrictlyIncreasing};
ghost use Rattle.pt_rights.specs.Limits.{most_entries};

use pt_base::{CallerId, Day, Fault, Minute, Place, Policy, Rider, Rule};
use pt_corridor::FixedRoute;
use pt_rights::{
    CaseFile, Conditions, Entered, Entry, Grant, Outcome, Standing, Tally, qualifies, standing,
    suspended, visitor_may,
};
use std::alloc::Global;

pub fn empty_file(alloc: Global) -> CaseFile {
    CaseFile::new(alloc)
}

pub fn entries_of(file: &CaseFile) -> &[Entered] {
    file.entries()
}

pub fn refusal_of(
    file: &CaseFile,
    rider: &Rider,
    entry: &Entry,
    today: Day,
    author: CallerId,
    tallies: &[Tally],
    policy: &Policy,
) -> Option<Rule> {
    file.admits(rider, entry, today, author, tallies, policy)
}

pub fn entered(
    file: &mut CaseFile,
    entry: Entry,
    today: Day,
    author: CallerId,
) -> Result<(), (Entry, Fault)>
    requires { length file.old < most_entries }
{
    file.push(entry, today, author)
}

pub fn standing_for(file: &CaseFile, today: Day, day: Day) -> Standing {
    standing(file, today, day)
}

pub fn is_suspended(file: &CaseFile, day: Day) -> bool {
    suspended(file, day)
}

pub fn may_visit(uses: &[Day], day: Day) -> bool
    requires { IsStrictlyIncreasing uses.now }
{
    visitor_may(uses, day)
}

pub fn covers(
    grant: &Grant,
    routes: &[FixedRoute],
    day: Day,
    wish: Minute,
    from: &Place,
    to: &Place,
) -> bool {
    qualifies(grant, routes, day, wish, from, to)
}

pub fn grant(until: Day, conditions: Conditions) -> Grant {
    Grant { until, conditions }
}

pub fn tally(day: Day, outcome: Outcome) -> Tally {
    Tally { day, outcome }
}

/// Whether the rider may ride, as a caller tells the kinds of standing apart.
pub fn has_standing(standing: &Standing) -> bool {
    match standing {
        Standing::Presumed | Standing::AppealOverdue | Standing::Granted(_) => true,
        Standing::None => false,
    }
}

#[cfg(test)]
mod tests {
    use super::{has_standing, is_suspended, standing_for};
    use pt_base::{CallerId, Day};
    use pt_rights::{CaseFile, Entry};
    use std::test::Fail;

    /// An application that nobody answers is presumed granted on its 21st day.
    #[test]
    fn an_unanswered_application_is_presumed_granted(rt: HostRuntime) -> Result<(), Fail> {
        let mut file = CaseFile::new(rt.alloc());
        let complete = Day::parse("2025-02-17")?;
        let author = CallerId::of(2).ok_or("a caller")?;
        assert!(rt; file.push(Entry::Complete, complete, author).is_ok());
        let day = Day::parse("2025-03-14")?;
        for (today, stands) in [("2025-03-09", false), ("2025-03-10", true)] {
            let standing = standing_for(&file, Day::parse(today)?, day);
            assert!(rt; has_standing(&standing) == stands, "on {today}");
        }
        assert!(rt; !is_suspended(&file, day));
        Ok(())
    }
}
