ghost use Rattle.std.specs.Prelude.{◌≡◌, ◌↔◌, IsTrue};
ghost use Rattle.std.specs.List.Sorted.{IsStrictlyIncreasing};
ghost use Rattle.pt_rights_visitors.specs.Periods.{MayUse, is_in_period};

use pt_base_values::Day;

/// The number of days in a period.
const PERIOD: u32 = 365;

/// The most days of a period on which a visitor may ride.
const MOST_DAYS: usize = 21;

/// Whether a visitor who rides on the days of `uses` may ride on this day too.
///
/// Only the day's own period counts, not the periods of later uses. The day may be one of the uses. It takes no
/// memory.
pub fn visitor_may(uses: &[Day], day: Day) -> bool
    requires { IsStrictlyIncreasing uses.now }
    ensures { IsTrue result ↔ MayUse uses.now day }
{
    let mut opening = match uses.first() {
        Some(&least) => least.min(day),
        None => day,
    };
    let mut others = 0;
    for &used in uses {
        let reached = used.min(day);
        if !is_in_period(opening, reached) {
            opening = reached;
            others = 0;
        }
        if used != day && is_in_period(opening, used) {
            others += 1;
        }
    }
    !is_in_period(opening, day) || others < MOST_DAYS
}

/// Whether the day lies in the period that the first day opens.
fn is_in_period(opening: Day, day: Day) -> bool
    ensures { result ≡ is_in_period opening day }
{
    opening <= day && day.number() < opening.number() + PERIOD
}
