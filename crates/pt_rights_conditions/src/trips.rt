ghost use Rattle.std.specs.Prelude.{◌↔◌, IsTrue};
ghost use Rattle.pt_rights_files.specs.Months.{numbers_of};
ghost use Rattle.pt_rights_conditions.specs.Trips.{IsInMonths, IsFarther, HasLift, HoldsFor, Qualifies};

use pt_base_values::{Day, Minute, Place, Point};
use pt_corridor::{FixedRoute, is_running, joins, within};
use pt_rights_files::{Condition, Feet, Grant, Months};

/// Whether the grant covers a trip between the two places at the day and the wished minute: one of
/// its conditions holds.
///
/// It takes no memory.
pub fn qualifies(
    grant: &Grant,
    routes: &[FixedRoute],
    day: Day,
    wish: Minute,
    from: &Place,
    to: &Place,
) -> bool
    ensures { IsTrue result ↔ Qualifies grant.now.conditions routes.now day wish from.now to.now }
{
    grant.conditions.as_slice().iter().any(|condition| holds_for(
        condition, routes, day, wish, from, to,
    ))
}

/// Whether the condition holds for a trip between the two places.
fn holds_for(
    condition: &Condition,
    routes: &[FixedRoute],
    day: Day,
    wish: Minute,
    from: &Place,
    to: &Place,
) -> bool
    ensures { IsTrue result ↔ HoldsFor routes.now day wish from.now to.now condition.now }
{
    match condition {
        Condition::Always => true,
        Condition::Months(months) => is_in_months(*months, day),
        Condition::Farther(feet) => {
            is_farther(routes, day, wish, *feet, from.at)
                || is_farther(routes, day, wish, *feet, to.at)
        }
        Condition::NoLift => !has_lift(routes, day, wish, from, to),
    }
}

/// Whether the day is in one of the months.
fn is_in_months(months: Months, day: Day) -> bool
    ensures { IsTrue result ↔ IsInMonths (numbers_of months) day }
{
    months.contains(day.month())
}

/// Whether every route that runs then is farther than this from the point.
fn is_farther(routes: &[FixedRoute], day: Day, minute: Minute, feet: Feet, point: Point) -> bool
    ensures { IsTrue result ↔ IsFarther routes.now day minute feet point }
{
    routes.iter().all(|route| !is_running(route, day, minute)
        || !within(route, point, feet.number()))
}

/// Whether accessible vehicles run then on one route that has both places in its corridor.
fn has_lift(routes: &[FixedRoute], day: Day, minute: Minute, from: &Place, to: &Place) -> bool
    ensures { IsTrue result ↔ HasLift routes.now day minute from.now to.now }
{
    routes.iter().any(|route| route.accessible() && joins(route, from, to, day, minute))
}
