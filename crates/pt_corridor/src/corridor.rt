ghost use Rattle.std.specs.Prelude.{◌↔◌, IsTrue};
ghost use Rattle.pt_corridor.specs.Near.{IsNearLine};
ghost use Rattle.pt_corridor.specs.Corridor.{LiesInCorridor, IsRunning, IsServed, IsServedAt, Joins, HasOneRoute};

use crate::FixedRoute;
use crate::near::is_near_line;
use pt_base_values::{Day, Minute, Place, Point};

/// Whether the point is within this many feet of the route's line, whatever the route's width is.
pub fn within(route: &FixedRoute, point: Point, feet: u32) -> bool
    ensures { IsTrue result ↔ IsNearLine feet point route.now.points }
{
    is_near_line(route.points(), point, feet)
}

/// Whether the place lies in the route's corridor.
pub fn lies_in_corridor(route: &FixedRoute, place: &Place) -> bool
    ensures { IsTrue result ↔ LiesInCorridor place.now route.now }
{
    place.core || within(route, place.at, route.width())
}

/// Whether the route runs on that day at that minute of it.
pub fn is_running(route: &FixedRoute, day: Day, minute: Minute) -> bool
    ensures { IsTrue result ↔ IsRunning day minute route.now }
{
    route.days().contains(day.weekday()) && route.first() <= minute && minute <= route.last()
}

/// Whether service is owed at the place at all: it lies in some route's corridor.
pub fn served(routes: &[FixedRoute], place: &Place) -> bool
    ensures { IsTrue result ↔ IsServed routes.now place.now }
{
    routes.iter().any(|route| lies_in_corridor(route, place))
}

/// Whether service is owed at the place at that time: it lies in the corridor of some route that
/// runs then.
pub fn runs(routes: &[FixedRoute], place: &Place, day: Day, minute: Minute) -> bool
    ensures { IsTrue result ↔ IsServedAt routes.now place.now day minute }
{
    routes.iter().any(|route| is_running(route, day, minute) && lies_in_corridor(route, place))
}

/// Whether the route runs at that time and has both places in its corridor.
pub fn joins(route: &FixedRoute, from: &Place, to: &Place, day: Day, minute: Minute) -> bool
    ensures { IsTrue result ↔ Joins from.now to.now day minute route.now }
{
    is_running(route, day, minute) && lies_in_corridor(route, from) && lies_in_corridor(route, to)
}

/// Whether one route that runs at that time has both places in its corridor.
pub fn one_route(routes: &[FixedRoute], from: &Place, to: &Place, day: Day, minute: Minute) -> bool
    ensures { IsTrue result ↔ HasOneRoute routes.now from.now to.now day minute }
{
    routes
        .iter()
        .any(|route| joins(route, from, to, day, minute))
}
