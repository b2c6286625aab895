//! `pt_corridor`: fixed routes and where service is owed.
use pt_base::{Day, Fault, Minute, Place, Point, RouteId, Weekdays};
use pt_corridor::{FixedRoute, one_route, runs, served, within};

pub fn route(
    id: RouteId,
    width: u32,
    points: Vec<Point>,
    accessible: bool,
    days: Weekdays,
    first: Minute,
    last: Minute,
) -> Result<FixedRoute, Fault> {
    FixedRoute::new(id, width, points, accessible, days, first, last)
}

pub fn is_within(route: &FixedRoute, point: Point, feet: u32) -> bool {
    within(route, point, feet)
}

pub fn is_served(routes: &[FixedRoute], place: &Place) -> bool {
    served(routes, place)
}

pub fn runs_at(routes: &[FixedRoute], place: &Place, day: Day, minute: Minute) -> bool {
    runs(routes, place, day, minute)
}

pub fn has_one_route(
    routes: &[FixedRoute],
    from: &Place,
    to: &Place,
    day: Day,
    minute: Minute,
) -> bool {
    one_route(routes, from, to, day, minute)
}

pub fn line_of(route: &FixedRoute) -> (RouteId, u32, &[Point]) {
    (route.id(), route.width(), route.points())
}

pub fn hours_of(route: &FixedRoute) -> (bool, Weekdays, Minute, Minute) {
    (
        route.accessible(),
        route.days(),
        route.first(),
        route.last(),
    )
}
