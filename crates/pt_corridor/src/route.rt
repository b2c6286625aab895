ghost use Rattle.std.specs.Prelude.{◌≡◌, ◌≤◌, ◌↔◌, IsTrue, IsOk, IfOk, MatchResult, All};
ghost use Rattle.pt_base_values.specs.Place.{IsCoordinate, IsOnPlane};
ghost use Rattle.pt_base_values.specs.declared.fault.Fault.{Fault};
ghost use Rattle.pt_corridor.specs.Route.{route_of, IsFixedRoute, IsFirst, faults, HasPoints, HasWidth, IsRouteOnPlane};

use pt_base_records::{Key, Keyed};
use pt_base_values::{Cause, Fault, Minute, Point, RouteId, Weekdays};
use std::alloc::AllocError;
use std::marker::Model;

/// The least width of a corridor on each side: three fourths of a mile, in feet.
pub const MIN_WIDTH: u32 = 3_960;

/// The greatest width of a corridor on each side: a mile and a half, in feet.
pub const MAX_WIDTH: u32 = 7_920;

/// The fewest points of a fixed route.
pub const MIN_POINTS: usize = 2;

/// The most points of a fixed route.
pub const MAX_POINTS: usize = 200;

/// The farthest that a coordinate lies from the origin, in feet.
pub const MAX_COORDINATE: i32 = 1_000_000;

/// A fixed route of the agency: where it goes, how far its corridor reaches, and when it runs.
#[derive(Drop)]
pub struct FixedRoute {
    id: RouteId,
    width: u32,
    points: Vec<Point>,
    accessible: bool,
    days: Weekdays,
    first: Minute,
    last: Minute,
}

impl Model for FixedRoute {
    ghost use Rattle.pt_corridor.specs.Route.{FixedRoute, IsFixedRoute, route_of};

    ghost Value = { FixedRoute };

    ghost view = { λ r. route_of r.id r.width r.points.items r.accessible r.days r.first r.last };

    ghost invariant = { λ r.
        IsFixedRoute (route_of r.id r.width r.points.items r.accessible r.days r.first r.last) };
}

impl FixedRoute {
    /// A route along these points, in order, whose corridor reaches `width` feet on each side.
    ///
    /// The fault is the first of these: its number of points, its width, a coordinate, its hours. It takes no memory;
    /// points that are refused are dropped.
    pub fn new(
        id: RouteId,
        width: u32,
        points: Vec<Point>,
        accessible: bool,
        days: Weekdays,
        first: Minute,
        last: Minute,
    ) -> Result<Self, Fault>
        ensures accepted { IsOk result
            ↔ IsFixedRoute (route_of id width points.items accessible days first last) }
        ensures made { IfOk result (λ route.
            route ≡ route_of id width points.items accessible days first last) }

        // Exactly the first fault of the list that holds, in no row.
        ensures refused { (fault : Fault) → (result ≡ Err fault)
            ↔ ((fault.row ≡ 0)
            × IsFirst (faults (route_of id width points.items accessible days first last)) fault.code) }
    {
        if points.len() < MIN_POINTS || points.len() > MAX_POINTS {
            return Err(Fault::of(Cause::RoutePoints));
        }
        if width < MIN_WIDTH || width > MAX_WIDTH {
            return Err(Fault::of(Cause::RouteWidth));
        }
        if !are_on_plane(&points) {
            return Err(Fault::of(Cause::RouteCoordinate));
        }
        if first > last {
            return Err(Fault::of(Cause::RouteHours));
        }
        Ok(FixedRoute {
            id,
            width,
            points,
            accessible,
            days,
            first,
            last,
        })
    }

    /// The route's number.
    pub fn id(&self) -> RouteId
        ensures value { result ≡ self.now.id }
    {
        self.id
    }

    /// How far the corridor reaches on each side, in feet.
    pub fn width(&self) -> u32
        ensures value { result ≡ self.now.width }
        ensures in_range { HasWidth self.now }
    {
        self.width
    }

    /// The points of the line, in order.
    pub fn points(&self) -> &[Point]
        ensures value { result.now ≡ self.now.points }
        ensures number { HasPoints self.now }
        ensures on_plane { IsRouteOnPlane self.now }
    {
        &self.points
    }

    /// Whether accessible vehicles run on it.
    pub fn accessible(&self) -> bool
        ensures value { result ≡ self.now.accessible }
    {
        self.accessible
    }

    /// The weekdays on which it runs.
    pub fn days(&self) -> Weekdays
        ensures value { result ≡ self.now.days }
    {
        self.days
    }

    /// The first minute of the day at which it runs.
    pub fn first(&self) -> Minute
        ensures value { result ≡ self.now.first }
        ensures ordered { result ≤ self.now.last }
    {
        self.first
    }

    /// The last minute of the day at which it runs.
    pub fn last(&self) -> Minute
        ensures value { result ≡ self.now.last }
        ensures ordered { self.now.first ≤ result }
    {
        self.last
    }
}

impl Clone for FixedRoute {
    ghost is_clone = { λ route copy. copy ≡ route };

    fn clone(&self) -> Result<Self, AllocError>
        ensures cases { MatchResult result (λ copy. copy ≡ self.now) (λ _. ¬ ⊥) }
        ensures made { IsFixedRoute self.now }
    {
        Ok(FixedRoute {
            points: self.points.clone()?,
            ..*self
        })
    }
}

fn is_coordinate(feet: i32) -> bool
    ensures { IsTrue result ↔ IsCoordinate feet }
{
    -MAX_COORDINATE <= feet && feet <= MAX_COORDINATE
}

fn are_on_plane(points: &[Point]) -> bool
    ensures { IsTrue result ↔ All (λ p. IsOnPlane p.x p.y) points.now }
{
    points
        .iter()
        .all(|p| is_coordinate(p.x) && is_coordinate(p.y))
}

impl Keyed for FixedRoute {
    ghost key = { λ route. route.id };

    fn key(&self) -> Key {
        Key::of(self.id().number())
    }
}
