ghost use Rattle.std.specs.Prelude.{◌≡◌, ◌↔◌, ◌-ℤ◌, IsTrue, All};
ghost use Rattle.pt_base_values.specs.Place.{IsOnPlane};
ghost use Rattle.pt_corridor.specs.Box.{FallsShort, IsBeyond, IsOutsideBox};
ghost use Rattle.pt_corridor.specs.Near.{IsNearSegment, IsNearLine, squared_length};
ghost use Rattle.pt_corridor.specs.Way.{IsWay, IsWayOnPlane, dot_product, cross_product};

use pt_base_values::Point;

/// The way from one point to another, in feet east and north.
#[derive(Clone, Copy)]
struct Way {
    east: i64,
    north: i64,
    ghost in_range: { IsWay east north },
}

impl Way {
    fn between(from: Point, to: Point) -> Way
        ensures east { result.east ≡ to.x -ℤ from.x }
        ensures north { result.north ≡ to.y -ℤ from.y }
    {
        Way {
            east: i64::from(to.x) - i64::from(from.x),
            north: i64::from(to.y) - i64::from(from.y),
        }
    }

    fn dot(self, other: Way) -> i64
        requires { IsWayOnPlane other.east other.north }
        ensures { result ≡ dot_product self.east self.north other.east other.north }
    {
        self.east * other.east + self.north * other.north
    }

    fn cross(self, other: Way) -> i64
        requires { IsWayOnPlane other.east other.north }
        ensures { result ≡ cross_product self.east self.north other.east other.north }
    {
        self.east * other.north - self.north * other.east
    }

    fn squared_length(self) -> i128
        ensures { result ≡ squared_length self.east self.north }
    {
        let east = i128::from(self.east);
        let north = i128::from(self.north);
        east * east + north * north
    }
}

/// Whether the point is within this many feet of the segment, ends included.
///
/// Nothing is rounded. The two products compared last are at most 2^108.
fn is_near_segment(point: Point, start: Point, end: Point, feet: u32) -> bool
    requires start_on_plane { IsOnPlane start.x start.y }
    requires end_on_plane { IsOnPlane end.x end.y }
    ensures { IsTrue result ↔ IsNearSegment feet point start end }
{
    let reach = i128::from(feet) * i128::from(feet);
    let to_point = Way::between(start, point);
    let to_end = Way::between(start, end);
    let along = to_point.dot(to_end);
    if along <= 0 {
        return to_point.squared_length() <= reach;
    }
    let length = to_end.dot(to_end);
    if along >= length {
        return Way::between(end, point).squared_length() <= reach;
    }
    let across = i128::from(to_point.cross(to_end));
    let length = i128::from(length);
    across * across <= reach * length
}

// Whether `to` is more than this many feet above `from`.
fn falls_short(feet: u32, from: i32, to: i32) -> bool
    ensures { IsTrue result ↔ FallsShort feet from to }
{
    i64::from(from) + i64::from(feet) < i64::from(to)
}

// Whether, in one coordinate, both ends of a segment lie more than this many feet to the same side of the point.
fn is_beyond(feet: u32, at: i32, start: i32, end: i32) -> bool
    ensures { IsTrue result ↔ IsBeyond feet at start end }
{
    falls_short(feet, at, start) && falls_short(feet, at, end)
        || falls_short(feet, start, at) && falls_short(feet, end, at)
}

// Whether the point is outside the box that reaches this many feet around the segment.
fn is_outside_box(point: Point, start: Point, end: Point, feet: u32) -> bool
    ensures { IsTrue result ↔ IsOutsideBox feet point start end }
{
    is_beyond(feet, point.x, start.x, end.x) || is_beyond(feet, point.y, start.y, end.y)
}

/// Whether the point is within this many feet of one of the line's segments.
///
/// A segment is measured only if the point is in the box around it.
pub(crate) fn is_near_line(line: &[Point], point: Point, feet: u32) -> bool
    requires { All (λ p. IsOnPlane p.x p.y) line.now }
    ensures { IsTrue result ↔ IsNearLine feet point line.now }
{
    for end in 1..line.len() {
        let (start, end) = (line[end - 1], line[end]);
        if !is_outside_box(point, start, end, feet) && is_near_segment(point, start, end, feet) {
            return true;
        }
    }
    false
}
