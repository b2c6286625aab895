//! The points of a fixed route, in eight bytes each.

ghost use Rattle.std.specs.Prelude.{◌≡◌, List, flat_map, IfOk, MatchOption, All};
ghost use Rattle.pt_base_values.specs.declared.place.Point.{Point};
ghost use Rattle.pt_desk_spelling.specs.Requests.{point_bytes};
ghost use Rattle.pt_desk_spelling.specs.Fields.{signed_bytes};
ghost use Rattle.pt_tables_reading.specs.Fitting.{FitsPoint};

use pt_base_values::Point;
use std::alloc::{AllocError, Global};

/// How many bytes a point takes.
const POINT_BYTES: usize = 8;

/// The points that have these bytes; `None` if the bytes end within a point.
pub(crate) fn points_from(alloc: Global, bytes: &[u8]) -> Result<Option<Vec<Point>>, AllocError>
    ensures { IfOk result (λ told. MatchOption told
        ((points : List Point) → flat_map point_bytes points ≡ bytes.now → ⊥)
        (λ points. flat_map point_bytes points.items ≡ bytes.now)) }
{
    if bytes.len() % POINT_BYTES != 0 {
        return Ok(None);
    }
    let (chunks, _) = bytes.as_chunks::<POINT_BYTES>();
    let mut points = Vec::new(alloc);
    for &chunk in chunks {
        points.push(point_from(chunk))?;
    }
    Ok(Some(points))
}

/// The point that has these bytes.
fn point_from(bytes: [u8; POINT_BYTES]) -> Point
    ensures { point_bytes result ≡ bytes }
{
    let [a, b, c, d, e, f, g, h] = bytes;
    Point {
        x: signed_from([a, b, c, d]),
        y: signed_from([e, f, g, h]),
    }
}

/// The signed number that has these bytes, the most significant first.
#[tactic(auto, unfolding(pt_desk_spelling::specs::Fields::number_bytes))]
fn signed_from(bytes: [u8; 4]) -> i32
    ensures { signed_bytes result ≡ bytes }
{
    i32::from_be_bytes(bytes)
}

/// The types of coordinates keep them within 32 bits.
pub(crate) fn are_points(points: &[Point])
    ensures { All FitsPoint points.now }
{
    for point in points {
        is_point(*point);
    }
}

/// The coordinates of a point have 32 bits.
fn is_point(point: Point)
    ensures { FitsPoint point }
{
    let _east = point.x;
    let _north = point.y;
}
