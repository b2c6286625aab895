ghost use Rattle.std.specs.Prelude.{◌≡◌, ◌++◌, ◌∷◌, [], Some, IfOk, All, length};
ghost use Rattle.std.specs.Option.{option_map};
ghost use Rattle.pt_base_values.specs.Place.{IsOnPlane};
ghost use Rattle.pt_corridor.specs.Route.{FixedRoute};
ghost use Rattle.pt_desk_spelling.specs.Fields.{numbers_bytes, truth_bytes, days_byte, list_bytes};
ghost use Rattle.pt_desk_spelling.specs.Ranges.{IsWord, IsRoute};
ghost use Rattle.pt_desk_spelling.specs.Requests.{point_bytes, route_bytes};
ghost use Rattle.pt_desk_spelling_reading.specs.Reading.{Takes, Finds};

use crate::fields::{take_days, take_id, take_minute, take_number, take_point, take_truth};
use pt_base_values::{Point, RouteId};
use pt_corridor::FixedRoute;
use std::alloc::{AllocError, Global};

/// Takes points, after their number. The error is out of memory, here and below.
fn take_points(alloc: Global, left: &mut &[u8]) -> Result<Option<Vec<Point>>, AllocError>
    ensures { IfOk result (λ found. Takes (list_bytes point_bytes)
        (λ points. IsWord (length points) × All (λ point. IsOnPlane point.x point.y) points)
        left.old.now (option_map (λ points. points.items) found) left.new.now) }
{
    let Some(count) = take_number(left) else {
        return Ok(None);
    };
    let mut points = Vec::new(alloc);
    for _taken in 0..count {
        let Some(point) = take_point(left) else {
            return Ok(None);
        };
        points.push(point)?;
    }
    Ok(Some(points))
}

/// The fixed route whose fields the bytes are; `None` if they are no such fields, here and below.
pub(crate) fn route_from(alloc: Global, bytes: &[u8]) -> Result<Option<FixedRoute>, AllocError>
    ensures { IfOk result (Finds route_bytes IsRoute bytes.now) }
{
    let mut left = bytes;
    let (Some(id), Some(width)) = (take_id(&mut left), take_number(&mut left)) else {
        return Ok(None);
    };
    let Some(points) = take_points(alloc, &mut left)? else {
        return Ok(None);
    };
    Ok(route_along(id, width, points, left))
}

/// The fixed route along these points; the bytes are its fields after the points.
fn route_along(id: RouteId, width: u32, points: Vec<Point>, bytes: &[u8]) -> Option<FixedRoute>
    ensures { (route : FixedRoute) → IsRoute route → id ≡ route.id → width ≡ route.width → points.items ≡ route.points
        → bytes.now ≡ truth_bytes route.accessible
        ++ (days_byte route.days ∷ numbers_bytes (route.first ∷ route.last ∷ []))
        → result ≡ Some route }
{
    let mut left = bytes;
    let accessible = take_truth(&mut left)?;
    let days = take_days(&mut left)?;
    let first = take_minute(&mut left)?;
    let last = take_minute(&mut left)?;
    FixedRoute::new(id, width, points, accessible, days, first, last).ok()
}
