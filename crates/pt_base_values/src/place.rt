ghost use Rattle.pt_base_values.specs.Place.{IsOnPlane};

use crate::PlaceId;

/// A point on the agency's plane, in whole feet east and north of its origin.
#[derive(Clone, Copy)]
pub struct Point {
    pub x: i32,
    pub y: i32,
}

/// A place where trips begin and end.
#[derive(Clone, Copy)]
pub struct Place {
    pub id: PlaceId,
    /// Within 1,000,000 feet of the origin either way.
    pub at: Point,
    /// Whether it lies in a small area that corridors surround, which is served like a corridor.
    pub core: bool,
    ghost on_plane: { IsOnPlane at.x at.y },
}
