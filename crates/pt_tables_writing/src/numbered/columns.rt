//! The column values of fields of records.

ghost use Rattle.std.specs.Prelude.{◌≡◌, ◌≤◌, ◌+◌, ◌++◌, length, flat_map};
ghost use Rattle.sqlite.specs.declared.types.Value.TheVariants.{Int};
ghost use Rattle.pt_desk_spelling.specs.Fields.{signed_bytes};
ghost use Rattle.pt_desk_spelling.specs.Requests.{kind_number, point_bytes};
ghost use Rattle.pt_tables_rows.specs.Rows.{optional_value, status_number};

use arrayvec::ArrayVec;
use pt_base_values::{Minute, Residence, TripStatus};
use pt_corridor::FixedRoute;

/// How many bytes the points of a route have at most.
const MOST_POINT_BYTES: usize = 1_600;

/// The number of a residence in its column.
pub(crate) fn kind_number(kind: Residence) -> u32
    ensures value { result ≡ kind_number kind }
{
    match kind {
        Residence::Resident => 0,
        Residence::Visitor => 1,
    }
}

/// The number of a trip's status in its column.
pub(crate) fn status_number(status: TripStatus) -> u32
    ensures value { result ≡ status_number status }
{
    match status {
        TripStatus::Booked => 0,
        TripStatus::Cancelled => 1,
        TripStatus::Ridden => 2,
        TripStatus::MissedRider => 3,
        TripStatus::MissedOperator => 4,
    }
}

/// The minute, or -1 if there is none.
pub(crate) fn optional_number(minute: Option<Minute>) -> i64
    ensures value { Int result ≡ optional_value minute }
{
    match minute {
        None => -1,
        Some(minute) => i64::from(minute.number()),
    }
}

/// The points of a route, one after the other, in eight bytes each. It allocates no memory.
pub(crate) fn points_bytes(route: &FixedRoute) -> ArrayVec<u8, MOST_POINT_BYTES>
    ensures value { result.items ≡ flat_map point_bytes route.now.points }
{
    let mut bytes = ArrayVec::new();
    let points = route.points();
    for &point in points {
        push_signed(point.x, &mut bytes);
        push_signed(point.y, &mut bytes);
    }
    bytes
}

/// Adds a signed number as its two's complement, the most significant byte first.
#[tactic(auto, unfolding(pt_desk_spelling::specs::Fields::number_bytes))]
fn push_signed(number: i32, out: &mut ArrayVec<u8, MOST_POINT_BYTES>)
    requires { length out.old.items + 4 ≤ MOST_POINT_BYTES }
    ensures text { out.new.items ≡ out.old.items ++ signed_bytes number }
    ensures longer { length out.new.items ≡ length out.old.items + 4 }
{
    let _fits = out.try_extend_from_slice(&number.cast_unsigned().to_be_bytes());
}
