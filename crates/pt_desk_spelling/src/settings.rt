ghost use Rattle.std.specs.Prelude.{◌≡◌, ◌++◌, All, OnOk};
ghost use Rattle.pt_corridor.specs.Route.{HasPoints, IsRouteOnPlane};
ghost use Rattle.pt_desk_spelling.specs.Fields.{list_bytes};
ghost use Rattle.pt_desk_spelling.specs.Ranges.{IsRole, IsCaller, IsRoute, IsVehicle, IsRow};
ghost use Rattle.pt_desk_spelling.specs.Replies.{IsId};
ghost use Rattle.pt_desk_spelling.specs.Requests.{role_number, subject_of, caller_bytes, policy_bytes, point_bytes};
ghost use Rattle.pt_desk_spelling.specs.Requests.{place_bytes, route_bytes, chairs_bytes, vehicle_bytes, row_bytes};
ghost use Rattle.pt_travel.specs.Table.{IsTable};

use crate::fields::{push_days, push_number, push_numbers, push_signed, push_truth};
use pt_base_values::{Place, Point, Policy, Vehicle};
use pt_corridor::FixedRoute;
use pt_desk_requests::{Caller, Role};
use pt_travel::{Raw, Row};
use std::alloc::AllocError;

/// The number of a caller's role, counted from 0.
pub fn role_number(role: &Role) -> u8
    ensures value { result ≡ role_number role.now }
{
    match role {
        Role::Rider(_) => 0,
        Role::Clerk => 1,
        Role::Examiner => 2,
        Role::Officer => 3,
        Role::Dispatcher => 4,
        Role::Driver(_) => 5,
        Role::Admin => 6,
    }
}

/// The number of the rider or vehicle that the role is about, and 0 for a role about none.
pub fn subject_of(role: &Role) -> u32
    ensures value { result ≡ subject_of role.now }
    ensures ranges { IsRole role.now }
{
    match role {
        Role::Rider(rider) => rider.number(),
        Role::Driver(vehicle) => vehicle.number(),
        _ => 0,
    }
}

/// Adds the fields of a caller. The error is out of memory, here and below.
pub(crate) fn push_caller(caller: &Caller, out: &mut Vec<u8>) -> Result<(), AllocError>
    ensures text { OnOk result (out.new.items ≡ out.old.items ++ caller_bytes caller.now) }
    ensures ranges { OnOk result (IsCaller caller.now) }
{
    push_number(caller.id.number(), out)?;
    out.push(role_number(&caller.role))?;
    push_number(subject_of(&caller.role), out)?;
    out.extend_from_slice(caller.copy().digest.bytes())
}

/// Adds the fields of a policy.
pub(crate) fn push_policy(policy: &Policy, out: &mut Vec<u8>) -> Result<(), AllocError>
    ensures { OnOk result (out.new.items ≡ out.old.items ++ policy_bytes policy.now) }
{
    let numbers = [
        policy.base,
        policy.transfer,
        policy.fare,
        u32::from(policy.service),
        u32::from(policy.extra_ride),
        u32::from(policy.min_missed),
        u32::from(policy.percent),
        u32::from(policy.span_days),
    ];
    push_numbers(&numbers, out)
}

/// Adds the coordinates of a point.
fn push_point(point: Point, out: &mut Vec<u8>) -> Result<(), AllocError>
    ensures { OnOk result (out.new.items ≡ out.old.items ++ point_bytes point) }
{
    push_signed(point.x, out)?;
    push_signed(point.y, out)
}

/// Adds the fields of a place.
pub(crate) fn push_place(place: &Place, out: &mut Vec<u8>) -> Result<(), AllocError>
    ensures text { OnOk result (out.new.items ≡ out.old.items ++ place_bytes place.now) }
    ensures ranges { OnOk result (IsId place.now.id) }
{
    push_number(place.id.number(), out)?;
    push_point(place.at, out)?;
    push_truth(place.core, out)
}

/// Adds the fields of a fixed route.
pub(crate) fn push_route(route: &FixedRoute, out: &mut Vec<u8>) -> Result<(), AllocError>
    ensures text { OnOk result (out.new.items ≡ out.old.items ++ route_bytes route.now) }
    ensures ranges { OnOk result (IsRoute route.now) }
{
    push_numbers(&[route.id().number(), route.width()], out)?;
    push_points(route, out)?;
    push_truth(route.accessible(), out)?;
    push_days(route.days(), out)?;
    push_numbers(&[route.first().number(), route.last().number()], out)
}

/// Adds the number of points of a route, and the points.
fn push_points(route: &FixedRoute, out: &mut Vec<u8>) -> Result<(), AllocError>
    ensures text { OnOk result (out.new.items ≡ out.old.items ++ list_bytes point_bytes route.now.points) }
    ensures number { HasPoints route.now }
    ensures on_plane { IsRouteOnPlane route.now }
{
    let points = route.points();
    push_number(points.len() as u32, out)?;
    for &point in points {
        push_point(point, out)?;
    }
    Ok(())
}

/// Adds the fields of a vehicle.
pub(crate) fn push_vehicle(vehicle: &Vehicle, out: &mut Vec<u8>) -> Result<(), AllocError>
    ensures text { OnOk result (out.new.items ≡ out.old.items ++ vehicle_bytes vehicle.now) }
    ensures ranges { OnOk result (IsVehicle vehicle.now) }
{
    push_numbers(&[vehicle.id.number(), vehicle.from_day.number()], out)?;
    push_days(vehicle.days, out)?;
    let numbers = [
        vehicle.depot.number(),
        u32::from(vehicle.capacity),
        vehicle.opens.number(),
        vehicle.closes.number(),
        u32::from(vehicle.duration),
    ];
    push_numbers(&numbers, out)?;
    push_chairs(vehicle.chairs, out)
}

/// Adds the wheelchair places of a vehicle that has some.
fn push_chairs(chairs: u16, out: &mut Vec<u8>) -> Result<(), AllocError>
    ensures text { OnOk result (out.new.items ≡ out.old.items ++ chairs_bytes chairs) }
{
    if chairs == 0 {
        return Ok(());
    }
    push_number(u32::from(chairs), out)
}

/// Adds the number of rows of a travel table, and the rows.
pub(crate) fn push_rows(table: &Raw, out: &mut Vec<u8>) -> Result<(), AllocError>
    ensures text { OnOk result (out.new.items ≡ out.old.items ++ list_bytes row_bytes table.now) }
    ensures ranges { OnOk result (IsTable table.now × All IsRow table.now) }
{
    let rows = table.rows();
    push_number(rows.len() as u32, out)?;
    for row in rows {
        push_row(row, out)?;
    }
    Ok(())
}

/// Adds the fields of a row of a travel table.
fn push_row(row: &Row, out: &mut Vec<u8>) -> Result<(), AllocError>
    ensures text { OnOk result (out.new.items ≡ out.old.items ++ row_bytes row.now) }
    ensures ranges { OnOk result (IsRow row.now) }
{
    push_numbers(&[row.0.number(), row.1.number(), u32::from(row.2)], out)
}
