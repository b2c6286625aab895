ghost use Rattle.std.specs.Prelude.{◌≡◌, map, length, All, IfOk, IfErr, IfSome, Some, None, Ok, Err, option_map};
ghost use Rattle.std.specs.Int.{IsInRange};
ghost use Rattle.serde_json.specs.View.{view};
ghost use Rattle.pt_base_values.specs.Place.{IsOnPlane};
ghost use Rattle.pt_base_values.specs.Weekday.{number_of};
ghost use Rattle.pt_http_request.specs.declared.field_name.FieldName.TheVariants.{Points};
ghost use Rattle.pt_http_request.specs.Faults.{OnField, OnRefused};
ghost use Rattle.pt_http_request.specs.Places.{coordinate_from};
ghost use Rattle.pt_http_request.specs.Routes.{values_of, each, point_from, points_at, weekday_from, set_of, days_at};
ghost use Rattle.pt_http_request.specs.Routes.{route_in};

use crate::fault::MessageFault;
use crate::fields::{id_at, minute_at, number_within, truth_at};
use crate::places::coordinate_from;
use crate::{FieldName, RequestFault};
use pt_base_values::{Point, Weekday, Weekdays};
use pt_corridor::{FixedRoute, MAX_POINTS, MAX_WIDTH, MIN_POINTS, MIN_WIDTH};
use serde_json::Value;
use std::alloc::{AllocError, Global};

/// The values of a list.
pub(crate) fn values_of(value: &Value) -> Option<&[Value]>
    ensures { option_map (λ values. map view values.now) result ≡ values_of (view value.now) }
{
    match value.as_array() {
        Some(values) => Some(values.as_slice()),
        None => None,
    }
}

/// The point that a pair of coordinates spells.
fn point_from(value: &Value) -> Option<Point>
    ensures value { result ≡ point_from (view value.now) }
    ensures on_plane { IfSome result (λ point. IsOnPlane point.x point.y) }
{
    let [east, north] = values_of(value)? else {
        return None;
    };
    let x = coordinate_from(east)?;
    let y = coordinate_from(north)?;
    Some(Point { x, y })
}

/// The points that a list of pairs spells.
fn points_from(alloc: Global, pairs: &[Value]) -> Result<Vec<Point>, MessageFault>
    ensures points { IfOk result (λ points. each point_from (map view pairs.now) ≡ Some points.items) }
    ensures on_plane { IfOk result (λ points. All (λ point. IsOnPlane point.x point.y) points.items) }
    ensures fault { IfErr result (OnRefused (OnField (λ name. (name ≡ Points)
        × (each point_from (map view pairs.now) ≡ None)))) }
{
    let mut points = Vec::new(alloc);
    for pair in pairs {
        let point = point_from(pair).ok_or(FieldName::Points)?;
        points.push(point).map_err(AllocError::from)?;
    }
    Ok(points)
}

/// The points of a route's line.
fn points_of(alloc: Global, body: &Value) -> Result<Vec<Point>, MessageFault>
    ensures points { IfOk result (λ points. points_at (view body.now) ≡ Some points.items) }
    ensures number { IfOk result (λ points. IsInRange 2 200 (length points.items)) }
    ensures on_plane { IfOk result (λ points. All (λ point. IsOnPlane point.x point.y) points.items) }
    ensures fault { IfErr result (OnRefused (OnField (λ name. (name ≡ Points) × (points_at (view body.now) ≡ None)))) }
{
    let list = body.get(FieldName::Points.text()).ok_or(FieldName::Points)?;
    let pairs = values_of(list).ok_or(FieldName::Points)?;
    let points = points_from(alloc, pairs)?;
    if points.len() < MIN_POINTS || points.len() > MAX_POINTS {
        return Err(MessageFault::Refused(RequestFault::Field(FieldName::Points)));
    }
    Ok(points)
}

/// The weekday with the number that a value spells: 1 is Monday, 7 is Sunday.
fn weekday_from(value: &Value) -> Option<Weekday>
    ensures { option_map number_of result ≡ weekday_from (view value.now) }
{
    let number = value.as_u64()?;
    if number < 1 || number > 7 {
        return None;
    }
    Weekday::of(number as u32 - 1)
}

/// The set of the weekdays that a list of their numbers spells.
fn days_from(numbers: &[Value]) -> Option<Weekdays>
    ensures { result ≡ option_map set_of (each weekday_from (map view numbers.now)) }
{
    let mut days = Weekdays::none();
    for number in numbers {
        days = days.with(weekday_from(number)?);
    }
    Some(days)
}

/// The weekdays that an object lists.
pub(crate) fn days_of(body: &Value) -> Option<Weekdays>
    ensures { result ≡ days_at (view body.now) }
{
    days_from(values_of(body.get(FieldName::Days.text())?)?)
}

/// The fixed route that an object spells, or its first bad field.
pub(crate) fn route_of(alloc: Global, body: &Value) -> Result<FixedRoute, MessageFault>
    ensures route { IfOk result (λ route. route_in (view body.now) ≡ Ok route) }
    ensures fault { IfErr result (OnRefused (OnField (λ name. route_in (view body.now) ≡ Err name))) }
{
    let id = id_at(body, FieldName::Id)?;
    let width = number_within(body, FieldName::Width, MIN_WIDTH, MAX_WIDTH)?;
    let points = points_of(alloc, body)?;
    let accessible = truth_at(body, FieldName::Accessible)?;
    let days = days_of(body).ok_or(FieldName::Days)?;
    let first = minute_at(body, FieldName::First)?;
    let last = minute_at(body, FieldName::Last)?;
    match FixedRoute::new(id, width, points, accessible, days, first, last) {
        Ok(route) => Ok(route),
        Err(_) => Err(MessageFault::Refused(RequestFault::Field(FieldName::First))),
    }
}
