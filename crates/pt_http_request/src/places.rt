ghost use Rattle.std.specs.Prelude.{◌≡◌, IfOk, IfErr, IfSome, Some, None, Ok, Err};
ghost use Rattle.serde_json.specs.View.{view};
ghost use Rattle.pt_base_values.specs.Place.{IsCoordinate};
ghost use Rattle.pt_http_request.specs.Places.{coordinate_from, coordinate, coordinate_at, place_in};

use crate::FieldName;
use crate::fields::{id_at, truth_at};
use pt_base_values::{Place, Point};
use pt_corridor::MAX_COORDINATE;
use serde_json::Value;

/// The coordinate that a value spells.
pub(crate) fn coordinate_from(value: &Value) -> Option<i32>
    ensures value { result ≡ coordinate_from (view value.now) }
    ensures on_plane { IfSome result IsCoordinate }
{
    let feet = value.as_i64()?;
    let most = i64::from(MAX_COORDINATE);
    if feet < -most || feet > most {
        return None;
    }
    Some(feet as i32)
}

/// The coordinate at a field of an object, or the field as a fault.
fn coordinate_at(object: &Value, name: FieldName) -> Result<i32, FieldName>
    ensures value { IfOk result (λ feet. (on_plane : IsCoordinate feet)
        × (coordinate_at name (view object.now) ≡ Ok (coordinate feet on_plane))) }
    ensures fault { IfErr result (λ bad. coordinate_at name (view object.now) ≡ Err bad) }
{
    let value = object.get(name.text()).ok_or(name)?;
    coordinate_from(value).ok_or(name)
}

/// The place that an object spells, or its first bad field.
pub(crate) fn place_of(body: &Value) -> Result<Place, FieldName>
    ensures { result ≡ place_in (view body.now) }
{
    let id = id_at(body, FieldName::Id)?;
    let x = coordinate_at(body, FieldName::X)?;
    let y = coordinate_at(body, FieldName::Y)?;
    let core = truth_at(body, FieldName::Core)?;
    let at = Point { x, y };
    Ok(Place { id, at, core })
}
