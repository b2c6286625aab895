ghost use Rattle.std.specs.Int.{IsInRange};
ghost use Rattle.std.specs.Prelude.{◌≡◌, Ok, Err, IfOk, IfErr};
ghost use Rattle.serde_json.specs.View.{view};
ghost use Rattle.pt_http_request.specs.Fields.{ranged};
ghost use Rattle.pt_http_request.specs.Vehicles.{chairs_at, vehicle_in};

use crate::FieldName;
use crate::fields::{day_at, holds_nothing, id_at, minute_at, ranged_at};
use crate::routes::days_of;
use pt_base_values::{LAST_MINUTE, Vehicle};
use serde_json::Value;

/// The number of a vehicle's wheelchair places, or the field as a fault. It is 0 if the field is missing or null.
fn chairs_of(body: &Value) -> Result<u32, FieldName>
    ensures value { IfOk result (λ number. (in_range : IsInRange 0 10 number)
        × (chairs_at (view body.now) ≡ Ok (ranged number in_range))) }
    ensures fault { IfErr result (λ bad. chairs_at (view body.now) ≡ Err bad) }
{
    if holds_nothing(body, FieldName::Chairs) {
        return Ok(0);
    }
    ranged_at(body, FieldName::Chairs, 0, 10)
}

/// The vehicle that an object spells, or its first bad field.
pub(crate) fn vehicle_of(body: &Value) -> Result<Vehicle, FieldName>
    ensures { result ≡ vehicle_in (view body.now) }
{
    let id = id_at(body, FieldName::Id)?;
    let from_day = day_at(body, FieldName::FromDay)?;
    let days = days_of(body).ok_or(FieldName::Days)?;
    let depot = id_at(body, FieldName::Depot)?;
    let capacity = ranged_at(body, FieldName::Capacity, 1, 30)?;
    let opens = minute_at(body, FieldName::Opens)?;
    let closes = minute_at(body, FieldName::Closes)?;
    if closes < opens {
        return Err(FieldName::Opens);
    }
    let duration = ranged_at(body, FieldName::Duration, 1, LAST_MINUTE)?;
    let chairs = chairs_of(body)?;
    Ok(Vehicle {
        id,
        from_day,
        days,
        depot,
        capacity: capacity as u16,
        chairs: chairs as u16,
        opens,
        closes,
        duration: duration as u16,
    })
}
