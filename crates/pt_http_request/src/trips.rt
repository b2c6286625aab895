ghost use Rattle.std.specs.Prelude.{◌≡◌};
ghost use Rattle.serde_json.specs.View.{view};
ghost use Rattle.pt_http_request.specs.Trips.{minute_if_any_at, wish_in, booking_in, outcome_named, outcome_in};

use crate::FieldName;
use crate::fields::{day_at, id_at, minute_at, number_within, text_at, truth_at};
use pt_base_values::{Minute, RiderId, Wish};
use pt_rights_files::Outcome;
use serde_json::Value;

/// The minute of the day at a field of an object, or the field as a fault. It is `None` if the field is missing or
/// null.
fn minute_if_any_at(body: &Value, name: FieldName) -> Result<Option<Minute>, FieldName>
    ensures { result ≡ minute_if_any_at name (view body.now) }
{
    match body.get(name.text()) {
        Some(value) if !value.is_null() => Ok(Some(minute_at(body, name)?)),
        _ => Ok(None),
    }
}

/// The wish that an object spells, or its first bad field.
pub(crate) fn wish_of(body: &Value) -> Result<Wish, FieldName>
    ensures { result ≡ wish_in (view body.now) }
{
    let day = day_at(body, FieldName::Day)?;
    let pickup = minute_at(body, FieldName::Wish)?;
    let from = id_at(body, FieldName::From)?;
    let to = id_at(body, FieldName::To)?;
    let by = minute_if_any_at(body, FieldName::By)?;
    let attendant = truth_at(body, FieldName::Attendant)?;
    let companions = number_within(body, FieldName::Companions, 0, 255)?;
    Ok(Wish {
        day,
        pickup,
        from,
        to,
        by,
        attendant,
        companions: companions as u8,
    })
}

/// The rider and the wish that an object spells, or its first bad field.
pub(crate) fn booking_of(body: &Value) -> Result<(RiderId, Wish), FieldName>
    ensures { result ≡ booking_in (view body.now) }
{
    let rider = id_at(body, FieldName::Rider)?;
    let wish = wish_of(body)?;
    Ok((rider, wish))
}

/// The outcome of this name.
fn outcome_named(name: &str) -> Option<Outcome>
    ensures { result ≡ outcome_named name.now }
{
    match name {
        "ridden" => Some(Outcome::Ridden),
        "missed-rider" => Some(Outcome::MissedRider),
        "missed-operator" => Some(Outcome::MissedOperator),
        _ => None,
    }
}

/// The outcome that an object spells, or the field as the fault.
pub(crate) fn outcome_of(body: &Value) -> Result<Outcome, FieldName>
    ensures { result ≡ outcome_in (view body.now) }
{
    outcome_named(text_at(body, FieldName::Outcome)?).ok_or(FieldName::Outcome)
}
