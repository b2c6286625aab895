ghost use Rattle.std.specs.Prelude.{◌≡◌, Ok, Err, IfOk, IfErr};
ghost use Rattle.std.specs.Int.{IsInRange};
ghost use Rattle.pt_base_values.specs.Ranges.{last_minute};
ghost use Rattle.serde_json.specs.View.{view};
ghost use Rattle.serde_json.specs.Find.{get};
ghost use Rattle.pt_http_request.specs.Names.{field_name};
ghost use Rattle.pt_http_request.specs.Fields.{number_within, whole_at, text_at, truth_at, truth_if_any_at, id_at};
ghost use Rattle.pt_http_request.specs.Fields.{digest_from, digest_at, day_at, ranged, ranged_at, holds_nothing};
ghost use Rattle.pt_http_request.specs.Numbers.{id_of};

use crate::FieldName;
use hex::FromHex;
use pt_base_values::{Day, Id, LAST_MINUTE, Minute, day_from};
use pt_desk_requests::Digest;
use serde_json::Value;

/// The whole number at a field of an object, or the field as a fault.
pub(crate) fn whole_at(object: &Value, name: FieldName) -> Result<u64, FieldName>
    ensures { result ≡ whole_at name (view object.now) }
{
    object.get(name.text()).and_then(Value::as_u64).ok_or(name)
}

/// The text at a field of an object, or the field as a fault.
pub(crate) fn text_at(object: &Value, name: FieldName) -> Result<&str, FieldName>
    ensures text { IfOk result (λ text. text_at name (view object.now) ≡ Ok text.now) }
    ensures fault { IfErr result (λ bad. text_at name (view object.now) ≡ Err bad) }
    ensures named { IfErr result (λ bad. bad ≡ name) }
{
    object.get(name.text()).and_then(Value::as_str).ok_or(name)
}

/// The truth value at a field of an object, or the field as a fault.
pub(crate) fn truth_at(object: &Value, name: FieldName) -> Result<bool, FieldName>
    ensures { result ≡ truth_at name (view object.now) }
{
    object.get(name.text()).and_then(Value::as_bool).ok_or(name)
}

/// Whether a field of an object is missing or null.
pub(crate) fn holds_nothing(object: &Value, name: FieldName) -> bool
    ensures { result ≡ holds_nothing (get (field_name name) (view object.now)) }
{
    match object.get(name.text()) {
        Some(value) => value.is_null(),
        None => true,
    }
}

/// The truth value at a field of an object, or the field as a fault. It is false if the field is missing or null.
pub(crate) fn truth_if_any_at(object: &Value, name: FieldName) -> Result<bool, FieldName>
    ensures { result ≡ truth_if_any_at name (view object.now) }
{
    if holds_nothing(object, name) {
        return Ok(false);
    }
    truth_at(object, name)
}

/// The number, if a record may have it.
fn id_from<Kind>(number: u64) -> Option<Id<Kind>>
    ensures { result ≡ id_of number }
{
    let number = u32::try_from(number).ok()?;
    Id::of(number)
}

/// The number of a record at a field of an object, or the field as a fault.
pub(crate) fn id_at<Kind>(object: &Value, name: FieldName) -> Result<Id<Kind>, FieldName>
    ensures { result ≡ id_at name (view object.now) }
{
    id_from(whole_at(object, name)?).ok_or(name)
}

/// The digest that 64 hexadecimal digits spell.
fn digest_from(text: &str) -> Option<Digest>
    ensures { result ≡ digest_from text.now }
{
    <[u8; 32] as FromHex>::from_hex(text).ok().map(Digest::of)
}

/// The digest at a field of an object, or the field as a fault.
pub(crate) fn digest_at(object: &Value, name: FieldName) -> Result<Digest, FieldName>
    ensures { result ≡ digest_at name (view object.now) }
{
    digest_from(text_at(object, name)?).ok_or(name)
}

/// The day at a field of an object, or the field as a fault.
pub(crate) fn day_at(object: &Value, name: FieldName) -> Result<Day, FieldName>
    ensures { result ≡ day_at name (view object.now) }
{
    day_from(text_at(object, name)?).ok_or(name)
}

/// The whole number of this range at a field of an object, or the field as a fault.
pub(crate) fn number_within(
    object: &Value,
    name: FieldName,
    least: u32,
    most: u32,
) -> Result<u32, FieldName>
    ensures value { result ≡ number_within name least most (view object.now) }
    ensures in_range { IfOk result (IsInRange least most) }
{
    let number = whole_at(object, name)?;
    if number < u64::from(least) || number > u64::from(most) {
        return Err(name);
    }
    Ok(number as u32)
}

/// The same for a type that keeps the range.
pub(crate) fn ranged_at(
    object: &Value,
    name: FieldName,
    least: u32,
    most: u32,
) -> Result<u32, FieldName>
    ensures value { IfOk result (λ number. (in_range : IsInRange least most number)
        × (ranged_at name least most (view object.now) ≡ Ok (ranged number in_range))) }
    ensures fault { IfErr result (λ bad. ranged_at name least most (view object.now) ≡ Err bad) }
{
    number_within(object, name, least, most)
}

/// The minute of the day at a field of an object, or the field as a fault.
pub(crate) fn minute_at(body: &Value, name: FieldName) -> Result<Minute, FieldName>
    ensures { result ≡ number_within name 0 last_minute (view body.now) }
{
    let number = number_within(body, name, 0, LAST_MINUTE)?;
    Minute::of(number).ok_or(name)
}
