ghost use Rattle.std.specs.Prelude.{◌≡◌};
ghost use Rattle.serde_json.specs.View.{view};
ghost use Rattle.pt_http_request.specs.Riders.{residence_named, residence_at, rider_in};

use crate::FieldName;
use crate::fields::{id_at, text_at, truth_at, truth_if_any_at};
use pt_base_values::{Residence, Rider};
use serde_json::Value;

/// The residence of this name.
fn residence_named(name: &str) -> Option<Residence>
    ensures { result ≡ residence_named name.now }
{
    match name {
        "resident" => Some(Residence::Resident),
        "visitor" => Some(Residence::Visitor),
        _ => None,
    }
}

/// The residence that a field names, or the field as a fault.
fn residence_at(body: &Value, name: FieldName) -> Result<Residence, FieldName>
    ensures { result ≡ residence_at name (view body.now) }
{
    residence_named(text_at(body, name)?).ok_or(name)
}

/// The rider's record that an object spells, or its first bad field.
pub(crate) fn rider_of(body: &Value) -> Result<Rider, FieldName>
    ensures { result ≡ rider_in (view body.now) }
{
    let id = id_at(body, FieldName::Id)?;
    let kind = residence_at(body, FieldName::Kind)?;
    let attendant = truth_at(body, FieldName::Attendant)?;
    let wheelchair = truth_if_any_at(body, FieldName::Wheelchair)?;
    Ok(Rider {
        id,
        kind,
        attendant,
        wheelchair,
    })
}
