ghost use Rattle.std.specs.Prelude.{◌≡◌};
ghost use Rattle.serde_json.specs.View.{view};
ghost use Rattle.pt_http_request.specs.Policy.{policy_in};

use crate::FieldName;
use crate::fields::ranged_at;
use pt_base_values::{HIGHEST_FARE, Policy};
use serde_json::Value;

/// The policy that an object spells, or its first bad field.
pub(crate) fn policy_of(body: &Value) -> Result<Policy, FieldName>
    ensures { result ≡ policy_in (view body.now) }
{
    let base = ranged_at(body, FieldName::Base, 0, HIGHEST_FARE)?;
    let transfer = ranged_at(body, FieldName::Transfer, 0, HIGHEST_FARE)?;
    let fare = ranged_at(body, FieldName::Fare, 0, HIGHEST_FARE)?;
    let service = ranged_at(body, FieldName::Service, 0, 30)?;
    let extra_ride = ranged_at(body, FieldName::ExtraRide, 0, 240)?;
    let min_missed = ranged_at(body, FieldName::MinMissed, 1, 1_000)?;
    let percent = ranged_at(body, FieldName::Percent, 1, 100)?;
    let span_days = ranged_at(body, FieldName::SpanDays, 1, 366)?;
    Ok(Policy {
        base,
        transfer,
        fare,
        service: service as u16,
        extra_ride: extra_ride as u16,
        min_missed: min_missed as u16,
        percent: percent as u16,
        span_days: span_days as u16,
    })
}
