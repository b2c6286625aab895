ghost use Rattle.std.specs.Prelude.{◌≡◌, map};
ghost use Rattle.serde_json.specs.View.{view};
ghost use Rattle.pt_http_request.specs.Entries.{condition_in, conditions_from, conditions_at};

use crate::FieldName;
use crate::routes::values_of;
use arrayvec::ArrayVec;
use pt_rights_conditions::condition_from;
use pt_rights_files::{Condition, Conditions, MOST_CONDITIONS};
use serde_json::Value;

/// The condition that a value of a list spells.
fn condition_in(value: &Value) -> Option<Condition>
    ensures { result ≡ condition_in (view value.now) }
{
    condition_from(value.as_str()?)
}

/// The conditions that a list spells: one to four.
fn conditions_from(list: &[Value]) -> Option<Conditions>
    ensures { result ≡ conditions_from (map view list.now) }
{
    let mut members = ArrayVec::<Condition, MOST_CONDITIONS>::new();
    for value in list {
        members.try_push(condition_in(value)?).ok()?;
    }
    Conditions::of(&members)
}

/// The conditions that the body of a grant lists.
pub(crate) fn conditions_at(body: &Value) -> Option<Conditions>
    ensures { result ≡ conditions_at (view body.now) }
{
    conditions_from(values_of(body.get(FieldName::Conditions.text())?)?)
}
