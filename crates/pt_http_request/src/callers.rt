ghost use Rattle.std.specs.Prelude.{◌≡◌};
ghost use Rattle.pt_desk_requests.specs.declared.caller.Role.{Role};
ghost use Rattle.serde_json.specs.View.{view};
ghost use Rattle.pt_http_request.specs.Callers.{role_alone, role_named, caller_in};

use crate::FieldName;
use crate::fields::{digest_at, id_at, text_at, whole_at};
use pt_desk_requests::{Caller, Role};
use serde_json::Value;

/// A role that names nobody: its subject must be 0.
fn role_alone(role: Role, body: &Value) -> Result<Role, FieldName>
    ensures { result ≡ role_alone role (view body.now) }
{
    let subject = whole_at(body, FieldName::Subject)?;
    if subject == 0 {
        return Ok(role);
    }
    Err(FieldName::Subject)
}

/// The role of this name, with the body's subject.
fn role_named(name: &str, body: &Value) -> Result<Role, FieldName>
    ensures { result ≡ role_named name.now (view body.now) }
{
    match name {
        "rider" => {
            let rider = id_at(body, FieldName::Subject)?;
            Ok(Role::Rider(rider))
        }
        "clerk" => role_alone(Role::Clerk, body),
        "examiner" => role_alone(Role::Examiner, body),
        "officer" => role_alone(Role::Officer, body),
        "dispatcher" => role_alone(Role::Dispatcher, body),
        "driver" => {
            let vehicle = id_at(body, FieldName::Subject)?;
            Ok(Role::Driver(vehicle))
        }
        "admin" => role_alone(Role::Admin, body),
        _ => Err(FieldName::Role),
    }
}

/// The caller that an object spells, or its first bad field.
pub(crate) fn caller_of(body: &Value) -> Result<Caller, FieldName>
    ensures { result ≡ caller_in (view body.now) }
{
    let id = id_at(body, FieldName::Id)?;
    let name = text_at(body, FieldName::Role)?;
    let role = role_named(name, body)?;
    let digest = digest_at(body, FieldName::Digest)?;
    Ok(Caller { id, role, digest })
}
