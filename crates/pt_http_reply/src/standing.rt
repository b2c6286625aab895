ghost use Rattle.std.specs.Prelude.{◌≡◌, ◌++◌, ℕ, List, pos, IfOk, OnOk};
ghost use Rattle.pt_base_values.specs.DateText.{IsDateText};
ghost use Rattle.pt_http_reply.specs.Body.{condition_json, conditions_text, named_standing_body, granted_body};
ghost use Rattle.pt_http_reply.specs.Body.{visitor_body, IsStandingBody};

use crate::json::{push, truth_text};
use pt_base_values::Fault;
use pt_rights_conditions::condition_text;
use pt_rights_files::{Condition, Conditions, Grant, Standing};
use std::alloc::{AllocError, Global};

/// The body with a resident's standing. The error is out of memory.
pub(crate) fn standing_body(
    alloc: Global,
    standing: &Standing,
    suspended: bool,
) -> Result<Vec<u8>, Fault>
    ensures { IfOk result (λ body. IsStandingBody standing.now suspended body.items) }
{
    match standing {
        Standing::Presumed => Ok(named_body(alloc, "presumed", suspended)?),
        Standing::AppealOverdue => Ok(named_body(alloc, "appeal-overdue", suspended)?),
        Standing::None => Ok(named_body(alloc, "none", suspended)?),
        Standing::Granted(grant) => granted_body(alloc, grant, suspended),
    }
}

/// The body that says whether a visitor may use the day. The error is out of memory.
pub(crate) fn visitor_body(alloc: Global, may_use: bool) -> Result<Vec<u8>, AllocError>
    ensures { IfOk result (λ body. body.items ≡ visitor_body may_use) }
{
    let name = if may_use { "visitor" } else { "visitor-used" };
    named_body(alloc, name, false)
}

/// The body of a standing that has only a name.
fn named_body(alloc: Global, name: &str, suspended: bool) -> Result<Vec<u8>, AllocError>
    ensures { IfOk result (λ body. body.items ≡ named_standing_body name.now suspended) }
{
    let mut body = Vec::new(alloc);
    push(b"{\"standing\":\"", &mut body)?;
    push(name.as_bytes(), &mut body)?;
    push(b"\",\"suspended\":", &mut body)?;
    push(truth_text(suspended), &mut body)?;
    push(b"}", &mut body)?;
    Ok(body)
}

/// The body of a grant.
fn granted_body(alloc: Global, grant: &Grant, suspended: bool) -> Result<Vec<u8>, Fault>
    ensures { IfOk result (λ body. (until : List ℕ) × IsDateText (pos grant.now.until) until
        × (body.items ≡ granted_body grant.now suspended until)) }
{
    let mut body = Vec::new(alloc);
    push(b"{\"conditions\":[", &mut body)?;
    write_conditions(&grant.conditions, &mut body)?;
    push(b"],\"standing\":\"granted\",\"suspended\":", &mut body)?;
    push(truth_text(suspended), &mut body)?;
    push(b",\"until\":\"", &mut body)?;
    grant.until.write(&mut body)?;
    push(b"\"}", &mut body)?;
    Ok(body)
}

/// Adds the conditions as JSON texts, with a comma between each two.
fn write_conditions(conditions: &Conditions, out: &mut Vec<u8>) -> Result<(), AllocError>
    ensures { OnOk result (out.new.items ≡ out.old.items ++ conditions_text conditions.now) }
{
    for (index, condition) in conditions.as_slice().iter().enumerate() {
        if index > 0 {
            push(b",", out)?;
        }
        write_condition(*condition, out)?;
    }
    Ok(())
}

/// Adds one condition as a JSON text.
fn write_condition(condition: Condition, out: &mut Vec<u8>) -> Result<(), AllocError>
    ensures { OnOk result (out.new.items ≡ out.old.items ++ condition_json condition) }
{
    push(b"\"", out)?;
    push(condition_text(condition).as_slice(), out)?;
    push(b"\"", out)
}
