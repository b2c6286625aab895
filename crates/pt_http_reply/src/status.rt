ghost use Rattle.std.specs.Prelude.{◌≡◌};
ghost use Rattle.pt_http_reply.specs.Status.{status_of_rule};

use http::StatusCode;
use pt_base_values::Rule;

/// The status of a denial by this rule.
pub(crate) fn status_of_rule(rule: Rule) -> StatusCode
    ensures { result ≡ status_of_rule rule }
{
    match rule {
        Rule::Key => StatusCode::UNAUTHORIZED,
        Rule::Number => StatusCode::CONFLICT,
        Rule::Caller => StatusCode::FORBIDDEN,
        Rule::Unknown => StatusCode::NOT_FOUND,
        _ => StatusCode::UNPROCESSABLE_ENTITY,
    }
}
