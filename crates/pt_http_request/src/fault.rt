ghost use Rattle.std.specs.Prelude.{◌≡◌, ◌≤◌, length};
ghost use Rattle.pt_http_request.specs.Names.{fault_name, method_name, status_of_fault};

use crate::FieldName;
use http::StatusCode;
use std::alloc::AllocError;

/// The one method that a path takes.
#[derive(Clone, Copy)]
pub enum AllowedMethod {
    Get,
    Post,
}

impl AllowedMethod {
    /// The name of the method in HTTP.
    pub fn name(self) -> &'static str
        ensures value { result.now ≡ method_name self }
        ensures short { length result.now ≤ 4 }
    {
        match self {
            AllowedMethod::Get => "GET",
            AllowedMethod::Post => "POST",
        }
    }
}

/// Why bytes are not a request to the desk.
#[derive(Clone, Copy)]
pub enum RequestFault {
    /// The head cannot be read.
    Head,
    /// The headers give no length in the limits, or the body is shorter than its length.
    Length,
    /// No route of the desk has the path.
    Path,
    /// The path takes only this method.
    Method(AllowedMethod),
    /// The body is not a JSON object.
    Json,
    /// This header or field is missing, of another kind or out of range.
    Field(FieldName),
}

impl RequestFault {
    /// The name in a reply.
    pub fn name(self) -> &'static str
        ensures value { result.now ≡ fault_name self }
        ensures short { length result.now ≤ 11 }
    {
        match self {
            RequestFault::Head => "http.head",
            RequestFault::Length => "http.length",
            RequestFault::Path => "http.path",
            RequestFault::Method(_) => "http.method",
            RequestFault::Json => "http.json",
            RequestFault::Field(_) => "http.field",
        }
    }

    /// The HTTP status of the reply with this fault.
    pub fn status(self) -> StatusCode
        ensures { result ≡ status_of_fault self }
    {
        match self {
            RequestFault::Path => StatusCode::NOT_FOUND,
            RequestFault::Method(_) => StatusCode::METHOD_NOT_ALLOWED,
            RequestFault::Head
            | RequestFault::Length
            | RequestFault::Json
            | RequestFault::Field(_) => StatusCode::BAD_REQUEST,
        }
    }
}

/// Why reading a message returned no request.
#[derive(Clone, Copy)]
pub enum MessageFault {
    /// It is not a request: the first fault.
    Refused(RequestFault),
    /// Out of memory.
    Memory,
}

impl From<AllocError> for MessageFault {
    ghost use Rattle.pt_http_request.specs.declared.fault.MessageFault.TheVariants.{Memory};

    ghost from_gives = { λ error fault. fault ≡ Memory };

    fn from(_error: AllocError) -> Self {
        MessageFault::Memory
    }
}

impl From<FieldName> for MessageFault {
    ghost use Rattle.pt_http_request.specs.declared.fault.RequestFault.TheVariants.{Field};
    ghost use Rattle.pt_http_request.specs.declared.fault.MessageFault.TheVariants.{Refused};

    ghost from_gives = { λ name fault. fault ≡ Refused (Field name) };

    fn from(name: FieldName) -> Self {
        MessageFault::Refused(RequestFault::Field(name))
    }
}
