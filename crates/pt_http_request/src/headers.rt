ghost use Rattle.std.specs.Prelude.{◌≡◌, ◌≤◌, ℕ, codes, map, length, All, IfOk, IfErr, IfSome, IsNone, Ok, Err};
ghost use Rattle.std.specs.Prelude.{option_map};
ghost use Rattle.httparse.specs.Spans.{IsHeaderWithin, header_bytes};
ghost use Rattle.pt_http_request.specs.Faults.{OnField, OnRefused};
ghost use Rattle.pt_http_request.specs.Headers.{same_name, values_named, IsGiven, IsBodyLength, key_in, number_of};

use crate::fault::MessageFault;
use crate::{FieldName, RequestFault};
use httparse::spans::HeaderSpan;
use pt_base_values::number_from;
use pt_http_inbox::LONGEST_BODY;
use std::alloc::Global;

/// What the headers of a message give under one name.
#[derive(Clone, Copy)]
enum Given<'b> {
    Missing,
    Once(&'b [u8]),
    Repeated,
}

/// Whether two header names are the same, apart from the case of letters.
fn same_name(one: &[u8], other: &[u8]) -> bool
    ensures { result ≡ same_name one.now other.now }
{
    one.eq_ignore_ascii_case(other)
}

/// What the headers of a message give under a name.
fn value_of<'b>(headers: &[HeaderSpan], bytes: &'b [u8], name: &[u8]) -> Given<'b>
    requires { All (IsHeaderWithin (length bytes.now)) headers.now }
    ensures { IsGiven result (values_named name.now (map (header_bytes bytes.now) headers.now)) }
{
    let [first, rest @ ..] = headers else {
        return Given::Missing;
    };
    let later = value_of(rest, bytes, name);
    if !same_name(name, first.name.of(bytes)) {
        return later;
    }
    match later {
        Given::Missing => Given::Once(first.value.of(bytes)),
        _ => Given::Repeated,
    }
}

/// The length of a message's body by its headers; `None` if they give no length in the limits.
pub fn body_length(headers: &[HeaderSpan], bytes: &[u8]) -> Option<u64>
    requires { All (IsHeaderWithin (length bytes.now)) headers.now }
    ensures length { IfSome result (IsBodyLength (map (header_bytes bytes.now) headers.now)) }
    ensures none { IsNone result → (number : ℕ) → ¬ (IsBodyLength (map (header_bytes bytes.now) headers.now) number) }
{
    let Given::Missing = value_of(headers, bytes, b"transfer-encoding") else {
        return None;
    };
    match value_of(headers, bytes, b"content-length") {
        Given::Missing => Some(0),
        Given::Once(value) => number_from(value, 16, LONGEST_BODY as u64),
        Given::Repeated => None,
    }
}

/// The caller's key, if the headers give one.
pub(crate) fn key_of(
    alloc: Global,
    headers: &[HeaderSpan],
    bytes: &[u8],
) -> Result<Option<Vec<u8>>, MessageFault>
    requires { All (IsHeaderWithin (length bytes.now)) headers.now }
    ensures key { IfOk result (λ key. key_in (map (header_bytes bytes.now) headers.now) ≡ Ok (option_map (λ v.
        v.items) key)) }
    ensures fault { IfErr result (OnRefused (OnField (λ name. key_in (map (header_bytes bytes.now) headers.now) ≡ Err
        name))) }
{
    match value_of(headers, bytes, b"desk-key") {
        Given::Missing => Ok(None),
        Given::Once(value) => Ok(Some(Vec::from_slice(alloc, value)?)),
        Given::Repeated => Err(MessageFault::Refused(RequestFault::Field(FieldName::DeskKey))),
    }
}

/// The caller's number for a write.
pub(crate) fn number_of(headers: &[HeaderSpan], bytes: &[u8]) -> Option<u64>
    requires { All (IsHeaderWithin (length bytes.now)) headers.now }
    ensures value { result ≡ number_of (values_named (codes "desk-number") (map (header_bytes bytes.now) headers.now)) }
    ensures in_range { IfSome result (λ number. number ≤ 4_294_967_295) }
{
    match value_of(headers, bytes, b"desk-number") {
        Given::Once(value) => number_from(value, 10, 4_294_967_295),
        _ => None,
    }
}
