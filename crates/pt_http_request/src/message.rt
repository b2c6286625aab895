ghost use Rattle.std.specs.Prelude.{◌≡◌, [], map, length, All, IsUtf8, Some, None, Ok, Err, IfOk, IfErr};
ghost use Rattle.httparse.specs.Spans.{IsHeaderWithin, header_bytes};
ghost use Rattle.serde_json.specs.View.{view};
ghost use Rattle.pt_http_request.specs.Faults.{OnField, OnRefused};
ghost use Rattle.pt_http_request.specs.Messages.{body_text, object_from, write_in, sent, write_from, request_in};
ghost use Rattle.pt_http_request.specs.Messages.{SpellsMessage, IsMessageFault, IsMessageRead, IsRefusedFor};
ghost use Rattle.pt_http_request.specs.declared.fault.RequestFault.{RequestFault};
ghost use Rattle.pt_http_request.specs.declared.fault.RequestFault.TheVariants.{Json};
ghost use Rattle.pt_http_request.specs.declared.targets.Target.TheVariants as the_target;
ghost use Rattle.pt_http_request.specs.declared.message.Message.{Message};

use crate::callers::caller_of;
use crate::entries::entry_of;
use crate::fault::MessageFault;
use crate::headers::{key_of, number_of};
use crate::places::place_of;
use crate::policy::policy_of;
use crate::riders::rider_of;
use crate::routes::route_of;
use crate::targets::{Path, Target, WriteTarget, target_at};
use crate::trips::{booking_of, outcome_of, wish_of};
use crate::vehicles::vehicle_of;
use crate::{AllowedMethod, FieldName, RequestFault};
use httparse::spans::HeaderSpan;
use matchit::Router;
use pt_desk_requests::{Read, Request, Write};
use serde_json::Value;
use std::alloc::Global;
use std::str;

/// A request, with the values of its headers.
#[derive(Drop)]
pub struct Message {
    /// The caller's key, if a header gives one.
    pub key: Option<Vec<u8>>,
    /// The caller's number for a write; 0 for a read, which needs none.
    pub number: u32,
    pub request: Request,
}

/// The JSON object that a body spells.
fn object_from(alloc: Global, body: &[u8]) -> Result<Value, MessageFault>
    ensures found { IfOk result (λ value. object_from (body_text body.now) ≡ Some (view value)) }
    ensures fault { IfErr result (OnRefused (λ why. why ≡ Json)) }
    ensures none { IfErr result (OnRefused (λ why. object_from (body_text body.now) ≡ None)) }
{
    let bytes = if body.is_empty() { b"{}" } else { body };
    let Ok(text) = str::from_utf8(bytes) else {
        return Err(MessageFault::Refused(RequestFault::Json));
    };
    match Value::from_str(alloc, text) {
        Ok(value) if value.is_object() => Ok(value),
        Ok(_) => Err(MessageFault::Refused(RequestFault::Json)),
        Err(error) if error.is_memory() => Err(MessageFault::Memory),
        Err(_) => Err(MessageFault::Refused(RequestFault::Json)),
    }
}

/// The write to this target that the fields of a body spell.
fn fields_from(alloc: Global, target: WriteTarget, body: &Value) -> Result<Write, MessageFault>
    ensures write { IfOk result (λ write. write_in target (view body.now) ≡ Ok write) }
    ensures fault { IfErr result (OnRefused (OnField (λ name. write_in target (view body.now) ≡ Err name))) }
{
    match target {
        WriteTarget::Callers => Ok(Write::PutCaller(caller_of(body)?)),
        WriteTarget::Policy => Ok(Write::PutPolicy(policy_of(body)?)),
        WriteTarget::Places => Ok(Write::PutPlace(place_of(body)?)),
        WriteTarget::Routes => Ok(Write::PutRoute(route_of(alloc, body)?)),
        WriteTarget::Riders => Ok(Write::PutRider(rider_of(body)?)),
        WriteTarget::Vehicles => Ok(Write::PutVehicle(vehicle_of(body)?)),
        WriteTarget::Entries(rider) => {
            let entry = entry_of(alloc, body)?;
            Ok(Write::Enter { rider, entry })
        }
        WriteTarget::Trips => {
            let (rider, wish) = booking_of(body)?;
            Ok(Write::Book { rider, wish })
        }
        WriteTarget::Change(trip) => {
            let wish = wish_of(body)?;
            Ok(Write::Change { trip, wish })
        }
        WriteTarget::Cancel(trip) => Ok(Write::Cancel(trip)),
        WriteTarget::Outcome(trip) => {
            let outcome = outcome_of(body)?;
            Ok(Write::Outcome { trip, outcome })
        }
    }
}

/// The write that header lines and a body spell.
fn write_from(
    alloc: Global,
    target: WriteTarget,
    headers: &[HeaderSpan],
    bytes: &[u8],
    body: &[u8],
) -> Result<Message, MessageFault>
    requires { All (IsHeaderWithin (length bytes.now)) headers.now }
    ensures write { IfOk result (λ message. write_from (map (header_bytes bytes.now) headers.now) target body.now
        ≡ Ok (sent message)) }
    ensures fault { IfErr result (OnRefused (λ why. write_from (map (header_bytes bytes.now) headers.now) target
        body.now ≡ Err why)) }
{
    let body = object_from(alloc, body)?;
    let key = key_of(alloc, headers, bytes)?;
    let Some(number) = number_of(headers, bytes) else {
        return Err(MessageFault::Refused(RequestFault::Field(FieldName::DeskNumber)));
    };
    let write = fields_from(alloc, target, &body)?;
    Ok(Message {
        key,
        number: number as u32,
        request: Request::Write(write),
    })
}

/// The read that a method and header lines spell.
fn read_from(
    alloc: Global,
    asked: Read,
    method: &[u8],
    headers: &[HeaderSpan],
    bytes: &[u8],
) -> Result<Message, MessageFault>
    requires { All (IsHeaderWithin (length bytes.now)) headers.now }
    ensures read { IfOk result (λ message. request_in method.now (map (header_bytes bytes.now) headers.now) []
        (the_target.Read asked) ≡ Ok (sent message)) }
    ensures fault { IfErr result (OnRefused (λ why. request_in method.now (map (header_bytes bytes.now) headers.now) []
        (the_target.Read asked) ≡ Err why)) }
{
    if method != b"GET".as_slice() {
        return Err(MessageFault::Refused(RequestFault::Method(AllowedMethod::Get)));
    }
    let key = key_of(alloc, headers, bytes)?;
    Ok(Message {
        key,
        number: 0,
        request: Request::Read(asked),
    })
}

/// The write that a method, header lines and a body spell.
fn post_from(
    alloc: Global,
    target: WriteTarget,
    method: &[u8],
    headers: &[HeaderSpan],
    bytes: &[u8],
    body: &[u8],
) -> Result<Message, MessageFault>
    requires { All (IsHeaderWithin (length bytes.now)) headers.now }
    ensures write { IfOk result (λ message. request_in method.now (map (header_bytes bytes.now) headers.now) body.now
        (the_target.Write target) ≡ Ok (sent message)) }
    ensures fault { IfErr result (OnRefused (λ why. request_in method.now (map (header_bytes bytes.now) headers.now)
        body.now (the_target.Write target) ≡ Err why)) }
{
    if method != b"POST".as_slice() {
        return Err(MessageFault::Refused(RequestFault::Method(AllowedMethod::Post)));
    }
    write_from(alloc, target, headers, bytes, body)
}

/// The message to this target that a method, header lines and a body spell.
fn message_to(
    alloc: Global,
    target: Target,
    method: &[u8],
    headers: &[HeaderSpan],
    bytes: &[u8],
    body: &[u8],
) -> Result<Message, MessageFault>
    requires { All (IsHeaderWithin (length bytes.now)) headers.now }
    ensures message { IfOk result (λ message. request_in method.now (map (header_bytes bytes.now) headers.now)
        body.now target ≡ Ok (sent message)) }
    ensures fault { IfErr result (OnRefused (λ why. request_in method.now (map (header_bytes bytes.now) headers.now)
        body.now target ≡ Err why)) }
{
    match target {
        Target::Read(asked) => read_from(alloc, asked, method, headers, bytes),
        Target::Write(target) => post_from(alloc, target, method, headers, bytes, body),
    }
}

/// The request that the parts of a message spell: the method and target of its head, its header lines as spans of
/// `bytes`, and its body.
pub fn message_from(
    alloc: Global,
    router: &Router<Path>,
    method: &[u8],
    target: &[u8],
    headers: &[HeaderSpan],
    bytes: &[u8],
    body: &[u8],
) -> Result<Message, MessageFault>
    requires within { All (IsHeaderWithin (length bytes.now)) headers.now }
    requires text { IsUtf8 target.now }
    ensures message { IfOk result (SpellsMessage router.now method.now target.now
        (map (header_bytes bytes.now) headers.now) body.now) }
    ensures fault { IfErr result (OnRefused (IsMessageFault router.now method.now target.now
        (map (header_bytes bytes.now) headers.now) body.now)) }
    ensures spelled { (message : Message) → SpellsMessage router.now method.now target.now
        (map (header_bytes bytes.now) headers.now) body.now message
        → IsMessageRead message result }
    ensures refused { (why : RequestFault) → IsMessageFault router.now method.now target.now
        (map (header_bytes bytes.now) headers.now) body.now why
        → IsRefusedFor why result }
{
    let Some(asked) = target_at(router, target) else {
        return Err(MessageFault::Refused(RequestFault::Path));
    };
    message_to(alloc, asked, method, headers, bytes, body)
}
