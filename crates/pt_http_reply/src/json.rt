ghost use Rattle.std.specs.Prelude.{◌≡◌, ◌≤◌, ◌+◌, ◌*◌, ◌++◌, map, length, OnOk};
ghost use Rattle.pt_http_reply.specs.Json.{truth_text, value_text, member_text, object, IsShortValue, AreShort};

use crate::ReplyBuffer;
use itoa::Buffer;
use pt_http_request::FieldName;
use std::alloc::AllocError;

/// The value of a member of an object.
#[derive(Clone, Copy)]
pub(crate) enum MemberValue<'a> {
    Null,
    Truth(bool),
    Number(u32),
    /// A text whose characters need no escape, of at most 15 bytes.
    Text(&'a [u8]),
}

/// An object of these members, at most 15, in their order.
pub(crate) fn object(members: &[(FieldName, MemberValue)]) -> ReplyBuffer
    requires number { length members.now ≤ 15 }
    requires short { AreShort members.now }
    ensures text { result ≡ object (map member_text members.now) }
    ensures short { length result ≤ 2 + 32 * length members.now }
{
    let mut text = ReplyBuffer::of(b"{");
    for (index, member) in members.iter().enumerate() {
        if index > 0 {
            text.push(b",");
        }
        push_member(*member, &mut text);
    }
    text.push(b"}");
    text
}

/// Adds a member of an object at the end.
fn push_member(member: (FieldName, MemberValue), out: &mut ReplyBuffer)
    requires room { length out.old ≤ 481 }
    requires short { IsShortValue member.1 }
    ensures text { out.new ≡ out.old ++ member_text member.entry }
    ensures short { length out.new ≤ length out.old + 31 }
{
    let (name, value) = member;
    out.push(b"\"");
    out.push(name.text().as_bytes());
    out.push(b"\":");
    push_value(value, out);
}

/// Adds a value at the end.
fn push_value(value: MemberValue, out: &mut ReplyBuffer)
    requires room { length out.old ≤ 495 }
    requires short { IsShortValue value }
    ensures text { out.new ≡ out.old ++ value_text value.entry }
    ensures short { length out.new ≤ length out.old + 17 }
{
    match value {
        MemberValue::Null => out.push(b"null"),
        MemberValue::Truth(truth) => out.push(truth_text(truth)),
        MemberValue::Number(number) => out.push(Buffer::new().format(number).as_bytes()),
        MemberValue::Text(text) => {
            out.push(b"\"");
            out.push(text);
            out.push(b"\"");
        }
    }
}

/// `true` or `false`.
pub(crate) fn truth_text(value: bool) -> &'static [u8]
    ensures text { result.now ≡ truth_text value }
    ensures short { length result.now ≤ 5 }
{
    if value { b"true" } else { b"false" }
}

/// Adds bytes at the end.
pub(crate) fn push(text: &[u8], out: &mut Vec<u8>) -> Result<(), AllocError>
    ensures { OnOk result (out.new.items ≡ out.old.items ++ text.now) }
{
    out.extend_from_slice(text)
}
