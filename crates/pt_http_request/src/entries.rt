ghost use Rattle.std.specs.Prelude.{◌≡◌, Ok, Err, IfOk, IfErr};
ghost use Rattle.serde_json.specs.View.{view};
ghost use Rattle.pt_http_request.specs.Fields.{reasons_at};
ghost use Rattle.pt_http_request.specs.Entries.{kind_named, kind_in, grant_in, place_in_file, suspension_in};
ghost use Rattle.pt_http_request.specs.Entries.{entry_of_kind, entry_in};
ghost use Rattle.pt_http_request.specs.Faults.{OnField, OnRefused};

use crate::FieldName;
use crate::conditions::conditions_at;
use crate::fault::MessageFault;
use crate::fields::{day_at, number_within, text_at};
use crate::numbers::LAST_POSITION;
use pt_rights_files::{Entry, Grant, Position, Reasons};
use serde_json::Value;
use std::alloc::Global;

/// The kinds of entries in a case file, as a body names them.
#[derive(Clone, Copy)]
enum EntryKind {
    Complete,
    Grant,
    Refuse,
    Appeal,
    Heard,
    AppealGranted,
    AppealDenied,
    Overturn,
    Notice,
    NoticeHeard,
    Suspend,
}

/// The kind of entry of this name.
fn kind_named(name: &str) -> Option<EntryKind>
    ensures { result ≡ kind_named name.now }
{
    match name {
        "complete" => Some(EntryKind::Complete),
        "grant" => Some(EntryKind::Grant),
        "refuse" => Some(EntryKind::Refuse),
        "appeal" => Some(EntryKind::Appeal),
        "heard" => Some(EntryKind::Heard),
        "appeal-granted" => Some(EntryKind::AppealGranted),
        "appeal-denied" => Some(EntryKind::AppealDenied),
        "overturn" => Some(EntryKind::Overturn),
        "notice" => Some(EntryKind::Notice),
        "notice-heard" => Some(EntryKind::NoticeHeard),
        "suspend" => Some(EntryKind::Suspend),
        _ => None,
    }
}

/// The kind of the entry that an object spells, or the field as the fault.
fn kind_of(body: &Value) -> Result<EntryKind, FieldName>
    ensures { result ≡ kind_in (view body.now) }
{
    kind_named(text_at(body, FieldName::Entry)?).ok_or(FieldName::Entry)
}

/// The grant that an object spells, or its first bad field.
fn grant_of(body: &Value) -> Result<Grant, FieldName>
    ensures { result ≡ grant_in (view body.now) }
{
    let until = day_at(body, FieldName::Until)?;
    let conditions = conditions_at(body).ok_or(FieldName::Conditions)?;
    Ok(Grant { until, conditions })
}

/// The position in a case file that an appeal is against.
fn place_of(body: &Value) -> Result<Position, FieldName>
    ensures { result ≡ place_in_file (view body.now) }
{
    let place = number_within(body, FieldName::Against, 0, LAST_POSITION)?;
    Position::of(place).ok_or(FieldName::Against)
}

/// The reasons at a field of an object, or the field as the fault.
fn reasons_at(alloc: Global, body: &Value, name: FieldName) -> Result<Reasons, MessageFault>
    ensures reasons { IfOk result (λ reasons. reasons_at name (view body.now) ≡ Ok reasons) }
    ensures fault { IfErr result (OnRefused (OnField (λ bad. reasons_at name (view body.now) ≡ Err bad))) }
{
    let text = text_at(body, name)?;
    let bytes = Vec::from_slice(alloc, text.as_bytes())?;
    let reasons = Reasons::of(bytes).ok_or(name)?;
    Ok(reasons)
}

/// The suspension that an object spells, or its first bad field.
fn suspension_of(alloc: Global, body: &Value) -> Result<Entry, MessageFault>
    ensures suspension { IfOk result (λ entry. suspension_in (view body.now) ≡ Ok entry) }
    ensures fault { IfErr result (OnRefused (OnField (λ name. suspension_in (view body.now) ≡ Err name))) }
{
    let starts = day_at(body, FieldName::Starts)?;
    let ends = day_at(body, FieldName::Ends)?;
    let reasons = reasons_at(alloc, body, FieldName::Reasons)?;
    Ok(Entry::Suspend {
        starts,
        ends,
        reasons,
    })
}

/// The entry of a kind that an object spells, or its first bad field.
fn entry_of_kind(alloc: Global, kind: EntryKind, body: &Value) -> Result<Entry, MessageFault>
    ensures entry { IfOk result (λ entry. entry_of_kind kind (view body.now) ≡ Ok entry) }
    ensures fault { IfErr result (OnRefused (OnField (λ name. entry_of_kind kind (view body.now) ≡ Err name))) }
{
    match kind {
        EntryKind::Complete => Ok(Entry::Complete),
        EntryKind::Grant => Ok(Entry::Grant(grant_of(body)?)),
        EntryKind::Refuse => Ok(Entry::Refuse(reasons_at(alloc, body, FieldName::Reasons)?)),
        EntryKind::Appeal => Ok(Entry::Appeal {
            against: place_of(body)?,
        }),
        EntryKind::Heard => Ok(Entry::Heard),
        EntryKind::AppealGranted => Ok(Entry::AppealGranted(grant_of(body)?)),
        EntryKind::AppealDenied => {
            let reasons = reasons_at(alloc, body, FieldName::Reasons)?;
            Ok(Entry::AppealDenied(reasons))
        }
        EntryKind::Overturn => Ok(Entry::Overturn),
        EntryKind::Notice => Ok(Entry::Notice(reasons_at(alloc, body, FieldName::Basis)?)),
        EntryKind::NoticeHeard => Ok(Entry::NoticeHeard),
        EntryKind::Suspend => suspension_of(alloc, body),
    }
}

/// The entry that an object spells, or its first bad field.
pub(crate) fn entry_of(alloc: Global, body: &Value) -> Result<Entry, MessageFault>
    ensures entry { IfOk result (λ entry. entry_in (view body.now) ≡ Ok entry) }
    ensures fault { IfErr result (OnRefused (OnField (λ name. entry_in (view body.now) ≡ Err name))) }
{
    let kind = kind_of(body)?;
    entry_of_kind(alloc, kind, body)
}
