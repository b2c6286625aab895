ghost use Rattle.std.specs.Prelude.{◌≡◌, ◌<◌, IfOk, IsSome, All};
ghost use Rattle.std.specs.Int.{IsInRange};
ghost use Rattle.pt_rights_files.specs.Conditions.{IsCondition, IsConditions};
ghost use Rattle.pt_rights_files.specs.Reasons.{IsReasons};
ghost use Rattle.pt_desk_spelling.specs.Fields.{list_bytes, text_bytes};
ghost use Rattle.pt_desk_spelling.specs.Ranges.{IsGrant, IsEntry};
ghost use Rattle.pt_desk_spelling.specs.Requests.{condition_bytes, grant_bytes, entry_bytes};
ghost use Rattle.pt_desk_spelling_reading.specs.Reading.{Takes, Finds, FindsEntry};

use crate::fields::{number_from, take_day, take_number_in, take_text};
use arrayvec::ArrayVec;
use pt_rights_conditions::condition_from;
use pt_rights_files::{Condition, Conditions, Entry, Grant, MOST_CONDITIONS, Position, Reasons};
use std::alloc::{AllocError, Global};

/// Takes a condition, spelled as its text; `None` if no such bytes come next, here and in the next function.
fn take_condition(left: &mut &[u8]) -> Option<Condition>
    ensures { Takes condition_bytes IsCondition left.old.now result left.new.now }
{
    let bytes = take_text(left)?;
    match std::str::from_utf8(bytes) {
        Ok(text) => condition_from(text),
        Err(_) => None,
    }
}

/// Takes the conditions of a grant, after their number.
fn take_conditions(left: &mut &[u8]) -> Option<Conditions>
    ensures { Takes (list_bytes condition_bytes) (λ conditions. IsConditions conditions × All IsCondition conditions)
        left.old.now result left.new.now }
{
    let count = take_number_in(left, 1, MOST_CONDITIONS as u32)?;
    let mut members = ArrayVec::<Condition, MOST_CONDITIONS>::new();
    for _taken in 0..count {
        members.push(take_condition(left)?);
    }
    Conditions::of(&members)
}

/// The grant whose fields the bytes are; `None` if they are no such fields, here and below.
fn grant_from(bytes: &[u8]) -> Option<Grant>
    ensures { Finds grant_bytes IsGrant bytes.now result }
{
    let mut left = bytes;
    Some(Grant {
        until: take_day(&mut left)?,
        conditions: take_conditions(&mut left)?,
    })
}

/// The reasons that the bytes spell, after their length. The error is out of memory, here and below.
fn reasons_from(alloc: Global, bytes: &[u8]) -> Result<Option<Reasons>, AllocError>
    ensures { IfOk result (Finds text_bytes IsReasons bytes.now) }
{
    let mut left = bytes;
    match take_text(&mut left) {
        Some(text) => Ok(Reasons::of(Vec::from_slice(alloc, text)?)),
        None => Ok(None),
    }
}

/// The entry of a case file that the bytes spell.
pub(crate) fn entry_from(alloc: Global, bytes: &[u8]) -> Result<Option<Entry>, AllocError>
    ensures { IfOk result (Finds entry_bytes IsEntry bytes.now) }
{
    let Some((kind, particulars)) = bytes.split_first() else {
        return Ok(None);
    };
    entry_of(alloc, *kind, particulars)
}

/// The entry of this kind that has these particulars.
fn entry_of(alloc: Global, kind: u8, particulars: &[u8]) -> Result<Option<Entry>, AllocError>
    ensures { IfOk result (FindsEntry kind particulars.now) }
{
    match kind {
        0 => Ok(Some(Entry::Complete)),
        1 => Ok(grant(particulars)),
        2 => refusal(alloc, particulars),
        3 => Ok(appeal(particulars)),
        4 => Ok(Some(Entry::Heard)),
        5 => Ok(appeal_granted(particulars)),
        6 => appeal_denied(alloc, particulars),
        7 => Ok(Some(Entry::Overturn)),
        8 => notice(alloc, particulars),
        9 => Ok(Some(Entry::NoticeHeard)),
        10 => suspension(alloc, particulars),
        _ => Ok(None),
    }
}

/// The grant of an application that has these particulars.
fn grant(particulars: &[u8]) -> Option<Entry>
    ensures { FindsEntry 1 particulars.now result }
{
    Some(Entry::Grant(grant_from(particulars)?))
}

/// The refusal that has these particulars.
fn refusal(alloc: Global, particulars: &[u8]) -> Result<Option<Entry>, AllocError>
    ensures { IfOk result (FindsEntry 2 particulars.now) }
{
    match reasons_from(alloc, particulars)? {
        Some(reasons) => Ok(Some(Entry::Refuse(reasons))),
        None => Ok(None),
    }
}

/// The appeal that has these particulars.
fn appeal(particulars: &[u8]) -> Option<Entry>
    ensures { FindsEntry 3 particulars.now result }
{
    let against = Position::of(number_from(particulars, 0, u32::MAX)?)?;
    Some(Entry::Appeal { against })
}

/// The grant upon an appeal that has these particulars.
fn appeal_granted(particulars: &[u8]) -> Option<Entry>
    ensures { FindsEntry 5 particulars.now result }
{
    Some(Entry::AppealGranted(grant_from(particulars)?))
}

/// The denial of an appeal that has these particulars.
fn appeal_denied(alloc: Global, particulars: &[u8]) -> Result<Option<Entry>, AllocError>
    ensures { IfOk result (FindsEntry 6 particulars.now) }
{
    match reasons_from(alloc, particulars)? {
        Some(reasons) => Ok(Some(Entry::AppealDenied(reasons))),
        None => Ok(None),
    }
}

/// The notice of a suspension that has these particulars.
fn notice(alloc: Global, particulars: &[u8]) -> Result<Option<Entry>, AllocError>
    ensures { IfOk result (FindsEntry 8 particulars.now) }
{
    match reasons_from(alloc, particulars)? {
        Some(basis) => Ok(Some(Entry::Notice(basis))),
        None => Ok(None),
    }
}

/// The suspension that has these particulars.
fn suspension(alloc: Global, particulars: &[u8]) -> Result<Option<Entry>, AllocError>
    ensures { IfOk result (FindsEntry 10 particulars.now) }
{
    let mut left = particulars;
    let (Some(starts), Some(ends)) = (take_day(&mut left), take_day(&mut left)) else {
        return Ok(None);
    };
    match reasons_from(alloc, left)? {
        Some(reasons) => Ok(Some(Entry::Suspend {
            starts,
            ends,
            reasons,
        })),
        None => Ok(None),
    }
}
