ghost use Rattle.std.specs.Prelude.{◌≡◌, ◌++◌, All, OnOk};
ghost use Rattle.pt_rights_files.specs.Conditions.{IsCondition, IsConditions};
ghost use Rattle.pt_desk_spelling.specs.Fields.{list_bytes};
ghost use Rattle.pt_desk_spelling.specs.Ranges.{IsGrant, IsEntry};
ghost use Rattle.pt_desk_spelling.specs.Replies.{IsId};
ghost use Rattle.pt_desk_spelling.specs.Requests.{wheelchair_bytes, rider_bytes, condition_bytes, grant_bytes};
ghost use Rattle.pt_desk_spelling.specs.Requests.{entry_bytes, entry_number, particulars_of};

use crate::fields::{push_number, push_numbers, push_text, push_truth};
use pt_base_values::{Residence, Rider};
use pt_rights_conditions::condition_text;
use pt_rights_files::{Conditions, Entry, Grant};
use std::alloc::AllocError;

/// Adds the fields of a rider's record. The error is out of memory, here and below.
pub(crate) fn push_rider(rider: &Rider, out: &mut Vec<u8>) -> Result<(), AllocError>
    ensures text { OnOk result (out.new.items ≡ out.old.items ++ rider_bytes rider.now) }
    ensures ranges { OnOk result (IsId rider.now.id) }
{
    push_number(rider.id.number(), out)?;
    match rider.kind {
        Residence::Resident => out.push(0)?,
        Residence::Visitor => out.push(1)?,
    }
    push_truth(rider.attendant, out)?;
    push_wheelchair(rider.wheelchair, out)
}

/// Adds a byte if the rider rides in a wheelchair.
fn push_wheelchair(wheelchair: bool, out: &mut Vec<u8>) -> Result<(), AllocError>
    ensures text { OnOk result (out.new.items ≡ out.old.items ++ wheelchair_bytes wheelchair) }
{
    if wheelchair {
        out.push(1)?;
    }
    Ok(())
}

/// Adds the kind of an entry of a case file, and its other fields.
pub(crate) fn push_entry(entry: &Entry, out: &mut Vec<u8>) -> Result<(), AllocError>
    ensures text { OnOk result (out.new.items ≡ out.old.items ++ entry_bytes entry.now) }
    ensures ranges { OnOk result (IsEntry entry.now) }
{
    out.push(entry_number(entry))?;
    push_particulars(entry, out)
}

/// The number of an entry's kind, counted from 0.
pub fn entry_number(entry: &Entry) -> u8
    ensures value { result ≡ entry_number entry.now }
{
    match entry {
        Entry::Complete => 0,
        Entry::Grant(_) => 1,
        Entry::Refuse(_) => 2,
        Entry::Appeal { .. } => 3,
        Entry::Heard => 4,
        Entry::AppealGranted(_) => 5,
        Entry::AppealDenied(_) => 6,
        Entry::Overturn => 7,
        Entry::Notice(_) => 8,
        Entry::NoticeHeard => 9,
        Entry::Suspend { .. } => 10,
    }
}

/// Adds what an entry has besides its kind.
fn push_particulars(entry: &Entry, out: &mut Vec<u8>) -> Result<(), AllocError>
    ensures text { OnOk result (out.new.items ≡ out.old.items ++ particulars_of entry.now) }
    ensures ranges { OnOk result (IsEntry entry.now) }
{
    match entry {
        Entry::Grant(grant) | Entry::AppealGranted(grant) => push_grant(grant, out),
        Entry::Refuse(reasons) | Entry::AppealDenied(reasons) | Entry::Notice(reasons) => {
            push_text(reasons.as_bytes(), out)
        }
        Entry::Appeal { against } => push_number(against.number(), out),
        Entry::Suspend {
            starts,
            ends,
            reasons,
        } => {
            push_numbers(&[starts.number(), ends.number()], out)?;
            push_text(reasons.as_bytes(), out)
        }
        Entry::Complete | Entry::Heard | Entry::Overturn | Entry::NoticeHeard => Ok(()),
    }
}

/// Adds the last day of a grant, and its conditions.
fn push_grant(grant: &Grant, out: &mut Vec<u8>) -> Result<(), AllocError>
    ensures text { OnOk result (out.new.items ≡ out.old.items ++ grant_bytes grant.now) }
    ensures ranges { OnOk result (IsGrant grant.now) }
{
    push_number(grant.until.number(), out)?;
    push_conditions(&grant.conditions, out)
}

/// Adds the number of conditions of a grant, and the text of each.
fn push_conditions(conditions: &Conditions, out: &mut Vec<u8>) -> Result<(), AllocError>
    ensures text { OnOk result (out.new.items ≡ out.old.items ++ list_bytes condition_bytes conditions.now) }
    ensures ranges { OnOk result (IsConditions conditions.now × All IsCondition conditions.now) }
{
    let members = conditions.as_slice();
    push_number(members.len() as u32, out)?;
    for &member in members {
        push_text(condition_text(member).as_slice(), out)?;
    }
    Ok(())
}
