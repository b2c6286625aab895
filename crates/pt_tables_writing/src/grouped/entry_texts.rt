//! The column values of a case file entry.

ghost use Rattle.std.specs.Prelude.{◌≡◌, ◌++◌, ◌+◌, ◌≤◌, length};
ghost use Rattle.sqlite.specs.declared.types.Value.TheVariants.{Text};
ghost use Rattle.pt_tables_rows.specs.Rows.{optional_value, first_number, second_number, entry_words};
ghost use Rattle.pt_tables_rows.specs.Rows.{conditions_text, entry_conditions};
ghost use Rattle.pt_tables_writing.specs.declared.grouped.entry_texts.TheConstants.{LONGEST_CONDITIONS};

use arrayvec::ArrayVec;
use pt_rights_conditions::condition_text;
use pt_rights_files::{Entry, Grant};
use sqlite::types::{ToSql, ValueRef};

/// How many bytes the conditions of a grant have at most: four of 43, and three semicolons.
const LONGEST_CONDITIONS: usize = 175;

/// An optional number, passed to a statement as -1 if there is none.
#[derive(Clone, Copy)]
pub(crate) struct Optional(pub Option<u32>);

impl<'a> ToSql<'a> for Optional {
    ghost to_sql = { λ number. optional_value number.0 };

    fn to_sql(self) -> ValueRef<'a> {
        match self.0 {
            Some(number) => ValueRef::Int(i64::from(number)),
            None => ValueRef::Int(-1),
        }
    }
}

/// Bytes that are passed to a statement as text.
#[derive(Clone, Copy)]
pub(crate) struct AsText<'a>(pub &'a [u8]);

impl<'a> ToSql<'a> for AsText<'a> {
    ghost to_sql = { λ text. Text text.0.now };

    fn to_sql(self) -> ValueRef<'a> {
        ValueRef::Text(self.0)
    }
}

/// The last day of a grant, the position that an appeal is against, or the first day of a suspension.
pub(crate) fn first_number(entry: &Entry) -> Option<u32>
    ensures { result ≡ first_number entry.now }
{
    match entry {
        Entry::Grant(grant) | Entry::AppealGranted(grant) => Some(grant.until.number()),
        Entry::Appeal { against } => Some(against.number()),
        Entry::Suspend { starts, .. } => Some(starts.number()),
        _ => None,
    }
}

/// The last day of a suspension.
pub(crate) fn second_number(entry: &Entry) -> Option<u32>
    ensures { result ≡ second_number entry.now }
{
    match entry {
        Entry::Suspend { ends, .. } => Some(ends.number()),
        _ => None,
    }
}

/// The reasons of a decision or a suspension, or the basis of a notice; empty for other entries.
pub(crate) fn entry_words(entry: &Entry) -> &[u8]
    ensures { result.now ≡ entry_words entry.now }
{
    match entry {
        Entry::Refuse(reasons) | Entry::AppealDenied(reasons) => reasons.as_bytes(),
        Entry::Notice(basis) => basis.as_bytes(),
        Entry::Suspend { reasons, .. } => reasons.as_bytes(),
        _ => &[],
    }
}

/// The conditions that an entry grants; empty for other entries.
pub(crate) fn entry_conditions(entry: &Entry) -> ArrayVec<u8, LONGEST_CONDITIONS>
    ensures { result.items ≡ entry_conditions entry.now }
{
    match entry {
        Entry::Grant(grant) | Entry::AppealGranted(grant) => conditions_text(grant),
        _ => ArrayVec::new(),
    }
}

/// The conditions of a grant, separated by semicolons.
fn conditions_text(grant: &Grant) -> ArrayVec<u8, LONGEST_CONDITIONS>
    ensures { result.items ≡ conditions_text grant.now }
{
    let mut text = ArrayVec::new();
    for (index, &condition) in grant.conditions.as_slice().iter().enumerate() {
        if index > 0 {
            push(b";", &mut text);
        }
        push(condition_text(condition).as_slice(), &mut text);
    }
    text
}

/// Adds bytes at the end.
fn push(bytes: &[u8], text: &mut ArrayVec<u8, LONGEST_CONDITIONS>)
    requires { length text.old.items + length bytes.now ≤ LONGEST_CONDITIONS }
    ensures { text.new.items ≡ text.old.items ++ bytes.now }
{
    let _fits = text.try_extend_from_slice(bytes);
}
