//! The entries of case files, each kind built from the columns that it uses.

ghost use Rattle.std.specs.Prelude.{◌≡◌, [], None, Some, IfOk, IfSome, length};
ghost use Rattle.sqlite.specs.declared.types.Value.TheVariants.{Text};
ghost use Rattle.sqlite.specs.Order.{column};
ghost use Rattle.pt_rights_files.specs.Reasons.{IsReasons};
ghost use Rattle.pt_desk_spelling.specs.Ranges.{IsWord};
ghost use Rattle.pt_desk_spelling.specs.Requests.{entry_number};
ghost use Rattle.pt_tables_rows.specs.Rows.{optional_value, number_value, entry_row, entry_conditions, entry_words};
ghost use Rattle.pt_tables_rows.specs.Rows.{first_number, second_number};
ghost use Rattle.pt_tables_reading.specs.Reading.{Reads};
ghost use Rattle.pt_desk_spelling.specs.Ranges.{IsEntry};
ghost use Rattle.pt_tables_reading.specs.Fitting.{joined, FitsConditions, parts_of_entry};
ghost use Rattle.pt_desk_rules.specs.Ranges.{FitsFiled};

use crate::columns::{day_at, id_at, integer_at, number_at, text_at};
use crate::conditions::conditions_in;
use crate::one_row::OneRow;
use pt_base_values::Day;
use pt_desk_rules::FiledEntry;
use pt_rights_files::{Conditions, Entered, Entry, Grant, Position, Reasons};
use pt_tables_rows::tables::Entries;
use sqlite::Row;
use std::alloc::{AllocError, Global};

/// How many columns an entry's row has.
const COLUMNS: usize = 9;

/// The unsigned 32-bit number in a column; `Some(None)` if the column has -1, for no number.
pub(crate) fn optional_at(row: &Row, at: usize) -> Option<Option<u32>>
    ensures { Reads optional_value (λ known. IfSome known IsWord) (column row.now at) result }
{
    let number = integer_at(row, at)?;
    if number == -1 {
        return Some(None);
    }
    let number = number_at(row, at)?;
    Some(Some(number))
}

/// The reasons that have these bytes.
fn reasons_in(alloc: Global, bytes: &[u8]) -> Result<Option<Reasons>, AllocError>
    ensures { IfOk result (Reads (λ reasons. reasons) IsReasons bytes.now) }
{
    let reasons = Vec::from_slice(alloc, bytes)?;
    Ok(Reasons::of(reasons))
}

/// The entry of this kind, which has no other fields.
fn bare_entry(kind: u32) -> Option<Entry>
    ensures { Reads parts_of_entry IsEntry (kind, None, None, [], []) result }
{
    match kind {
        0 => Some(Entry::Complete),
        4 => Some(Entry::Heard),
        7 => Some(Entry::Overturn),
        9 => Some(Entry::NoticeHeard),
        _ => None,
    }
}

/// The entry of this kind that has these reasons, or this basis.
fn worded_entry(kind: u32, words: Reasons) -> Option<Entry>
    ensures { Reads parts_of_entry IsEntry (kind, None, None, [], words) result }
{
    let _bytes = words.as_bytes();
    match kind {
        2 => Some(Entry::Refuse(words)),
        6 => Some(Entry::AppealDenied(words)),
        8 => Some(Entry::Notice(words)),
        _ => None,
    }
}

/// The entry of this kind that grants until this day under these conditions.
fn granting_entry(kind: u32, until: u32, conditions: Conditions) -> Option<Entry>
    requires { FitsConditions conditions }
    ensures { Reads parts_of_entry IsEntry (kind, Some until, None, joined conditions, []) result }
{
    let until = Day::of(until)?;
    match kind {
        1 => Some(Entry::Grant(Grant { until, conditions })),
        5 => Some(Entry::AppealGranted(Grant { until, conditions })),
        _ => None,
    }
}

/// The entry of this kind that appeals against the entry at a position.
fn appeal_entry(kind: u32, against: u32) -> Option<Entry>
    ensures { Reads parts_of_entry IsEntry (kind, Some against, None, [], []) result }
{
    if kind != 3 {
        return None;
    }
    let against = Position::of(against)?;
    Some(Entry::Appeal { against })
}

/// The entry of this kind that suspends from one day to another for these reasons.
fn suspension_entry(kind: u32, starts: u32, ends: u32, reasons: Reasons) -> Option<Entry>
    ensures { Reads parts_of_entry IsEntry (kind, Some starts, Some ends, [], reasons) result }
{
    let _bytes = reasons.as_bytes();
    if kind != 10 {
        return None;
    }
    let starts = Day::of(starts)?;
    let ends = Day::of(ends)?;
    Some(Entry::Suspend {
        starts,
        ends,
        reasons,
    })
}

/// The entry that has these particulars and no words.
fn plain_entry(kind: u32, first: Option<u32>, second: Option<u32>) -> Option<Entry>
    ensures { Reads parts_of_entry IsEntry (kind, first, second, [], []) result }
{
    match (first, second) {
        (None, None) => bare_entry(kind),
        (Some(against), None) => appeal_entry(kind, against),
        _ => None,
    }
}

/// The entry that has these particulars and words.
fn spoken_entry(kind: u32, first: Option<u32>, second: Option<u32>, words: Reasons) -> Option<Entry>
    ensures { Reads parts_of_entry IsEntry (kind, first, second, [], words) result }
{
    let _bytes = words.as_bytes();
    match (first, second) {
        (None, None) => worded_entry(kind, words),
        (Some(starts), Some(ends)) => suspension_entry(kind, starts, ends, words),
        _ => None,
    }
}

/// The entry that has these particulars and conditions.
fn grant_entry(
    kind: u32,
    first: Option<u32>,
    second: Option<u32>,
    conditions: Conditions,
) -> Option<Entry>
    requires { FitsConditions conditions }
    ensures { Reads parts_of_entry IsEntry (kind, first, second, joined conditions, []) result }
{
    let _some = conditions.as_slice();
    match (first, second) {
        (Some(until), None) => granting_entry(kind, until, conditions),
        _ => None,
    }
}

/// The entry that has these particulars.
fn entry_from(
    alloc: Global,
    kind: u32,
    first: Option<u32>,
    second: Option<u32>,
    conditions: &[u8],
    words: &[u8],
) -> Result<Option<Entry>, AllocError>
    ensures { IfOk result (Reads parts_of_entry IsEntry (kind, first, second, conditions.now, words.now)) }
{
    match (conditions, words) {
        ([], []) => Ok(plain_entry(kind, first, second)),
        ([], _) => {
            let Some(words) = reasons_in(alloc, words)? else {
                return Ok(None);
            };
            Ok(spoken_entry(kind, first, second, words))
        }
        (_, []) => {
            let Some(conditions) = conditions_in(conditions) else {
                return Ok(None);
            };
            Ok(grant_entry(kind, first, second, conditions))
        }
        _ => Ok(None),
    }
}

/// The case file entry of a row.
pub fn entry_of(alloc: Global, row: &Row) -> Result<Option<FiledEntry>, AllocError>
    ensures { IfOk result (Reads entry_row FitsFiled row.now) }
{
    if row.column_count() != COLUMNS {
        return Ok(None);
    }
    let (Some(kind), Some(first), Some(second)) = (
        number_at(row, 2),
        optional_at(row, 5),
        optional_at(row, 6),
    ) else {
        return Ok(None);
    };
    let (Some(conditions), Some(words)) = (text_at(row, 7), text_at(row, 8)) else {
        return Ok(None);
    };
    let Some(entry) = entry_from(alloc, kind, first, second, conditions, words)? else {
        return Ok(None);
    };
    Ok(filed_entry(row, entry))
}

/// The case file entry of a row that has the kind and the fields of this entry.
fn filed_entry(row: &Row, entry: Entry) -> Option<FiledEntry>
    requires columns { length row.now ≡ 9 }
    requires kind { number_value (entry_number entry) ≡ column row.now 2 }
    requires first { optional_value (first_number entry) ≡ column row.now 5 }
    requires second { optional_value (second_number entry) ≡ column row.now 6 }
    requires conditions { Text (entry_conditions entry) ≡ column row.now 7 }
    requires words { Text (entry_words entry) ≡ column row.now 8 }
    requires fits { IsEntry entry }
    ensures { Reads entry_row FitsFiled row.now result }
{
    Some(FiledEntry {
        rider: id_at(row, 0)?,
        position: number_at(row, 1)?,
        entered: Entered {
            entry,
            day: day_at(row, 3)?,
            author: id_at(row, 4)?,
        },
    })
}

impl OneRow for Entries {
    ghost use Rattle.std.specs.Prelude.{refl};
    ghost use Rattle.pt_tables_rows.specs.Rows.{entry_row};

    ghost row_of = { entry_row };

    ghost one = { λ _. refl };

    fn of_row(alloc: Global, row: &Row) -> Result<Option<FiledEntry>, AllocError> {
        entry_of(alloc, row)
    }
}
