ghost use Rattle.std.specs.Prelude.{◌≤◌, IfOk, All, length};
ghost use Rattle.std.specs.Option.{option_map};
ghost use Rattle.pt_base_values.specs.Ranges.{last_minute};
ghost use Rattle.pt_desk_spelling.specs.Fields.{list_bytes};
ghost use Rattle.pt_desk_spelling.specs.Ranges.{IsWord, IsRow};
ghost use Rattle.pt_desk_spelling.specs.Requests.{row_bytes};
ghost use Rattle.pt_desk_spelling_reading.specs.Reading.{Takes, Finds};
ghost use Rattle.pt_travel.specs.Table.{IsTable};

use crate::fields::{take_id, take_number, take_number_in};
use pt_base_values::LAST_MINUTE;
use pt_travel::{Raw, Row};
use std::alloc::{AllocError, Global};

/// Takes a row of a travel table.
fn take_row(left: &mut &[u8]) -> Option<Row>
    ensures { Takes row_bytes (λ row. IsRow row × (row.2 ≤ last_minute)) left.old.now result left.new.now }
{
    Some((
        take_id(left)?,
        take_id(left)?,
        take_number_in(left, 0, LAST_MINUTE)? as u16,
    ))
}

/// Takes rows, after their number. The error is out of memory, here and below.
fn take_rows(alloc: Global, left: &mut &[u8]) -> Result<Option<Vec<Row>>, AllocError>
    ensures { IfOk result (λ found. Takes (list_bytes row_bytes)
        (λ rows. IsWord (length rows) × All (λ row. IsRow row × (row.2 ≤ last_minute)) rows)
        left.old.now (option_map (λ rows. rows.items) found) left.new.now) }
{
    let Some(count) = take_number(left) else {
        return Ok(None);
    };
    let mut rows = Vec::new(alloc);
    for _taken in 0..count {
        let Some(row) = take_row(left) else {
            return Ok(None);
        };
        rows.push(row)?;
    }
    Ok(Some(rows))
}

/// The travel table that the bytes spell; `None` if they spell none.
pub(crate) fn table_from(alloc: Global, bytes: &[u8]) -> Result<Option<Raw>, AllocError>
    ensures { IfOk result (Finds (list_bytes row_bytes) (λ rows. IsTable rows × All IsRow rows) bytes.now) }
{
    let mut left = bytes;
    match take_rows(alloc, &mut left)? {
        Some(rows) => Ok(Raw::of(rows)),
        None => Ok(None),
    }
}
