ghost use Rattle.std.specs.Prelude.{IfOk};
ghost use Rattle.std.specs.Option.{option_map};
ghost use Rattle.sqlite.specs.declared.types.Value.TheVariants.{Blob};
ghost use Rattle.sqlite.specs.Order.{column};
ghost use Rattle.pt_desk_spelling.specs.Replies.{reply_spelling, IsReply};
ghost use Rattle.pt_tables_rows.specs.Rows.{kept_row};
ghost use Rattle.pt_tables_reading.specs.Reading.{Reads, kept_record};
ghost use Rattle.pt_desk_rules.specs.Ranges.{FitsKept};

use crate::columns::{bytes_at, id_at, number_at};
use crate::one_row::OneRow;
use pt_base_values::CallerId;
use pt_desk_rules::Kept;
use pt_desk_spelling::{KeptReply, Spelling, read_reply};
use pt_tables_rows::tables::KeptWrites;
use sqlite::Row;
use std::alloc::{AllocError, Global};

/// How many columns the row of a caller's last write has.
const COLUMNS: usize = 4;

/// A caller's last accepted write, as a row has it. The row lends the request.
#[derive(Clone, Copy)]
pub struct KeptRow<'a> {
    pub caller: CallerId,
    pub number: u32,
    pub request: &'a [u8],
    pub reply: KeptReply,
}

/// The caller's last accepted write that a row has.
pub fn kept_of(row: &Row) -> Option<KeptRow<'_>>
    ensures { Reads kept_row FitsKept row.now (option_map kept_record result) }
{
    if row.column_count() != COLUMNS {
        return None;
    }
    Some(KeptRow {
        caller: id_at(row, 0)?,
        number: number_at(row, 1)?,
        request: bytes_at(row, 2)?,
        reply: reply_at(row, 3)?,
    })
}

/// The reply that the bytes in a column encode.
fn reply_at(row: &Row, at: usize) -> Option<KeptReply>
    ensures { Reads (λ reply. Blob (reply_spelling reply)) IsReply (column row.now at) result }
{
    let bytes = bytes_at(row, at)?;
    read_reply(bytes)
}

/// The caller's last accepted write that a row has, with a copy of its request.
fn copy_kept(alloc: Global, row: &Row) -> Result<Option<Kept>, AllocError>
    ensures told { IfOk result (Reads kept_row FitsKept row.now) }
{
    let Some(kept) = kept_of(row) else {
        return Ok(None);
    };
    let request = Vec::from_slice(alloc, kept.request)?;
    Ok(Some(Kept {
        caller: kept.caller,
        number: kept.number,
        request: Spelling::of(request),
        reply: kept.reply,
    }))
}

impl OneRow for KeptWrites {
    ghost use Rattle.std.specs.Prelude.{refl};

    ghost row_of = { kept_row };

    ghost one = { λ _. refl };

    fn of_row(alloc: Global, row: &Row) -> Result<Option<Kept>, AllocError> {
        copy_kept(alloc, row)
    }
}
