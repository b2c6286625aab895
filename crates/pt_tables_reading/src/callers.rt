ghost use Rattle.std.specs.Prelude.{ℕ};
ghost use Rattle.sqlite.specs.declared.types.Value.TheVariants.{Blob};
ghost use Rattle.sqlite.specs.Order.{column};
ghost use Rattle.pt_desk_spelling.specs.Requests.{role_number, subject_of};
ghost use Rattle.pt_tables_rows.specs.Rows.{caller_row};
ghost use Rattle.pt_tables_reading.specs.Reading.{Reads, FitsDigest};
ghost use Rattle.pt_desk_spelling.specs.Ranges.{IsCaller, IsRole};

use crate::columns::{bytes_at, id_at, number_at};
use crate::one_row::OneRow;
use pt_base_values::{RiderId, VehicleId};
use pt_desk_requests::{Caller, Digest, Role};
use pt_tables_rows::tables::Callers;
use sqlite::Row;
use std::alloc::{AllocError, Global};

/// How many columns a caller's row has.
const COLUMNS: usize = 4;

/// The caller of a row.
pub fn caller_of(row: &Row) -> Option<Caller>
    ensures { Reads caller_row IsCaller row.now result }
{
    if row.column_count() != COLUMNS {
        return None;
    }
    let kind = number_at(row, 1)?;
    let subject = number_at(row, 2)?;
    Some(Caller {
        id: id_at(row, 0)?,
        role: role_of(kind, subject)?,
        digest: digest_at(row, 3)?,
    })
}

/// The role with this number. `subject` is the rider or the vehicle that the role is about, or 0.
fn role_of(kind: u32, subject: u32) -> Option<Role>
    ensures { Reads {B = ℕ × ℕ} (λ role. (role_number role, subject_of role)) IsRole (kind, subject) result }
{
    match (kind, subject) {
        (0, rider) => Some(Role::Rider(RiderId::of(rider)?)),
        (1, 0) => Some(Role::Clerk),
        (2, 0) => Some(Role::Examiner),
        (3, 0) => Some(Role::Officer),
        (4, 0) => Some(Role::Dispatcher),
        (5, vehicle) => Some(Role::Driver(VehicleId::of(vehicle)?)),
        (6, 0) => Some(Role::Admin),
        _ => None,
    }
}

/// The digest in a column.
fn digest_at(row: &Row, at: usize) -> Option<Digest>
    ensures { Reads Blob FitsDigest (column row.now at) result }
{
    let bytes = bytes_at(row, at)?;
    let bytes: [u8; 32] = bytes.try_into().ok()?;
    Some(Digest::of(bytes))
}

impl OneRow for Callers {
    ghost use Rattle.std.specs.Prelude.{refl};
    ghost use Rattle.pt_tables_rows.specs.Rows.{caller_row};

    ghost row_of = { caller_row };

    ghost one = { λ _. refl };

    fn of_row(_alloc: Global, row: &Row) -> Result<Option<Caller>, AllocError> {
        Ok(caller_of(row))
    }
}
