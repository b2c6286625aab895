//! The earlier version that a database is of.

ghost use Rattle.std.specs.Prelude.{◌≡◌, ◌⊎◌, ◌↔◌, ◌∷◌, [], ℕ, Some, IsSome, false, IsTrue, IfOk, IfErr};
ghost use Rattle.sqlite.specs.Held.{state};
ghost use Rattle.sqlite.specs.Order.{Row as StoredRow, column};
ghost use Rattle.sqlite.specs.State.{HasCleanDisk, IsUnchanged, Survives};
ghost use Rattle.pt_base_values.specs.declared.fault.Cause.TheVariants as cause;
ghost use Rattle.pt_tables_asking.specs.Asking.{HasCause};
ghost use Rattle.pt_tables_opening.specs.Faults.{fault};
ghost use Rattle.pt_tables_opening.specs.Opening.{IsCausedOn, IsEarlierVersion, RestsOn, Stays};
ghost use Rattle.pt_tables_rows.specs.Rows.{number_value};
ghost use Rattle.pt_tables_rows.specs.Schema.{IsEarlier, schema_of};

use crate::OpenFault;
use crate::open_fault::fault_of;
use crate::schema_check::is_schema_of;
use crate::table_rows::desk_rows;
use crate::version::has_version;
use pt_tables_rows::TABLE_VERSION;
use sqlite::{Alter, Connection, Row};
use sqlite_schema::schema::Schema;
use std::alloc::Global;

/// The earlier version whose tables have this schema, if there is one. Fails only if out of memory.
fn earlier_with_schema(alloc: Global, schema: &Schema) -> Result<Option<u32>, OpenFault>
    ensures value { IfOk result (λ found. (version : ℕ)
        → (found ≡ Some version) ↔ (IsEarlier version × (schema.now ≡ schema_of version))) }
    ensures faults { IfErr result (λ refused. refused ≡ fault cause.Memory) }
{
    for version in 1..TABLE_VERSION {
        if is_schema_of(alloc, schema, version)? {
            return Ok(Some(version));
        }
    }
    Ok(None)
}

/// Whether there is exactly one row, and it has this version.
fn tells_version(rows: &[Row], version: u32) -> bool
    ensures value { IsTrue result ↔ ((row : StoredRow) × (rows.now ≡ row ∷ [])
        × (column row 1 ≡ number_value version)) }
{
    match rows {
        [row] => has_version(row, version),
        _ => false,
    }
}

/// Whether the agency's only row has this earlier version, in tables with that version's schema.
fn is_of_version<S: Alter>(conn: &mut Connection<S>, version: u32) -> Result<bool, OpenFault>
    requires earlier { IsEarlier version }
    ensures value { HasCleanDisk (state S.Store conn.new)
        → (state S.Store conn.old).now.schema ≡ schema_of version
        → IfOk result (λ is. IsTrue is ↔ IsEarlierVersion version (state S.Store conn.old).now) }
    ensures faults { IfErr result (λ refused. (refused ≡ fault cause.Memory) ⊎ (refused ≡ fault cause.StoreFailed)) }
    ensures caused { IfErr result
        (IsCausedOn (schema_of version) (state S.Store conn.old) (state S.Store conn.new)) }
    ensures rests { RestsOn (schema_of version) (state S.Store conn.old) (state S.Store conn.new) result }
{
    match desk_rows(conn) {
        Ok(rows) => Ok(tells_version(&rows, version)),
        Err(error) => Err(fault_of(&error)),
    }
}

/// The earlier version that a database is of, if it is of one. It reads the tables only if the schema is that of an
/// earlier version. Code 32: the connection was shut, its disk failed in the read, or a limit is set on the steps of
/// queries. Code 0: out of memory.
pub fn earlier_version_of<S: Alter>(
    alloc: Global,
    conn: &mut Connection<S>,
) -> Result<Option<u32>, OpenFault>
    ensures value { HasCleanDisk (state S.Store conn.new)
        → IfOk result (λ found. (version : ℕ)
        → (found ≡ Some version) ↔ IsEarlierVersion version (state S.Store conn.old).now) }
    ensures earlier { IfOk result (λ found. (version : ℕ) → found ≡ Some version → IsEarlier version) }
    ensures schema { HasCleanDisk (state S.Store conn.new) → IfOk result (λ found. (version : ℕ)
        → found ≡ Some version → conn.new.schema ≡ schema_of version) }
    ensures faults { IfErr result (λ refused. (refused ≡ fault cause.Memory) ⊎ (refused ≡ fault cause.StoreFailed)) }
    ensures caused { HasCleanDisk (state S.Store conn.new) → IfErr result (λ refused. refused ≡ fault cause.StoreFailed
        → HasCause (state S.Store conn.old) (state S.Store conn.new)) }
    ensures settled { conn.old.in_transaction ≡ false → conn.new.in_transaction ≡ false }
    ensures same { HasCleanDisk (state S.Store conn.new)
        → IfOk result (λ found. IsSome found → IsUnchanged (state S.Store conn.old) (state S.Store conn.new)) }
    ensures stays { HasCleanDisk (state S.Store conn.new)
        → Stays (state S.Store conn.old) (state S.Store conn.new) }
    ensures survives { Survives (state S.Store conn.old) (state S.Store conn.new) (λ _. ⊥) }
{
    let Some(version) = earlier_with_schema(alloc, conn.schema())? else {
        return Ok(None);
    };
    if !is_of_version(conn, version)? {
        return Ok(None);
    }
    Ok(Some(version))
}
