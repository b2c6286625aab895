ghost use Rattle.std.specs.Prelude.{◌≡◌, ◌⊎◌, ℕ, IsTrue, IfOk, IfErr, OnOk, OnErr, false};
ghost use Rattle.sqlite.specs.Held.{state};
ghost use Rattle.sqlite.specs.State.{HasCleanDisk, Survives};
ghost use Rattle.pt_base_values.specs.Fault.{code_of};
ghost use Rattle.pt_base_values.specs.declared.fault.Cause.TheVariants as cause;
ghost use Rattle.pt_tables.specs.Migration.{IsMigrated, IsMigratedDesk, IsMigratedFrom, IsRaised};
ghost use Rattle.pt_tables_opening.specs.Asking.{HasCause};
ghost use Rattle.pt_tables_opening.specs.Faults.{fault};
ghost use Rattle.pt_tables_opening.specs.Opening.{IsEarlierVersion};
ghost use Rattle.pt_tables_rows.specs.Schema.{IsEarlier, schema_of};
ghost use Rattle.pt_tables_writing.specs.Least.{IsAsBefore, IsUndone};

use pt_tables_opening::{OpenFault, earlier_version_of, fault_of};
use pt_tables_rows::{TABLE_VERSION, add_versions};
use pt_tables_writing::raise_version;
use sqlite::{Alter, Connection, Error};
use std::alloc::Global;

/// Changes the tables of an earlier version into those of the current one, in one transaction.
fn raise<S: Alter>(conn: &mut Connection<S>, version: u32) -> Result<(), Error>
    requires earlier { IsEarlier version }
    requires settled { conn.old.in_transaction ≡ false }
    ensures settled { conn.new.in_transaction ≡ false }
    ensures raised { HasCleanDisk (state S.Store conn.new)
        → OnOk result (IsRaised version (state S.Store conn.old) (state S.Store conn.new)) }
    ensures undone { HasCleanDisk (state S.Store conn.new)
        → OnErr result (IsUndone (state S.Store conn.old) (state S.Store conn.new)) }
    ensures survives { Survives (state S.Store conn.old) (state S.Store conn.new)
        (λ trees. (state S.Store conn.old).now.schema ≡ schema_of version
        → IsMigratedDesk version (state S.Store conn.old) trees) }
{
    let mut tx = conn.transaction();
    add_versions(&mut tx, version, TABLE_VERSION)?;
    raise_version(&mut tx)?;
    tx.commit()
}

/// Migrates a database from an earlier version of the tables to the current one. The content stays the same.
///
/// Code 30: the tables are of no earlier version, by their schema or by the agency's row. Code 32: a transaction is
/// open, or the store refused or failed. Code 0: out of memory. After a refusal the connection shows what it showed
/// before.
pub fn migrate<S: Alter>(alloc: Global, conn: &mut Connection<S>) -> Result<(), OpenFault>
    ensures settled { conn.old.in_transaction ≡ false → conn.new.in_transaction ≡ false }
    ensures migrated { HasCleanDisk (state S.Store conn.new)
        → OnOk result (IsMigrated (state S.Store conn.old) (state S.Store conn.new)) }
    ensures in_use { IsTrue (state S.Store conn.old).in_transaction → result ≡ Err (fault cause.StoreFailed) }
    ensures faults { IfErr result (λ refused. (refused ≡ fault cause.Memory)
        ⊎ ((refused ≡ fault cause.StoreFailed) ⊎ (refused ≡ fault cause.OtherTables))) }
    // The reads blame the store only with a cause. Where the tables are of no earlier version, nothing else is done.
    ensures caused { HasCleanDisk (state S.Store conn.new) → IfErr result (λ refused. refused ≡ fault cause.StoreFailed
        → IsTrue (state S.Store conn.old).in_transaction
        ⊎ (HasCause (state S.Store conn.old) (state S.Store conn.new)
        ⊎ (version : ℕ) × IsEarlierVersion version (state S.Store conn.old).now)) }
    ensures other_tables { HasCleanDisk (state S.Store conn.new) → IfErr result (λ refused.
        refused.code ≡ code_of cause.OtherTables
        → (version : ℕ) → IsEarlierVersion version (state S.Store conn.old).now → ⊥) }
    ensures unchanged { HasCleanDisk (state S.Store conn.new)
        → OnErr result (IsAsBefore (state S.Store conn.old) (state S.Store conn.new)) }
    ensures crash { Survives (state S.Store conn.old) (state S.Store conn.new)
        (IsMigratedFrom (state S.Store conn.old)) }
{
    if !conn.is_autocommit() {
        return Err(OpenFault::STORE);
    }
    let Some(version) = earlier_version_of(alloc, conn)? else {
        return Err(OpenFault::OTHER_TABLES);
    };
    match raise(conn, version) {
        Ok(()) => Ok(()),
        Err(error) => Err(fault_of(&error)),
    }
}
