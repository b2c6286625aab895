//! Creates the tables of a new desk.

ghost use Rattle.std.specs.Prelude.{◌≡◌, ◌⊎◌, ◌↔◌, IsTrue, IfOk, IfErr, OnOk, OnErr, MatchResult, false};
ghost use Rattle.pt_base_values.specs.declared.fault.Cause.TheVariants as cause;
ghost use Rattle.pt_desk_store.specs.LeastState.{IsLeastState};
ghost use Rattle.pt_desk_store.specs.Store.{IsSettled};
ghost use Rattle.pt_tables_keeper.specs.Sound.{IsSound};
ghost use Rattle.pt_tables_keeper.specs.State.{State};
ghost use Rattle.sqlite.specs.Held.{state};
ghost use Rattle.sqlite.specs.State.{HasCleanDisk, Survives};
ghost use Rattle.sqlite.specs.Tree.{Trees};
ghost use Rattle.pt_tables_opening.specs.Faults.{fault};
ghost use Rattle.pt_tables_writing.specs.Committing.{LeavesDesk};
ghost use Rattle.pt_tables_writing.specs.Least.{IsNew, IsAsBefore, IsInUse, IsUndone, IsDeskDatabase};
ghost use Rattle.pt_tables_writing.specs.Least.{IsNewDesk, IsLeastDesk};
ghost use Rattle.pt_tables_rows.specs.Schema.{no_schema};
ghost use Rattle.pt_tables_rows.specs.Tables.{IsKept};

use crate::keeping::keeper_of;
use pt_base_values::Policy;
use pt_desk_requests::Digest;
use pt_desk_store::{Keeper, ListKeeper};
use pt_tables_keeper::SqlKeeper;
use pt_tables_opening::{OpenFault, fault_of};
use pt_tables_rows::create_tables;
use pt_tables_writing::{insert_admin, insert_desk};
use sqlite::{Alter, Connection, Error};
use sqlite_schema::schema::Schema;
use std::alloc::Global;

/// The number last given to a trip, before the first trip.
const NO_TRIP: u32 = 0;

/// Whether a database has no table, index or view.
fn is_blank(schema: &Schema) -> bool
    ensures value { IsTrue result ↔ (schema.now ≡ no_schema) }
{
    schema.tables.is_empty() && schema.indexes.is_empty() && schema.views.is_empty()
}

/// Creates the tables of a new desk in one transaction, in an empty database.
fn create_new<S: Alter>(
    conn: &mut Connection<S>,
    policy: &Policy,
    digest: &Digest,
) -> Result<(), Error>
    requires settled { conn.old.in_transaction ≡ false }
    requires blank { conn.old.schema ≡ no_schema }
    ensures settled { conn.new.in_transaction ≡ false }
    ensures made { HasCleanDisk (state S.Store conn.new)
        → OnOk result ((content : State) → IsNew policy.now digest.now content
        → IsKept content (state S.Store conn.new)) }
    ensures tables { HasCleanDisk (state S.Store conn.new)
        → OnOk result (IsDeskDatabase (state S.Store conn.new).committed.trees) }
    ensures open { HasCleanDisk (state S.Store conn.new) → OnOk result (IsTrue (state S.Store conn.new).is_open) }
    ensures undone { HasCleanDisk (state S.Store conn.new)
        → OnErr result (IsUndone (state S.Store conn.old) (state S.Store conn.new)) }
    ensures survives { Survives (state S.Store conn.old) (state S.Store conn.new) (IsNewDesk policy.now digest.now) }
{
    let mut tx = conn.transaction();
    create_tables(&mut tx)?;
    insert_desk(&mut tx, policy, NO_TRIP)?;
    insert_admin(&mut tx, digest)?;
    tx.commit()
}

/// The least state, in memory, and its policy. Its admin has this key.
fn least(alloc: Global, admin_key: &[u8]) -> Result<(ListKeeper, Policy), OpenFault>
    ensures least { IfOk result (λ made. IsLeastState admin_key.now made.0.content) }
    ensures sound { IfOk result (λ made. IsSound made.0.content) }
    ensures policy { IfOk result (λ made. made.1 ≡ made.0.content.policy) }
    ensures memory { IfErr result (λ refused. refused ≡ fault cause.Memory) }
{
    let Ok(lists) = ListKeeper::new(alloc, admin_key) else {
        return Err(OpenFault::MEMORY);
    };
    let policy = lists.current_policy();
    Ok((lists, policy))
}

/// Creates the tables of a desk in an empty database. Its only caller is the admin with this key.
///
/// A refusal returns the connection, which shows what it showed before. Code 32: a transaction is open, the database
/// has a table, an index or a view, or the store refused or failed. Code 0: out of memory.
pub fn create<S: Alter>(
    alloc: Global,
    mut conn: Connection<S>,
    admin_key: &[u8],
) -> Result<SqlKeeper<S>, (Connection<S>, OpenFault)>
    ensures least { IfOk result (λ keeper. IsLeastState admin_key.now keeper.content) }
    ensures sound { IfOk result (λ keeper. IsSound keeper.content) }
    ensures settled { IfOk result (λ keeper. IsSettled (⟦<SqlKeeper<S> as Keeper>⟧.store keeper)) }
    ensures leaves { IfOk result (λ keeper. LeavesDesk (state S.Store keeper.conn)) }
    ensures faults { IfErr result (λ refused.
        (refused.1 ≡ fault cause.Memory) ⊎ (refused.1 ≡ fault cause.StoreFailed)) }
    ensures in_use { IsInUse (state S.Store conn) → result ≡ Err (conn, fault cause.StoreFailed) }
    ensures unchanged { IfErr result (λ refused. HasCleanDisk (state S.Store refused.0)
        → IsAsBefore (state S.Store conn) (state S.Store refused.0)) }
    ensures crash { MatchResult result
        (λ keeper. Survives (state S.Store conn) (state S.Store keeper.conn) (IsLeastDesk admin_key.now))
        (λ refused. Survives (state S.Store conn) (state S.Store refused.0) (IsLeastDesk admin_key.now)) }
    ensures durable { IfOk result (λ keeper. HasCleanDisk (state S.Store keeper.conn)
        → (trees : Trees) → (state S.Store keeper.conn).may_leave trees → IsLeastDesk admin_key.now trees) }
{
    if !conn.is_autocommit() || !is_blank(conn.schema()) {
        return Err((conn, OpenFault::STORE));
    }
    let (lists, policy) = match least(alloc, admin_key) {
        Ok(made) => made,
        Err(refused) => return Err((conn, refused)),
    };
    match create_new(&mut conn, &policy, &Digest::of_key(admin_key)) {
        Ok(()) => Ok(keeper_of(alloc, conn, lists)),
        Err(error) => Err((conn, fault_of(&error))),
    }
}
