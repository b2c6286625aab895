//! Opens the database of a desk.

ghost use Rattle.std.specs.Prelude.{◌≡◌, ◌⊎◌, ◌≤◌, IsTrue, IfOk, IfErr, IsErrAnd, MatchResult, false};
ghost use Rattle.pt_base_values.specs.declared.fault.Cause.TheVariants as cause;
ghost use Rattle.pt_desk_store.specs.Store.{IsSettled};
ghost use Rattle.pt_tables_keeper.specs.Sound.{IsSound};
ghost use Rattle.sqlite.specs.Held.{state};
ghost use Rattle.sqlite.specs.State.{HasCleanDisk};
ghost use Rattle.sqlite.specs.Tree.{Trees};
ghost use Rattle.sqlite.specs.View.{IsClean, doubt};
ghost use Rattle.pt_tables.specs.RefusedBy.{IsBlamed, IsFailed, RefusedBy};
ghost use Rattle.pt_tables_opening.specs.Faults.{IsRefusal, fault};
ghost use Rattle.pt_tables_opening.specs.Opening.{IsReopened};
ghost use Rattle.pt_tables_rows.specs.Tables.{HasRows};
ghost use Rattle.pt_tables_writing.specs.Committing.{LeavesDesk};

use crate::keeping::keeper_of;
use pt_desk_store::Keeper;
use pt_tables_keeper::SqlKeeper;
use pt_tables_opening::{OpenFault, content_in, fault_of};
use sqlite::{Alter, Connection};
use std::alloc::Global;

/// A new connection to what another had committed. An open transaction of the other one is rolled back, and its memory
/// is freed. A refusal returns the store. Code 32: the store failed. Code 0: out of memory.
fn reopen<S: Alter + Drop>(
    alloc: Global,
    conn: Connection<S>,
) -> Result<Connection<S>, (S, OpenFault)>
    ensures opened { IfOk result (λ new. HasCleanDisk (state S.Store new)
        → IsReopened (state S.Store conn) (state S.Store new)) }
    ensures settled { IfOk result (λ new. new.in_transaction ≡ false) }
    ensures kept { IfErr result (λ refused. IsClean (S.Store.view refused.0) → IsTrue (S.Store.view refused.0).is_open
        → (S.Store.view refused.0).trees ≡ (state S.Store conn).committed.trees) }
    ensures crash { MatchResult result
        (λ new. HasCleanDisk (state S.Store new) → (trees : Trees)
        → (state S.Store new).may_leave trees → (state S.Store conn).may_leave trees)
        (λ refused. IsClean (S.Store.view refused.0) → (trees : Trees)
        → S.Store.recovers refused.0 trees → (state S.Store conn).may_leave trees) }
    ensures clean { MatchResult result
        (λ new. doubt (state S.Store conn).is_clean ≤ doubt (state S.Store new).is_clean)
        (λ refused. doubt (state S.Store conn).is_clean ≤ doubt (S.Store.view refused.0).is_clean) }
    ensures was_open { MatchResult result
        (λ new. HasCleanDisk (state S.Store new) → IsTrue (state S.Store conn).is_open)
        (λ refused. IsClean (S.Store.view refused.0) → IsTrue (S.Store.view refused.0).is_open
        → IsTrue (state S.Store conn).is_open) }
    ensures faults { IfErr result (λ refused.
        (refused.1 ≡ fault cause.Memory) ⊎ (refused.1 ≡ fault cause.StoreFailed)) }
    ensures counts { IfErr result (λ refused. (state S.Store conn).faults ≤ S.Store.faults refused.0) }
    ensures caused { IfErr result (λ refused. refused.1 ≡ fault cause.StoreFailed → IsClean (S.Store.view refused.0)
        → IsFailed (state S.Store conn) (S.Store.faults refused.0)) }
{
    let store = conn.into_store();
    if store.is_broken() {
        return Err((store, OpenFault::STORE));
    }
    match Connection::over(alloc, store) {
        Ok(conn) => Ok(conn),
        Err((error, store)) => Err((store, fault_of(&error))),
    }
}

/// The store of a connection whose tables are refused for this fault. Code 32: the store failed.
fn give_back<S: Alter + Drop>(conn: Connection<S>, refused: OpenFault) -> (S, OpenFault)
    ensures kept { IsClean (S.Store.view result.0) → IsTrue (S.Store.view result.0).is_open
        → (S.Store.view result.0).trees ≡ (state S.Store conn).committed.trees }
    ensures crash { IsClean (S.Store.view result.0) → (trees : Trees)
        → S.Store.recovers result.0 trees → (state S.Store conn).may_leave trees }
    ensures clean { doubt (state S.Store conn).is_clean ≤ doubt (S.Store.view result.0).is_clean }
    ensures was_open { IsClean (S.Store.view result.0) → IsTrue (S.Store.view result.0).is_open
        → IsTrue (state S.Store conn).is_open }
    ensures counts { (state S.Store conn).faults ≤ S.Store.faults result.0 }
    ensures told { ((result.1 ≡ refused) × (IsClean (S.Store.view result.0) → IsTrue (state S.Store conn).is_open))
        ⊎ ((result.1 ≡ fault cause.StoreFailed) × (IsClean (S.Store.view result.0)
        → IsFailed (state S.Store conn) (S.Store.faults result.0))) }
{
    let store = conn.into_store();
    if store.is_broken() {
        return (store, OpenFault::STORE);
    }
    (store, refused)
}

/// Opens a database that has the desk's tables. It reads and checks their content, and writes nothing. The store uses a
/// new connection, since one that has read all rows keeps the memory that it took.
///
/// A refusal returns the store. Code 30: the tables are not the desk's, or are of another version. Code 31, with the
/// number of the first table at fault: no sound state has the rows. Code 32: a transaction is open, the connection was
/// shut, its disk failed, or a limit is set on the steps of queries. Code 0: out of memory.
pub fn adopt<S: Alter + Drop>(
    alloc: Global,
    conn: Connection<S>,
) -> Result<SqlKeeper<S>, (S, OpenFault)>
    ensures sound { IfOk result (λ keeper. IsSound keeper.content) }
    ensures rows { IfOk result (λ keeper. HasCleanDisk (state S.Store keeper.conn)
        → HasRows keeper.content (state S.Store conn).committed.trees) }
    ensures serves { IfOk result (λ keeper. keeper.failures ≡ 0) }
    ensures settled { IfOk result (λ keeper. IsSettled (⟦<SqlKeeper<S> as Keeper>⟧.store keeper)) }
    ensures leaves { IfOk result (λ keeper. LeavesDesk (state S.Store keeper.conn)) }
    ensures crash { IfOk result (λ keeper. HasCleanDisk (state S.Store keeper.conn) → (trees : Trees)
        → (state S.Store keeper.conn).may_leave trees → (state S.Store conn).may_leave trees) }
    ensures faults { IfErr result (λ refused. IsRefusal refused.1) }
    ensures refused { IfErr result (λ refused. IsClean (S.Store.view refused.0)
        → RefusedBy (state S.Store conn) (S.Store.view refused.0) (S.Store.recovers refused.0) refused.1) }
    ensures in_use { IsTrue (state S.Store conn).in_transaction
        → IsErrAnd result (λ refused. refused.1 ≡ fault cause.StoreFailed) }
    ensures caused { IfErr result (λ refused. refused.1 ≡ fault cause.StoreFailed → IsClean (S.Store.view refused.0)
        → IsBlamed (state S.Store conn) (S.Store.faults refused.0)) }
{
    if !conn.is_autocommit() {
        return Err((conn.into_store(), OpenFault::STORE));
    }
    let mut reading = conn;
    let lists = match content_in(alloc, &mut reading) {
        Ok(lists) => lists,
        Err(refused) => return Err(give_back(reading, refused)),
    };
    match reopen(alloc, reading) {
        Ok(conn) => Ok(keeper_of(alloc, conn, lists)),
        Err(refusal) => Err(refusal),
    }
}
