//! Writes a change, after a read of the stored plans that it removes or replaces.

ghost use Rattle.std.specs.Prelude.{◌≡◌, Err, IsTrue, OnErr, OnOk, false};
ghost use Rattle.sqlite.specs.Held.{state};
ghost use Rattle.sqlite.specs.State.{HasCleanDisk, Survives};
ghost use Rattle.pt_desk_rules.specs.State.{State, applied};
ghost use Rattle.pt_base_records.specs.Records.{Each};
ghost use Rattle.pt_tables_asking.specs.Asking.{Rests, ShowsCommit};
ghost use Rattle.pt_tables_asking.specs.declared.asking.Unread.TheVariants.{Memory as Wanted};
ghost use Rattle.pt_tables_keeper.specs.Plans.{IsOneKey};
ghost use Rattle.pt_tables_rows.specs.Tables.{IsKept, IsWellFormed, PutsWellFormed};
ghost use Rattle.pt_tables_writing.specs.Groups.{AgreesFor};
ghost use Rattle.pt_tables_writing.specs.Committing.{IsMade, LeadsTo};
ghost use Rattle.pt_tables_writing.specs.Least.{IsUndone};

use crate::plans::plans_before;
use pt_desk_rules::Change;
use pt_desk_store::ListKeeper;
use pt_tables_asking::Unread;
use pt_tables_writing::write_change;
use sqlite::{Alter, Connection};
use std::alloc::Global;

/// Makes the change in the tables in one transaction, after it reads the stored plans that the change removes or
/// replaces. `known` must have all other stored records that the change removes.
fn write_once<S: Alter>(
    alloc: Global,
    conn: &mut Connection<S>,
    change: &Change,
    known: &ListKeeper,
) -> Result<(), Unread>
    requires settled { conn.old.in_transaction ≡ false }
    requires committed { ShowsCommit (state S.Store conn.old) }
    requires puts { PutsWellFormed change.now }
    requires plans { Each IsOneKey change.now.planned.away }
    ensures settled { conn.new.in_transaction ≡ false }
    ensures made { (content : State) → IsWellFormed content → AgreesFor change.now known.now.content content
        → (HasCleanDisk (state S.Store conn.old) → IsKept content (state S.Store conn.old))
        → HasCleanDisk (state S.Store conn.new) → OnOk result (IsMade content (applied change.now content)
        (state S.Store conn.old) (state S.Store conn.new)) }
    ensures undone { HasCleanDisk (state S.Store conn.new)
        → OnErr result (IsUndone (state S.Store conn.old) (state S.Store conn.new)) }
    ensures survives { (content : State) → IsWellFormed content → AgreesFor change.now known.now.content content
        → (HasCleanDisk (state S.Store conn.old) → IsKept content (state S.Store conn.old))
        → Survives (state S.Store conn.old) (state S.Store conn.new)
        (LeadsTo content (applied change.now content) (state S.Store conn.old)) }
{
    let plans = plans_before(alloc, conn, &change.planned)?;
    match write_change(conn, change, known, &plans) {
        Ok(()) => Ok(()),
        Err(error) => Err(Unread::of(&error)),
    }
}

/// Why a write was refused. One that was out of memory leaves a store that is open: the store is asked to understand a
/// text, and one that does not has failed, whatever refused the write.
fn refusal_of<S: Alter>(conn: &mut Connection<S>, unread: Unread) -> Unread
    requires settled { conn.old.in_transaction ≡ false }
    requires committed { ShowsCommit (state S.Store conn.old) }
    ensures rests { Rests (state S.Store conn.old) (state S.Store conn.new) }
    ensures open { HasCleanDisk (state S.Store conn.new) → result ≡ Wanted
        → IsTrue (state S.Store conn.new).is_open }
{
    match unread {
        Unread::Memory => match conn.prepare("SELECT 1") {
            Ok(_) => Unread::Memory,
            Err(_) => Unread::Store,
        },
        Unread::Store | Unread::Row => unread,
    }
}

/// Makes the change in the tables in one transaction, after it reads the stored plans that the change removes or
/// replaces. `known` must have all other stored records that the change removes.
pub(crate) fn write_over<S: Alter>(
    alloc: Global,
    conn: &mut Connection<S>,
    change: &Change,
    known: &ListKeeper,
) -> Result<(), Unread>
    requires settled { conn.old.in_transaction ≡ false }
    requires committed { ShowsCommit (state S.Store conn.old) }
    requires puts { PutsWellFormed change.now }
    requires plans { Each IsOneKey change.now.planned.away }
    ensures settled { conn.new.in_transaction ≡ false }
    ensures made { (content : State) → IsWellFormed content → AgreesFor change.now known.now.content content
        → (HasCleanDisk (state S.Store conn.old) → IsKept content (state S.Store conn.old))
        → HasCleanDisk (state S.Store conn.new) → OnOk result (IsMade content (applied change.now content)
        (state S.Store conn.old) (state S.Store conn.new)) }
    ensures undone { HasCleanDisk (state S.Store conn.new)
        → OnErr result (IsUndone (state S.Store conn.old) (state S.Store conn.new)) }
    ensures survives { (content : State) → IsWellFormed content → AgreesFor change.now known.now.content content
        → (HasCleanDisk (state S.Store conn.old) → IsKept content (state S.Store conn.old))
        → Survives (state S.Store conn.old) (state S.Store conn.new)
        (LeadsTo content (applied change.now content) (state S.Store conn.old)) }
    // Out of memory leaves the connection open.
    ensures open { HasCleanDisk (state S.Store conn.new) → result ≡ Err Wanted
        → IsTrue (state S.Store conn.new).is_open }
{
    match write_once(alloc, conn, change, known) {
        Ok(()) => Ok(()),
        Err(unread) => Err(refusal_of(conn, unread)),
    }
}
