//! The store over tables whose content was just created or read.

ghost use Rattle.std.specs.Prelude.{◌≡◌, false};
ghost use Rattle.pt_desk_store.specs.Store.{IsSettled};
ghost use Rattle.sqlite.specs.Held.{state};
ghost use Rattle.sqlite.specs.State.{HasCleanDisk};
ghost use Rattle.pt_desk_store.specs.Records.{Each};
ghost use Rattle.pt_tables_opening.specs.Plans.{HasVersionAmong};
ghost use Rattle.pt_tables_rows.specs.Tables.{IsWellFormed, IsKept};
ghost use Rattle.pt_tables_writing.specs.Committing.{LeavesDesk};

use pt_desk_store::{Keeper, ListKeeper};
use pt_tables_keeper::{Content, Known, SqlKeeper};
use sqlite::{Alter, Connection};
use std::alloc::Global;

/// The store over a database whose tables have the content of these lists. It drops the records that it does not need
/// in memory.
pub(crate) fn keeper_of<S: Alter>(
    alloc: Global,
    conn: Connection<S>,
    lists: ListKeeper,
) -> SqlKeeper<S>
    requires settled { conn.in_transaction ≡ false }
    requires readable { IsWellFormed lists.content }
    requires carried { Each (HasVersionAmong lists.content.vehicles) lists.content.planned }
    requires kept { HasCleanDisk (state S.Store conn) → IsKept lists.content (state S.Store conn) }
    requires leaves { LeavesDesk (state S.Store conn) }
    ensures conn { result.conn ≡ conn }
    ensures content { result.content ≡ lists.content }
    ensures serves { result.failures ≡ 0 }
    ensures settled { IsSettled (⟦<SqlKeeper<S> as Keeper>⟧.store result) }
    ensures leaves { LeavesDesk (state S.Store result.conn) }
{
    let tables = Content::of(&lists);
    let rider_count = lists.riders_table().as_slice().len();
    let known = Known::of(lists.into_known(alloc), tables);
    SqlKeeper::of(alloc, conn, known, rider_count)
}
