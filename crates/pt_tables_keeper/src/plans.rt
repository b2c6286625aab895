//! The plans that a change removes or replaces, read before it is written.

ghost use Rattle.std.specs.Prelude.{◌≡◌, [], IfOk, OnOk, false, map};
ghost use Rattle.sqlite.specs.Held.{state};
ghost use Rattle.sqlite.specs.State.{HasCleanDisk};
ghost use Rattle.pt_desk_rules.specs.State.{State};
ghost use Rattle.pt_base_records.specs.Records.{record_at};
ghost use Rattle.pt_desk_scheduling.specs.Plan.{plan_key};
ghost use Rattle.pt_tables_asking.specs.Asking.{Rests, ShowsCommit};
ghost use Rattle.pt_tables_keeper.specs.Plans.{keys_of, plans_with, plans_at, ArePlansOf};
ghost use Rattle.pt_tables_rows.specs.Tables.{IsKept, IsWellFormed};

use pt_base_records::{Edits, Key, Keyed, Span, Table};
use pt_desk_scheduling::Plan;
use pt_tables_asking::{Unread, plan_by_key};
use sqlite::{Alter, Connection};
use std::alloc::{AllocError, Global};

/// Puts the plan among the others, if there is one.
fn put_found(alloc: Global, found: Option<Plan>, plans: &mut Table<Plan>) -> Result<(), AllocError>
    ensures value { OnOk result (plans.new.items ≡ plans_with found plans.old.items) }
{
    let Some(plan) = found else {
        return Ok(());
    };
    let mut one = Edits::none(alloc);
    one.put(plan)?;
    plans.reserve(&one)?;
    plans.edit(one);
    Ok(())
}

/// Reads the plan of a key, and puts it among the others.
fn read_plan<S: Alter>(
    alloc: Global,
    conn: &mut Connection<S>,
    key: &Key,
    plans: &mut Table<Plan>,
) -> Result<(), Unread>
    requires settled { conn.old.in_transaction ≡ false }
    ensures told { HasCleanDisk (state S.Store conn.new) → (content : State) → IsWellFormed content
        → IsKept content (state S.Store conn.old)
        → OnOk result (plans.new.items ≡ plans_with (record_at plan_key key.now content.planned) plans.old.items) }
    ensures rests { Rests (state S.Store conn.old) (state S.Store conn.new) }
{
    let found = plan_by_key(alloc, conn, key)?;
    put_found(alloc, found, plans)?;
    Ok(())
}

/// Reads the plan of a key and puts it among the others, unless it is there.
fn read_unread<S: Alter>(
    alloc: Global,
    conn: &mut Connection<S>,
    key: &Key,
    plans: &mut Table<Plan>,
) -> Result<(), Unread>
    requires settled { conn.old.in_transaction ≡ false }
    requires committed { ShowsCommit (state S.Store conn.old) }
    ensures told { HasCleanDisk (state S.Store conn.new) → (content : State) → IsWellFormed content
        → IsKept content (state S.Store conn.old) → ArePlansOf content.planned plans.old.items
        → OnOk result (plans.new.items ≡ plans_with (record_at plan_key key.now content.planned) plans.old.items) }
    ensures rests { Rests (state S.Store conn.old) (state S.Store conn.new) }
{
    if plans.find(key).is_some() {
        return Ok(());
    }
    read_plan(alloc, conn, key, plans)
}

/// Reads the plans with the first keys of these spans.
fn read_taken<S: Alter>(
    alloc: Global,
    conn: &mut Connection<S>,
    spans: &[Span],
    plans: &mut Table<Plan>,
) -> Result<(), Unread>
    requires settled { conn.old.in_transaction ≡ false }
    requires committed { ShowsCommit (state S.Store conn.old) }
    ensures told { HasCleanDisk (state S.Store conn.new) → (content : State) → IsWellFormed content
        → IsKept content (state S.Store conn.old)
        → OnOk result (plans.new.items ≡ plans_at content.planned (map (λ span. span.from) spans.now) plans.old.items) }
    ensures rests { Rests (state S.Store conn.old) (state S.Store conn.new) }
{
    for span in spans {
        read_plan(alloc, conn, &span.from, plans)?;
    }
    Ok(())
}

/// Reads the stored plans that these replace, unless they are there.
fn read_replaced<S: Alter>(
    alloc: Global,
    conn: &mut Connection<S>,
    news: &[Plan],
    plans: &mut Table<Plan>,
) -> Result<(), Unread>
    requires settled { conn.old.in_transaction ≡ false }
    requires committed { ShowsCommit (state S.Store conn.old) }
    ensures told { HasCleanDisk (state S.Store conn.new) → (content : State) → IsWellFormed content
        → IsKept content (state S.Store conn.old) → ArePlansOf content.planned plans.old.items
        → OnOk result (plans.new.items ≡ plans_at content.planned (map plan_key news.now) plans.old.items) }
    ensures rests { Rests (state S.Store conn.old) (state S.Store conn.new) }
{
    for new in news {
        read_unread(alloc, conn, &new.key(), plans)?;
    }
    Ok(())
}

/// The stored plans with the keys that the edit removes or puts. Each span that it removes is a single key.
pub(crate) fn plans_before<S: Alter>(
    alloc: Global,
    conn: &mut Connection<S>,
    edits: &Edits<Plan>,
) -> Result<Table<Plan>, Unread>
    requires settled { conn.old.in_transaction ≡ false }
    requires committed { ShowsCommit (state S.Store conn.old) }
    ensures told { HasCleanDisk (state S.Store conn.new) → (content : State) → IsWellFormed content
        → IsKept content (state S.Store conn.old)
        → IfOk result (λ plans. plans.items ≡ plans_at content.planned (keys_of edits.now) []) }
    ensures rests { Rests (state S.Store conn.old) (state S.Store conn.new) }
{
    let mut plans = Table::none(alloc);
    read_taken(alloc, conn, edits.spans(), &mut plans)?;
    read_replaced(alloc, conn, edits.puts(), &mut plans)?;
    Ok(plans)
}
