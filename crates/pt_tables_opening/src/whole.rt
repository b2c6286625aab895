ghost use Rattle.std.specs.Prelude.{◌≡◌, ◌⊎◌, ◌-◌, ◌<◌, IfOk, IfErr};
ghost use Rattle.sqlite.specs.Held.{state};
ghost use Rattle.sqlite.specs.State.{HasCleanDisk, IsLive, Survives};
ghost use Rattle.pt_base_values.specs.declared.fault.Cause.TheVariants as cause;
ghost use Rattle.pt_desk_rules.specs.Sound.{IsSound};
ghost use Rattle.pt_desk_rules.specs.State.{applied};
ghost use Rattle.pt_desk_rules.specs.TableNames.{number_of, table_count};
ghost use Rattle.pt_tables_soundness.specs.Tables.{IsSoundBefore, IsSoundIn};
ghost use Rattle.pt_tables_asking.specs.Asking.{HasCause};
ghost use Rattle.pt_tables_opening.specs.Faults.{IsRefusal, fault, unsound};
ghost use Rattle.pt_tables_opening.specs.Opening.{Rests, Stays};
ghost use Rattle.pt_tables_opening.specs.Refused.{SparesOtherVersion, TellsOf};
ghost use Rattle.pt_tables_opening.specs.Steps.{IsReadTo, OpensTable, OpensTo};
ghost use Rattle.pt_tables_opening.specs.Tables.{IsLaidIn};
ghost use Rattle.pt_tables_rows.specs.Schema.{desk_schema};
ghost use Rattle.pt_tables_rows.specs.Tables.{HasRows};

use crate::OpenFault;
use crate::agency::agency_in;
use crate::changes::change_in;
use crate::content::{desk_of, with_change};
use crate::schema_check::is_desk_schema;
use pt_desk_rules::{Change, TableName};
use pt_desk_store::ListKeeper;
use pt_tables_soundness::is_sound_in;
use sqlite::{Alter, Connection};
use std::alloc::Global;

/// The number of the first table after the agency's.
const SECOND_TABLE: u32 = 2;

/// No sound state has the rows of this table.
fn at_fault(table: TableName) -> OpenFault
    ensures value { result ≡ unsound (number_of table) }
    ensures refusal { IsRefusal result }
{
    OpenFault::unsound(table)
}

/// The desk after the change, if it is sound in this table. Code 31: it is not sound. Code 0: out of memory.
fn judge(
    alloc: Global,
    keeper: ListKeeper,
    change: Change,
    table: TableName,
) -> Result<ListKeeper, OpenFault>
    requires before { IsSoundBefore (applied change keeper.content) table }
    requires laid { IsLaidIn (applied change keeper.content) table }
    ensures content { IfOk result (λ judged. judged.content ≡ applied change keeper.content) }
    ensures sound { IfOk result (λ judged. IsSoundIn (applied change keeper.content) table) }
    ensures faults { IfErr result (λ refused. (refused ≡ fault cause.Memory)
        ⊎ ((refused ≡ unsound (number_of table)) × ¬ IsSoundIn (applied change keeper.content) table)) }
{
    let keeper = with_change(keeper, change)?;
    match is_sound_in(alloc, &keeper, table) {
        Ok(true) => Ok(keeper),
        Ok(false) => Err(at_fault(table)),
        Err(_) => Err(OpenFault::MEMORY),
    }
}

/// The desk with the records of one more table, which is read and then checked.
fn with_table<S: Alter>(
    alloc: Global,
    conn: &mut Connection<S>,
    keeper: ListKeeper,
    table: TableName,
) -> Result<ListKeeper, OpenFault>
    requires later { 1 < number_of table }
    requires before { IsReadTo (number_of table - 1) keeper.content }
    ensures { OpensTable table (state S.Store conn.old) (state S.Store conn.new) keeper.content result }
{
    let change = change_in(alloc, conn, &keeper, table)?;
    judge(alloc, keeper, change, table)
}

/// The desk of the agency in the first table, with no records.
fn first_table<S: Alter>(alloc: Global, conn: &mut Connection<S>) -> Result<ListKeeper, OpenFault>
    ensures { OpensTo 1 (state S.Store conn.old) (state S.Store conn.new) result }
{
    let (policy, last_trip) = agency_in(conn)?;
    desk_of(alloc, policy, last_trip)
}

/// The desk that the tables have. Each table is read and checked before the next.
fn all_tables<S: Alter>(alloc: Global, conn: &mut Connection<S>) -> Result<ListKeeper, OpenFault>
    ensures { OpensTo table_count (state S.Store conn.old) (state S.Store conn.new) result }
{
    let mut keeper = first_table(alloc, conn)?;
    let mut number = SECOND_TABLE;
    while let Some(table) = TableName::with_number(number) {
        keeper = with_table(alloc, conn, keeper, table)?;
        number += 1;
    }
    Ok(keeper)
}

/// The desk that the tables of a database have. The tables are read in the order of their numbers, and each is checked
/// before the next is read.
///
/// Code 30: the tables are not the desk's, or are of another version. Code 31, with the number of the first table at
/// fault: no sound state has the rows. Code 32: the connection was shut, its disk failed in the reads, or a limit is
/// set on the steps of queries. Code 0: out of memory.
pub fn content_in<S: Alter>(
    alloc: Global,
    conn: &mut Connection<S>,
) -> Result<ListKeeper, OpenFault>
    ensures live { IsLive (state S.Store conn.old) }
    ensures schema { IfOk result (λ _. (state S.Store conn.old).now.schema ≡ desk_schema) }
    ensures sound { IfOk result (λ keeper. IsSound keeper.content) }
    ensures rows { HasCleanDisk (state S.Store conn.new)
        → IfOk result (λ keeper. HasRows keeper.content (state S.Store conn.old).now.trees) }
    ensures faults { IfErr result IsRefusal }
    ensures caused { HasCleanDisk (state S.Store conn.new) → IfErr result (λ refused. refused ≡ fault cause.StoreFailed
        → HasCause (state S.Store conn.old) (state S.Store conn.new)) }
    ensures why { HasCleanDisk (state S.Store conn.new) → IfErr result (TellsOf (state S.Store conn.old).now) }
    ensures version { HasCleanDisk (state S.Store conn.new)
        → IfErr result (SparesOtherVersion (state S.Store conn.old).now.trees) }
    ensures rests { Rests (state S.Store conn.old) (state S.Store conn.new) result }
    ensures stays { HasCleanDisk (state S.Store conn.new)
        → Stays (state S.Store conn.old) (state S.Store conn.new) }
    ensures survives { Survives (state S.Store conn.old) (state S.Store conn.new) (λ _. ⊥) }
{
    if !is_desk_schema(alloc, conn.schema())? {
        return Err(OpenFault::OTHER_TABLES);
    }
    all_tables(alloc, conn)
}
