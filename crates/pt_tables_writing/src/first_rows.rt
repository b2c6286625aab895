ghost use Rattle.std.specs.Prelude.{◌≡◌, IsTrue, OnOk};
ghost use Rattle.sqlite.specs.Effect.{IsDatabase};
ghost use Rattle.sqlite.specs.Held.{state};
ghost use Rattle.sqlite.specs.State.{HasCleanDisk};
ghost use Rattle.pt_tables_writing.specs.Least.{first_admin};
ghost use Rattle.pt_tables_writing.specs.Step.{Writes};
ghost use Rattle.pt_tables_rows.specs.Rows.{desk_row, caller_row};
ghost use Rattle.pt_tables_rows.specs.Schema.{desk_schema, desk_table, callers_table};
ghost use Rattle.pt_tables_rows.specs.Tables.{Fills};

use pt_base_values::Policy;
use pt_desk_requests::Digest;
use pt_tables_rows::{DESK, TABLE_VERSION};
use sqlite::{Alter, Error, Transaction, params};

/// The number of the first caller.
const FIRST_CALLER: u32 = 1;

/// The number of the admin's role in its column.
const ADMIN_ROLE: u32 = 6;

/// The subject of a role that is about nobody.
const NO_SUBJECT: u32 = 0;

const INSERT_DESK: &str = "INSERT INTO desk (id, version, base, transfer, fare, service, \
    extra_ride, min_missed, percent, span_days, last_trip) \
    VALUES (?1, ?2, ?3, ?4, ?5, ?6, ?7, ?8, ?9, ?10, ?11)";

const INSERT_CALLER: &str = "INSERT INTO callers (id, role, subject, digest) \
    VALUES (?1, ?2, ?3, ?4)";

/// Inserts the agency's row into its empty table.
pub fn insert_desk<S: Alter>(
    tx: &mut Transaction<'_, S>,
    policy: &Policy,
    last_trip: u32,
) -> Result<(), Error>
    ensures step { Writes S.Store tx.old tx.new (Fills desk_table (desk_row policy.now last_trip)) result }
{
    tx.execute(
        INSERT_DESK,
        params![
            DESK,
            TABLE_VERSION,
            policy.base,
            policy.transfer,
            policy.fare,
            u32::from(policy.service),
            u32::from(policy.extra_ride),
            u32::from(policy.min_missed),
            u32::from(policy.percent),
            u32::from(policy.span_days),
            last_trip
        ],
    )?;
    Ok(())
}

/// Inserts the admin whose key has this digest into the empty table of callers.
pub fn insert_admin<S: Alter>(tx: &mut Transaction<'_, S>, digest: &Digest) -> Result<(), Error>
    ensures step { Writes S.Store tx.old tx.new (Fills callers_table (caller_row (first_admin digest.now))) result }
    ensures sound { HasCleanDisk (state S.Store tx.new.conn.now)
        → IsTrue (state S.Store tx.old.conn.now).in_transaction
        → OnOk result ((state S.Store tx.old.conn.now).now.schema ≡ desk_schema
        → IsDatabase (state S.Store tx.new.conn.now).now) }
{
    tx.execute(
        INSERT_CALLER,
        params![FIRST_CALLER, ADMIN_ROLE, NO_SUBJECT, digest.bytes()],
    )?;
    Ok(())
}
