ghost use Rattle.std.specs.Prelude.{◌≡◌, ℕ, [], ◌∷◌, IsTrue, OnOk};
ghost use Rattle.sqlite.specs.Effect.{IsDatabase};
ghost use Rattle.sqlite.specs.Held.{state};
ghost use Rattle.sqlite.specs.State.{HasCleanDisk};
ghost use Rattle.pt_tables_rows.specs.Rows.{desk_row};
ghost use Rattle.pt_tables_rows.specs.Schema.{desk_schema, desk_table};
ghost use Rattle.pt_tables_writing.specs.Step.{Writes};
ghost use Rattle.pt_tables_writing.specs.Writes.{Rewrites, RaisesVersion};

use pt_base_values::Policy;
use pt_tables_rows::{DESK, TABLE_VERSION};
use sqlite::{Alter, Error, Transaction, params};

const WRITE_DESK: &str = "INSERT INTO desk (id, version, base, transfer, fare, service, \
    extra_ride, min_missed, percent, span_days, last_trip) \
    VALUES (?1, ?2, ?3, ?4, ?5, ?6, ?7, ?8, ?9, ?10, ?11) \
    ON CONFLICT (id) DO UPDATE SET version = ?2, base = ?3, transfer = ?4, fare = ?5, \
    service = ?6, extra_ride = ?7, min_missed = ?8, percent = ?9, span_days = ?10, \
    last_trip = ?11";

const RAISE_VERSION: &str = "UPDATE desk SET version = ?2 WHERE id = ?1";

/// Overwrites the agency's row.
pub(crate) fn write_desk<S: Alter>(
    tx: &mut Transaction<'_, S>,
    policy: &Policy,
    last_trip: u32,
) -> Result<(), Error>
    ensures step { Writes S.Store tx.old tx.new
        (λ old new. ((p : _) (n : ℕ) → Rewrites desk_table (desk_row p n ∷ [])
        (desk_row policy.now last_trip ∷ []) old new) × IsDatabase new) result }
    ensures open { HasCleanDisk (state S.Store tx.new.conn.now)
        → IsTrue (state S.Store tx.old.conn.now).in_transaction
        → OnOk result (IsTrue (state S.Store tx.old.conn.now).is_open) }
{
    tx.execute(
        WRITE_DESK,
        params![
            DESK,
            TABLE_VERSION,
            policy.base,
            policy.transfer,
            policy.fare,
            u32::from(policy.service),
            u32::from(policy.extra_ride),
            u32::from(policy.min_missed),
            u32::from(policy.percent),
            u32::from(policy.span_days),
            last_trip
        ],
    )?;
    Ok(())
}

/// Sets the version in the agency's row to the current one.
pub fn raise_version<S: Alter>(tx: &mut Transaction<'_, S>) -> Result<(), Error>
    ensures step { Writes S.Store tx.old tx.new RaisesVersion result }
    ensures sound { HasCleanDisk (state S.Store tx.new.conn.now)
        → IsTrue (state S.Store tx.old.conn.now).in_transaction
        → OnOk result ((state S.Store tx.old.conn.now).now.schema ≡ desk_schema
        → IsDatabase (state S.Store tx.new.conn.now).now) }
    ensures open { HasCleanDisk (state S.Store tx.new.conn.now)
        → IsTrue (state S.Store tx.old.conn.now).in_transaction
        → OnOk result (IsTrue (state S.Store tx.old.conn.now).is_open) }
{
    tx.execute(RAISE_VERSION, params![DESK, TABLE_VERSION])?;
    Ok(())
}
