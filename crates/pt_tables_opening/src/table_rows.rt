//! The rows of a table, as a query returns them.

ghost use Rattle.std.specs.Prelude.{◌≡◌, ℕ, [], IfOk, IfErr};
ghost use Rattle.sqlite.specs.Given.{IsPlain};
ghost use Rattle.sqlite.specs.Held.{state};
ghost use Rattle.sqlite.specs.Listing.{understood};
ghost use Rattle.sqlite.specs.Schema.{Schema};
ghost use Rattle.sqlite.specs.State.{HasCleanDisk, Shown};
ghost use Rattle.pt_tables_opening.specs.Opening.{IsBlamed, IsServedQuery, ReadsTables, Rests, RestsOn};
ghost use Rattle.pt_tables_rows.specs.Schema.{IsEarlier, desk_schema, desk_table, schema_of};
ghost use Rattle.pt_tables_rows.specs.Tables.{AreRows};

use sqlite::{Alter, Connection, Error, Row};

const DESK_ROWS: &str =
    "SELECT id, version, base, transfer, fare, service, extra_ride, min_missed, percent, \
    span_days, last_trip FROM desk ORDER BY id";

/// All rows that a query returns.
pub(crate) fn rows_of_table<S: Alter>(
    conn: &mut Connection<S>,
    text: &str,
) -> Result<Vec<Row>, Error>
    ensures shown { HasCleanDisk (state S.Store conn.new)
        → IfOk result (λ rows. Shown text.now [] (state S.Store conn.old) (state S.Store conn.new) rows.items) }
    ensures rests { (schema : Schema) → IsPlain (understood schema text.now)
        → RestsOn schema (state S.Store conn.old) (state S.Store conn.new) result }
    ensures caused { (schema : Schema) → IsServedQuery schema text.now → HasCleanDisk (state S.Store conn.new)
        → (state S.Store conn.old).now.schema ≡ schema
        → IfErr result (IsBlamed (state S.Store conn.old) (state S.Store conn.new)) }
{
    conn.query_all(text, &[])
}

/// The row of the desk, in tables of any version.
pub(crate) fn desk_rows<S: Alter>(conn: &mut Connection<S>) -> Result<Vec<Row>, Error>
    ensures rows { ReadsTables (state S.Store conn.old) (state S.Store conn.new)
        (λ trees. IfOk result (λ rows. AreRows desk_table trees rows.items)) }
    ensures rests { Rests (state S.Store conn.old) (state S.Store conn.new) result }
    ensures caused { HasCleanDisk (state S.Store conn.new) → (state S.Store conn.old).now.schema ≡ desk_schema
        → IfErr result (IsBlamed (state S.Store conn.old) (state S.Store conn.new)) }
    ensures earlier_caused { HasCleanDisk (state S.Store conn.new) → (version : ℕ) → IsEarlier version
        → (state S.Store conn.old).now.schema ≡ schema_of version
        → IfErr result (IsBlamed (state S.Store conn.old) (state S.Store conn.new)) }
    ensures earlier_rows { HasCleanDisk (state S.Store conn.new) → (version : ℕ) → IsEarlier version
        → (state S.Store conn.old).now.schema ≡ schema_of version
        → IfOk result (λ rows. AreRows desk_table (state S.Store conn.old).now.trees rows.items) }
    ensures earlier_rests { (version : ℕ) → IsEarlier version
        → RestsOn (schema_of version) (state S.Store conn.old) (state S.Store conn.new) result }
{
    rows_of_table(conn, DESK_ROWS)
}
