ghost use Rattle.std.specs.Prelude.{◌≡◌, ◌↔◌, IsTrue};
ghost use Rattle.sqlite.specs.Order.{column};
ghost use Rattle.pt_tables_rows.specs.Rows.{number_value};

use sqlite::Row;
use sqlite::types::ValueRef;

/// The column of the desk's row that has the version of the tables.
const VERSION_COLUMN: usize = 1;

/// Whether the desk's row has this version of the tables.
pub(crate) fn has_version(row: &Row, version: u32) -> bool
    ensures { IsTrue result ↔ (column row.now 1 ≡ number_value version) }
{
    match row.get_ref(VERSION_COLUMN) {
        Ok(ValueRef::Int(told)) => told == i64::from(version),
        _ => false,
    }
}
