ghost use Rattle.std.specs.Prelude.{◌↔◌, IsTrue};
ghost use Rattle.pt_tables_rows.specs.Tables.{PutsWellFormed};

use pt_desk_rules::ranges::puts_in_range;
use pt_desk_rules::{Change, have_stops};

/// Whether rows can represent all that the change puts: a plan with no stops has no row. A change that the rules make
/// passes.
pub fn is_well_formed(change: &Change) -> bool
    ensures { IsTrue result ↔ PutsWellFormed change.now }
{
    puts_in_range(change);
    have_stops(change.planned.puts())
}
