ghost use Rattle.std.specs.Prelude.{◌≡◌, ◌↔◌, IsTrue};
ghost use Rattle.pt_base_records.specs.Records.{Each};
ghost use Rattle.pt_desk_rules.specs.Sound.{HasOneHolder};
ghost use Rattle.pt_tables_soundness.specs.Tables.{AreSoundCallers};

use pt_base_records::Table;
use pt_desk_requests::Caller;
use pt_desk_rules::limits::MOST_CALLERS;

/// Whether the two are the same caller, or have different digests.
fn differ(first: &Caller, second: &Caller) -> bool
    ensures { IsTrue result ↔ (first.now.digest ≡ second.now.digest → first.now.id ≡ second.now.id) }
{
    first.id == second.id || first.digest != second.digest
}

/// Whether no other caller in the list has the caller's digest.
fn has_one_holder(callers: &[Caller], caller: &Caller) -> bool
    ensures { IsTrue result ↔ HasOneHolder callers.now caller.now }
{
    callers.iter().all(|other| differ(caller, other))
}

/// Whether no two callers have the same digest.
fn have_one_holder_each(callers: &[Caller]) -> bool
    ensures { IsTrue result ↔ Each (HasOneHolder callers.now) callers.now }
{
    callers.iter().all(|caller| has_one_holder(callers, caller))
}

/// Whether the callers are those of a sound state, as far as no other table matters.
pub(crate) fn are_sound_callers(callers: &Table<Caller>) -> bool
    ensures { IsTrue result ↔ AreSoundCallers callers.now.items }
{
    let callers = callers.as_slice();
    callers.len() <= MOST_CALLERS && have_one_holder_each(callers)
}
