ghost use Rattle.std.specs.Prelude.{◌↔◌, IfOk, IsTrue};
ghost use Rattle.pt_base_records.specs.Records.{Each};
ghost use Rattle.pt_desk_rules.specs.Sound.{IsKeptWrite, IsOfCaller};
ghost use Rattle.pt_tables_soundness.specs.Tables.{AreSoundKept};

use pt_base_records::{Key, Table};
use pt_desk_requests::Caller;
use pt_desk_rules::Kept;
use pt_desk_spelling_reading::is_spelling;
use std::alloc::{AllocError, Global};

/// Whether the caller of a kept request exists.
fn is_of_caller(callers: &Table<Caller>, kept: &Kept) -> bool
    ensures { IsTrue result ↔ IsOfCaller callers.now.items kept.now }
{
    callers.find(&Key::of(kept.caller.number())).is_some()
}

/// Whether the callers of the kept requests exist.
fn are_of_callers(callers: &Table<Caller>, kept: &[Kept]) -> bool
    ensures { IsTrue result ↔ Each (IsOfCaller callers.now.items) kept.now }
{
    kept.iter().all(|one| is_of_caller(callers, one))
}

/// Whether its number is at least 1, and its bytes spell a valid request.
fn is_kept_write(alloc: Global, kept: &Kept) -> Result<bool, AllocError>
    ensures { IfOk result (λ is_write. IsTrue is_write ↔ IsKeptWrite kept.now) }
{
    if kept.number == 0 {
        return Ok(false);
    }
    is_spelling(alloc, kept.request.bytes())
}

/// Whether each of them is such a write.
fn are_kept_writes(alloc: Global, kept: &[Kept]) -> Result<bool, AllocError>
    ensures { IfOk result (λ are_writes. IsTrue are_writes ↔ Each IsKeptWrite kept.now) }
{
    for one in kept {
        if !is_kept_write(alloc, one)? {
            return Ok(false);
        }
    }
    Ok(true)
}

/// Whether the kept requests are those of a sound state.
pub(crate) fn are_sound_kept(
    alloc: Global,
    callers: &Table<Caller>,
    kept: &Table<Kept>,
) -> Result<bool, AllocError>
    ensures { IfOk result (λ sound. IsTrue sound ↔ AreSoundKept callers.now.items kept.now.items) }
{
    let kept = kept.as_slice();
    Ok(are_of_callers(callers, kept) && are_kept_writes(alloc, kept)?)
}
