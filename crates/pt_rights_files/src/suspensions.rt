ghost use Rattle.std.specs.Prelude.{◌≡◌, ℕ, ◌<◌, ◌≤◌, ◌&&◌, ◌||◌, false, length, slice_index_or, if◌then◌else◌};
ghost use Rattle.pt_rights_files.specs.Appeals.{appeals_against};
ghost use Rattle.pt_rights_files.specs.Kinds.{is_overturn, decides_appeal};
ghost use Rattle.pt_rights_files.specs.Suspension.{is_lifted, is_suspended};
ghost use Rattle.pt_rights_files.specs.declared.suspensions.TheConstants.{POSITIONS};
ghost use Rattle.pt_rights_files.specs.Limits.{most_entries};

use crate::{Entered, Entry, MOST_ENTRIES};
use pt_base_values::Day;

/// The number of positions that an appeal can name.
const POSITIONS: usize = MOST_ENTRIES;

/// Whether some suspension of the day has effect.
pub(crate) fn is_suspended(entries: &[Entered], day: Day) -> bool
    requires { length entries.now ≤ most_entries }
    ensures { result ≡ is_suspended entries.now day }
{
    let lifted = lifted_positions(entries);
    for (position, Entered { entry, .. }) in entries.iter().enumerate() {
        if entry.suspends(day) && !lifted[position] {
            return true;
        }
    }
    false
}

/// For each position, whether an appeal against the entry there is pending or has overturned it.
fn lifted_positions(entries: &[Entered]) -> [bool; POSITIONS]
    ensures { (position : ℕ) → position < POSITIONS
        → slice_index_or result position false ≡ is_lifted entries.now position }
{
    let mut lifted = [false; POSITIONS];
    // Whether an appeal at this position would be pending or overturn.
    let mut lifts = true;
    for position in (0..entries.len()).rev() {
        let entry = &entries[position].entry;
        lift(&mut lifted, entry, lifts);
        lifts = lifts_before(entry, lifts);
    }
    lifted
}

/// Marks the position that the entry appeals against, if it is an appeal and `lifts` is true.
fn lift(lifted: &mut [bool; POSITIONS], entry: &Entry, lifts: bool)
    ensures { (position : ℕ) → position < POSITIONS → slice_index_or lifted.new position false
        ≡ ((appeals_against position entry.now && lifts) || slice_index_or lifted.old position false) }
{
    if lifts && let Entry::Appeal { against } = entry {
        lifted[against.number() as usize] = true;
    }
}

/// Whether an appeal before the entry is pending or overturns; `lifts` says so of one after it.
fn lifts_before(entry: &Entry, lifts: bool) -> bool
    ensures { result ≡ (if decides_appeal entry.now then is_overturn entry.now else lifts) }
{
    if entry.decides_appeal() {
        entry.is_overturn()
    } else {
        lifts
    }
}
