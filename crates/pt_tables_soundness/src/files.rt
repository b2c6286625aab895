ghost use Rattle.std.specs.Prelude.{◌≡◌, ◌↔◌, IsTrue};
ghost use Rattle.pt_desk_rules.specs.State.{entry_key};
ghost use Rattle.pt_base_records.specs.Records.{IsInOrder};
ghost use Rattle.pt_tables_soundness.specs.Files.{next_position, IsAt};
ghost use Rattle.pt_tables_soundness.specs.Tables.{AreSoundFiles};

use pt_desk_rules::FiledEntry;
use pt_rights_files::MOST_ENTRIES;

/// Nobody's number.
const NOBODY: u32 = 0;

/// The position that an entry must have, if the last entry was of rider `last` and `next` is the position after it.
fn next_position(last: u32, next: u32, filed: &FiledEntry) -> u32
    ensures { result ≡ next_position last next filed.now.rider }
{
    if filed.rider.number() == last {
        next
    } else {
        0
    }
}

/// Whether the entry has this position, and a file may have it.
fn is_at(position: u32, filed: &FiledEntry) -> bool
    ensures { IsTrue result ↔ IsAt position filed.now }
{
    filed.position == position && (position as usize) < MOST_ENTRIES
}

/// Whether the entries of each rider count up from 0 with no gap, and are at most 200.
pub(crate) fn are_sound_files(entries: &[FiledEntry]) -> bool
    requires order { IsInOrder entry_key entries.now }
    ensures { IsTrue result ↔ AreSoundFiles entries.now }
{
    let mut last = NOBODY;
    let mut next = 0;
    for filed in entries {
        let position = next_position(last, next, filed);
        if !is_at(position, filed) {
            return false;
        }
        last = filed.rider.number();
        next = position + 1;
    }
    true
}
