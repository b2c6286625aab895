ghost use Rattle.std.specs.Prelude.{◌↔◌, IsTrue};
ghost use Rattle.pt_desk_rules.specs.Sound.{HasAuthor, HasFiledRider};
ghost use Rattle.pt_base_records.specs.Records.{Each};
ghost use Rattle.pt_tables_soundness.specs.Tables.{AreSoundEntries};

use crate::files::are_sound_files;
use pt_base_records::{Key, Table};
use pt_base_values::Rider;
use pt_desk_requests::Caller;
use pt_desk_rules::FiledEntry;

/// Whether the rider of the entry's case file exists.
fn has_rider(riders: &Table<Rider>, filed: &FiledEntry) -> bool
    ensures { IsTrue result ↔ HasFiledRider riders.now.items filed.now }
{
    riders.find(&Key::of(filed.rider.number())).is_some()
}

/// Whether the author of the entry is a caller.
fn has_author(callers: &Table<Caller>, filed: &FiledEntry) -> bool
    ensures { IsTrue result ↔ HasAuthor callers.now.items filed.now }
{
    callers
        .find(&Key::of(filed.entered.author.number()))
        .is_some()
}

/// Whether the riders of the entries' case files exist.
fn have_riders(riders: &Table<Rider>, entries: &[FiledEntry]) -> bool
    ensures { IsTrue result ↔ Each (HasFiledRider riders.now.items) entries.now }
{
    entries.iter().all(|filed| has_rider(riders, filed))
}

/// Whether the authors of the entries are callers.
fn have_authors(callers: &Table<Caller>, entries: &[FiledEntry]) -> bool
    ensures { IsTrue result ↔ Each (HasAuthor callers.now.items) entries.now }
{
    entries.iter().all(|filed| has_author(callers, filed))
}

/// Whether the entries are those of a sound state with these callers and riders.
pub(crate) fn are_sound_entries(
    callers: &Table<Caller>,
    riders: &Table<Rider>,
    entries: &Table<FiledEntry>,
) -> bool
    ensures { IsTrue result ↔ AreSoundEntries callers.now.items riders.now.items entries.now.items }
{
    let entries = entries.as_slice();
    have_riders(riders, entries) && have_authors(callers, entries) && are_sound_files(entries)
}
