ghost use Rattle.std.specs.Prelude.{◌≡◌};
ghost use Rattle.pt_http_request.specs.Numbers.{id_from, position_from};

use pt_base_values::{Id, number_from};
use pt_rights_files::{MOST_ENTRIES, Position};

/// The last position in a case file, counted from 0.
pub(crate) const LAST_POSITION: u32 = MOST_ENTRIES as u32 - 1;

/// The number of a record that one to ten digits spell.
pub(crate) fn id_from<Kind>(text: &str) -> Option<Id<Kind>>
    ensures { result ≡ id_from text.now }
{
    let number = number_from(text.as_bytes(), 10, 4_294_967_295)?;
    Id::of(number as u32)
}

/// The position in a case file, counted from 0, that one to ten digits spell.
pub(crate) fn position_from(text: &str) -> Option<Position>
    ensures { result ≡ position_from text.now }
{
    let number = number_from(text.as_bytes(), 10, u64::from(LAST_POSITION))?;
    Position::of(number as u32)
}
