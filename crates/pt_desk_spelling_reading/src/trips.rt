ghost use Rattle.std.specs.Prelude.{◌∷◌, []};
ghost use Rattle.pt_desk_spelling.specs.Ranges.{IsWish};
ghost use Rattle.pt_desk_spelling.specs.Requests.{outcome_number, wish_bytes};
ghost use Rattle.pt_desk_spelling_reading.specs.Reading.{Finds};

use crate::fields::{
    take_byte, take_day, take_id, take_minute, take_number_in, take_optional, take_truth,
};
use pt_base_values::Wish;
use pt_rights_files::Outcome;

/// The wish whose fields the bytes are; `None` if they are no such fields.
pub(crate) fn wish_from(bytes: &[u8]) -> Option<Wish>
    ensures { Finds wish_bytes IsWish bytes.now result }
{
    let mut left = bytes;
    Some(Wish {
        day: take_day(&mut left)?,
        pickup: take_minute(&mut left)?,
        from: take_id(&mut left)?,
        to: take_id(&mut left)?,
        by: take_optional(&mut left)?,
        attendant: take_truth(&mut left)?,
        companions: take_number_in(&mut left, 0, 255)? as u8,
    })
}

/// The outcome of a trip that the bytes spell; `None` if they spell none.
pub(crate) fn outcome_from(bytes: &[u8]) -> Option<Outcome>
    ensures { Finds (λ outcome. outcome_number outcome ∷ []) (λ _. Unit {0}) bytes.now result }
{
    let mut left = bytes;
    match take_byte(&mut left)? {
        0 => Some(Outcome::Ridden),
        1 => Some(Outcome::MissedRider),
        2 => Some(Outcome::MissedOperator),
        _ => None,
    }
}
