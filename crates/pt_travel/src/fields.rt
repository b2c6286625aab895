ghost use Rattle.std.specs.Prelude.{◌≡◌, ℕ, ◌≤◌, MatchOption};
ghost use Rattle.pt_travel.specs.Places.{list_of};
ghost use Rattle.pt_travel.specs.Text.{IsDigits, IsMinutes, IsPlace, number_of};

use crate::places::Places;
use crate::raw::MOST_MINUTES;
use pt_base_values::PlaceId;

/// The place among these that a field of 1 to 10 digits names.
pub(crate) fn place(field: &[u8], places: &Places) -> Option<PlaceId>
    ensures { MatchOption result (IsPlace (list_of places.now) field.now → ⊥)
        (λ place. IsPlace (list_of places.now) field.now × (place ≡ number_of field.now)) }
{
    places.place(digits(field, 10)?)
}

/// The minutes that a field of 1 to 4 digits gives, at most 1439.
pub(crate) fn minutes(field: &[u8]) -> Option<u16>
    ensures { MatchOption result (IsMinutes field.now → ⊥)
        (λ minutes. IsMinutes field.now × (minutes ≡ number_of field.now)) }
{
    let number = digits(field, 4)?;
    if number <= u64::from(MOST_MINUTES) {
        Some(number as u16)
    } else {
        None
    }
}

// The number that 1 to `most` digits write.
fn digits(field: &[u8], most: usize) -> Option<u64>
    requires { most ≤ 10 }
    ensures { MatchOption result (IsDigits most field.now → ⊥)
        (λ number. IsDigits most field.now × (number ≡ number_of field.now)) }
{
    if field.is_empty() || field.len() > most {
        return None;
    }
    let mut number: u64 = 0;
    for digit in field {
        if !digit.is_ascii_digit() {
            return None;
        }
        number = 10 * number + u64::from(*digit - b'0');
    }
    Some(number)
}
