ghost use Rattle.std.specs.Prelude.{◌≡◌, ℕ, IfSome, IsNone};
ghost use Rattle.pt_base_values.specs.SpelledNumber.{SpellsNumber, number_from};

use std::str;

/// The number that the bytes spell in 1 to `digits` decimal digits; `None` if they spell none or one above `most`.
pub fn number_from(bytes: &[u8], digits: usize, most: u64) -> Option<u64>
    ensures value { result ≡ number_from digits most bytes.now }
    ensures spelled { IfSome result (SpellsNumber digits most bytes.now) }
    ensures none { IsNone result → (number : ℕ) → ¬ (SpellsNumber digits most bytes.now number) }
{
    spelled_number(bytes, digits, most)
}

/// The same as `number_from`, digit by digit.
fn spelled_number(bytes: &[u8], digits: usize, most: u64) -> Option<u64>
    ensures spelled { IfSome result (SpellsNumber digits most bytes.now) }
    ensures none { IsNone result → (number : ℕ) → ¬ (SpellsNumber digits most bytes.now number) }
{
    if bytes.is_empty() || bytes.len() > digits || bytes[0] == b'+' {
        return None;
    }
    let text = str::from_utf8(bytes).ok()?;
    let number = u64::from_str_radix(text, 10).ok()?;
    if number > most {
        return None;
    }
    Some(number)
}
