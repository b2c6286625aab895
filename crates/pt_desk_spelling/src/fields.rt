ghost use Rattle.std.specs.Prelude.{◌≡◌, ◌++◌, ◌∷◌, [], ◌^◌, ◌<◌, ◌≤◌, length, OnOk, IfSome};
ghost use Rattle.pt_base_values.specs.Ranges.{last_minute};
ghost use Rattle.pt_base_values.specs.Weekday.{number_of};
ghost use Rattle.pt_desk_spelling.specs.Ranges.{IsWeek};
ghost use Rattle.pt_desk_spelling.specs.Fields.{number_bytes, numbers_bytes, signed_bytes, truth_bytes, day_bit, days_byte};
ghost use Rattle.pt_desk_spelling.specs.Fields.{optional_bytes, text_bytes};

use pt_base_values::{Minute, Weekday, Weekdays};
use std::alloc::AllocError;

/// Adds a number in four bytes, the most significant first. The error is out of memory, here and below.
#[tactic(auto, unfolding(crate::specs::Fields::number_bytes))]
pub(crate) fn push_number(number: u32, out: &mut Vec<u8>) -> Result<(), AllocError>
    ensures { OnOk result (out.new.items ≡ out.old.items ++ number_bytes number) }
{
    out.extend_from_slice(&number.to_be_bytes())
}

/// Adds numbers, one after the other.
pub(crate) fn push_numbers(numbers: &[u32], out: &mut Vec<u8>) -> Result<(), AllocError>
    ensures { OnOk result (out.new.items ≡ out.old.items ++ numbers_bytes numbers.now) }
{
    for &number in numbers {
        push_number(number, out)?;
    }
    Ok(())
}

/// Adds a number of either sign as its two's complement.
pub(crate) fn push_signed(number: i32, out: &mut Vec<u8>) -> Result<(), AllocError>
    ensures { OnOk result (out.new.items ≡ out.old.items ++ signed_bytes number) }
{
    push_number(number.cast_unsigned(), out)
}

/// Adds 0 or 1.
pub(crate) fn push_truth(value: bool, out: &mut Vec<u8>) -> Result<(), AllocError>
    ensures { OnOk result (out.new.items ≡ out.old.items ++ truth_bytes value) }
{
    out.push(u8::from(value))?;
    Ok(())
}

/// Adds a byte with a bit for each weekday, the lowest for Monday.
pub(crate) fn push_days(days: Weekdays, out: &mut Vec<u8>) -> Result<(), AllocError>
    ensures text { OnOk result (out.new.items ≡ out.old.items ++ days_byte days ∷ []) }
    ensures week { IsWeek days }
{
    out.push(days_byte(days))?;
    Ok(())
}

/// A bit for each weekday of the set, the lowest for Monday.
pub fn days_byte(days: Weekdays) -> u8
    ensures value { result ≡ days_byte days }
    ensures week { IsWeek days }
{
    day_bit(days, Weekday::Monday)
        + 2 * day_bit(days, Weekday::Tuesday)
        + 4 * day_bit(days, Weekday::Wednesday)
        + 8 * day_bit(days, Weekday::Thursday)
        + 16 * day_bit(days, Weekday::Friday)
        + 32 * day_bit(days, Weekday::Saturday)
        + 64 * day_bit(days, Weekday::Sunday)
}

/// 1 if the weekday is in the set, else 0.
fn day_bit(days: Weekdays, weekday: Weekday) -> u8
    ensures value { result ≡ day_bit days (number_of weekday) }
    ensures bit { result < 2 }
    ensures week { IsWeek days }
{
    u8::from(days.contains(weekday))
}

/// Adds 0, or 1 and the minute.
pub(crate) fn push_optional(minute: Option<Minute>, out: &mut Vec<u8>) -> Result<(), AllocError>
    ensures text { OnOk result (out.new.items ≡ out.old.items ++ optional_bytes minute) }
    ensures range { OnOk result (IfSome minute (λ known. known ≤ last_minute)) }
{
    match minute {
        None => out.push(0)?,
        Some(there) => {
            out.push(1)?;
            push_number(there.number(), out)?;
        }
    }
    Ok(())
}

/// Adds the length of a text and its bytes.
pub(crate) fn push_text(text: &[u8], out: &mut Vec<u8>) -> Result<(), AllocError>
    requires { length text.now < 2 ^ 32 }
    ensures { OnOk result (out.new.items ≡ out.old.items ++ text_bytes text.now) }
{
    push_number(text.len() as u32, out)?;
    out.extend_from_slice(text)
}
