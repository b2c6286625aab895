ghost use Rattle.std.specs.Prelude.{◌≡◌, ℕ, ◌+◌, ◌<◌, ◌↔◌, [], ◌∷◌, Some, pos, ◌≤ℤ◌, IsNone, IfSome, ◌≢◌};
ghost use Rattle.jiff_core.specs.declared.civil.date.Date as the_date;
ghost use Rattle.jiff_fmt.specs.Text.{pad2, date_text};
ghost use Rattle.pt_base_values.specs.DateText.{text_of};

use jiff_core::civil::Date;

/// The number of bytes in a date's text.
pub(crate) const LENGTH: usize = 10;

/// The number below 100 in two digits.
fn two_digits(number: u8) -> [u8; 2]
    requires { number < 100 }
    ensures { result ≡ pad2 number }
{
    [b'0' + number / 10, b'0' + number % 10]
}

/// The number that two bytes spell; `None` if one is not a digit.
fn two_digit_number(tens: u8, units: u8) -> Option<u8>
    ensures below { IfSome result (λ number. number < 100) }
    ensures value { (number : ℕ) → number < 100 → (result ≡ Some number) ↔ (pad2 number ≡ tens ∷ units ∷ []) }
{
    if !tens.is_ascii_digit() || !units.is_ascii_digit() {
        return None;
    }
    Some((tens - b'0') * 10 + (units - b'0'))
}

/// The date as `YYYY-MM-DD`.
pub(crate) fn spell(date: Date) -> [u8; LENGTH]
    requires { pos 0 ≤ℤ date.year }
    ensures { result ≡ date_text date }
{
    let year = date.year as u16;
    let [a, b] = two_digits((year / 100) as u8);
    let [c, d] = two_digits((year % 100) as u8);
    let [e, f] = two_digits(date.month);
    let [g, h] = two_digits(date.day);
    [a, b, c, d, b'-', e, f, b'-', g, h]
}

/// The year, month and day in a text of the form `YYYY-MM-DD`, whether or not the calendar has that date.
fn numbers(text: &str) -> Option<(u16, u8, u8)>
    ensures below { IfSome result (λ n. (n.0 < 10_000) × (n.1 < 100) × (n.2 < 100)) }
    ensures value { (year month day : ℕ) → year < 10_000 → month < 100 → day < 100
        → (result ≡ Some (year, month, day)) ↔ (text_of year month day ≡ text.now) }
{
    let &[a, b, c, d, b'-', e, f, b'-', g, h] = text.as_bytes() else {
        return None;
    };
    let century = two_digit_number(a, b)?;
    let years = two_digit_number(c, d)?;
    let month = two_digit_number(e, f)?;
    let day = two_digit_number(g, h)?;
    Some((u16::from(century) * 100 + u16::from(years), month, day))
}

/// The date that the text spells as `YYYY-MM-DD`; `None` if the calendar has no such date.
pub(crate) fn read(text: &str) -> Option<Date>
    ensures spelled { IfSome result (λ date. (pos 0 ≤ℤ date.year) × (date_text date ≡ text.now)) }
    ensures none { IsNone result → (date : the_date.Date) → pos 0 ≤ℤ date.year → date_text date ≢ text.now }
{
    let (year, month, day) = numbers(text)?;
    Date::new(year as i16, month as i8, day as i8).ok()
}
