ghost use Rattle.std.specs.Prelude.{◌≡◌, ℕ, ◌+◌, ◌≤◌, ◌==◌, List, drop, length, position, IfSome, IsNone};
ghost use Rattle.std.specs.Str.Lines.{strip_carriage_return};
ghost use Rattle.pt_http_rehearsal.specs.Moment.{IsMoment, AreParts, BeginsWithLine, BeginsWithMoment};

use pt_base_values::{LAST_MINUTE, Minute, Moment, day_from, number_from};
use std::str;

/// The most bytes of a line with a moment, including its newline.
pub(crate) const LONGEST_MOMENT_LINE: usize = 19;

/// The moment that a line gives.
#[derive(Clone, Copy)]
pub(crate) struct MomentLine {
    pub moment: Moment,
    /// The number of bytes of the line, including its newline.
    pub end: usize,
}

/// The place of the first newline.
fn newline_in(bytes: &[u8]) -> Option<usize>
    ensures { result ≡ position (λ byte. byte == 10) bytes.now }
{
    bytes.iter().position(|byte| *byte == b'\n')
}

/// The first line, without its newline.
fn line_of(bytes: &[u8]) -> Option<&[u8]>
    ensures line { IfSome result (λ line. BeginsWithLine bytes.now line.now (drop (length line.now + 1) bytes.now)) }
    ensures none { IsNone result → (line rest : List ℕ) → ¬ (BeginsWithLine bytes.now line rest) }
{
    let end = newline_in(bytes)?;
    Some(&bytes[..end])
}

/// The line without the one carriage return at its end.
fn without_return(line: &[u8]) -> &[u8]
    ensures { result.now ≡ strip_carriage_return line.now }
{
    match line {
        [text @ .., b'\r'] => text,
        _ => line,
    }
}

/// The date and the digits of a moment's text.
fn parts_of(text: &str) -> Option<(&str, &str)>
    ensures parts { IfSome result (λ parts. AreParts text.now parts.0.now parts.1.now) }
    ensures none { IsNone result → (date digits : List ℕ) → ¬ (AreParts text.now date digits) }
{
    text.strip_prefix("@ ")?.split_once(' ')
}

/// The moment that a line spells.
fn moment_from(line: &[u8]) -> Option<Moment>
    ensures moment { IfSome result (λ moment. IsMoment line.now moment.0 moment.1) }
    ensures none { IsNone result → (day minute : ℕ) → ¬ (IsMoment line.now day minute) }
{
    let text = str::from_utf8(line).ok()?;
    let (date, digits) = parts_of(text)?;
    let day = day_from(date)?;
    let minute = number_from(digits.as_bytes(), 4, u64::from(LAST_MINUTE))?;
    Some((day, Minute::of(minute as u32)?))
}

/// The moment in the line at the front of the bytes; `None` if no line with a moment is there.
pub(crate) fn moment_at(bytes: &[u8]) -> Option<MomentLine>
    ensures moment { IfSome result (λ found. BeginsWithMoment bytes.now found.moment.0
        found.moment.1 (drop found.end bytes.now)) }
    ensures within { IfSome result (λ found. found.end ≤ length bytes.now) }
    ensures short { IfSome result (λ found. found.end ≤ LONGEST_MOMENT_LINE) }
    ensures none { IsNone result → (day minute : ℕ) (rest : List ℕ) → ¬ (BeginsWithMoment bytes.now day minute rest) }
{
    let line = line_of(bytes)?;
    let moment = moment_from(without_return(line))?;
    let end = line.len() + 1;
    Some(MomentLine { moment, end })
}
