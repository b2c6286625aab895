ghost use Rattle.std.specs.Prelude.{◌≡◌, ◌≢◌, ◌⊎◌, ◌↔◌, IsTrue, ℕ, ◌+◌, ◌*◌, ◌^◌, ◌<◌, ◌≤◌, ◌∷◌, ◌++◌};
ghost use Rattle.std.specs.Prelude.{List, length, drop, slice_index, codes, decimal};
ghost use Rattle.std.specs.Prelude.{IsNone, IsSomeAnd, IfSome, IfNone, IfOk, IfErr};
ghost use Rattle.pt_base_values.specs.Fault.{code_of, fault, fault_at};
ghost use Rattle.pt_base_values.specs.declared.fault.Cause.TheVariants as cause;
ghost use Rattle.pt_audit.specs.declared.line.Line.{Line};
ghost use Rattle.pt_audit.specs.Text.{opening, closing, IsLogText, IsNoLog, FailsAt, IsNumber, IsInForm, numbers_of};
ghost use Rattle.pt_audit.specs.Letters.{count_after, line_with_one, line_with_two};
ghost use Rattle.pt_audit.specs.Text.{number_text, words_of, line_text};

use crate::{End, Line, Log, Raise};
use pt_base_values::{Cause, Fault};
use std::alloc::{AllocError, Global};

/// The log of the text. The fault is the first row that is not in form, or out of memory.
pub fn read_log(alloc: Global, text: &[u8]) -> Result<Log, Fault>
    ensures log { IfOk result (λ log. IsLogText text.now log.lines.items) }
    ensures fault { IfErr result (λ error. (error ≡ fault cause.Memory)
        ⊎ ((error.code ≡ code_of cause.LogLine) × FailsAt text.now error.row)) }
    // so a text that is a log never has this fault
    ensures no_log { IfErr result (λ error. error.code ≡ code_of cause.LogLine → IsNoLog text.now) }
{
    if !is_opened(text) {
        return Err(Fault {
            code: Cause::LogLine.code(),
            row: 1,
        });
    }
    let mut lines = Vec::new(alloc);
    let mut row: u32 = 2;
    let mut rest = &text[OPENING.len()..];
    while !is_closing(rest) {
        let Some((line, after)) = first_line(rest) else {
            return Err(Fault {
                code: Cause::LogLine.code(),
                row,
            });
        };
        lines.push(line).map_err(AllocError::from)?;
        row = row.saturating_add(1);
        rest = after;
    }
    Ok(Log { lines })
}

/// The first line of a log.
const OPENING: [u8; 8] = *b"AUDIT 1\n";

/// Whether the text begins as a log.
fn is_opened(text: &[u8]) -> bool
    ensures { IsTrue result ↔ (text.now ≡ opening ++ drop 8 text.now) }
{
    text.len() >= OPENING.len() && &text[..OPENING.len()] == OPENING.as_slice()
}

/// Whether the rest of the text is the last line of a log.
fn is_closing(text: &[u8]) -> bool
    ensures { IsTrue result ↔ (text.now ≡ closing) }
{
    text == b"DONE\n".as_slice()
}

/// The first line of the text, and what follows it; `None` if it is not in form.
fn first_line(text: &[u8]) -> Option<(Line, &[u8])>
    ensures line { IfSome result (λ found. IsInForm found.0 × (text.now ≡ line_text found.0 ++ found.1.now)) }
    ensures none { IsNone result → (line : Line) (more : List ℕ) → IsInForm line → text.now ≢ line_text line ++ more }
{
    let (line, rest) = words(text)?;
    let (end, after) = rest.split_first()?;
    if *end != b'\n' {
        return None;
    }
    Some((line, after))
}

/// The first line of the text without its newline, and what follows.
fn words(text: &[u8]) -> Option<(Line, &[u8])>
    ensures line { IfSome result (λ found. IsInForm found.0 × (text.now ≡ words_of found.0 ++ found.1.now)) }
    ensures all { (line : Line) (more : List ℕ) → IsInForm line → text.now ≡ words_of line ++ 10 ∷ more
        → IsSomeAnd result (λ found. (found.0 ≡ line) × (found.1.now ≡ 10 ∷ more)) }
{
    let letter = *text.first()?;
    match count_after(letter) {
        0 => without_numbers(text),
        1 => with_one(text),
        2 => with_two(text),
        _ => case(text),
    }
}

/// How many numbers a line of this first letter has.
fn count_after(letter: u8) -> u8
    ensures { result ≡ count_after letter }
{
    match letter {
        b'N' | b'S' => 0,
        b'W' | b'L' | b'M' => 1,
        b'C' => 3,
        _ => 2,
    }
}

/// A line without numbers.
fn without_numbers(text: &[u8]) -> Option<(Line, &[u8])>
    ensures line { IfSome result (λ found. IsInForm found.0 × (text.now ≡ words_of found.0 ++ found.1.now)) }
    ensures all { (line : Line) (more : List ℕ) → length (numbers_of line) ≡ 0 → text.now ≡ words_of line ++ more
        → IsSomeAnd result (λ found. (found.0 ≡ line) × (found.1.now ≡ more)) }
{
    match text {
        [b'N', b'O', b'D', b'I', b'R', b'E', b'C', b'T', rest @ ..] => Some((Line::NoDirect, rest)),
        [b'S', rest @ ..] => Some((Line::End(End::TooLong), rest)),
        _ => None,
    }
}

/// A line with one number.
fn with_one(text: &[u8]) -> Option<(Line, &[u8])>
    ensures line { IfSome result (λ found. IsInForm found.0 × (text.now ≡ words_of found.0 ++ found.1.now)) }
    ensures all { (line : Line) (more : List ℕ) → IsInForm line → length (numbers_of line) ≡ 1
        → slice_index more 0 < 48 → text.now ≡ words_of line ++ more
        → IsSomeAnd result (λ found. (found.0 ≡ line) × (found.1.now ≡ more)) }
{
    let (letter, rest) = text.split_first()?;
    let (k, rest) = number(rest)?;
    let line = line_with_one(*letter, k)?;
    Some((line, rest))
}

fn line_with_one(letter: u8, k: u32) -> Option<Line>
    ensures { result ≡ line_with_one letter k }
{
    match letter {
        b'W' => Some(Line::End(End::Late(k))),
        b'L' => Some(Line::End(End::Overloaded(k))),
        b'M' => Some(Line::End(End::NoWay(k))),
        _ => None,
    }
}

/// A line with two numbers.
fn with_two(text: &[u8]) -> Option<(Line, &[u8])>
    ensures line { IfSome result (λ found. IsInForm found.0 × (text.now ≡ words_of found.0 ++ found.1.now)) }
    ensures all { (line : Line) (more : List ℕ) → IsInForm line → length (numbers_of line) ≡ 2
        → slice_index more 0 < 48 → text.now ≡ words_of line ++ more
        → IsSomeAnd result (λ found. (found.0 ≡ line) × (found.1.now ≡ more)) }
{
    let (letter, rest) = text.split_first()?;
    let (k, rest) = number(rest)?;
    let (n, rest) = number(rest)?;
    let line = line_with_two(*letter, k, n)?;
    Some((line, rest))
}

fn line_with_two(letter: u8, k: u32, n: u32) -> Option<Line>
    ensures { result ≡ line_with_two letter k n }
{
    match letter {
        b'F' => Some(Line::Raise(Raise::Window(k, n))),
        b'A' => Some(Line::Raise(Raise::Drive(k, n))),
        b'P' => Some(Line::Raise(Raise::Ride(k, n))),
        b'T' if k == 0 => Some(Line::Raise(Raise::Duration(n))),
        _ => None,
    }
}

/// A line that opens a case, with three numbers.
fn case(text: &[u8]) -> Option<(Line, &[u8])>
    ensures line { IfSome result (λ found. IsInForm found.0 × (text.now ≡ words_of found.0 ++ found.1.now)) }
    ensures all { (line : Line) (more : List ℕ) → IsInForm line → length (numbers_of line) ≡ 3
        → slice_index more 0 < 48 → text.now ≡ words_of line ++ more
        → IsSomeAnd result (λ found. (found.0 ≡ line) × (found.1.now ≡ more)) }
{
    let (vehicle, rest) = number(after_case(text)?)?;
    let (i, rest) = number(rest)?;
    let (j, rest) = number(rest)?;
    Some((Line::Case(vehicle, i, j), rest))
}

/// What follows the word of a case.
fn after_case(text: &[u8]) -> Option<&[u8]>
    ensures some { IfSome result (λ rest. text.now ≡ codes "CASE" ++ rest.now) }
    ensures none { IfNone result ((rest : List ℕ) → text.now ≢ codes "CASE" ++ rest) }
{
    match text {
        [b'C', b'A', b'S', b'E', rest @ ..] => Some(rest),
        _ => None,
    }
}

/// The number after a space, and what follows its digits; `None` if there is none in form.
fn number(text: &[u8]) -> Option<(u32, &[u8])>
    ensures number { IfSome result (λ found. IsNumber found.0 × (text.now ≡ number_text found.0 ++ found.1.now)) }
    ensures all { (n : ℕ) (more : List ℕ) → IsNumber n → slice_index more 0 < 48 → text.now ≡ number_text n ++ more
        → IsSomeAnd result (λ found. (found.0 ≡ n) × (found.1.now ≡ more)) }
{
    let (space, digits) = text.split_first()?;
    if *space != b' ' {
        return None;
    }
    let (first, rest) = first_digit(digits)?;
    if first == 0 {
        return Some((0, rest));
    }
    with_digits(u32::from(first), rest)
}

/// The number whose first digits are in `value` and whose other digits begin the text, and what follows them.
fn with_digits(value: u32, text: &[u8]) -> Option<(u32, &[u8])>
    requires { 0 < value }
    ensures number { IfSome result (λ found. IsNumber found.0
        × (decimal value ++ text.now ≡ decimal found.0 ++ found.1.now)) }
    ensures all { (n : ℕ) (more : List ℕ) → IsNumber n → slice_index more 0 < 48
        → decimal value ++ text.now ≡ decimal n ++ more
        → IsSomeAnd result (λ found. (found.0 ≡ n) × (found.1.now ≡ more)) }
{
    let mut number = value;
    let mut rest = text;
    while let Some((digit, after)) = first_digit(rest) {
        number = with_digit(number, digit)?;
        rest = after;
    }
    Some((number, rest))
}

/// The number with one more digit, if it is in the range of a log.
fn with_digit(number: u32, digit: u8) -> Option<u32>
    ensures some { IfSome result (λ longer. IsNumber longer × (longer ≡ number * 10 + digit)) }
    ensures none { IfNone result (2 ^ 32 ≤ number * 10 + digit) }
{
    let tens = number.checked_mul(10)?;
    tens.checked_add(u32::from(digit))
}

/// The value of the digit at the front of the text, and what follows it.
fn first_digit(text: &[u8]) -> Option<(u8, &[u8])>
    ensures digit { IfSome result (λ found. (found.0 < 10) × (text.now ≡ (48 + found.0) ∷ found.1.now)) }
    ensures none { IfNone result ((digit : ℕ) (more : List ℕ) → digit < 10 → text.now ≢ (48 + digit) ∷ more) }
{
    let (byte, rest) = text.split_first()?;
    let digit = byte.checked_sub(b'0')?;
    if digit > 9 {
        return None;
    }
    Some((digit, rest))
}
