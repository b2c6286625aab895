ghost use Rattle.std.specs.Prelude.{◌≡◌, ◌+◌, ◌≤◌, ◌++◌, length};
ghost use Rattle.pt_audit.specs.Text.{keyword_of, numbers_of, number_text, line_text, IsInForm};
ghost use Rattle.pt_audit.specs.declared.text.TheConstants.{LONGEST_LINE};

use crate::{End, Line, Raise};
use arrayvec::ArrayVec;
use itoa::Buffer;

/// The most bytes in a line: a word of eight letters, three numbers after spaces, and a newline.
pub const LONGEST_LINE: usize = 42;

/// A line in bytes, with its newline.
pub type LineText = ArrayVec<u8, LONGEST_LINE>;

/// The text of a line.
pub fn line_text(line: Line) -> LineText
    ensures value { result.items ≡ line_text line }
    ensures in_form { IsInForm line }
{
    let mut text = LineText::new();
    push(keyword_of(line), &mut text);
    for number in numbers_of(line).as_slice() {
        push(b" ", &mut text);
        push(Buffer::new().format(*number).as_bytes(), &mut text);
    }
    push(b"\n", &mut text);
    text
}

/// The word that the line begins with.
fn keyword_of(line: Line) -> &'static [u8]
    ensures value { result.now ≡ keyword_of line }
    ensures short { length result.now ≤ 8 }
{
    match line {
        Line::NoDirect => b"NODIRECT",
        Line::Case(..) => b"CASE",
        Line::Raise(Raise::Window(..)) => b"F",
        Line::Raise(Raise::Drive(..)) => b"A",
        Line::Raise(Raise::Ride(..)) => b"P",
        Line::Raise(Raise::Duration(_)) => b"T",
        Line::End(End::Late(_)) => b"W",
        Line::End(End::Overloaded(_)) => b"L",
        Line::End(End::NoWay(_)) => b"M",
        Line::End(End::TooLong) => b"S",
    }
}

/// The numbers of the line.
pub(crate) fn numbers_of(line: Line) -> ArrayVec<u32, 3>
    ensures value { result.items ≡ numbers_of line }
    ensures in_form { IsInForm line }
{
    let mut numbers = ArrayVec::new();
    match line {
        Line::NoDirect | Line::End(End::TooLong) => {}
        Line::Case(vehicle, i, j) => {
            numbers.push(vehicle);
            numbers.push(i);
            numbers.push(j);
        }
        Line::Raise(Raise::Window(k, n) | Raise::Drive(k, n) | Raise::Ride(k, n)) => {
            numbers.push(k);
            numbers.push(n);
        }
        Line::Raise(Raise::Duration(n)) => {
            numbers.push(0);
            numbers.push(n);
        }
        Line::End(End::Late(k) | End::Overloaded(k) | End::NoWay(k)) => numbers.push(k),
    }
    numbers
}

/// Adds bytes at the end.
fn push(bytes: &[u8], text: &mut LineText)
    requires { length text.old.items + length bytes.now ≤ LONGEST_LINE }
    ensures { text.new.items ≡ text.old.items ++ bytes.now }
{
    let _fits = text.try_extend_from_slice(bytes);
}
