//! The conditions of a grant, separated by semicolons.

ghost use Rattle.std.specs.Prelude.{◌≡◌, [], ◌∷◌, MatchOption};
ghost use Rattle.pt_tables_reading.specs.Reading.{Reads};
ghost use Rattle.pt_tables_reading.specs.Fitting.{joined, parts_of, FitsConditions};

use arrayvec::ArrayVec;
use pt_rights_conditions::condition_from;
use pt_rights_files::{Condition, Conditions, MOST_CONDITIONS};

/// The conditions that have these bytes as their text.
pub(crate) fn conditions_in(bytes: &[u8]) -> Option<Conditions>
    ensures { Reads joined FitsConditions bytes.now result }
{
    match std::str::from_utf8(bytes) {
        Ok(text) => conditions_from(text),
        Err(_) => None,
    }
}

/// The conditions that have this text.
fn conditions_from(text: &str) -> Option<Conditions>
    ensures { Reads joined FitsConditions text.now result }
{
    let mut members = ArrayVec::<Condition, MOST_CONDITIONS>::new();
    let mut rest = text;
    for _taken in 0..MOST_CONDITIONS - 1 {
        if let Some((part, later)) = cut(rest) {
            members.push(condition_from(part)?);
            rest = later;
        }
    }
    members.push(condition_from(rest)?);
    Conditions::of(&members)
}

/// The part before the first semicolon, and what follows it.
fn cut(text: &str) -> Option<(&str, &str)>
    ensures { MatchOption result (parts_of text.now ≡ text.now ∷ [])
        (λ cut. parts_of text.now ≡ cut.0.now ∷ parts_of cut.1.now) }
{
    text.split_once(';')
}
