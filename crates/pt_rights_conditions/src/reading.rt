ghost use Rattle.std.specs.Prelude.{◌≡◌, ◌↔◌, IsTrue, ℕ, Bool, List, Some, IfSome, IsNone, decimal};
ghost use Rattle.pt_rights_files.specs.Conditions.{IsCondition};
ghost use Rattle.pt_rights_files.specs.Feet.{IsFeet};
ghost use Rattle.pt_rights_files.specs.Months.{numbers_of, IsMonthSet};
ghost use Rattle.pt_rights_files.specs.declared.conditions.Condition.{Condition};
ghost use Rattle.pt_rights_conditions.specs.Texts.{numbers_text, condition_text, SpellsCondition};

use crate::condition_text;
use arrayvec::ArrayVec;
use pt_rights_files::{Condition, Feet, Months};

/// The condition that a text spells.
pub fn condition_from(text: &str) -> Option<Condition>
    ensures spelled { IfSome result (SpellsCondition text.now) }
    ensures none { IsNone result → (condition : Condition) → ¬ (SpellsCondition text.now condition) }
{
    let condition = candidate(text)?;
    if is_text_of(&condition, text) {
        Some(condition)
    } else {
        None
    }
}

/// Whether the text is that of the condition.
fn is_text_of(condition: &Condition, text: &str) -> bool
    ensures value { IsTrue result ↔ (text.now ≡ condition_text condition.now) }
    ensures in_range { IsCondition condition.now }
{
    condition_text(*condition).as_slice() == text.as_bytes()
}

/// The one condition that the text may spell.
fn candidate(text: &str) -> Option<Condition>
    ensures { (condition : Condition) → SpellsCondition text.now condition → result ≡ Some condition }
{
    match text.split_once(':') {
        Some(("months", numbers)) => Some(Condition::Months(months_from(numbers)?)),
        Some(("farther", number)) => Some(Condition::Farther(feet_from(number)?)),
        Some(_) => None,
        None if text == "always" => Some(Condition::Always),
        None if text == "nolift" => Some(Condition::NoLift),
        None => None,
    }
}

/// The one set of months whose numbers the text may be.
fn months_from(text: &str) -> Option<Months>
    ensures { (months : List Bool) → IsMonthSet months → text.now ≡ numbers_text (numbers_of months)
        → result ≡ Some months }
{
    let mut numbers = ArrayVec::<u8, 12>::new();
    for part in text.split(',') {
        let Ok(number) = part.parse::<u8>() else {
            return None;
        };
        if numbers.is_full() {
            return None;
        }
        numbers.push(number);
    }
    Months::of(&numbers)
}

/// The one distance whose digits the text may be.
fn feet_from(text: &str) -> Option<Feet>
    ensures { (feet : ℕ) → IsFeet feet → text.now ≡ decimal feet → result ≡ Some feet }
{
    match text.parse::<u32>() {
        Ok(number) => Feet::of(number),
        Err(_) => None,
    }
}
