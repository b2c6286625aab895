ghost use Rattle.std.specs.Prelude.{◌≡◌, ◌≤◌, ◌+◌, ◌++◌, codes, length};
ghost use Rattle.pt_rights_files.specs.Conditions.{IsCondition};
ghost use Rattle.pt_rights_files.specs.Months.{numbers_of, IsMonthSet};
ghost use Rattle.pt_rights_conditions.specs.Texts as spec;
ghost use Rattle.pt_rights_conditions.specs.declared.writing.TheConstants.{LONGEST_CONDITION};

use arrayvec::ArrayVec;
use itoa::Buffer;
use pt_rights_files::{Condition, Months};

/// The most bytes in the text of a condition.
pub const LONGEST_CONDITION: usize = 43;

/// The text of a condition: `always`, `months:1,2,12`, `farther:5280` or `nolift`.
pub fn condition_text(condition: Condition) -> ArrayVec<u8, LONGEST_CONDITION>
    ensures value { result.items ≡ spec.condition_text condition }
    ensures in_range { IsCondition condition }
{
    let mut text = ArrayVec::new();
    match condition {
        Condition::Always => push(b"always", &mut text),
        Condition::Months(months) => {
            push(b"months:", &mut text);
            push_months(months, &mut text);
        }
        Condition::Farther(feet) => {
            push(b"farther:", &mut text);
            push(Buffer::new().format(feet.number()).as_bytes(), &mut text);
        }
        Condition::NoLift => push(b"nolift", &mut text),
    }
    text
}

/// Adds the numbers of the months at the end.
fn push_months(months: Months, text: &mut ArrayVec<u8, LONGEST_CONDITION>)
    requires { length text.old.items ≤ 7 }
    ensures value { text.new.items ≡ text.old.items ++ spec.numbers_text (numbers_of months) }
    ensures set { IsMonthSet months }
{
    for (index, number) in months.numbers().as_slice().iter().enumerate() {
        if index > 0 {
            push(b",", text);
        }
        push(Buffer::new().format(*number).as_bytes(), text);
    }
}

/// Adds bytes at the end.
fn push(bytes: &[u8], text: &mut ArrayVec<u8, LONGEST_CONDITION>)
    requires { length text.old.items + length bytes.now ≤ LONGEST_CONDITION }
    ensures { text.new.items ≡ text.old.items ++ bytes.now }
{
    let _fits = text.try_extend_from_slice(bytes);
}
