//! A set of weekdays as a number: one bit for each, the lowest for Monday.

ghost use Rattle.std.specs.Prelude.{◌≡◌, ◌/◌, ◌%◌, ◌==◌};
ghost use Rattle.sqlite.specs.Order.{column};
ghost use Rattle.pt_base_values.specs.Weekday.{number_of};
ghost use Rattle.pt_desk_spelling.specs.Fields.{days_byte};
ghost use Rattle.pt_desk_spelling.specs.Ranges.{IsWeek};
ghost use Rattle.pt_tables_rows.specs.Rows.{number_value};
ghost use Rattle.pt_tables_reading.specs.Reading.{Reads};
ghost use Rattle.pt_tables_reading.specs.Fitting.{mark};

use crate::columns::number_at;
use pt_base_values::{Weekday, Weekdays};
use sqlite::Row;

/// Every weekday, as a number.
const WHOLE_WEEK: u32 = 127;

/// The set of weekdays in a column.
pub(crate) fn days_at(row: &Row, at: usize) -> Option<Weekdays>
    ensures { Reads (λ days. number_value (days_byte days)) IsWeek (column row.now at) result }
{
    weekdays_from(number_at(row, at)?)
}

/// The set of weekdays that has this number.
fn weekdays_from(number: u32) -> Option<Weekdays>
    ensures { Reads days_byte IsWeek number result }
{
    if number > WHOLE_WEEK {
        return None;
    }
    let (days, number) = take_weekday(Weekdays::none(), Weekday::Monday, number);
    let (days, number) = take_weekday(days, Weekday::Tuesday, number);
    let (days, number) = take_weekday(days, Weekday::Wednesday, number);
    let (days, number) = take_weekday(days, Weekday::Thursday, number);
    let (days, number) = take_weekday(days, Weekday::Friday, number);
    let (days, number) = take_weekday(days, Weekday::Saturday, number);
    let (days, _) = take_weekday(days, Weekday::Sunday, number);
    Some(days)
}

/// Adds this weekday to the set if the number is odd. Returns the set and half the number.
fn take_weekday(days: Weekdays, weekday: Weekday, number: u32) -> (Weekdays, u32)
    ensures days { result.0 ≡ mark days (number_of weekday) (number % 2 == 1) }
    ensures half { result.1 ≡ number / 2 }
{
    if number % 2 == 1 {
        (days.with(weekday), number / 2)
    } else {
        (days, number / 2)
    }
}
