//! Values read back from columns: `None` if the column has no such value.

ghost use Rattle.std.specs.Prelude.{IfSome, FitsSigned};
ghost use Rattle.std.specs.Int.{IsInRange, w32, w64};
ghost use Rattle.std.specs.Option.{option_copied};
ghost use Rattle.sqlite.specs.declared.types.Value.TheVariants.{Int, Text, Blob};
ghost use Rattle.sqlite.specs.Order.{column};
ghost use Rattle.pt_base_values.specs.Day.{IsDay};
ghost use Rattle.pt_desk_spelling.specs.Ranges.{IsWord};
ghost use Rattle.pt_desk_spelling.specs.Replies.{IsId};
ghost use Rattle.pt_desk_spelling.specs.Requests.{kind_number};
ghost use Rattle.pt_tables_rows.specs.Rows.{number_value, truth_value, optional_value, status_number};
ghost use Rattle.pt_tables_reading.specs.Reading.{Reads};
ghost use Rattle.pt_desk_rules.specs.Ranges.{IsMinute};

use pt_base_values::{Day, Id, Minute, Residence, TripStatus};
use sqlite::Row;
use sqlite::types::ValueRef;

/// The integer in a column.
pub(crate) fn integer_at(row: &Row, at: usize) -> Option<i64>
    ensures { Reads Int (FitsSigned w64) (column row.now at) result }
{
    match row.get_ref(at) {
        Ok(ValueRef::Int(number)) => Some(number),
        _ => None,
    }
}

/// The unsigned 32-bit number in a column.
pub(crate) fn number_at(row: &Row, at: usize) -> Option<u32>
    ensures { Reads number_value IsWord (column row.now at) result }
{
    let number = integer_at(row, at)?;
    u32::try_from(number).ok()
}

/// The signed 32-bit number in a column.
pub(crate) fn signed_at(row: &Row, at: usize) -> Option<i32>
    ensures { Reads Int (FitsSigned w32) (column row.now at) result }
{
    let number = integer_at(row, at)?;
    i32::try_from(number).ok()
}

/// The number in a column, if it is from `least` to `most`.
pub(crate) fn number_in(row: &Row, at: usize, least: u32, most: u32) -> Option<u32>
    ensures { Reads number_value (IsInRange least most) (column row.now at) result }
{
    let number = number_at(row, at)?;
    if number < least || number > most {
        return None;
    }
    Some(number)
}

/// The id of a record in a column.
pub(crate) fn id_at<Kind>(row: &Row, at: usize) -> Option<Id<Kind>>
    ensures { Reads number_value IsId (column row.now at) result }
{
    let number = number_at(row, at)?;
    Id::of(number)
}

/// The day in a column.
pub(crate) fn day_at(row: &Row, at: usize) -> Option<Day>
    ensures { Reads number_value IsDay (column row.now at) result }
{
    let number = number_at(row, at)?;
    Day::of(number)
}

/// The minute in a column.
pub(crate) fn minute_at(row: &Row, at: usize) -> Option<Minute>
    ensures { Reads number_value IsMinute (column row.now at) result }
{
    let number = number_at(row, at)?;
    Minute::of(number)
}

/// The minute in a column; `Some(None)` if the column has -1, for no minute.
pub(crate) fn optional_minute_at(row: &Row, at: usize) -> Option<Option<Minute>>
    ensures { Reads optional_value (λ known. IfSome known IsMinute) (column row.now at) result }
{
    let number = integer_at(row, at)?;
    if number == -1 {
        return Some(None);
    }
    let minute = minute_at(row, at)?;
    Some(Some(minute))
}

/// The truth value in a column.
pub(crate) fn truth_at(row: &Row, at: usize) -> Option<bool>
    ensures { Reads truth_value (λ _. Unit {0}) (column row.now at) result }
{
    match number_at(row, at)? {
        0 => Some(false),
        1 => Some(true),
        _ => None,
    }
}

/// The residence in a column.
pub(crate) fn kind_at(row: &Row, at: usize) -> Option<Residence>
    ensures { Reads (λ kind. number_value (kind_number kind)) (λ _. Unit {0}) (column row.now at) result }
{
    match number_at(row, at)? {
        0 => Some(Residence::Resident),
        1 => Some(Residence::Visitor),
        _ => None,
    }
}

/// The status of a trip in a column.
pub(crate) fn status_at(row: &Row, at: usize) -> Option<TripStatus>
    ensures { Reads (λ status. number_value (status_number status)) (λ _. Unit {0}) (column row.now at) result }
{
    match number_at(row, at)? {
        0 => Some(TripStatus::Booked),
        1 => Some(TripStatus::Cancelled),
        2 => Some(TripStatus::Ridden),
        3 => Some(TripStatus::MissedRider),
        4 => Some(TripStatus::MissedOperator),
        _ => None,
    }
}

/// The bytes in a column.
pub(crate) fn bytes_at(row: &Row, at: usize) -> Option<&[u8]>
    ensures { Reads Blob (λ _. Unit {0}) (column row.now at) (option_copied result) }
{
    match row.get_ref(at) {
        Ok(ValueRef::Blob(bytes)) => Some(bytes),
        _ => None,
    }
}

/// The text in a column, as its bytes.
pub(crate) fn text_at(row: &Row, at: usize) -> Option<&[u8]>
    ensures { Reads Text (λ _. Unit {0}) (column row.now at) (option_copied result) }
{
    match row.get_ref(at) {
        Ok(ValueRef::Text(bytes)) => Some(bytes),
        _ => None,
    }
}
