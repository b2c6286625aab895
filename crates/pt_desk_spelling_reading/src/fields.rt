ghost use Rattle.std.specs.Prelude.{◌≡◌, ◌≤◌, ◌/◌, ◌%◌, ◌==◌, ◌∷◌, [], IfSome, length};
ghost use Rattle.std.specs.Int.{IsInRange};
ghost use Rattle.std.specs.Option.{option_copied};
ghost use Rattle.pt_base_values.specs.Day.{IsDay};
ghost use Rattle.pt_base_values.specs.Place.{IsCoordinate, IsOnPlane};
ghost use Rattle.pt_base_values.specs.Ranges.{last_minute};
ghost use Rattle.pt_base_values.specs.Weekday.{number_of};
ghost use Rattle.pt_desk_spelling.specs.Fields.{number_bytes, signed_bytes, truth_bytes, days_byte, optional_bytes};
ghost use Rattle.pt_desk_spelling.specs.Fields.{text_bytes};
ghost use Rattle.pt_desk_spelling.specs.Ranges.{IsWord, IsWeek};
ghost use Rattle.pt_desk_spelling.specs.Replies.{IsId};
ghost use Rattle.pt_desk_spelling.specs.Requests.{point_bytes};
ghost use Rattle.pt_desk_spelling_reading.specs.Reading.{Takes, Finds, mark};

use pt_base_values::{Day, Id, Minute, Point, Weekday, Weekdays};

/// The most feet between a coordinate and the origin, either way.
const FARTHEST: i32 = 1_000_000;

/// Takes this many bytes from those that are left; `None` if fewer are left.
pub(crate) fn take_bytes<'a>(left: &mut &'a [u8], count: usize) -> Option<&'a [u8]>
    ensures { Takes (λ part. part) (λ part. length part ≡ count) left.old.now (option_copied result) left.new.now }
{
    let all: &'a [u8] = *left;
    if all.len() < count {
        return None;
    }
    let (part, later) = all.split_at(count);
    *left = later;
    Some(part)
}

/// Takes one byte.
pub(crate) fn take_byte(left: &mut &[u8]) -> Option<u8>
    ensures { Takes (λ byte. byte ∷ []) (λ _. Unit {0}) left.old.now result left.new.now }
{
    let (first, later) = left.split_first()?;
    *left = later;
    Some(*first)
}

/// Takes a number of four bytes, the most significant first.
#[tactic(auto, unfolding(pt_desk_spelling::specs::Fields::number_bytes))]
pub(crate) fn take_number(left: &mut &[u8]) -> Option<u32>
    ensures { Takes number_bytes IsWord left.old.now result left.new.now }
{
    if left.len() < 4 {
        return None;
    }
    let (first, later) = left.split_at(4);
    *left = later;
    Some(u32::from_be_bytes([first[0], first[1], first[2], first[3]]))
}

/// The number from `least` to `most` that the bytes spell; `None` if they spell none, here and below.
pub(crate) fn number_from(bytes: &[u8], least: u32, most: u32) -> Option<u32>
    ensures found { Finds number_bytes (IsInRange least most) bytes.now result }
    ensures range { IfSome result (IsInRange least most) }
{
    let mut left = bytes;
    take_number_in(&mut left, least, most)
}

/// The number of a record that the bytes spell.
pub(crate) fn id_from<Kind>(bytes: &[u8]) -> Option<Id<Kind>>
    ensures { Finds number_bytes IsId bytes.now result }
{
    let mut left = bytes;
    take_id(&mut left)
}

/// Takes a number from `least` to `most`.
pub(crate) fn take_number_in(left: &mut &[u8], least: u32, most: u32) -> Option<u32>
    ensures taken { Takes number_bytes (IsInRange least most) left.old.now result left.new.now }
    ensures range { IfSome result (IsInRange least most) }
{
    let number = take_number(left)?;
    if number < least || number > most {
        return None;
    }
    Some(number)
}

/// Takes the number of a record.
pub(crate) fn take_id<Kind>(left: &mut &[u8]) -> Option<Id<Kind>>
    ensures { Takes number_bytes IsId left.old.now result left.new.now }
{
    Id::of(take_number(left)?)
}

/// Takes a day.
pub(crate) fn take_day(left: &mut &[u8]) -> Option<Day>
    ensures { Takes number_bytes IsDay left.old.now result left.new.now }
{
    Day::of(take_number(left)?)
}

/// Takes a minute.
pub(crate) fn take_minute(left: &mut &[u8]) -> Option<Minute>
    ensures { Takes number_bytes (λ minute. minute ≤ last_minute) left.old.now result left.new.now }
{
    Minute::of(take_number(left)?)
}

/// Takes a minute that may be absent.
pub(crate) fn take_optional(left: &mut &[u8]) -> Option<Option<Minute>>
    ensures { Takes optional_bytes (λ known. IfSome known (λ minute. minute ≤ last_minute)) left.old.now result
        left.new.now }
{
    match take_byte(left)? {
        0 => Some(None),
        1 => Some(Some(take_minute(left)?)),
        _ => None,
    }
}

/// Takes a coordinate of the plane.
pub(crate) fn take_coordinate(left: &mut &[u8]) -> Option<i32>
    ensures taken { Takes signed_bytes IsCoordinate left.old.now result left.new.now }
    ensures on_plane { IfSome result IsCoordinate }
{
    let number = take_number(left)?.cast_signed();
    if number < -FARTHEST || number > FARTHEST {
        return None;
    }
    Some(number)
}

/// Takes a truth value.
pub(crate) fn take_truth(left: &mut &[u8]) -> Option<bool>
    ensures { Takes truth_bytes (λ _. Unit {0}) left.old.now result left.new.now }
{
    match take_byte(left)? {
        0 => Some(false),
        1 => Some(true),
        _ => None,
    }
}

/// Takes a text, after its length.
pub(crate) fn take_text<'a>(left: &mut &'a [u8]) -> Option<&'a [u8]>
    ensures { Takes text_bytes (λ text. IsWord (length text)) left.old.now (option_copied result) left.new.now }
{
    let count = take_number(left)?;
    take_bytes(left, count as usize)
}

/// Takes the coordinates of a point of the plane.
pub(crate) fn take_point(left: &mut &[u8]) -> Option<Point>
    ensures taken { Takes point_bytes (λ point. IsOnPlane point.x point.y) left.old.now result left.new.now }
    ensures on_plane { IfSome result (λ point. IsOnPlane point.x point.y) }
{
    let x = take_coordinate(left)?;
    let y = take_coordinate(left)?;
    Some(Point { x, y })
}

/// Takes a set of weekdays, a bit of a byte for each.
pub(crate) fn take_days(left: &mut &[u8]) -> Option<Weekdays>
    ensures { Takes (λ days. days_byte days ∷ []) IsWeek left.old.now result left.new.now }
{
    Some(weekdays_of(take_byte(left)?))
}

/// The weekdays whose bits a byte has, the lowest for Monday.
fn weekdays_of(byte: u8) -> Weekdays
    ensures week { IsWeek result }
    ensures bits { days_byte result ≡ byte % 128 }
{
    let (days, bits) = take_weekday(Weekdays::none(), Weekday::Monday, byte);
    let (days, bits) = take_weekday(days, Weekday::Tuesday, bits);
    let (days, bits) = take_weekday(days, Weekday::Wednesday, bits);
    let (days, bits) = take_weekday(days, Weekday::Thursday, bits);
    let (days, bits) = take_weekday(days, Weekday::Friday, bits);
    let (days, bits) = take_weekday(days, Weekday::Saturday, bits);
    let (days, _) = take_weekday(days, Weekday::Sunday, bits);
    days
}

/// The set, with this weekday in it if the lowest bit is set, and the bits above that bit.
fn take_weekday(days: Weekdays, weekday: Weekday, bits: u8) -> (Weekdays, u8)
    ensures days { result.0 ≡ mark days (number_of weekday) (bits % 2 == 1) }
    ensures half { result.1 ≡ bits / 2 }
{
    if bits % 2 == 1 {
        (days.with(weekday), bits / 2)
    } else {
        (days, bits / 2)
    }
}
