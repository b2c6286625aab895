ghost use Rattle.std.specs.Prelude.{◌≡◌, ℕ, ◌+◌, ◌%◌, ◌≤◌, ◌↔◌, ◌++◌, List, ℤ, pos, ◌≤ℤ◌, Ok, Err, IsTrue};
ghost use Rattle.std.specs.Prelude.{IsSome, IsNone, IfSome, IfOk, IfErr, OnOk, OnErr};
ghost use Rattle.std.specs.Int.{IsInRange};
ghost use Rattle.jiff_core.specs.Date.{epoch_day};
ghost use Rattle.pt_base_values.specs.DateText.{IsDateText, IsInMonth};
ghost use Rattle.pt_base_values.specs.Day.{IsDay, IsOutside, weekday_of, IsBookable};
ghost use Rattle.pt_base_values.specs.Fault.{fault};
ghost use Rattle.pt_base_values.specs.declared.fault.Cause.TheVariants as cause;
ghost use Rattle.pt_base_values.specs.Weekday.{number_of};
ghost use Rattle.pt_base_values.specs.Ranges.{last_day};
ghost use Rattle.pt_base_values.specs.SpelledDay.{SpellsDay, day_from};

use crate::{Cause, Fault, Weekday, date_text};
use jiff_core::civil::Date;
use std::marker::Model;

/// The day number of 2000-01-01, where 1970-01-01 is 0.
pub const FIRST_DAY: u32 = 10_957;

/// The day number of 2099-12-31.
pub const LAST_DAY: u32 = 47_481;

/// The days from -9999-01-01, the first date of the calendar, to 1970-01-01.
const EPOCH: u32 = 4_371_587;

/// A day from 2000-01-01 to 2099-12-31, seen as its number of days since 1970-01-01.
#[derive(Clone, Copy, PartialEq, Eq, PartialOrd, Ord)]
pub struct Day {
    days: u32,
}

impl Model for Day {
    ghost Value = { ℕ };

    ghost view = { λ day. day.days };

    ghost invariant = { λ day. IsDay day.days };

    ghost inverse = { λ n. record { days = n } };
}

impl Day {
    /// The day with this number of days since 1970-01-01; `None` outside 2000 to 2099.
    pub fn of(number: u32) -> Option<Self>
        ensures in_range { IsSome result ↔ IsDay number }
        ensures value { IfSome result (λ day. day ≡ number) }
    {
        if number < FIRST_DAY || number > LAST_DAY {
            return None;
        }
        Some(Day { days: number })
    }

    /// Days since 1970-01-01.
    pub fn number(self) -> u32
        ensures value { result ≡ self }
        ensures in_range { IsDay result }
    {
        self.days
    }

    /// The day this many days later; `None` past 2099-12-31.
    pub fn plus(self, days: u16) -> Option<Self>
        ensures in_range { IsSome result ↔ (self + days ≤ last_day) }
        ensures value { IfSome result (λ day. day ≡ self + days) }
    {
        Day::of(self.number() + u32::from(days))
    }

    /// The day that a text of the form `YYYY-MM-DD` names.
    pub fn parse(text: &str) -> Result<Self, Fault>
        ensures date { IfOk result (λ day. IsDateText (pos day) text.now) }
        ensures read { (day : ℕ) → IsDay day → IsDateText (pos day) text.now → result ≡ Ok day }
        ensures no_such_date { (result ≡ Err (fault cause.NoSuchDate))
            ↔ ((number : ℤ) → ¬ (IsDateText number text.now)) }
        ensures out_of_range { (result ≡ Err (fault cause.DateOutOfRange))
            ↔ ((number : ℤ) × IsDateText number text.now × IsOutside number) }
    {
        let Some(date) = date_text::read(text) else {
            return Err(Fault::of(Cause::NoSuchDate));
        };
        let number = date.to_unix_epoch_day();
        if number < FIRST_DAY as i32 || number > LAST_DAY as i32 {
            return Err(Fault::of(Cause::DateOutOfRange));
        }
        Ok(Day {
            days: number as u32,
        })
    }

    /// Appends the ten bytes of `YYYY-MM-DD`. The fault is out of memory.
    pub fn write(self, out: &mut Vec<u8>) -> Result<(), Fault>
        ensures text { OnOk result ((text : List ℕ) × IsDateText (pos self) text
            × (out.new.items ≡ out.old.items ++ text)) }
        // No other text names the day.
        ensures only { OnOk result ((text : List ℕ) → IsDateText (pos self) text
            → out.new.items ≡ out.old.items ++ text) }
        ensures err { OnErr result (out.new.items ≡ out.old.items) }
        ensures memory { IfErr result (λ refused. refused ≡ fault cause.Memory) }
    {
        out.extend_from_slice(&date_text::spell(self.date()))?;
        Ok(())
    }

    /// The date of the civil calendar.
    fn date(self) -> Date
        ensures day { epoch_day result ≡ pos self }
        ensures four_digits { pos 0 ≤ℤ result.year }
    {
        Date::from_days_since_min(self.number() + EPOCH)
    }

    /// The month, from 1 for January to 12.
    pub fn month(self) -> u8
        ensures value { IsInMonth (pos self) result }
        ensures in_range { IsInRange 1 12 result }
    {
        self.date().month
    }

    /// The day of the week.
    pub fn weekday(self) -> Weekday
        ensures value { number_of result ≡ weekday_of self }
    {
        match (self.number() + 3) % 7 {
            0 => Weekday::Monday,
            1 => Weekday::Tuesday,
            2 => Weekday::Wednesday,
            3 => Weekday::Thursday,
            4 => Weekday::Friday,
            5 => Weekday::Saturday,
            _ => Weekday::Sunday,
        }
    }
}

/// Whether a trip on `day` may be booked on `today`: from the next day to fourteen days ahead.
pub fn bookable(today: Day, day: Day) -> bool
    ensures { IsTrue result ↔ IsBookable today day }
{
    let first = today.number() + 1;
    let last = today.number() + 14;
    first <= day.number() && day.number() <= last
}

/// The day that a text of the form `YYYY-MM-DD` spells.
pub fn day_from(text: &str) -> Option<Day>
    ensures value { result ≡ day_from text.now }
    ensures spelled { IfSome result (λ day. SpellsDay text.now day) }
    ensures none { IsNone result → (day : ℕ) → ¬ (SpellsDay text.now day) }
{
    Day::parse(text).ok()
}
