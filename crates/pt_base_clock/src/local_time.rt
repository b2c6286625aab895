ghost use Rattle.std.specs.Prelude.{◌≡◌, ◌⊎◌, ℕ, ◌+◌, ◌*◌, ◌↔◌, ℤ, pos, Ok, Err, IsNone, IfSome, IfOk, IfErr};
ghost use Rattle.jiff.specs.Words.{epoch_day};
ghost use Rattle.pt_base_values.specs.declared.fault.Cause.TheVariants as cause;
ghost use Rattle.pt_base_values.specs.Day.{IsDay, IsOutside};
ghost use Rattle.pt_base_values.specs.Fault.{fault};
ghost use Rattle.pt_base_clock.specs.LocalTime.{IsZoneRule, IsLocalTime};

use jiff::Timestamp;
use jiff::civil::{Date, DateTime};
use jiff::tz::TimeZone;
use pt_base_values::{Cause, Day, Fault, Minute, Moment};

/// The day of a date; `None` outside 2000 to 2099.
fn day_of(date: Date) -> Option<Day>
    ensures outside { IsNone result ↔ IsOutside (epoch_day date) }
    ensures value { IfSome result (λ day. epoch_day date ≡ pos day) }
{
    let number = date.to_plain().to_unix_epoch_day();
    Day::of(u32::try_from(number).ok()?)
}

/// The minute of the day that a clock shows.
fn minute_of(clock: DateTime) -> Minute
    ensures { result ≡ clock.time.hour * 60 + clock.time.minute }
{
    let time = clock.to_plain().time;
    Minute::of(u32::from(time.hour) * 60 + u32::from(time.minute)).unwrap()
}

/// The day and the minute that clocks of a zone show at an instant. The zone is a POSIX time zone rule, such as
/// `EST5EDT,M3.2.0,M11.1.0`. The cause is `NoSuchZone` if the text is not such a rule, and else `DateOutOfRange` if the
/// day is outside 2000 to 2099.
pub fn now_in(zone: &str, instant: Timestamp) -> Result<Moment, Fault>
    ensures local { IfOk result (λ now. IsLocalTime zone.now instant.nanosecond (pos now.0) now.1) }
    // The clocks show nothing else.
    ensures only { (day minute : ℕ) → IsDay day → IsLocalTime zone.now instant.nanosecond (pos day) minute
        → result ≡ Ok (day, minute) }
    ensures no_such_zone { (result ≡ Err (fault cause.NoSuchZone)) ↔ ¬ (IsZoneRule zone.now) }
    ensures out_of_range { (result ≡ Err (fault cause.DateOutOfRange))
        ↔ ((day : ℤ) × (minute : ℕ) × IsLocalTime zone.now instant.nanosecond day minute × IsOutside day) }
    ensures fault { IfErr result (λ error. (error ≡ fault cause.NoSuchZone) ⊎ (error ≡ fault cause.DateOutOfRange)) }
{
    let Ok(zone) = TimeZone::posix(zone) else {
        return Err(Fault::of(Cause::NoSuchZone));
    };
    let clock = zone.to_datetime(instant);
    let Some(day) = day_of(clock.date()) else {
        return Err(Fault::of(Cause::DateOutOfRange));
    };
    Ok((day, minute_of(clock)))
}

/// The day and the minute on the clocks of a zone; `clock` is `None` if the clock could not be read.
///
/// The zone is checked first: if its text is not a time zone rule, the cause is `NoSuchZone`. Else that of an unread
/// clock, or of a day outside 2000 to 2099, is `DateOutOfRange`.
pub fn moment_of(zone: &str, clock: Option<Timestamp>) -> Result<Moment, Fault>
    ensures local { IfSome clock (λ instant. IfOk result (λ now.
        IsLocalTime zone.now instant.nanosecond (pos now.0) now.1)) }
    ensures only { IfSome clock (λ instant. (day minute : ℕ) → IsDay day
        → IsLocalTime zone.now instant.nanosecond (pos day) minute
        → result ≡ Ok (day, minute)) }
    ensures no_such_zone { (result ≡ Err (fault cause.NoSuchZone)) ↔ ¬ (IsZoneRule zone.now) }
    ensures out_of_range { IfSome clock (λ instant. (result ≡ Err (fault cause.DateOutOfRange))
        ↔ ((day : ℤ) × (minute : ℕ) × IsLocalTime zone.now instant.nanosecond day minute × IsOutside day)) }
    ensures unread { IsNone clock → IsZoneRule zone.now → result ≡ Err (fault cause.DateOutOfRange) }
    ensures fault { IfErr result (λ error. (error ≡ fault cause.NoSuchZone) ⊎ (error ≡ fault cause.DateOutOfRange)) }
{
    match clock {
        Some(instant) => now_in(zone, instant),
        None => match TimeZone::posix(zone) {
            Ok(_) => Err(Fault::of(Cause::DateOutOfRange)),
            Err(_) => Err(Fault::of(Cause::NoSuchZone)),
        },
    }
}
