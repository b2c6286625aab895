ghost use Rattle.std.specs.Prelude.{◌≡◌, ◌+◌, ◌-◌, min};
ghost use Rattle.pt_base_values.specs.Ranges.{last_minute};
ghost use Rattle.pt_desk_booking.specs.Window as spec;

use pt_base_values::{LAST_MINUTE, Minute, Window};

/// The most minutes between the wished and the planned pickup.
const WISHED_LEEWAY: u16 = 60;

/// The most minutes between the planned pickup and the actual one.
const PROMISED_LEEWAY: u16 = 15;

/// The window in which a pickup may be planned if it is wished at this minute.
pub fn wished_window(wish: Minute) -> Window
    ensures { result ≡ spec.wished_window wish }
{
    Window {
        from: earlier(wish, WISHED_LEEWAY),
        to: later(wish, WISHED_LEEWAY),
    }
}

/// The window that is promised for a pickup that is planned at this minute.
pub fn promised_window(wished: Window, pickup: Minute) -> Window
    ensures { result ≡ spec.promised_window wished pickup }
{
    Window {
        from: earlier(pickup, PROMISED_LEEWAY).max(wished.from),
        to: later(pickup, PROMISED_LEEWAY).min(wished.to),
    }
}

/// The minute this many minutes earlier, or midnight.
fn earlier(minute: Minute, minutes: u16) -> Minute
    ensures { result ≡ minute - minutes }
{
    Minute::of(minute.number().saturating_sub(u32::from(minutes))).unwrap()
}

/// The minute this many minutes later, or the last of the day.
fn later(minute: Minute, minutes: u16) -> Minute
    ensures { result ≡ min (minute + minutes) last_minute }
{
    let number = minute.number() + u32::from(minutes);
    Minute::of(number.min(LAST_MINUTE)).unwrap()
}
