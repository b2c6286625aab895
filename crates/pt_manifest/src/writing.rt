ghost use Rattle.std.specs.Prelude.{◌≡◌, ◌+◌, ◌<◌, ◌++◌, decimal, OnOk};
ghost use Rattle.pt_manifest.specs.Days.{day_text};
ghost use Rattle.pt_manifest.specs.Manifests.{minute_text};

use itoa::Buffer;
use pt_base_values::{Day, Minute};
use std::alloc::AllocError;

/// Adds a minute of the day as `HH:MM`.
pub(crate) fn write_minute(minute: Minute, out: &mut Vec<u8>) -> Result<(), AllocError>
    ensures text { OnOk result (out.new.items ≡ out.old.items ++ minute_text minute) }
{
    let (hour, rest) = (minute.number() / 60, minute.number() % 60);
    let text = [
        digit(hour / 10),
        digit(hour % 10),
        b':',
        digit(rest / 10),
        digit(rest % 10),
    ];
    out.extend_from_slice(&text)?;
    Ok(())
}

/// The decimal digit of a number below 10.
fn digit(number: u32) -> u8
    requires { number < 10 }
    ensures { result ≡ 48 + number }
{
    b'0' + number as u8
}

/// Adds a label and a day as `YYYY-MM-DD`.
pub(crate) fn write_day(label: &[u8], day: Day, out: &mut Vec<u8>) -> Result<(), AllocError>
    ensures text { OnOk result (out.new.items ≡ out.old.items ++ label.now ++ day_text day) }
{
    out.extend_from_slice(label)?;
    match day.write(out) {
        Ok(()) => Ok(()),
        Err(_) => Err(AllocError),
    }
}

/// Adds a label and a number in decimal digits.
pub(crate) fn write_number(label: &[u8], number: u32, out: &mut Vec<u8>) -> Result<(), AllocError>
    ensures text { OnOk result (out.new.items ≡ out.old.items ++ label.now ++ decimal number) }
{
    out.extend_from_slice(label)?;
    out.extend_from_slice(Buffer::new().format(number).as_bytes())?;
    Ok(())
}
