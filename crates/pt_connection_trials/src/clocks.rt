//! What the clocks of zones show.
use jiff::Timestamp;
use pt_base_clock::{moment_of, now_in};
use pt_base_values::{Cause, Day, Fault, Minute};
use std::test::Fail;

const EASTERN: &str = "EST5EDT,M3.2.0,M11.1.0";

/// What clocks show at instants: at noon, before and after each change of the clock, and before and after midnight.
/// Also in the first and the last minute of 2000 to 2099, south of the equator, and at an offset that is not in whole
/// hours.
#[test]
fn days_and_minutes_of_zones(rt: HostRuntime) -> Result<(), Fail> {
    for (zone, instant, day, minute) in [
        (EASTERN, "2025-03-09T16:00:00Z", "2025-03-09", 720),
        (EASTERN, "2025-03-09T06:59:59.999999999Z", "2025-03-09", 119),
        (EASTERN, "2025-03-09T07:00:00Z", "2025-03-09", 180),
        (EASTERN, "2025-11-02T05:59:59Z", "2025-11-02", 119),
        (EASTERN, "2025-11-02T06:00:00Z", "2025-11-02", 60),
        (EASTERN, "2025-03-10T03:59:59Z", "2025-03-09", 1_439),
        (EASTERN, "2025-03-10T04:00:00Z", "2025-03-10", 0),
        (EASTERN, "2000-01-01T05:00:00Z", "2000-01-01", 0),
        (EASTERN, "2100-01-01T04:59:59Z", "2099-12-31", 1_439),
        (
            "AEST-10AEDT,M10.1.0,M4.1.0/3",
            "2025-03-09T16:00:00Z",
            "2025-03-10",
            180,
        ),
        ("<+0545>-5:45", "2024-02-29T23:30:00Z", "2024-03-01", 315),
    ] {
        let expected = (Day::parse(day)?, Minute::of(minute).ok_or("minute")?);
        let now = now_in(zone, instant.parse::<Timestamp>()?)?;
        assert!(rt; now == expected, "{instant} in {zone}");
    }
    Ok(())
}

#[test]
fn zones_and_instants_that_are_refused(rt: HostRuntime) -> Result<(), Fail> {
    for (zone, instant, cause) in [
        (
            EASTERN,
            "2000-01-01T04:59:59.999999999Z",
            Cause::DateOutOfRange,
        ),
        (EASTERN, "2100-01-01T05:00:00Z", Cause::DateOutOfRange),
        (EASTERN, "1969-12-31T12:00:00Z", Cause::DateOutOfRange),
        ("x", "2025-03-09T16:00:00Z", Cause::NoSuchZone),
        ("x", "2100-01-01T05:00:00Z", Cause::NoSuchZone),
        ("", "2025-03-09T16:00:00Z", Cause::NoSuchZone),
        ("EST5EDT", "2025-03-09T16:00:00Z", Cause::NoSuchZone),
        (
            "EST5EDT,M3.2.0,M11.1.0 ",
            "2025-03-09T16:00:00Z",
            Cause::NoSuchZone,
        ),
        (
            "America/New_York",
            "2025-03-09T16:00:00Z",
            Cause::NoSuchZone,
        ),
    ] {
        let now = now_in(zone, instant.parse::<Timestamp>()?);
        assert!(rt; now == Err(Fault::of(cause)), "{instant} in {zone}");
    }
    Ok(())
}

#[test]
fn clocks_that_are_read_and_one_that_cannot_be(rt: HostRuntime) -> Result<(), Fail> {
    let noon = "2025-03-09T16:00:00Z".parse::<Timestamp>()?;
    let twelve = (Day::parse("2025-03-09")?, Minute::of(720).ok_or("minute")?);
    for (zone, clock, moment) in [
        (EASTERN, Some(noon), Ok(twelve)),
        (EASTERN, None, Err(Fault::of(Cause::DateOutOfRange))),
        ("x", Some(noon), Err(Fault::of(Cause::NoSuchZone))),
        ("x", None, Err(Fault::of(Cause::NoSuchZone))),
    ] {
        assert!(rt; moment_of(zone, clock) == moment, "{zone}");
    }
    Ok(())
}
