//! `pt_base`: days, minutes, clocks, numbers of records and plain records.
use jiff::Timestamp;
use pt_base::{
    CallerId, Day, Fault, Minute, Place, PlaceId, Point, Policy, Residence, Rider, RiderId, Rule,
    TripId, Vehicle, VehicleId, Weekday, Weekdays, bookable, now_in,
};

pub fn day_of(number: u32) -> Option<Day> {
    Day::of(number)
}

pub fn minute_of(number: u32) -> Option<Minute> {
    Minute::of(number)
}

pub fn ids_of(
    number: u32,
) -> (
    Option<PlaceId>,
    Option<RiderId>,
    Option<TripId>,
    Option<VehicleId>,
    Option<CallerId>,
) {
    (
        PlaceId::of(number),
        RiderId::of(number),
        TripId::of(number),
        VehicleId::of(number),
        CallerId::of(number),
    )
}

pub fn numbers_of(
    day: Day,
    minute: Minute,
    place: PlaceId,
    rider: RiderId,
    trip: TripId,
    vehicle: VehicleId,
    caller: CallerId,
) -> [u32; 7] {
    [
        day.number(),
        minute.number(),
        place.number(),
        rider.number(),
        trip.number(),
        vehicle.number(),
        caller.number(),
    ]
}

pub fn parsed(text: &str) -> Result<Day, Fault> {
    Day::parse(text)
}

pub fn later(day: Day, days: u16) -> Option<Day> {
    day.plus(days)
}

pub fn weekday_of(day: Day) -> Weekday {
    day.weekday()
}

pub fn month_of(day: Day) -> u8 {
    day.month()
}

pub fn written(day: Day, out: &mut Vec<u8>) -> Result<(), Fault> {
    day.write(out)
}

pub fn may_be_booked(today: Day, day: Day) -> bool {
    bookable(today, day)
}

pub fn moment_in(zone: &str, instant: Timestamp) -> Result<(Day, Minute), Fault> {
    now_in(zone, instant)
}

pub fn fault_of(code: u16, row: u32) -> Fault {
    Fault { code, row }
}

pub fn parts_of(fault: Fault) -> (u16, u32) {
    (fault.code, fault.row)
}

pub fn name_of(rule: Rule) -> &'static str {
    rule.name()
}

pub fn rider(id: RiderId, kind: Residence, attendant: bool, wheelchair: bool) -> Rider {
    Rider {
        id,
        kind,
        attendant,
        wheelchair,
    }
}

pub fn point(x: i32, y: i32) -> Point {
    Point { x, y }
}

pub fn place_parts(place: &Place) -> (PlaceId, Point, bool) {
    let Place { id, at, core, .. } = *place;
    (id, at, core)
}

pub fn duty_parts(vehicle: &Vehicle) -> (VehicleId, Day, Weekdays, PlaceId) {
    (vehicle.id, vehicle.from_day, vehicle.days, vehicle.depot)
}

pub fn room_and_hours(vehicle: &Vehicle) -> (u16, u16, Minute, Minute, u16) {
    (
        vehicle.capacity,
        vehicle.chairs,
        vehicle.opens,
        vehicle.closes,
        vehicle.duration,
    )
}

pub fn money_and_times(policy: &Policy) -> (u32, u32, u32, u16, u16) {
    (
        policy.base,
        policy.transfer,
        policy.fare,
        policy.service,
        policy.extra_ride,
    )
}

pub fn pattern_of(policy: &Policy) -> (u16, u16, u16) {
    (policy.min_missed, policy.percent, policy.span_days)
}

#[cfg(test)]
mod tests {
    use super::{fault_of, moment_in, parts_of};
    use pt_base::{Cause, Day, Minute};
    use std::test::Fail;

    #[test]
    fn clocks_show_a_day_and_a_minute(rt: HostRuntime) -> Result<(), Fail> {
        let noon = "2025-03-09T16:00:00Z".parse()?;
        let (day, minute) = moment_in("EST5EDT,M3.2.0,M11.1.0", noon)?;
        assert!(rt; day == Day::parse("2025-03-09")?);
        assert!(rt; minute == Minute::of(720).ok_or("a minute")?);
        let refused = moment_in("x", noon).err().ok_or("no zone")?;
        assert_eq!(rt; parts_of(refused), (3, 0));
        Ok(())
    }

    #[test]
    fn a_code_tells_its_cause(rt: HostRuntime) -> Result<(), Fail> {
        assert_eq!(rt; fault_of(46, 0).cause(), Some(Cause::ReadFailed));
        assert_eq!(rt; fault_of(24, 3).cause(), Some(Cause::TravelPair));
        assert_eq!(rt; fault_of(4, 0).cause(), None);
        Ok(())
    }
}
