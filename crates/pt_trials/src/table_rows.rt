//! Tables of driving times, as examples.
use pt_base_values::{Cause, Fault, PlaceId};
use pt_travel::{Closed, Raw, Row, Times};
use std::alloc::{AllocError, Global};
use std::test::Fail;

fn row(from: u32, to: u32, minutes: u16) -> Option<Row> {
    Some((PlaceId::of(from)?, PlaceId::of(to)?, minutes))
}

fn rows(alloc: Global, given: &[(u32, u32, u16)]) -> Result<Vec<Row>, AllocError> {
    let mut rows = Vec::new(alloc);
    for &(from, to, minutes) in given {
        if let Some(row) = row(from, to, minutes) {
            rows.push(row)?;
        }
    }
    Ok(rows)
}

// The places 1, 2 and so on.
fn places(alloc: Global, count: u32) -> Result<Vec<PlaceId>, AllocError> {
    let mut places = Vec::new(alloc);
    for number in 1..count.saturating_add(1) {
        places.push(PlaceId::of(number).unwrap())?;
    }
    Ok(places)
}

// A row from each of the places 1, 2 and so on to itself.
fn stays(alloc: Global, count: u32) -> Result<Vec<Row>, AllocError> {
    let mut rows = Vec::new(alloc);
    for number in 1..count.saturating_add(1) {
        let place = PlaceId::of(number).unwrap();
        rows.push((place, place, 1))?;
    }
    Ok(rows)
}

fn is_table(rows: Vec<Row>) -> bool {
    Raw::of(rows).is_some()
}

// The driving time by a table of these rows.
fn time(
    alloc: Global,
    given: &[(u32, u32, u16)],
    from: u32,
    to: u32,
) -> Result<Option<u16>, Fault> {
    let (Some(from), Some(to)) = (PlaceId::of(from), PlaceId::of(to)) else {
        return Ok(None);
    };
    let Some(raw) = Raw::of(rows(alloc, given)?) else {
        return Ok(None);
    };
    Ok(Closed::of(alloc, &raw)?.minutes(from, to))
}

#[test]
fn the_time_is_that_of_the_least_chain(rt: HostRuntime) -> Result<(), Fail> {
    let triangle = [
        (1, 2, 10),
        (1, 3, 50),
        (2, 1, 10),
        (2, 3, 10),
        (3, 1, 50),
        (3, 2, 10),
    ];
    let long = [(1, 2, 1000), (2, 3, 440)];
    let longest = [(1, 2, 1000), (2, 3, 439)];
    let four = [(1, 5, 1), (3, 4, 4), (4, 2, 8), (5, 3, 2)];
    let loop_at_one = [(1, 1, 5)];
    for (given, from, to, minutes) in [
        (triangle.as_slice(), 1, 3, Some(20)),
        (triangle.as_slice(), 3, 1, Some(20)),
        (triangle.as_slice(), 1, 2, Some(10)),
        (triangle.as_slice(), 4, 4, Some(0)),
        (triangle.as_slice(), 1, 4, None),
        (long.as_slice(), 1, 3, None),
        (longest.as_slice(), 1, 3, Some(1439)),
        (four.as_slice(), 1, 2, Some(15)),
        (four.as_slice(), 2, 1, None),
        (loop_at_one.as_slice(), 1, 1, Some(0)),
    ] {
        assert_eq!(rt;
            time(rt.alloc(), given, from, to),
            Ok(minutes),
            "{given:?} {from} {to}"
        );
    }
    Ok(())
}

#[test]
fn rows_rise_and_lie_within_a_day(rt: HostRuntime) -> Result<(), Fail> {
    for (given, expected) in [
        ([(1, 2, 10), (1, 2, 10)], false),
        ([(2, 1, 10), (1, 2, 10)], false),
        ([(1, 2, 10), (2, 1, 1440)], false),
        ([(1, 2, 10), (2, 1, 1439)], true),
    ] {
        let rows = rows(rt.alloc(), &given)?;
        assert_eq!(rt; is_table(rows), expected, "{given:?}");
    }
    Ok(())
}

#[test]
fn rows_name_at_most_100_places(rt: HostRuntime) -> Result<(), Fail> {
    assert_eq!(rt; is_table(stays(rt.alloc(), 100)?), true);
    assert_eq!(rt; is_table(stays(rt.alloc(), 101)?), false);
    Ok(())
}

#[test]
fn at_most_100_places_are_read_for(rt: HostRuntime) -> Result<(), Fail> {
    let alloc = rt.alloc();
    let hundred = places(alloc, 100)?;
    let more = places(alloc, 101)?;
    let text = b"from,to,minutes\n1,100,5\n";
    assert_eq!(rt; Raw::read(alloc, text, &hundred)?.rows().len(), 1);
    assert_eq!(rt;
        Raw::read(alloc, b"", &more).err(),
        Some(Fault::of(Cause::TravelPlaces))
    );
    Ok(())
}
