//! Random logs of refusals, as they are written and with a line changed, by `check` and by the plain evaluation.
ghost use Rattle.std.specs.Prelude.{◌≤◌, length};

use crate::asking::is_right;
use crate::dice::Dice;
use crate::instances::{Shape, asked, route, vehicle};
use crate::plain;
use crate::times::Plain;
use pt_audit::{End, Line, Log, Raise, read_log};
use pt_insertion_log::explain;
use pt_insertion_search::{Asked, Duty, are_rising, are_without, best};
use std::alloc::{AllocError, Global};
use std::test::Fail;

const SEED: u64 = 20_261_122;

/// The number of refusals to try.
const REFUSALS: u32 = 300;

const SHAPE: Shape = Shape {
    trips: 4,
    apart: 60,
    side: 40,
    away: 100,
};

/// A log of the refusal; `None` if the trip has a place.
fn refusal(alloc: Global, duties: &[Duty<'_>], asked: &Asked) -> Result<Option<Log>, Fail> {
    if !are_rising(duties) || !are_without(duties, asked.trip) {
        return Err(Fail::new("not to be asked"));
    }
    match best(duties, asked, &Plain) {
        None => {
            let mut text = Vec::new(alloc);
            explain(duties, asked, &Plain, &mut text)?;
            Ok(Some(read_log(alloc, &text)?))
        }
        Some(_) => Ok(None),
    }
}

/// Whether `check` agrees with the plain evaluation.
fn agrees(alloc: Global, log: &Log, duties: &[Duty<'_>], asked: &Asked) -> Result<bool, Fail> {
    let right = plain::is_right(alloc, log.lines.as_slice(), duties, asked)?;
    Ok(is_right(log, duties, asked)? == right)
}

/// The line with its last number one higher.
fn higher(line: Line) -> Line {
    match line {
        Line::NoDirect => Line::NoDirect,
        Line::Case(v, i, j) => Line::Case(v, i, j.saturating_add(1)),
        Line::Raise(Raise::Window(k, n)) => Line::Raise(Raise::Window(k, n.saturating_add(1))),
        Line::Raise(Raise::Drive(k, n)) => Line::Raise(Raise::Drive(k, n.saturating_add(1))),
        Line::Raise(Raise::Ride(k, n)) => Line::Raise(Raise::Ride(k, n.saturating_add(1))),
        Line::Raise(Raise::Duration(n)) => Line::Raise(Raise::Duration(n.saturating_add(1))),
        Line::End(End::Late(k)) => Line::End(End::Late(k.saturating_add(1))),
        Line::End(End::Overloaded(k)) => Line::End(End::Overloaded(k.saturating_add(1))),
        Line::End(End::NoWay(k)) => Line::End(End::NoWay(k.saturating_add(1))),
        Line::End(End::TooLong) => Line::End(End::TooLong),
    }
}

/// The log without the line at a place.
fn shortened(alloc: Global, log: &Log, place: usize) -> Result<Log, AllocError> {
    let mut lines = Vec::from_slice(alloc, log.lines.as_slice())?;
    if place < lines.len() {
        lines.remove(place);
    }
    Ok(Log { lines })
}

/// The log with the last number of the line at a place one higher.
fn raised(alloc: Global, log: &Log, place: usize) -> Result<Log, AllocError> {
    let mut lines = Vec::from_slice(alloc, log.lines.as_slice())?;
    if let Some(line) = lines.get_mut(place) {
        *line = higher(*line);
    }
    Ok(Log { lines })
}

/// Where the second case begins; the end if there is none.
fn second_case(lines: &[Line]) -> usize
    ensures { result ≤ length lines.now }
{
    let mut is_first_past = false;
    for k in 0..lines.len() {
        if let Line::Case(..) = lines[k] {
            if is_first_past {
                return k;
            }
            is_first_past = true;
        }
    }
    lines.len()
}

/// The log with its first two cases exchanged.
fn exchanged(alloc: Global, log: &Log) -> Result<Log, AllocError> {
    let lines = log.lines.as_slice();
    let (first, others) = lines.split_at(second_case(lines));
    let (second, later) = others.split_at(second_case(others));
    let mut lines = Vec::from_slice(alloc, second)?;
    lines.extend_from_slice(first)?;
    lines.extend_from_slice(later)?;
    Ok(Log { lines })
}

/// Whether the log is right, and `check` judges changed logs as the plain evaluation does.
fn holds(
    alloc: Global,
    dice: &mut Dice,
    log: &Log,
    duties: &[Duty<'_>],
    asked: &Asked,
) -> Result<bool, Fail> {
    let place = dice.throw(1_000) as usize % log.lines.len().max(1);
    Ok(
        is_right(log, duties, asked)?
            && agrees(alloc, log, duties, asked)?
            && agrees(alloc, &shortened(alloc, log, place)?, duties, asked)?
            && agrees(alloc, &raised(alloc, log, place)?, duties, asked)?
            && agrees(alloc, &exchanged(alloc, log)?, duties, asked)?,
    )
}

/// `None` if a random trip has a place in two random routes; else whether the logs of its refusal hold.
fn try_refusal(alloc: Global, dice: &mut Dice) -> Result<Option<bool>, Fail> {
    let (one, other) = (vehicle(dice, 1), vehicle(dice, 2));
    let first = route(alloc, dice, SHAPE, 1)?;
    let second = route(alloc, dice, SHAPE, 11)?;
    let duties = [
        Duty {
            vehicle: &one,
            route: &first,
        },
        Duty {
            vehicle: &other,
            route: &second,
        },
    ];
    let about = 200 + dice.throw(900);
    let trip = asked(dice, SHAPE, 99, about);
    match refusal(alloc, &duties, &trip)? {
        Some(log) => Ok(Some(holds(alloc, dice, &log, &duties, &trip)?)),
        None => Ok(None),
    }
}

#[test]
fn logs_are_right_and_wrong_as_they_should(rt: HostRuntime) -> Result<(), Fail> {
    let mut dice = Dice { state: SEED };
    let mut refusals = 0u32;
    for _ in 0..5_000 {
        if refusals == REFUSALS {
            break;
        }
        if let Some(holds) = try_refusal(rt.alloc(), &mut dice)? {
            refusals = refusals.saturating_add(1);
            assert!(rt; holds, "in refusal {refusals}");
        }
    }
    assert_eq!(rt; refusals, REFUSALS);
    Ok(())
}
