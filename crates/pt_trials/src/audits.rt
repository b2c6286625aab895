//! Logs of refusals that are right, wrong, and out of form, as examples.
use crate::asking::is_right;
use crate::four_places::Place::{A, Away, B};
use crate::four_places::{asked, empty, seated, vehicle};
use pt_audit::{End, Line, Raise, read_log};
use pt_base_values::{Cause, Fault};
use pt_insertion_search::{Asked, Duty};
use std::alloc::Global;
use std::process::Abort;
use std::test::Fail;

/// Logs for a vehicle that would be back at 574 but closes earlier.
const TOO_LATE: [(&str, bool); 18] = [
    (
        "CASE 1 0 0\nF 0 480\nA 1 500\nA 2 532\nA 3 574\nW 3\n",
        true,
    ),
    ("", false),
    (
        "CASE 1 0 0\nF 0 480\nA 1 500\nA 2 533\nA 3 574\nW 3\n",
        false,
    ),
    (
        "CASE 1 0 0\nA 1 20\nF 0 480\nA 1 500\nA 2 532\nA 3 574\nW 3\n",
        true,
    ),
    (
        "CASE 1 0 0\nA 1 500\nF 0 480\nA 2 532\nA 3 574\nW 3\n",
        false,
    ),
    ("CASE 1 0 0\nF 0 480\nA 1 480\nA 3 491\nW 3\n", false),
    (
        "CASE 1 0 0\nF 0 480\nA 1 500\nA 2 532\nA 3 574\nW 2\n",
        false,
    ),
    (
        "CASE 1 0 0\nF 0 480\nA 1 500\nA 2 532\nA 3 490\nW 3\n",
        false,
    ),
    (
        "CASE 1 0 0\nA 0 0\nF 0 480\nA 1 500\nA 2 532\nA 3 574\nW 3\n",
        false,
    ),
    (
        "CASE 1 0 0\nF 4 0\nF 0 480\nA 1 500\nA 2 532\nA 3 574\nW 3\n",
        false,
    ),
    (
        "CASE 2 0 0\nF 0 480\nA 1 500\nA 2 532\nA 3 574\nW 3\n",
        false,
    ),
    ("NODIRECT\n", false),
    ("CASE 1 0 0\nS\n", false),
    ("CASE 1 0 0\nM 1\n", false),
    ("CASE 1 0 0\nL 1\n", false),
    (
        "CASE 1 0 0\nF 0 480\nA 1 500\nA 2 532\nP 1 480\nA 3 574\nT 0 94\nW 3\n",
        true,
    ),
    (
        "CASE 1 0 0\nF 0 480\nA 1 500\nA 2 532\nP 1 481\nA 3 574\nW 3\n",
        false,
    ),
    (
        "CASE 1 0 0\nF 0 480\nA 1 500\nA 2 532\nA 3 574\nT 0 95\nW 3\n",
        false,
    ),
];

/// Logs for a trip with no way to the goal.
const NO_WAY: [(&str, bool); 2] = [("NODIRECT\n", true), ("CASE 1 0 0\nM 1\n", true)];

/// Logs for a day with no vehicle on duty.
const OFF_DUTY: [(&str, bool); 1] = [("", true)];

/// Logs for two persons and one seat.
const TOO_MANY: [(&str, bool); 1] = [("CASE 1 0 0\nL 1\n", true)];

/// Logs for one person and one seat.
const ONE_SEAT: [(&str, bool); 1] = [("CASE 1 0 0\nL 1\n", false)];

/// Logs for a trip that is possible.
const POSSIBLE: [(&str, bool); 2] = [
    (
        "CASE 1 0 0\nF 0 480\nA 1 500\nA 2 532\nA 3 574\nW 3\n",
        false,
    ),
    ("", false),
];

/// Checks logs of the trip's refusal.
fn check_logs(
    rt: &impl Abort,
    alloc: Global,
    duties: &[Duty<'_>],
    asked: &Asked,
    logs: &[(&str, bool)],
) -> Result<(), Fail> {
    for (lines, right) in logs {
        let text = format!(in alloc; "AUDIT 1\n{lines}DONE\n")?;
        let log = read_log(alloc, text.as_bytes())?;
        assert_eq!(rt; is_right(&log, duties, asked)?, *right, "{lines}");
    }
    Ok(())
}

#[test]
fn checks_logs(rt: HostRuntime) -> Result<(), Fail> {
    let to_b = asked(1, (A, B), (480, 600), seated(1));
    let two_to_b = asked(1, (A, B), (480, 600), seated(2));
    let away = asked(1, (A, Away), (480, 600), seated(1));
    let route = empty(rt.alloc());
    for (vehicle, asked, logs) in [
        (vehicle(4, 490), to_b, TOO_LATE.as_slice()),
        (vehicle(4, 490), away, NO_WAY.as_slice()),
        (vehicle(1, 1020), two_to_b, TOO_MANY.as_slice()),
        (vehicle(1, 1020), to_b, ONE_SEAT.as_slice()),
        (vehicle(4, 1020), to_b, POSSIBLE.as_slice()),
    ] {
        let duties = [Duty {
            vehicle: &vehicle,
            route: &route,
        }];
        check_logs(&rt, rt.alloc(), &duties, &asked, logs)?;
    }
    check_logs(&rt, rt.alloc(), &[], &to_b, &OFF_DUTY)
}

#[test]
fn finds_the_first_row_out_of_form(rt: HostRuntime) -> Result<(), Fail> {
    for (text, row) in [
        ("", 1),
        ("AUDIT 2\nDONE\n", 1),
        ("AUDIT 1", 1),
        ("AUDIT 1\n", 2),
        ("AUDIT 1\nDONE", 2),
        ("AUDIT 1\nDONE\nDONE\n", 2),
        ("AUDIT 1\nS\nDONE\nS\n", 3),
        ("AUDIT 1\nS\n", 3),
        ("AUDIT 1\nS\nW 01\nDONE\n", 3),
        ("AUDIT 1\nW 4294967296\nDONE\n", 2),
        ("AUDIT 1\nW +1\nDONE\n", 2),
        ("AUDIT 1\nT 1 5\nDONE\n", 2),
        ("AUDIT 1\nF 0  5\nDONE\n", 2),
        ("AUDIT 1\nCASE 1 0\nDONE\n", 2),
        ("AUDIT 1\nS \nDONE\n", 2),
        ("AUDIT 1\n\nDONE\n", 2),
    ] {
        let fault = read_log(rt.alloc(), text.as_bytes()).err();
        assert_eq!(rt; fault, Some(Fault::at(Cause::LogLine, row)), "{text}");
    }
    let log = read_log(
        rt.alloc(),
        b"AUDIT 1\nW 4294967295\nNODIRECT\nT 0 0\nDONE\n",
    )?;
    let lines = [
        Line::End(End::Late(u32::MAX)),
        Line::NoDirect,
        Line::Raise(Raise::Duration(0)),
    ];
    assert!(rt; log.lines.as_slice() == lines.as_slice());
    Ok(())
}
