//! Logs of refusals as they are written, as examples.
use crate::four_places::Place::{A, Away, B};
use crate::four_places::{asked, empty, seated, vehicle};
use crate::times::Plain;
use pt_base_values::{Cause, Fault};
use pt_insertion_log::explain;
use pt_insertion_search::{Asked, Duty, are_rising, are_without, best};
use std::io::{ErrorKind, Write};
use std::test::Fail;

/// Writes the log of a trip that has no place.
fn refuse<W: Write>(
    duties: &[Duty<'_>],
    asked: &Asked,
    out: &mut W,
) -> Result<Result<(), Fault>, Fail> {
    if !are_rising(duties) || !are_without(duties, asked.trip) {
        return Err(Fail::new("not to be asked"));
    }
    match best(duties, asked, &Plain) {
        None => Ok(explain(duties, asked, &Plain, out)),
        Some(_) => Err(Fail::new("possible")),
    }
}

#[test]
fn explains_refusals(rt: HostRuntime) -> Result<(), Fail> {
    let to_b = asked(1, (A, B), (480, 600), seated(2));
    let away = asked(1, (A, Away), (480, 600), seated(2));
    let route = empty(rt.alloc());
    for (vehicle, asked, text) in [
        (
            vehicle(4, 490),
            to_b,
            "AUDIT 1\nCASE 1 0 0\nF 0 480\nA 1 500\nA 2 532\nA 3 574\nW 3\nDONE\n",
        ),
        (vehicle(1, 1020), to_b, "AUDIT 1\nCASE 1 0 0\nL 1\nDONE\n"),
        (vehicle(4, 1020), away, "AUDIT 1\nNODIRECT\nDONE\n"),
    ] {
        let duties = [Duty {
            vehicle: &vehicle,
            route: &route,
        }];
        let mut out = Vec::new(rt.alloc());
        refuse(&duties, &asked, &mut out)??;
        assert_eq!(rt; out.as_slice(), text.as_bytes());
    }
    Ok(())
}

/// A writer that has no room.
#[derive(Drop)]
struct Full;

impl Write for Full {
    fn write(&mut self, _buf: &[u8]) -> std::io::Result<usize> {
        Err(std::io::Error::from(ErrorKind::StorageFull))
    }

    fn flush(&mut self) -> std::io::Result<()> {
        Ok(())
    }
}

#[test]
fn tells_a_write_that_failed(rt: HostRuntime) -> Result<(), Fail> {
    let fault = refuse(&[], &asked(1, (A, B), (480, 600), seated(2)), &mut Full)?;
    assert_eq!(rt; fault, Err(Fault::of(Cause::WriteFailed)));
    Ok(())
}
