//! `pt_audit`: logs of refusals, checked.
ghost use Rattle.std.specs.Prelude.{All};
ghost use Rattle.pt_feasible.specs.Route.{stops_of};
ghost use Rattle.pt_insertion.specs.Insertion.{IsWithout};

use pt_audit::{Log, check, read_log};
use pt_base::Fault;
use pt_insertion::{Asked, Duty};
use pt_travel::Times;
use std::alloc::Global;

pub fn log_in(alloc: Global, text: &[u8]) -> Result<Log, Fault> {
    read_log(alloc, text)
}

pub fn is_right<T: Times>(log: &Log, duties: &[Duty<'_>], asked: &Asked, times: &T) -> bool
    requires { All (λ duty. IsWithout asked.now.trip (stops_of duty.route.now)) duties.now }
{
    check(log, duties, asked, times)
}
