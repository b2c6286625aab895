ghost use Rattle.std.specs.Prelude.{◌≡◌, ◌++◌, IfOk, OnOk};
ghost use Rattle.pt_desk_requests.specs.declared.request.Write.{Write};
ghost use Rattle.pt_desk_spelling.specs.Ranges.{IsRequest};
ghost use Rattle.pt_desk_spelling.specs.Requests.{tag_of, fields_of, spelling};

use crate::Spelling;
use crate::fields::push_number;
use crate::riders::{push_entry, push_rider};
use crate::settings::{push_caller, push_place, push_policy, push_route, push_rows, push_vehicle};
use crate::trips::{outcome_number, push_wish};
use pt_desk_requests::Write;
use std::alloc::{AllocError, Global};

/// The spelling of a request. The error is out of memory.
pub fn spell(alloc: Global, asked: &Write) -> Result<Spelling, AllocError>
    ensures value { IfOk result (λ spelled. spelled ≡ spelling asked.now) }
    ensures ranges { OnOk result (IsRequest asked.now) }
    // No other request has these bytes.
    ensures only { IfOk result (λ spelled. (other : Write) → IsRequest other → spelled ≡ spelling other
        → other ≡ asked.now) }
{
    let mut bytes = Vec::new(alloc);
    bytes.push(tag_of(asked))?;
    push_fields(asked, &mut bytes)?;
    Ok(Spelling::of(bytes))
}

/// The number of the request's kind.
fn tag_of(asked: &Write) -> u8
    ensures { result ≡ tag_of asked.now }
{
    match asked {
        Write::PutCaller(_) => 1,
        Write::PutPolicy(_) => 2,
        Write::PutPlace(_) => 3,
        Write::PutRoute(_) => 4,
        Write::PutVehicle(_) => 5,
        Write::PutRider(_) => 6,
        Write::Enter { .. } => 7,
        Write::Book { .. } => 8,
        Write::Change { .. } => 9,
        Write::Cancel(_) => 10,
        Write::Outcome { .. } => 11,
        Write::Travel { .. } => 12,
    }
}

/// Adds the fields of a request. The error is out of memory.
fn push_fields(asked: &Write, out: &mut Vec<u8>) -> Result<(), AllocError>
    ensures text { OnOk result (out.new.items ≡ out.old.items ++ fields_of asked.now) }
    ensures ranges { OnOk result (IsRequest asked.now) }
{
    match asked {
        Write::PutCaller(caller) => push_caller(caller, out),
        Write::PutPolicy(policy) => push_policy(policy, out),
        Write::PutPlace(place) => push_place(place, out),
        Write::PutRoute(route) => push_route(route, out),
        Write::PutVehicle(vehicle) => push_vehicle(vehicle, out),
        Write::PutRider(rider) => push_rider(rider, out),
        Write::Enter { rider, entry } => {
            push_number(rider.number(), out)?;
            push_entry(entry, out)
        }
        Write::Book { rider, wish } => {
            push_number(rider.number(), out)?;
            push_wish(wish, out)
        }
        Write::Change { trip, wish } => {
            push_number(trip.number(), out)?;
            push_wish(wish, out)
        }
        Write::Cancel(trip) => push_number(trip.number(), out),
        Write::Outcome { trip, outcome } => {
            push_number(trip.number(), out)?;
            out.push(outcome_number(*outcome))?;
            Ok(())
        }
        Write::Travel { day, rows } => {
            push_number(day.number(), out)?;
            push_rows(rows, out)
        }
    }
}
