ghost use Rattle.std.specs.Prelude.{◌↔◌, IsTrue, IfOk};
ghost use Rattle.pt_desk_spelling.specs.Ranges.{IsRequest};
ghost use Rattle.pt_desk_spelling.specs.Requests.{spelling, IsSpelling};
ghost use Rattle.pt_desk_spelling_reading.specs.Reading.{Finds, FindsRequest};

use crate::entries::entry_from;
use crate::fields::{id_from, take_day, take_id};
use crate::routes::route_from;
use crate::settings::{caller_from, place_from, policy_from, rider_from, vehicle_from};
use crate::travel::table_from;
use crate::trips::{outcome_from, wish_from};
use pt_desk_requests::Write;
use pt_desk_spelling::spell;
use std::alloc::{AllocError, Global};

/// Whether the bytes spell a request that may be asked. Time and memory grow with the length of the bytes. The error is
/// out of memory, here and below.
pub fn is_spelling(alloc: Global, bytes: &[u8]) -> Result<bool, AllocError>
    ensures decided { IfOk result (λ found. IsTrue found ↔ IsSpelling bytes.now) }
{
    match request_from(alloc, bytes)? {
        Some(asked) => Ok(spell(alloc, &asked)?.bytes() == bytes),
        None => Ok(false),
    }
}

/// The one request that the bytes may spell.
fn request_from(alloc: Global, bytes: &[u8]) -> Result<Option<Write>, AllocError>
    ensures { IfOk result (Finds spelling IsRequest bytes.now) }
{
    let Some((tag, fields)) = bytes.split_first() else {
        return Ok(None);
    };
    request_of(alloc, *tag, fields)
}

/// The request of this kind that has these fields.
fn request_of(alloc: Global, tag: u8, fields: &[u8]) -> Result<Option<Write>, AllocError>
    ensures { IfOk result (FindsRequest tag fields.now) }
{
    match tag {
        1 => Ok(put_caller(fields)),
        2 => Ok(put_policy(fields)),
        3 => Ok(put_place(fields)),
        4 => put_route(alloc, fields),
        5 => Ok(put_vehicle(fields)),
        6 => Ok(put_rider(fields)),
        7 => enter(alloc, fields),
        8 => Ok(book(fields)),
        9 => Ok(change(fields)),
        10 => Ok(cancel(fields)),
        11 => Ok(outcome(fields)),
        12 => travel(alloc, fields),
        _ => Ok(None),
    }
}

/// The request to put a caller that has these fields; `None` if no request has them, here and below.
fn put_caller(fields: &[u8]) -> Option<Write>
    ensures { FindsRequest 1 fields.now result }
{
    Some(Write::PutCaller(caller_from(fields)?))
}

/// The request to put a policy that has these fields.
fn put_policy(fields: &[u8]) -> Option<Write>
    ensures { FindsRequest 2 fields.now result }
{
    Some(Write::PutPolicy(policy_from(fields)?))
}

/// The request to put a place that has these fields.
fn put_place(fields: &[u8]) -> Option<Write>
    ensures { FindsRequest 3 fields.now result }
{
    Some(Write::PutPlace(place_from(fields)?))
}

/// The request to put a fixed route that has these fields.
fn put_route(alloc: Global, fields: &[u8]) -> Result<Option<Write>, AllocError>
    ensures { IfOk result (FindsRequest 4 fields.now) }
{
    match route_from(alloc, fields)? {
        Some(route) => Ok(Some(Write::PutRoute(route))),
        None => Ok(None),
    }
}

/// The request to put a vehicle that has these fields.
fn put_vehicle(fields: &[u8]) -> Option<Write>
    ensures { FindsRequest 5 fields.now result }
{
    Some(Write::PutVehicle(vehicle_from(fields)?))
}

/// The request to put a rider's record that has these fields.
fn put_rider(fields: &[u8]) -> Option<Write>
    ensures { FindsRequest 6 fields.now result }
{
    Some(Write::PutRider(rider_from(fields)?))
}

/// The request to enter something in a case file that has these fields.
fn enter(alloc: Global, fields: &[u8]) -> Result<Option<Write>, AllocError>
    ensures { IfOk result (FindsRequest 7 fields.now) }
{
    let mut left = fields;
    let Some(rider) = take_id(&mut left) else {
        return Ok(None);
    };
    match entry_from(alloc, left)? {
        Some(entry) => Ok(Some(Write::Enter { rider, entry })),
        None => Ok(None),
    }
}

/// The request to book a trip that has these fields.
fn book(fields: &[u8]) -> Option<Write>
    ensures { FindsRequest 8 fields.now result }
{
    let mut left = fields;
    let rider = take_id(&mut left)?;
    let wish = wish_from(left)?;
    Some(Write::Book { rider, wish })
}

/// The request to change a trip that has these fields.
fn change(fields: &[u8]) -> Option<Write>
    ensures { FindsRequest 9 fields.now result }
{
    let mut left = fields;
    let trip = take_id(&mut left)?;
    let wish = wish_from(left)?;
    Some(Write::Change { trip, wish })
}

/// The request to cancel a trip that has these fields.
fn cancel(fields: &[u8]) -> Option<Write>
    ensures { FindsRequest 10 fields.now result }
{
    Some(Write::Cancel(id_from(fields)?))
}

/// The request to record how a trip ended that has these fields.
fn outcome(fields: &[u8]) -> Option<Write>
    ensures { FindsRequest 11 fields.now result }
{
    let mut left = fields;
    let trip = take_id(&mut left)?;
    let outcome = outcome_from(left)?;
    Some(Write::Outcome { trip, outcome })
}

/// The request to put a travel table that has these fields.
fn travel(alloc: Global, fields: &[u8]) -> Result<Option<Write>, AllocError>
    ensures { IfOk result (FindsRequest 12 fields.now) }
{
    let mut left = fields;
    let Some(day) = take_day(&mut left) else {
        return Ok(None);
    };
    match table_from(alloc, left)? {
        Some(rows) => Ok(Some(Write::Travel { day, rows })),
        None => Ok(None),
    }
}
