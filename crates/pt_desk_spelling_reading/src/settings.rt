ghost use Rattle.std.specs.Prelude.{◌≡◌, ◌≤◌, ◌∷◌, [], Some, IfSome, length};
ghost use Rattle.pt_desk_requests.specs.declared.caller.Role.{Role};
ghost use Rattle.pt_desk_spelling.specs.Ranges.{IsRole, IsCaller, IsVehicle};
ghost use Rattle.pt_desk_spelling.specs.Replies.{IsId};
ghost use Rattle.pt_desk_spelling.specs.Requests.{role_number, subject_of, caller_bytes, policy_bytes, place_bytes};
ghost use Rattle.pt_desk_spelling.specs.Requests.{chairs_bytes, vehicle_bytes, kind_number, wheelchair_bytes, rider_bytes};
ghost use Rattle.pt_desk_spelling_reading.specs.Reading.{Takes, Finds};

use crate::fields::{
    number_from, take_byte, take_bytes, take_day, take_days, take_id, take_minute, take_number,
    take_number_in, take_point, take_truth,
};
use pt_base_values::{
    HIGHEST_FARE, LAST_MINUTE, Place, Policy, Residence, Rider, RiderId, Vehicle, VehicleId,
};
use pt_desk_requests::{Caller, Digest, Role};

/// The number of bytes in a digest.
const DIGEST_BYTES: usize = 32;

/// The most wheelchair places of a vehicle.
const MOST_CHAIRS: u32 = 10;

/// The role with this number, about the rider or vehicle with this number.
fn role_of(kind: u8, subject: u32) -> Option<Role>
    ensures { (role : Role) → IsRole role → role_number role ≡ kind → subject_of role ≡ subject → result ≡ Some role }
{
    match kind {
        0 => Some(Role::Rider(RiderId::of(subject)?)),
        1 => Some(Role::Clerk),
        2 => Some(Role::Examiner),
        3 => Some(Role::Officer),
        4 => Some(Role::Dispatcher),
        5 => Some(Role::Driver(VehicleId::of(subject)?)),
        6 => Some(Role::Admin),
        _ => None,
    }
}

/// Takes a digest.
fn take_digest(left: &mut &[u8]) -> Option<Digest>
    ensures { Takes (λ digest. digest) (λ digest. length digest ≡ 32) left.old.now result left.new.now }
{
    let bytes = take_bytes(left, DIGEST_BYTES)?;
    let bytes: [u8; DIGEST_BYTES] = bytes.try_into().ok()?;
    Some(Digest::of(bytes))
}

/// The caller whose fields the bytes are; `None` if they are no such fields, here and below.
pub(crate) fn caller_from(bytes: &[u8]) -> Option<Caller>
    ensures { Finds caller_bytes IsCaller bytes.now result }
{
    let mut left = bytes;
    let id = take_id(&mut left)?;
    let kind = take_byte(&mut left)?;
    let subject = take_number(&mut left)?;
    Some(Caller {
        id,
        role: role_of(kind, subject)?,
        digest: take_digest(&mut left)?,
    })
}

/// The policy whose fields the bytes are.
pub(crate) fn policy_from(bytes: &[u8]) -> Option<Policy>
    ensures { Finds policy_bytes (λ _. Unit {0}) bytes.now result }
{
    let mut left = bytes;
    Some(Policy {
        base: take_number_in(&mut left, 0, HIGHEST_FARE)?,
        transfer: take_number_in(&mut left, 0, HIGHEST_FARE)?,
        fare: take_number_in(&mut left, 0, HIGHEST_FARE)?,
        service: take_number_in(&mut left, 0, 30)? as u16,
        extra_ride: take_number_in(&mut left, 0, 240)? as u16,
        min_missed: take_number_in(&mut left, 1, 1_000)? as u16,
        percent: take_number_in(&mut left, 1, 100)? as u16,
        span_days: take_number_in(&mut left, 1, 366)? as u16,
    })
}

/// The place whose fields the bytes are.
pub(crate) fn place_from(bytes: &[u8]) -> Option<Place>
    ensures { Finds place_bytes (λ place. IsId place.id) bytes.now result }
{
    let mut left = bytes;
    Some(Place {
        id: take_id(&mut left)?,
        at: take_point(&mut left)?,
        core: take_truth(&mut left)?,
    })
}

/// The vehicle, as it is from a day on, whose fields the bytes are.
pub(crate) fn vehicle_from(bytes: &[u8]) -> Option<Vehicle>
    ensures { Finds vehicle_bytes IsVehicle bytes.now result }
{
    let mut left = bytes;
    let id = take_id(&mut left)?;
    let from_day = take_day(&mut left)?;
    let days = take_days(&mut left)?;
    let depot = take_id(&mut left)?;
    let capacity = take_number_in(&mut left, 1, 30)? as u16;
    let opens = take_minute(&mut left)?;
    let closes = take_minute(&mut left)?;
    if opens > closes {
        return None;
    }
    Some(Vehicle {
        id,
        from_day,
        days,
        depot,
        capacity,
        opens,
        closes,
        duration: take_number_in(&mut left, 1, LAST_MINUTE)? as u16,
        chairs: chairs_from(left)?,
    })
}

/// The number of wheelchair places that the bytes spell.
fn chairs_from(bytes: &[u8]) -> Option<u16>
    ensures found { Finds chairs_bytes (λ chairs. chairs ≤ 10) bytes.now result }
    ensures range { IfSome result (λ chairs. chairs ≤ 10) }
{
    if bytes.is_empty() {
        return Some(0);
    }
    Some(number_from(bytes, 1, MOST_CHAIRS)? as u16)
}

/// Takes the number of the kind of rider, resident or visitor.
fn take_kind(left: &mut &[u8]) -> Option<Residence>
    ensures { Takes (λ kind. kind_number kind ∷ []) (λ _. Unit {0}) left.old.now result left.new.now }
{
    match take_byte(left)? {
        0 => Some(Residence::Resident),
        1 => Some(Residence::Visitor),
        _ => None,
    }
}

/// The rider whose fields the bytes are.
pub(crate) fn rider_from(bytes: &[u8]) -> Option<Rider>
    ensures { Finds rider_bytes (λ rider. IsId rider.id) bytes.now result }
{
    let mut left = bytes;
    Some(Rider {
        id: take_id(&mut left)?,
        kind: take_kind(&mut left)?,
        attendant: take_truth(&mut left)?,
        wheelchair: has_wheelchair(left),
    })
}

/// Whether the bytes say that the rider has a wheelchair.
fn has_wheelchair(bytes: &[u8]) -> bool
    ensures { Finds wheelchair_bytes (λ _. Unit {0}) bytes.now (Some result) }
{
    !bytes.is_empty()
}
