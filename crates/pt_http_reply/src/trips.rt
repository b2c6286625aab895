ghost use Rattle.std.specs.Prelude.{◌≡◌, ◌≤◌, ◌++◌, ℕ, List, length, IfOk, OnOk};
ghost use Rattle.pt_http_reply.specs.Json.{value_text, IsShortValue};
ghost use Rattle.pt_http_reply.specs.Trips.{status_name, minute_or_null, confirmation_body, trip_object};
ghost use Rattle.pt_http_reply.specs.Trips.{IsTripList, IsTripsBody};

use crate::ReplyBuffer;
use crate::json::{MemberValue, object, push};
use pt_base_records::Rows;
use pt_base_values::{Fault, Minute, Trip, TripStatus};
use pt_desk_booking::party_of;
use pt_desk_requests::Confirmation;
use pt_http_request::FieldName;
use pt_party::due;
use std::alloc::Global;

/// The body with the confirmation of a booked trip.
pub(crate) fn confirmation_body(told: &Confirmation) -> ReplyBuffer
    ensures text { result ≡ confirmation_body told.now }
    ensures short { length result ≤ 200 }
{
    object(&[
        (FieldName::Due, MemberValue::Number(told.due)),
        (FieldName::Fare, MemberValue::Number(told.fare)),
        (FieldName::Trip, MemberValue::Number(told.trip.number())),
        (
            FieldName::Vehicle,
            MemberValue::Number(told.vehicle.number()),
        ),
        (
            FieldName::WindowFrom,
            MemberValue::Number(told.window_from.number()),
        ),
        (
            FieldName::WindowTo,
            MemberValue::Number(told.window_to.number()),
        ),
    ])
}

/// The body with a rider's trips. The error is out of memory.
pub(crate) fn trips_body(alloc: Global, trips: &Rows<Trip>) -> Result<Vec<u8>, Fault>
    ensures { IfOk result (λ body. IsTripsBody trips.now body.items) }
{
    let mut body = Vec::new(alloc);
    push(b"{\"trips\":[", &mut body)?;
    write_trips(alloc, trips.as_slice(), &mut body)?;
    push(b"]}", &mut body)?;
    Ok(body)
}

/// Adds the trips as JSON objects, with a comma between each two.
fn write_trips(alloc: Global, trips: &[Trip], out: &mut Vec<u8>) -> Result<(), Fault>
    ensures { OnOk result ((text : List ℕ) × IsTripList trips.now text
        × (out.new.items ≡ out.old.items ++ text)) }
{
    let mut day = Vec::new(alloc);
    for (index, trip) in trips.iter().enumerate() {
        if index > 0 {
            push(b",", out)?;
        }
        day.clear();
        trip.wish.day.write(&mut day)?;
        push(trip_object(trip, &day).as_slice(), out)?;
    }
    Ok(())
}

/// A trip as a JSON object; `day` is the text of its day.
fn trip_object(trip: &Trip, day: &[u8]) -> ReplyBuffer
    requires { length day.now ≤ 10 }
    ensures { result ≡ trip_object trip.now day.now }
{
    let wish = &trip.wish;
    let due = due(trip.fare, party_of(wish));
    object(&[
        (FieldName::Attendant, MemberValue::Truth(wish.attendant)),
        (FieldName::By, minute_or_null(wish.by)),
        (
            FieldName::Companions,
            MemberValue::Number(u32::from(wish.companions)),
        ),
        (FieldName::Day, MemberValue::Text(day)),
        (FieldName::Due, MemberValue::Number(due)),
        (FieldName::Fare, MemberValue::Number(trip.fare)),
        (FieldName::From, MemberValue::Number(wish.from.number())),
        (
            FieldName::Status,
            MemberValue::Text(status_name(trip.status).as_bytes()),
        ),
        (FieldName::To, MemberValue::Number(wish.to.number())),
        (FieldName::Trip, MemberValue::Number(trip.id.number())),
        (
            FieldName::Vehicle,
            MemberValue::Number(trip.vehicle.number()),
        ),
        (
            FieldName::WindowFrom,
            MemberValue::Number(trip.window_from.number()),
        ),
        (
            FieldName::WindowTo,
            MemberValue::Number(trip.window_to.number()),
        ),
        (FieldName::Wish, MemberValue::Number(wish.pickup.number())),
    ])
}

/// A minute, or `null` if there is none.
fn minute_or_null(minute: Option<Minute>) -> MemberValue<'static>
    ensures text { value_text result ≡ minute_or_null minute }
    ensures short { IsShortValue result }
{
    match minute {
        Some(minute) => MemberValue::Number(minute.number()),
        None => MemberValue::Null,
    }
}

/// The name of a trip's status in a reply.
fn status_name(status: TripStatus) -> &'static str
    ensures text { result.now ≡ status_name status }
    ensures short { length result.now ≤ 15 }
{
    match status {
        TripStatus::Booked => "booked",
        TripStatus::Cancelled => "cancelled",
        TripStatus::Ridden => "ridden",
        TripStatus::MissedRider => "missed-rider",
        TripStatus::MissedOperator => "missed-operator",
    }
}
