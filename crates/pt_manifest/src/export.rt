ghost use Rattle.std.specs.Prelude.{◌≡◌, [], ◌∷◌, ◌++◌, decimal, IfOk, OnOk, IfErr};
ghost use Rattle.std.specs.List.{flat_map};
ghost use Rattle.pt_base_values.specs.Fault.{fault};
ghost use Rattle.pt_base_values.specs.declared.fault.Cause.TheVariants as cause;
ghost use Rattle.csv.specs.Records.{fields_of, partial_of};
ghost use Rattle.csv.specs.Writing.{default_writer, row_text};
ghost use Rattle.pt_manifest.specs.Export as spec;
ghost use Rattle.pt_manifest.specs.Days.{day_text};

use crate::writing::write_day;
use csv::{ByteRecord, Writer};
use itoa::Buffer;
use pt_base_values::{Cause, Day, Fault, Trip, TripStatus};
use pt_desk_booking::party_of;
use pt_party::due;
use std::alloc::{AllocError, Global};

/// The names of the fields.
const FIELDS: [&[u8]; 11] = [
    b"trip",
    b"rider",
    b"day",
    b"wish",
    b"from",
    b"to",
    b"vehicle",
    b"window_from",
    b"window_to",
    b"due",
    b"status",
];

/// The trips as CSV under a header, in the order given. Cancelled trips are included. The fault is out of memory.
pub fn trips_csv(alloc: Global, trips: &[Trip]) -> Result<Vec<u8>, Fault>
    ensures value { IfOk result (λ bytes. bytes.items ≡ spec.trips_text trips.now) }
    ensures memory { IfErr result (λ refused. refused ≡ fault cause.Memory) }
{
    let mut writer = Writer::from_writer(Vec::new(alloc));
    write_header(alloc, &mut writer)?;
    write_trips(alloc, trips, &mut writer)?;
    match writer.into_inner() {
        Ok(text) => Ok(text),
        Err(_) => Err(Fault::of(Cause::Memory)),
    }
}

/// Adds the names of the fields.
fn write_header(alloc: Global, writer: &mut Writer<Vec<u8>>) -> Result<(), AllocError>
    requires { spec.IsBetweenRows writer.old }
    ensures text { OnOk result (spec.written writer.new ≡ spec.written writer.old ++ spec.header) }
    ensures between { OnOk result (spec.IsBetweenRows writer.new) }
{
    let row = ByteRecord::from_fields(alloc, &FIELDS)?;
    write_row(&row, writer)
}

/// Adds the trips.
fn write_trips(
    alloc: Global,
    trips: &[Trip],
    writer: &mut Writer<Vec<u8>>,
) -> Result<(), AllocError>
    requires { spec.IsBetweenRows writer.old }
    ensures text { OnOk result (spec.written writer.new
        ≡ spec.written writer.old ++ flat_map spec.trip_line trips.now) }
    ensures between { OnOk result (spec.IsBetweenRows writer.new) }
{
    for trip in trips {
        write_trip(alloc, trip, writer)?;
    }
    Ok(())
}

/// Adds a trip.
fn write_trip(alloc: Global, trip: &Trip, writer: &mut Writer<Vec<u8>>) -> Result<(), AllocError>
    requires { spec.IsBetweenRows writer.old }
    ensures text { OnOk result (spec.written writer.new ≡ spec.written writer.old ++ spec.trip_line trip.now) }
    ensures between { OnOk result (spec.IsBetweenRows writer.new) }
{
    let mut day = Vec::new(alloc);
    write_day(b"", trip.wish.day, &mut day)?;
    let mut row = ByteRecord::new(alloc);
    push_trip(trip, &day, &mut row)?;
    write_row(&row, writer)
}

/// Adds the fields of a trip; `day` is its day as text.
fn push_trip(trip: &Trip, day: &[u8], row: &mut ByteRecord) -> Result<(), AllocError>
    requires whole { partial_of row.old ≡ [] }
    requires day { day.now ≡ day_text trip.now.wish.day }
    ensures fields { OnOk result (fields_of row.new ≡ fields_of row.old ++ spec.trip_fields trip.now) }
{
    push_number(trip.id.number(), row)?;
    push_number(trip.rider.number(), row)?;
    push_text(day, row)?;
    push_number(trip.wish.pickup.number(), row)?;
    push_number(trip.wish.from.number(), row)?;
    push_number(trip.wish.to.number(), row)?;
    push_number(trip.vehicle.number(), row)?;
    push_number(trip.window_from.number(), row)?;
    push_number(trip.window_to.number(), row)?;
    push_number(due(trip.fare, party_of(&trip.wish)), row)?;
    push_text(status_text(trip.status).as_bytes(), row)
}

/// Adds a number as a field.
fn push_number(number: u32, row: &mut ByteRecord) -> Result<(), AllocError>
    requires { partial_of row.old ≡ [] }
    ensures fields { OnOk result (fields_of row.new ≡ fields_of row.old ++ decimal number ∷ []) }
    ensures whole { OnOk result (partial_of row.new ≡ []) }
{
    push_text(Buffer::new().format(number).as_bytes(), row)
}

/// Adds a text as a field.
fn push_text(text: &[u8], row: &mut ByteRecord) -> Result<(), AllocError>
    requires { partial_of row.old ≡ [] }
    ensures fields { OnOk result (fields_of row.new ≡ fields_of row.old ++ text.now ∷ []) }
    ensures whole { OnOk result (partial_of row.new ≡ []) }
{
    row.push_field(text)?;
    Ok(())
}

/// Adds a record.
fn write_row(row: &ByteRecord, writer: &mut Writer<Vec<u8>>) -> Result<(), AllocError>
    requires { spec.IsBetweenRows writer.old }
    ensures text { OnOk result (spec.written writer.new
        ≡ spec.written writer.old ++ row_text default_writer (fields_of row.now)) }
    ensures between { OnOk result (spec.IsBetweenRows writer.new) }
{
    match writer.write_byte_record(row) {
        Ok(()) => Ok(()),
        Err(_) => Err(AllocError),
    }
}

/// The word for a trip's status.
pub fn status_text(status: TripStatus) -> &'static str
    ensures { result.now ≡ spec.status_text status }
{
    match status {
        TripStatus::Booked => "booked",
        TripStatus::Cancelled => "cancelled",
        TripStatus::Ridden => "ridden",
        TripStatus::MissedRider => "missed-rider",
        TripStatus::MissedOperator => "missed-operator",
    }
}
