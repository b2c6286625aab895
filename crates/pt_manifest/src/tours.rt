ghost use Rattle.std.specs.Prelude.{◌≡◌, ◌++◌, Some, IfOk, OnOk, IfErr};
ghost use Rattle.std.specs.List.{flat_map};
ghost use Rattle.pt_base_values.specs.Fault.{fault};
ghost use Rattle.pt_base_values.specs.declared.fault.Cause.TheVariants as cause;
ghost use Rattle.pt_manifest.specs.Manifests.{day_sheet_text, manifest_text, tour_text};
ghost use Rattle.pt_manifest.specs.Manifests.{stop_line, depot_line, stop_word, load_text, window_text};

use crate::writing::{write_day, write_minute, write_number};
use itoa::Buffer;
use pt_base_values::{Day, Fault, Load, Minute, PlaceId, Window};
use pt_desk_requests::{DaySheet, Tour, TourStop, VehicleSheet};
use std::alloc::{AllocError, Global};

/// The manifest of the vehicle's driver on the day. The fault is out of memory.
pub fn manifest(alloc: Global, day: Day, sheet: &VehicleSheet) -> Result<Vec<u8>, Fault>
    ensures value { IfOk result (λ bytes. bytes.items ≡ manifest_text day sheet.now) }
    ensures memory { IfErr result (λ refused. refused ≡ fault cause.Memory) }
{
    let mut out = Vec::new(alloc);
    write_manifest(day, sheet, &mut out)?;
    Ok(out)
}

/// The manifests of all vehicles on duty on a day, and the number of its trips. The fault is out of memory.
pub fn day_sheet(alloc: Global, sheet: &DaySheet) -> Result<Vec<u8>, Fault>
    ensures value { IfOk result (λ bytes. bytes.items ≡ day_sheet_text sheet.now) }
    ensures memory { IfErr result (λ refused. refused ≡ fault cause.Memory) }
{
    let mut out = Vec::new(alloc);
    write_manifests(sheet.day, &sheet.vehicles, &mut out)?;
    out.extend_from_slice(b"TRIPS ")?;
    out.extend_from_slice(Buffer::new().format(sheet.trips).as_bytes())?;
    out.extend_from_slice(b"\n")?;
    Ok(out)
}

/// Adds the manifests of the vehicles, one after the other.
fn write_manifests(day: Day, vehicles: &[VehicleSheet], out: &mut Vec<u8>) -> Result<(), AllocError>
    ensures text { OnOk result (out.new.items ≡ out.old.items ++ flat_map (manifest_text day) vehicles.now) }
{
    for vehicle in vehicles {
        write_manifest(day, vehicle, out)?;
    }
    Ok(())
}

/// Adds the manifest of a vehicle.
fn write_manifest(day: Day, sheet: &VehicleSheet, out: &mut Vec<u8>) -> Result<(), AllocError>
    ensures text { OnOk result (out.new.items ≡ out.old.items ++ manifest_text day sheet.now) }
{
    write_number(b"VEHICLE ", sheet.vehicle.number(), out)?;
    write_day(b" DAY ", day, out)?;
    out.extend_from_slice(b"\n")?;
    match &sheet.tour {
        Some(tour) => write_tour(tour, out),
        None => {
            out.extend_from_slice(b"NO STOPS\n")?;
            Ok(())
        }
    }
}

/// Adds the lines of a tour.
fn write_tour(tour: &Tour, out: &mut Vec<u8>) -> Result<(), AllocError>
    ensures text { OnOk result (out.new.items ≡ out.old.items ++ tour_text (Some tour.now)) }
{
    write_depot(tour.leaves, tour.depot, out)?;
    write_stops(&tour.stops, tour.chairs, out)?;
    write_depot(tour.returns, tour.depot, out)
}

/// Adds the line of a depot.
fn write_depot(minute: Minute, depot: PlaceId, out: &mut Vec<u8>) -> Result<(), AllocError>
    ensures text { OnOk result (out.new.items ≡ out.old.items ++ depot_line minute depot) }
{
    write_minute(minute, out)?;
    write_number(b" DEPOT ", depot.number(), out)?;
    out.extend_from_slice(b"\n")?;
    Ok(())
}

/// Adds the lines of the stops of a vehicle with this number of wheelchair places.
fn write_stops(stops: &[TourStop], chairs: u16, out: &mut Vec<u8>) -> Result<(), AllocError>
    ensures text { OnOk result (out.new.items ≡ out.old.items ++ flat_map (stop_line chairs) stops.now) }
{
    for stop in stops {
        write_stop(stop, chairs, out)?;
    }
    Ok(())
}

/// Adds the line of a stop.
fn write_stop(stop: &TourStop, chairs: u16, out: &mut Vec<u8>) -> Result<(), AllocError>
    ensures text { OnOk result (out.new.items ≡ out.old.items ++ stop_line chairs stop.now) }
{
    write_minute(stop.minute, out)?;
    out.extend_from_slice(stop_word(stop.window))?;
    write_number(b" trip ", stop.trip.number(), out)?;
    write_number(b" rider ", stop.rider.number(), out)?;
    write_number(b" place ", stop.place.number(), out)?;
    write_load(stop.aboard, chairs, out)?;
    write_window(stop.window, out)?;
    out.extend_from_slice(b"\n")?;
    Ok(())
}

/// Adds the number on seats and, if the vehicle has wheelchair places, the number on these.
fn write_load(load: Load, chairs: u16, out: &mut Vec<u8>) -> Result<(), AllocError>
    ensures text { OnOk result (out.new.items ≡ out.old.items ++ load_text chairs load) }
{
    write_number(b" load ", u32::from(load.seats), out)?;
    if chairs > 0 {
        write_number(b" chairs ", u32::from(load.chairs), out)?;
    }
    Ok(())
}

/// The word for a pickup, which has a window, or for a drop.
fn stop_word(window: Option<Window>) -> &'static [u8]
    ensures { result.now ≡ stop_word window }
{
    match window {
        Some(_) => b" PICK",
        None => b" DROP",
    }
}

/// Adds the promised window of a pickup, and nothing at a drop.
fn write_window(window: Option<Window>, out: &mut Vec<u8>) -> Result<(), AllocError>
    ensures text { OnOk result (out.new.items ≡ out.old.items ++ window_text window) }
{
    if let Some(window) = window {
        out.extend_from_slice(b" window ")?;
        write_minute(window.from, out)?;
        out.extend_from_slice(b"-")?;
        write_minute(window.to, out)?;
    }
    Ok(())
}
