//! `pt_manifest`: what is printed and exported.
use pt_base::{Day, Fault, Trip};
use pt_desk_requests::{DaySheet, Letter, VehicleSheet};
use pt_manifest::{day_sheet, decision_letter, manifest, trips_csv};
use std::alloc::Global;

pub fn manifest_of(alloc: Global, day: Day, sheet: &VehicleSheet) -> Result<Vec<u8>, Fault> {
    manifest(alloc, day, sheet)
}

pub fn sheet_of(alloc: Global, sheet: &DaySheet) -> Result<Vec<u8>, Fault> {
    day_sheet(alloc, sheet)
}

pub fn letter_of(alloc: Global, letter: &Letter) -> Result<Vec<u8>, Fault> {
    decision_letter(alloc, letter)
}

pub fn export_of(alloc: Global, trips: &[Trip]) -> Result<Vec<u8>, Fault> {
    trips_csv(alloc, trips)
}
