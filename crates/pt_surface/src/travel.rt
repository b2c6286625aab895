//! `pt_travel`: travel tables and the least driving times.
use pt_base::{Fault, PlaceId};
use pt_travel::{Closed, Raw, Times};
use std::alloc::Global;

pub fn table_read(alloc: Global, text: &[u8], places: &[PlaceId]) -> Result<Raw, Fault> {
    Raw::read(alloc, text, places)
}

pub fn table_of(rows: Vec<(PlaceId, PlaceId, u16)>) -> Option<Raw> {
    Raw::of(rows)
}

pub fn rows_of(raw: &Raw) -> &[(PlaceId, PlaceId, u16)] {
    raw.rows()
}

pub fn closed(alloc: Global, raw: &Raw) -> Result<Closed, Fault> {
    Closed::of(alloc, raw)
}

pub fn minutes_by<T: Times>(times: &T, from: PlaceId, to: PlaceId) -> Option<u16> {
    times.minutes(from, to)
}

pub fn minutes_in(closed: &Closed, from: PlaceId, to: PlaceId) -> Option<u16> {
    minutes_by(closed, from, to)
}
