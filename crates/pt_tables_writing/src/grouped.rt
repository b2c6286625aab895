//! The tables whose keys have several columns. Their rowids are not part of any record.

pub(crate) use stops::replace_plan;

mod entries;
mod entry_texts;
mod stops;
mod travel;
mod vehicles;
