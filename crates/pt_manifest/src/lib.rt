//! The texts that drivers carry and riders get: manifests, day sheets, letters of decisions, and the export of trips.
#![tactic(auto)]

pub use export::{status_text, trips_csv};
pub use law::day_text_is_the_date;
pub use letters::decision_letter;
pub use tours::{day_sheet, manifest};

mod export;
mod law;
mod letters;
mod tours;
mod writing;
