ghost use Rattle.std.specs.Prelude.{◌≡◌, ◌&&◌, IfOk, OnOk};
ghost use Rattle.pt_base_records.specs.Records.{put};
ghost use Rattle.pt_desk_scheduling.specs.Uses.{AreUses, is_other, is_used};

use pt_base_records::{Edits, Table};
use pt_base_values::{Day, Trip, TripId, TripStatus};
use std::alloc::{AllocError, Global};

/// Whether the trip is not the one that is left out, and is booked or was ridden.
fn is_use(trip: &Trip, left_out: &Option<TripId>) -> bool
    ensures { result ≡ (is_other left_out.now trip.now.id && is_used trip.now.status) }
{
    let is_other = match left_out {
        Some(id) => trip.id != *id,
        None => true,
    };
    is_other && matches!(trip.status, TripStatus::Booked | TripStatus::Ridden)
}

/// Puts a day in its place.
fn put_day(alloc: Global, days: &mut Table<Day>, day: Day) -> Result<(), AllocError>
    ensures { OnOk result (days.new.items ≡ put (λ day. day) day days.old.items) }
{
    let mut edit = Edits::none(alloc);
    edit.put(day)?;
    days.reserve(&edit)?;
    days.edit(edit);
    Ok(())
}

/// The days of the trips that are booked or ridden, except one that is left out: in rising order, each once.
pub fn days_of_use(
    alloc: Global,
    trips: &[Trip],
    left_out: &Option<TripId>,
) -> Result<Table<Day>, AllocError>
    ensures uses { IfOk result (λ days. AreUses left_out.now trips.now days.items) }
{
    let mut days = Table::none(alloc);
    for trip in trips {
        if is_use(trip, left_out) {
            put_day(alloc, &mut days, trip.wish.day)?;
        }
    }
    let _ = days.as_slice();
    Ok(days)
}
