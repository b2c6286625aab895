ghost use Rattle.std.specs.Prelude.{◌≡◌, IfOk};
ghost use Rattle.pt_desk_rules.specs.Deciding.{no_change};
ghost use Rattle.pt_desk_rules.specs.State.{puts_one, replaces};

use crate::{Kept, TravelTable};
use pt_base_records::{Edits, Key, Keyed, Span};
use pt_base_values::{Place, Policy, Rider, RiderId, Trip, TripId, Vehicle};
use pt_corridor::FixedRoute;
use pt_desk_requests::Caller;
use pt_desk_scheduling::Plan;
use pt_rights_files::Entered;
use std::alloc::{AllocError, Global};

/// An entry of a rider's case file.
#[derive(Drop)]
pub struct FiledEntry {
    pub rider: RiderId,
    /// Its position in the file, counted from 0.
    pub position: u32,
    pub entered: Entered,
}

/// The edits of one write, made all together or not at all.
#[derive(Drop)]
pub struct Change {
    pub callers: Edits<Caller>,
    pub kept: Edits<Kept>,
    /// The policy is replaced whole.
    pub policy: Option<Policy>,
    pub places: Edits<Place>,
    pub routes: Edits<FixedRoute>,
    pub riders: Edits<Rider>,
    pub entries: Edits<FiledEntry>,
    pub vehicles: Edits<Vehicle>,
    pub travel: Edits<TravelTable>,
    pub trips: Edits<Trip>,
    pub planned: Edits<Plan>,
    /// The number of a new trip.
    pub last_trip: Option<TripId>,
}

impl Change {
    /// No change.
    pub fn none(alloc: Global) -> Self
        ensures value { result ≡ no_change }
    {
        Change {
            callers: Edits::none(alloc),
            kept: Edits::none(alloc),
            policy: None,
            places: Edits::none(alloc),
            routes: Edits::none(alloc),
            riders: Edits::none(alloc),
            entries: Edits::none(alloc),
            vehicles: Edits::none(alloc),
            travel: Edits::none(alloc),
            trips: Edits::none(alloc),
            planned: Edits::none(alloc),
            last_trip: None,
        }
    }
}

/// An edit that puts one record. The error is out of memory.
pub(crate) fn one<T: Keyed + Drop>(alloc: Global, new: T) -> Result<Edits<T>, AllocError>
    ensures { IfOk result (λ edits. edits ≡ puts_one new) }
{
    let mut edits = Edits::none(alloc);
    edits.put(new)?;
    Ok(edits)
}

/// An edit that puts one record instead of those in the span. The error is out of memory.
pub(crate) fn replacing<T: Keyed + Drop>(
    alloc: Global,
    span: Span,
    new: T,
) -> Result<Edits<T>, AllocError>
    ensures { IfOk result (λ edits. edits ≡ replaces span new) }
{
    let mut edits = Edits::none(alloc);
    edits.take_away(span)?;
    edits.put(new)?;
    Ok(edits)
}

impl Keyed for FiledEntry {
    ghost use Rattle.pt_base_records.specs.Keys.{pair_key};

    ghost key = { λ filed. pair_key filed.rider filed.position };

    fn key(&self) -> Key {
        Key::pair(self.rider.number(), self.position)
    }
}
