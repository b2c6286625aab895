ghost use Rattle.std.specs.Prelude.{◌≡◌, [], IfOk};
ghost use Rattle.pt_desk_rules.specs.Outcomes.{outcome_of, tallies_of, tally_of};

use pt_base_values::{Trip, TripStatus};
use pt_rights_files::{Outcome, Tally};
use std::alloc::{AllocError, Global};
use std::marker::Model;

/// The outcomes of a rider's trips. A contract sees them as a list.
#[derive(Drop)]
pub struct Tallies {
    tallies: Vec<Tally>,
}

impl Model for Tallies {
    ghost use Rattle.std.specs.Prelude.{List};
    ghost use Rattle.pt_rights_files.specs.declared.tally.Tally.{Tally};

    ghost Value = { List Tally };

    ghost view = { λ tallies. tallies.tallies.items };
}

impl Tallies {
    /// No outcome.
    pub fn none(alloc: Global) -> Self
        ensures value { result ≡ [] }
    {
        Tallies {
            tallies: Vec::new(alloc),
        }
    }

    /// The outcomes of those trips that have one. The error is out of memory.
    pub fn of(alloc: Global, trips: &[Trip]) -> Result<Self, AllocError>
        ensures value { IfOk result (λ tallies. tallies ≡ tallies_of trips.now) }
    {
        let mut tallies = Vec::new(alloc);
        for trip in trips {
            if let Some(tally) = tally_of(trip) {
                tallies.push(tally)?;
            }
        }
        Ok(Tallies { tallies })
    }

    /// The outcomes.
    pub fn as_slice(&self) -> &[Tally]
        ensures value { result.now ≡ self.now }
    {
        &self.tallies
    }
}

/// The outcome of a trip with this status, if it has one.
fn outcome_of(status: TripStatus) -> Option<Outcome>
    ensures { result ≡ outcome_of status }
{
    match status {
        TripStatus::Booked | TripStatus::Cancelled => None,
        TripStatus::Ridden => Some(Outcome::Ridden),
        TripStatus::MissedRider => Some(Outcome::MissedRider),
        TripStatus::MissedOperator => Some(Outcome::MissedOperator),
    }
}

/// The trip's outcome with its day, if it has one.
fn tally_of(trip: &Trip) -> Option<Tally>
    ensures { result ≡ tally_of trip.now }
{
    let outcome = outcome_of(trip.status)?;
    Some(Tally {
        day: trip.wish.day,
        outcome,
    })
}
