ghost use Rattle.std.specs.Prelude.{◌≡◌, ◌↔◌, ℕ, [], IsTrue};
ghost use Rattle.pt_base_records.specs.Records.{Each};
ghost use Rattle.pt_desk_scheduling.specs.Plan.{stops_of_trip, IsPair, IsRoutePlan};

use pt_base_values::TripId;
use pt_desk_scheduling::{Plan, PlannedStop};
use pt_feasible::{MAX_STOPS, StopKind};

/// The stops of a trip that have come so far.
#[derive(Clone, Copy)]
pub(crate) enum Met {
    Nothing,
    Pickup,
    Both,
}

impl Met {
    ghost use Rattle.pt_tables_soundness.specs.Pairs.{met_after, met_with, IsRestAfter};

    /// After one more stop of the trip; `None` if it may not come here.
    fn with(self, kind: StopKind) -> Option<Met>
        ensures { result ≡ met_with self kind }
    {
        match (self, kind) {
            (Met::Nothing, StopKind::Pickup) => Some(Met::Pickup),
            (Met::Pickup, StopKind::Drop) => Some(Met::Both),
            _ => None,
        }
    }

    /// After one more stop of any trip.
    fn after(self, trip: TripId, stop: &PlannedStop) -> Option<Met>
        ensures { result ≡ met_after trip self stop.now }
    {
        if stop.trip == trip {
            self.with(stop.kind)
        } else {
            Some(self)
        }
    }

    /// Whether the trip needs no further stop.
    fn is_whole(self) -> bool
        ensures { IsTrue result ↔ IsRestAfter self [] }
    {
        match self {
            Met::Pickup => false,
            Met::Nothing | Met::Both => true,
        }
    }
}

/// Whether the trip has no stops here, or a pickup and then a drop.
fn is_pair_of(trip: TripId, stops: &[PlannedStop]) -> bool
    ensures { IsTrue result ↔ IsPair (stops_of_trip trip stops.now) }
{
    let mut met = Met::Nothing;
    for stop in stops {
        match met.after(trip, stop) {
            Some(next) => met = next,
            None => return false,
        }
    }
    met.is_whole()
}

/// Whether the trip of each of these stops has a pickup and then a drop.
fn are_pairs(all: &[PlannedStop], stops: &[PlannedStop]) -> bool
    ensures { IsTrue result ↔ Each (λ stop. IsPair (stops_of_trip stop.trip all.now)) stops.now }
{
    for stop in stops {
        if !is_pair_of(stop.trip, all) {
            return false;
        }
    }
    true
}

/// Whether each trip has no stops here, or a pickup and then a drop.
fn are_paired(stops: &[PlannedStop]) -> bool
    ensures { IsTrue result ↔ ((trip : ℕ) → IsPair (stops_of_trip trip stops.now)) }
{
    are_pairs(stops, stops)
}

/// Whether the stops of the plan are a route.
fn is_route_plan(plan: &Plan) -> bool
    ensures { IsTrue result ↔ IsRoutePlan plan.now }
{
    plan.stops.len() <= MAX_STOPS && are_paired(&plan.stops)
}

/// Whether the stops of the plans are routes.
pub(crate) fn are_route_plans(plans: &[Plan]) -> bool
    ensures { IsTrue result ↔ Each IsRoutePlan plans.now }
{
    for plan in plans {
        if !is_route_plan(plan) {
            return false;
        }
    }
    true
}
