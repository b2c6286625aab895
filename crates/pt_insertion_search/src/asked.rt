ghost use Rattle.std.specs.Prelude.{◌≡◌};
ghost use Rattle.pt_insertion_search.specs.Asked.{pickup_stop, drop_stop};

use pt_base_values::{Load, Minute, PlaceId, TripId};
use pt_feasible::{Stop, StopKind};

/// A requested trip, as planning sees it.
#[derive(Clone, Copy)]
pub struct Asked {
    pub trip: TripId,
    pub origin: PlaceId,
    pub goal: PlaceId,
    /// The earliest minute of the day at which the pickup may begin.
    pub lo: Minute,
    /// The latest minute of the day at which the pickup may begin.
    pub hi: Minute,
    /// The latest minute of the day at which the drop may begin.
    pub latest: Minute,
    /// Minutes of service at each of its two stops.
    pub service: u16,
    /// The most minutes from the end of the pickup to the drop.
    pub ride: u16,
    /// The trip's party.
    pub load: Load,
}

impl Asked {
    /// The stop at which the party comes aboard.
    pub fn pickup_stop(&self) -> Stop
        ensures { result ≡ pickup_stop self.now }
    {
        Stop {
            trip: self.trip,
            kind: StopKind::Pickup,
            place: self.origin,
            lo: self.lo,
            hi: self.hi,
            service: self.service,
            load: self.load,
            ride: self.ride,
        }
    }

    /// The stop at which the party leaves; it may begin from midnight on.
    pub fn drop_stop(&self) -> Stop
        ensures { result ≡ drop_stop self.now }
    {
        Stop {
            trip: self.trip,
            kind: StopKind::Drop,
            place: self.goal,
            lo: Minute::of(0).unwrap(),
            hi: self.latest,
            service: self.service,
            load: self.load,
            ride: self.ride,
        }
    }
}
