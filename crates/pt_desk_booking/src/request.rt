ghost use Rattle.std.specs.Prelude.{◌≡◌};
ghost use Rattle.pt_desk_booking.specs.Request.{party_of};

use pt_base_values::{Day, Place, Policy, Rider, TripId, Wish};
use pt_corridor::FixedRoute;
use pt_party::Party;
use pt_rights_files::CaseFile;

/// A requested trip, with all that its rules use except vehicles and driving times.
#[derive(Clone, Copy)]
pub struct TripRequest<'a> {
    /// The number that the trip is to have.
    pub trip: TripId,
    pub rider: &'a Rider,
    /// The rider's case file; a visitor's has no entries.
    pub file: &'a CaseFile,
    /// The days of a visitor's trips that are booked or ridden, without this one, in rising order, each once.
    pub uses: &'a [Day],
    pub policy: &'a Policy,
    pub routes: &'a [FixedRoute],
    /// The place where the wish begins.
    pub from: &'a Place,
    /// The place where the wish ends.
    pub to: &'a Place,
    pub today: Day,
    pub wish: Wish,
}

/// Who comes along with the rider.
pub fn party_of(wish: &Wish) -> Party
    ensures { result ≡ party_of wish.now }
{
    Party {
        attendant: wish.attendant,
        companions: wish.companions,
    }
}
