ghost use Rattle.std.specs.Prelude.{◌≡◌};
ghost use Rattle.pt_desk_rules.specs.Facts.{no_booking, no_day, no_facts, no_read_facts};

use crate::{Tallies, TravelTable};
use pt_base_records::Rows;
use pt_base_values::{Place, Policy, Rider, Trip, Vehicle};
use pt_corridor::FixedRoute;
use pt_desk_requests::Caller;
use pt_desk_scheduling::Plan;
use pt_rights_files::CaseFile;
use std::alloc::Global;

/// The facts for the record of a caller.
#[derive(Drop)]
pub struct CallerFacts {
    /// Whether the rider or the vehicle that the caller's role names exists.
    pub has_subject: bool,
    /// The caller with the same number.
    pub caller: Option<Caller>,
    /// The caller whose key has the same digest.
    pub holder: Option<Caller>,
    pub caller_count: usize,
}

/// The facts for a new place.
#[derive(Drop)]
pub struct PlaceFacts {
    /// Whether a place has the same number.
    pub has_place: bool,
    pub place_count: usize,
}

/// The facts for a fixed route.
#[derive(Drop)]
pub struct RouteFacts {
    /// Whether a fixed route has the same number.
    pub has_route: bool,
    pub route_count: usize,
}

/// The facts for the record of a rider.
#[derive(Drop)]
pub struct RiderFacts {
    /// The rider with the same number.
    pub rider: Option<Rider>,
    pub rider_count: usize,
}

/// The facts for an entry of a case file.
#[derive(Drop)]
pub struct EntryFacts {
    /// The agency's policy.
    pub policy: Policy,
    /// The rider whom the write names.
    pub rider: Option<Rider>,
    /// That rider's case file.
    pub file: CaseFile,
    /// How that rider's trips ended, if the entry is a notice.
    pub tallies: Tallies,
}

/// The facts for a version of a vehicle.
#[derive(Drop)]
pub struct VehicleFacts {
    /// Whether the vehicle's depot exists.
    pub has_depot: bool,
    /// All vehicles with their versions.
    pub vehicles: Rows<Vehicle>,
    /// Whether a trip that is not cancelled depends on a version that the new one replaces.
    pub is_booked: bool,
}

/// The facts for a travel table.
#[derive(Drop)]
pub struct TravelFacts {
    /// All places.
    pub places: Rows<Place>,
    /// The number of travel tables that stay.
    pub tables_before: usize,
    /// Whether a trip that is not cancelled depends on a table that the new one replaces.
    pub is_booked: bool,
}

/// The facts for a rider's wish: a booking, the change of a trip, or a question about a booking.
#[derive(Drop)]
pub struct WishFacts {
    /// The agency's policy.
    pub policy: Policy,
    /// The rider who wishes.
    pub rider: Option<Rider>,
    /// That rider's case file.
    pub file: CaseFile,
    /// All places.
    pub places: Rows<Place>,
    /// All vehicles with their versions.
    pub vehicles: Rows<Vehicle>,
    /// The facts about trips.
    pub booking: BookingFacts,
}

/// The facts for the cancellation of a trip.
#[derive(Drop)]
pub struct CancelFacts {
    /// The trip that the write names.
    pub trip: Option<Trip>,
    /// That trip's rider.
    pub rider: Option<Rider>,
    /// The plan of that trip's vehicle on its day.
    pub plan: Option<Plan>,
}

/// The facts that the rules of a trip read.
#[derive(Drop)]
pub struct BookingFacts {
    /// The trip that the write names.
    pub trip: Option<Trip>,
    /// The plan of that trip's vehicle on its day.
    pub plan: Option<Plan>,
    /// All fixed routes.
    pub routes: Rows<FixedRoute>,
    /// The number of the last trip; 0 before the first.
    pub last_trip: u32,
    /// The trips of the rider whom the write names, if that is a visitor. They count the visitor's days of use.
    pub trips: Rows<Trip>,
    /// The plans and trips of the day that is wished for.
    pub day: DayFacts,
}

impl BookingFacts {
    /// No facts.
    pub fn none(alloc: Global) -> Self
        ensures value { result ≡ no_booking }
    {
        BookingFacts {
            trip: None,
            plan: None,
            routes: Rows::none(alloc),
            last_trip: 0,
            trips: Rows::none(alloc),
            day: DayFacts::none(alloc),
        }
    }
}

/// The facts about a day: the driving times, the trips, and the planned stops.
#[derive(Drop)]
pub struct DayFacts {
    /// The travel table that holds on the day.
    pub travel: Option<TravelTable>,
    /// The trips of the day.
    pub trips: Rows<Trip>,
    /// The stops of the vehicles that have any.
    pub plans: Rows<Plan>,
}

impl DayFacts {
    /// No facts.
    pub fn none(alloc: Global) -> Self
        ensures value { result ≡ no_day }
    {
        DayFacts {
            travel: None,
            trips: Rows::none(alloc),
            plans: Rows::none(alloc),
        }
    }
}

impl WishFacts {
    /// The policy and no other facts.
    pub fn none(alloc: Global, policy: Policy) -> Self
        ensures value { result ≡ no_facts policy }
    {
        WishFacts {
            policy,
            rider: None,
            file: CaseFile::new(alloc),
            places: Rows::none(alloc),
            vehicles: Rows::none(alloc),
            booking: BookingFacts::none(alloc),
        }
    }
}

/// The facts that a read's rules and its answer need. Facts that the read does not need are empty.
#[derive(Drop)]
pub struct ReadFacts {
    /// The rider whom the read names.
    pub rider: Option<Rider>,
    /// That rider's case file.
    pub file: CaseFile,
    /// The trips that the read asks for, by rising number; for a standing, those that count a visitor's days of use.
    pub trips: Rows<Trip>,
    /// All vehicles with their versions.
    pub vehicles: Rows<Vehicle>,
    /// The plans and trips of the day that the read names.
    pub day: DayFacts,
}

impl ReadFacts {
    /// No facts.
    pub fn none(alloc: Global) -> Self
        ensures value { result ≡ no_read_facts }
    {
        ReadFacts {
            rider: None,
            file: CaseFile::new(alloc),
            trips: Rows::none(alloc),
            vehicles: Rows::none(alloc),
            day: DayFacts::none(alloc),
        }
    }
}
