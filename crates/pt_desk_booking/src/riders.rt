ghost use Rattle.std.specs.Prelude.{◌≡◌, ◌↔◌, IsTrue};
ghost use Rattle.std.specs.List.Sorted.{IsStrictlyIncreasing};
ghost use Rattle.pt_corridor.specs.Corridor.{IsServed, IsServedAt};
ghost use Rattle.pt_rights_files.specs.Rules as tested;
ghost use Rattle.pt_desk_booking.specs.Request.{request_of};
ghost use Rattle.pt_desk_booking.specs.Rules as spec;

use crate::{TripRequest, party_of};
use pt_base_values::{Residence, Rule, bookable};
use pt_corridor::{runs, served};
use pt_party::party_rule;
use pt_rights_conditions::qualifies;
use pt_rights_files::Standing;
use pt_rights_visitors::visitor_may;

/// The first rule that a request fails, of those that need no vehicle; `None` if it fails none of them.
///
/// It takes no memory.
pub fn riders_denial(request: &TripRequest<'_>) -> Option<Rule>
    requires { IsStrictlyIncreasing request.now.uses.now }
    ensures { spec.IsFirstFailing (spec.riders_rules (request_of request.now)) result }
{
    let day = request.wish.day;
    let party = party_of(&request.wish);
    first_failing(&[
        entitlement(request),
        (Rule::Suspension, !request.file.suspended(day)),
        (Rule::Conditions, is_covered(request)),
        (Rule::Party, party_rule(request.rider, party).is_none()),
        (Rule::BookingDays, bookable(request.today, day)),
        (Rule::Area, is_served(request)),
        (Rule::Hours, is_served_then(request)),
    ])
}

/// The first of the rules that fails, in their order; each comes with whether it holds.
pub fn first_failing(rules: &[(Rule, bool)]) -> Option<Rule>
    ensures value { result ≡ tested.first_failing rules.now }
{
    for (rule, holds) in rules {
        if !*holds {
            return Some(*rule);
        }
    }
    None
}

/// The rule on standing or on a visitor's days, and whether it holds.
fn entitlement(request: &TripRequest<'_>) -> (Rule, bool)
    requires { IsStrictlyIncreasing request.now.uses.now }
    ensures rule { result.0 ≡ (spec.entitlement request.now.rider.now.kind (request_of request.now)).0 }
    ensures holds { IsTrue result.1 ↔ (spec.entitlement request.now.rider.now.kind (request_of request.now)).1 }
{
    let day = request.wish.day;
    match request.rider.kind {
        Residence::Resident => {
            let standing = request.file.standing(request.today, day);
            (Rule::Standing, !matches!(standing, Standing::None))
        }
        Residence::Visitor => (Rule::VisitorDays, visitor_may(request.uses, day)),
    }
}

/// Whether the rider's eligibility covers the trip.
fn is_covered(request: &TripRequest<'_>) -> bool
    ensures { IsTrue result ↔ spec.IsCovered request.now.rider.now.kind (request_of request.now) }
{
    match request.rider.kind {
        Residence::Resident => {
            is_under(
                &request.file.standing(request.today, request.wish.day),
                request,
            )
        }
        Residence::Visitor => true,
    }
}

/// Whether the trip meets a condition of the standing, if that has any.
fn is_under(standing: &Standing, request: &TripRequest<'_>) -> bool
    ensures { IsTrue result ↔ spec.IsUnder standing.now (request_of request.now) }
{
    match standing {
        Standing::Granted(grant) => qualifies(
            grant,
            request.routes,
            request.wish.day,
            request.wish.pickup,
            request.from,
            request.to,
        ),
        Standing::Presumed | Standing::AppealOverdue | Standing::None => true,
    }
}

/// Whether service is owed at both ends.
fn is_served(request: &TripRequest<'_>) -> bool
    ensures { IsTrue result ↔ (IsServed request.now.routes.now request.now.from.now
        × IsServed request.now.routes.now request.now.to.now) }
{
    served(request.routes, request.from) && served(request.routes, request.to)
}

/// Whether service is owed at both ends at the wished minute of the day.
fn is_served_then(request: &TripRequest<'_>) -> bool
    ensures { let wish = request.now.wish in IsTrue result
        ↔ (IsServedAt request.now.routes.now request.now.from.now wish.day wish.pickup
        × IsServedAt request.now.routes.now request.now.to.now wish.day wish.pickup) }
{
    let (day, minute) = (request.wish.day, request.wish.pickup);
    runs(request.routes, request.from, day, minute) && runs(request.routes, request.to, day, minute)
}
