ghost use Rattle.std.specs.Prelude.{◌≡◌, ◌*◌, ◌≤◌};
ghost use Rattle.pt_base_values.specs.Ranges.{highest_fare};
ghost use Rattle.pt_party.specs.Fare.{due_of, fare_of, fixed_fare_of};

use crate::Party;
use pt_base_values::Policy;

/// The fare of one person, in cents.
///
/// `one_route` says whether a single fixed route that runs then serves both ends of the trip.
pub fn fare(policy: &Policy, one_route: bool) -> u32
    ensures value { result ≡ fare_of policy.now one_route }
    ensures at_most_twice { result ≤ 2 * fixed_fare_of policy.now one_route }
    ensures in_range { result ≤ highest_fare }
{
    let transfer = if one_route { 0 } else { policy.transfer };
    let fixed_fare = policy.base + transfer;
    policy.fare.min(2 * fixed_fare)
}

/// What the party owes for a trip, in cents, by the fare of one person.
pub fn due(fare: u32, party: Party) -> u32
    requires { fare ≤ highest_fare }
    ensures value { result ≡ due_of fare party }
{
    fare * (1 + u32::from(party.companions))
}
