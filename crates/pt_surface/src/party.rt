//! `pt_party`: who comes along, and what it costs.
ghost use Rattle.std.specs.Prelude.{◌≤◌};
ghost use Rattle.pt_base.specs.Ranges.{highest_fare};

use pt_base::{Policy, Rider, Rule};
use pt_party::{Party, due, fare, party_rule};

pub fn party(attendant: bool, companions: u8) -> Party {
    Party {
        attendant,
        companions,
    }
}

pub fn refusal_of(rider: &Rider, party: Party) -> Option<Rule> {
    party_rule(rider, party)
}

pub fn fare_of(policy: &Policy, has_one_route: bool) -> u32 {
    fare(policy, has_one_route)
}

pub fn due_of(fare: u32, party: Party) -> u32
    requires { fare ≤ highest_fare }
{
    due(fare, party)
}

#[cfg(test)]
mod tests {
    use super::{due_of, fare_of, party};
    use pt_base::Policy;

    /// Twice the fixed fare, or the policy's fare if that is less; companions pay, attendants do not.
    #[test]
    fn fares(rt: HostRuntime) {
        let policy = Policy {
            base: 175,
            transfer: 50,
            fare: 400,
            service: 2,
            extra_ride: 20,
            min_missed: 1,
            percent: 100,
            span_days: 1,
        };
        assert_eq!(rt; fare_of(&policy, true), 350);
        assert_eq!(rt; fare_of(&policy, false), 400);
        for (fare, due) in [(350, 700), (400, 800)] {
            assert_eq!(rt; due_of(fare, party(true, 1)), due);
        }
    }
}
