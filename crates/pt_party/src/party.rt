ghost use Rattle.std.specs.Prelude.{◌≡◌, ◌↔◌, IsNone, IfSome};
ghost use Rattle.std.specs.Int.{IsInRange};
ghost use Rattle.pt_party.specs.Party.{MayTravel, persons_of, load_of};

use pt_base_values::{Load, Rider, Rule};

/// Who comes along with a rider, as a trip was asked for. It may be more than the rules allow.
#[derive(Clone, Copy)]
pub struct Party {
    /// Whether a personal care attendant comes.
    pub attendant: bool,
    /// How many others come.
    pub companions: u8,
}

/// The rule that the rider breaks with this party; `None` if they may travel together.
pub fn party_rule(rider: &Rider, party: Party) -> Option<Rule>
    ensures allowed { IsNone result ↔ MayTravel rider.now party }
    ensures rule { IfSome result (λ rule. rule ≡ Rule.Party) }
{
    if party.companions > 1 || (party.attendant && !rider.attendant) {
        return Some(Rule::Party);
    }
    None
}

/// How many persons board the vehicle: the rider, the attendant and the companions.
pub fn persons(party: Party) -> u32
    ensures value { result ≡ persons_of party }
    ensures in_range { IsInRange 1 257 result }
{
    1 + u32::from(party.attendant) + u32::from(party.companions)
}

/// The room in a vehicle that the party takes, by whether its rider rides in a wheelchair.
pub fn load(party: Party, wheelchair: bool) -> Load
    ensures { result ≡ load_of party wheelchair }
{
    let persons = persons(party) as u16;
    if wheelchair {
        return Load {
            seats: persons - 1,
            chairs: 1,
        };
    }
    Load {
        seats: persons,
        chairs: 0,
    }
}
