ghost use Rattle.std.specs.Prelude.{◌≡◌};
ghost use Rattle.pt_feasible.specs.Plain.{plain_minutes, plain-stays, plain-within_a_day, plain-triangle};

use pt_base_values::PlaceId;
use pt_travel::Times;

/// Driving times between places by their numbers, whose last six digits are three east and three north.
pub struct Plain;

impl Times for Plain {
    ghost minutes = { λ _ a b. plain_minutes a b };

    ghost stays = { λ _ a. plain-stays a };

    ghost within_a_day = { λ _ a b. plain-within_a_day a b };

    ghost triangle = { λ _ a b c m n. plain-triangle a b c m n };

    fn minutes(&self, from: PlaceId, to: PlaceId) -> Option<u16> {
        let (a, b) = (from.number(), to.number());
        if a / 1_000_000 != b / 1_000_000 {
            return None;
        }
        let east = (a / 1_000 % 1_000).abs_diff(b / 1_000 % 1_000);
        let north = (a % 1_000).abs_diff(b % 1_000);
        Some(east.max(north) as u16)
    }
}
