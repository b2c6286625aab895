ghost use Rattle.std.specs.Prelude.{◌≡◌, ◌++◌, OnOk};
ghost use Rattle.pt_desk_spelling.specs.Ranges.{IsWish};
ghost use Rattle.pt_desk_spelling.specs.Requests.{outcome_number, wish_bytes};

use crate::fields::{push_number, push_numbers, push_optional, push_truth};
use pt_base_values::Wish;
use pt_rights_files::Outcome;
use std::alloc::AllocError;

/// Adds the fields of a trip as a rider wishes it. The error is out of memory.
pub(crate) fn push_wish(wish: &Wish, out: &mut Vec<u8>) -> Result<(), AllocError>
    ensures text { OnOk result (out.new.items ≡ out.old.items ++ wish_bytes wish.now) }
    ensures ranges { OnOk result (IsWish wish.now) }
{
    let numbers = [
        wish.day.number(),
        wish.pickup.number(),
        wish.from.number(),
        wish.to.number(),
    ];
    push_numbers(&numbers, out)?;
    push_optional(wish.by, out)?;
    push_truth(wish.attendant, out)?;
    push_number(u32::from(wish.companions), out)
}

/// The number of a trip's outcome.
pub(crate) fn outcome_number(outcome: Outcome) -> u8
    ensures { result ≡ outcome_number outcome }
{
    match outcome {
        Outcome::Ridden => 0,
        Outcome::MissedRider => 1,
        Outcome::MissedOperator => 2,
    }
}
