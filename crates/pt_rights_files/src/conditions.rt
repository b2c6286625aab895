ghost use Rattle.std.specs.Prelude.{⊤, ◌≡◌, ◌↔◌, IsSome, IfSome};
ghost use Rattle.std.specs.Cmp.Lexicographic.{pointwise, lists_per, lists_equiv};
ghost use Rattle.pt_rights_files.specs.Conditions.{IsConditions};

use crate::{Feet, Months};
use arrayvec::ArrayVec;
use std::alloc::AllocError;
use std::marker::Model;

/// The most conditions that a grant lists.
pub const MOST_CONDITIONS: usize = 4;

/// A condition under which a trip qualifies (49 CFR 37.123(b), (e)). A trip qualifies if one of the grant's conditions
/// holds.
#[derive(Clone, Copy, Default, PartialEq, Eq)]
pub enum Condition {
    /// Every trip qualifies.
    #[default]
    Always,
    /// The trip's day is in one of these months.
    Months(Months),
    /// One end of the trip is farther than this from every fixed route that runs then.
    Farther(Feet),
    /// No fixed route with accessible vehicles that runs then has both ends in its corridor.
    NoLift,
}

/// The conditions of a grant, in the order given: one to four, and one may occur twice.
#[derive(Drop)]
pub struct Conditions {
    members: ArrayVec<Condition, MOST_CONDITIONS>,
}

impl Model for Conditions {
    ghost use Rattle.std.specs.Prelude.{List};
    ghost use Rattle.pt_rights_files.specs.declared.conditions.Condition.{Condition};

    ghost Value = { List Condition };

    ghost use Rattle.pt_rights_files.specs.Conditions.{IsConditions};

    ghost view = { λ conditions. conditions.members.items };

    ghost invariant = { λ conditions. IsConditions conditions.members.items };
}

impl Conditions {
    /// These conditions; `None` if there are none or more than four.
    pub fn of(members: &[Condition]) -> Option<Self>
        ensures in_range { IsSome result ↔ IsConditions members.now }
        ensures value { IfSome result (λ conditions. conditions ≡ members.now) }
    {
        if members.is_empty() {
            return None;
        }
        let members = ArrayVec::try_from(members).ok()?;
        Some(Conditions { members })
    }

    /// The conditions that `of` was given.
    pub fn as_slice(&self) -> &[Condition]
        ensures value { result.now ≡ self.now }
        ensures in_range { IsConditions result.now }
    {
        self.members.as_slice()
    }

    /// A copy, which takes no memory.
    pub fn copy(&self) -> Self
        ensures { result ≡ self.now }
    {
        let mut members = ArrayVec::new();
        for &condition in self.as_slice() {
            members.push(condition);
        }
        Conditions { members }
    }
}

impl Clone for Conditions {
    ghost is_clone = { λ conditions copy. copy ≡ conditions };

    ghost is_infallible = { λ _. ⊤ };

    fn clone(&self) -> Result<Self, AllocError> {
        Ok(self.copy())
    }
}

impl PartialEq for Conditions {
    ghost use Rattle.pt_rights_files.specs.contracts.conditions.ConditionPartialEq.TheImpl.Laws.{laws-law};

    ghost eq = { pointwise ⟦<Condition as PartialEq>⟧.eq };

    ghost laws = { lists_per laws-law };

    fn eq(&self, other: &Conditions) -> bool {
        self.members == other.members
    }
}

impl Eq for Conditions {
    ghost use Rattle.pt_rights_files.specs.contracts.conditions.ConditionEq.TheImpl.Laws.{laws-law};

    ghost laws = { lists_equiv laws-law };
}
