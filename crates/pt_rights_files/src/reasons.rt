ghost use Rattle.std.specs.Prelude.{◌≡◌, ℕ, ◌↔◌, List, IsSome, IfSome, nat_eq};
ghost use Rattle.std.specs.Cmp.{partial_equiv_from_equiv};
ghost use Rattle.std.specs.Cmp.Lexicographic.{nat_list_eq_equiv, pointwise};
ghost use Rattle.pt_rights_files.specs.Reasons.{IsReasons};

use std::alloc::AllocError;
use std::marker::Model;

/// The most bytes of a text of reasons.
const LONGEST_REASONS: usize = 500;

/// A decision's reasons: 1 to 500 bytes of printable ASCII, 0x20 to 0x7E.
#[derive(Drop)]
pub struct Reasons {
    bytes: Vec<u8>,
}

impl Model for Reasons {
    ghost use Rattle.std.specs.Prelude.{List, ℕ};

    ghost Value = { List ℕ };

    ghost use Rattle.pt_rights_files.specs.Reasons.{IsReasons};

    ghost view = { λ reasons. reasons.bytes.items };

    ghost invariant = { λ reasons. IsReasons reasons.bytes.items };
}

impl Reasons {
    /// The reasons with these bytes; `None` if they are not such a text.
    pub fn of(bytes: Vec<u8>) -> Option<Self>
        ensures in_range { IsSome result ↔ IsReasons bytes.items }
        ensures value { IfSome result (λ reasons. reasons ≡ bytes.items) }
    {
        let fits = 1 <= bytes.len() && bytes.len() <= LONGEST_REASONS;
        if fits && bytes.iter().all(|&byte| 0x20 <= byte && byte <= 0x7E) {
            return Some(Reasons { bytes });
        }
        None
    }

    /// The bytes that `of` was given.
    pub fn as_bytes(&self) -> &[u8]
        ensures value { result.now ≡ self.now }
        ensures in_range { IsReasons result.now }
    {
        &self.bytes
    }
}

impl Clone for Reasons {
    ghost is_clone = { λ reasons copy. copy ≡ reasons };

    fn clone(&self) -> Result<Self, AllocError> {
        Ok(Reasons {
            bytes: self.bytes.clone()?,
        })
    }
}

impl PartialEq for Reasons {
    ghost eq = { pointwise nat_eq };

    ghost laws = { partial_equiv_from_equiv nat_list_eq_equiv };

    fn eq(&self, other: &Reasons) -> bool {
        self.bytes == other.bytes
    }
}

impl Eq for Reasons {
    ghost laws = { nat_list_eq_equiv };
}
