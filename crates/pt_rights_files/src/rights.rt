ghost use Rattle.std.specs.Prelude.{◌≡◌, ◌↔◌, IsTrue};
ghost use Rattle.pt_rights_files.specs.ByPosition.{IsPresumed, IsOverdue, IsGrantedFor, IsSuspended};
ghost use Rattle.pt_rights_files.specs.Standing.{standing_of};
ghost use Rattle.pt_rights_files.specs.Suspension.{is_suspended};
ghost use Rattle.pt_rights_files.specs.declared.entry.Grant.{Grant};

use crate::{CaseFile, Standing};
use pt_base_values::Day;

/// The standing that a case file gives for a trip on the day `day`, as seen on the day `today`. It takes no memory.
pub fn standing(file: &CaseFile, today: Day, day: Day) -> Standing
    ensures value { result ≡ standing_of file.now today day }
    ensures presumed { (result ≡ Standing.Presumed) ↔ IsPresumed file.now today }
    ensures overdue { (result ≡ Standing.AppealOverdue)
        ↔ ((¬ IsPresumed file.now today) × IsOverdue file.now today) }
    ensures granted { (grant : Grant) → (result ≡ Standing.Granted grant)
        ↔ ((¬ IsPresumed file.now today) × (¬ IsOverdue file.now today) × IsGrantedFor file.now day grant) }
{
    file.standing(today, day)
}

/// Whether a case file suspends its rider on the day. It takes no memory.
pub fn suspended(file: &CaseFile, day: Day) -> bool
    ensures value { result ≡ is_suspended file.now day }
    ensures by_position { IsTrue result ↔ IsSuspended file.now day }
{
    file.suspended(day)
}
