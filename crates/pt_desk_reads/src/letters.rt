ghost use Rattle.std.specs.Prelude.{◌≡◌, ℕ, IfOk};
ghost use Rattle.pt_base_values.specs.Moment.{Moment};
ghost use Rattle.pt_desk_rules.specs.Deciding.{IsTold};
ghost use Rattle.pt_desk_rules.specs.Letters.{letter_at, letter_of};
ghost use Rattle.pt_desk_requests.specs.declared.request.Read.TheVariants.{Letter as ReadLetter};

use pt_base_values::{Rider, RiderId, Rule};
use pt_desk_requests::{Answer, Caller, Determination, Letter};
use pt_desk_rules::{ReadFacts, may_see_standing};
use pt_rights_files::{CaseFile, Entered, Position};
use std::alloc::AllocError;

/// The letter of an entry; `None` if its kind has none. The error is out of memory.
fn letter_of(rider: &Rider, entered: &Entered) -> Result<Option<Letter>, AllocError>
    ensures { IfOk result (λ letter. letter ≡ letter_of rider.now entered.now) }
{
    match Determination::of(entered.entry.clone()?) {
        Some(decision) => Ok(Some(Letter {
            rider: *rider,
            day: entered.day,
            decision,
        })),
        None => Ok(None),
    }
}

/// The letter of the entry at this position of the rider's case file, if there is one.
fn letter_at(
    found: &Option<Rider>,
    file: &CaseFile,
    position: Position,
) -> Result<Option<Letter>, AllocError>
    ensures { IfOk result (λ letter. letter ≡ letter_at found.now file.now position) }
{
    let Some(rider) = found else {
        return Ok(None);
    };
    match file.entries().get(position.number() as usize) {
        Some(entered) => letter_of(rider, entered),
        None => Ok(None),
    }
}

/// The answer about the letter of an entry.
pub(crate) fn tell_letter(
    facts: &ReadFacts,
    me: &Caller,
    rider: RiderId,
    position: Position,
) -> Result<Answer, AllocError>
    ensures { IfOk result (λ told. (now : Moment) → IsTold (ReadLetter rider position) me.now now facts.now told) }
{
    if !may_see_standing(me.role, rider, &facts.rider) {
        return Ok(Answer::Denied(Rule::Caller));
    }
    match letter_at(&facts.rider, &facts.file, position)? {
        Some(letter) => Ok(Answer::Letter(letter)),
        None => Ok(Answer::Denied(Rule::Unknown)),
    }
}
