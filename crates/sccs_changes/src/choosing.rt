ghost use Rattle.std.specs.Prelude.{◌≢◌, ◌<◌, ◌≤◌, Err, IfOk, length};
ghost use Rattle.std.specs.Option.{option_copied};
ghost use Rattle.sccs_pfile.specs.Choices.{choice, fits};
ghost use Rattle.sccs_sid.specs.declared.refusals.StepFault.TheVariants as fault;
ghost use Rattle.sccs_steps.specs.Actions.{RefusesWithin};
ghost use Rattle.sccs_changes.specs.NewEntries.{choice_checks, or_no_edit};
ghost use Rattle.sccs_changes.specs.PFiles.{Answers};

use sccs_base::Login;
use sccs_pfile::{Choice, Edits, choose};
use sccs_sid::{Refusal, Sid, StepFault};

/// The number, from 1, of the entry of a login, and of a SID where one is given: the SID that it is to make,
/// or, with `by_got`, got. NoEdit comes exactly where no entry fits, ManyEdits where more than one does. POSIX,
/// delta and unget, -r.
pub fn chosen(
    edits: &Edits,
    login: &Login,
    sid: Option<&Sid>,
    by_got: bool,
) -> Result<u64, StepFault>
    ensures value { Answers (or_no_edit (choice (fits login.now (option_copied sid.entry) by_got) edits.now)) result }
    ensures some { IfOk result (λ number. 0 < number) }
    ensures there { IfOk result (λ number. number ≤ length edits.now) }
    ensures checks { RefusesWithin choice_checks result }
    ensures memory { result ≢ Err fault.Memory }
    ensures broke { result ≢ Err fault.DiskFault }
{
    match choose(edits, login, sid, by_got) {
        Choice::One(number) => Ok(number),
        Choice::NoEdit => Err(StepFault::Refused(Refusal::NoEdit)),
        Choice::ManyEdits => Err(StepFault::Refused(Refusal::ManyEdits)),
    }
}
