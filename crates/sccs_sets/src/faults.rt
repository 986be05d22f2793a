ghost use Rattle.std.specs.Prelude.{◌≡◌};
ghost use Rattle.sccs_sets.specs.SetRefusals.{set_fault};

use sccs_sid::{Refusal, Sid, StepFault};

/// Why serials or a set were not given.
#[derive(Clone, Copy, Debug, PartialEq, Eq)]
pub enum SetFault {
    /// The SID of a list that isn't live, isn't on one line in order with the SID before it, or is
    /// taken in and left out.
    BadList(Sid),
    /// There was no memory.
    Memory,
}

impl From<SetFault> for StepFault {
    ghost from_gives = { λ fault ended. ended ≡ set_fault fault };

    fn from(fault: SetFault) -> StepFault {
        match fault {
            SetFault::BadList(sid) => StepFault::Refused(Refusal::BadList(sid)),
            SetFault::Memory => StepFault::Memory,
        }
    }
}
