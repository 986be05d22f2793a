ghost use Rattle.std.specs.Prelude.{◌≡◌, ℕ, List, Option, IsSome, Err};
ghost use Rattle.sccs_grammar.specs.File.{answer, file_of};
ghost use Rattle.sccs_grammar.specs.FileRefusals.{file_fault, refusal_of};
ghost use Rattle.sccs_grammar.specs.declared.faults.FileFault.{FileFault};

use crate::faults::FileFault;
use sccs_sid::{Refusal, StepFault};

impl From<FileFault> for StepFault {
    ghost from_gives = { λ fault ended. ended ≡ file_fault fault };

    fn from(fault: FileFault) -> StepFault {
        match fault {
            FileFault::Missing => StepFault::Refused(Refusal::Missing),
            FileFault::TooLong => StepFault::Refused(Refusal::TooLong),
            FileFault::NotSccs => StepFault::Refused(Refusal::NotSccs),
            FileFault::BadSum(stored, sum) => StepFault::Refused(Refusal::BadSum(stored, sum)),
            FileFault::BadFormat(line) => StepFault::Refused(Refusal::BadFormat(line)),
            FileFault::Encoded => StepFault::Refused(Refusal::Encoded),
            FileFault::Changed(size, sum, size_now, sum_now) => {
                StepFault::Refused(Refusal::Changed(size, sum, size_now, sum_now))
            }
            FileFault::Failed => StepFault::DiskFault,
            FileFault::Memory => StepFault::Memory,
        }
    }
}

/// Where the bytes of a file, or that there is none, don't give a whole file, that is a refusal.
pub fn files_are_refused()
    ensures { (bytes : Option (List ℕ)) (fault : FileFault) → answer file_of bytes ≡ Err fault
        → IsSome (refusal_of fault) }
{}
