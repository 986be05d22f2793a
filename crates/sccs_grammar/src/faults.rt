ghost use Rattle.std.specs.Prelude.{◌≡◌};
ghost use Rattle.sccs_grammar.specs.FileRefusals.{unread_front};
ghost use Rattle.sccs_grammar.specs.declared.faults.FileFault.TheVariants as faults;

use crate::header_parsers::FrontFault;
use sccs_base::{Failed, Memory};

/// Why an s-file was not read. Where several hold, the earliest of this list is answered.
#[derive(Clone, Copy, Debug, PartialEq, Eq)]
pub enum FileFault {
    /// There is no such file.
    Missing,
    /// It is longer than 1,073,741,824 bytes.
    TooLong,
    /// Its first line is not SOH, `h`, five digits and LF.
    NotSccs,
    /// The stored digits, and the plain sum: they are neither the plain nor the signed sum.
    BadSum(u32, u16),
    /// The first line, from 1, at which no spelling goes on.
    BadFormat(u64),
    /// A flag e has the text `1`.
    Encoded,
    /// The size and the plain sum of a first reading, and those of this one: one of them differs.
    Changed(u64, u16, u64, u16),
    /// The disk failed.
    Failed,
    /// There was no memory.
    Memory,
}

impl From<Failed> for FileFault {
    ghost from_gives = { λ _ fault. fault ≡ faults.Failed };

    fn from(_failed: Failed) -> FileFault {
        FileFault::Failed
    }
}

impl From<Memory> for FileFault {
    ghost from_gives = { λ _ fault. fault ≡ faults.Memory };

    fn from(_memory: Memory) -> FileFault {
        FileFault::Memory
    }
}

impl From<FrontFault> for FileFault {
    ghost from_gives = { λ fault ended. ended ≡ unread_front fault };

    fn from(fault: FrontFault) -> FileFault {
        match fault {
            FrontFault::Format(line) => FileFault::BadFormat(line),
            FrontFault::Memory => FileFault::Memory,
        }
    }
}
