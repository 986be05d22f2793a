ghost use Rattle.std.specs.Prelude.{◌≡◌};

use sccs_base::Memory;
use thiserror::Error;

/// Why the trunk of an RCS file can't be read.
#[derive(Clone, Copy, Debug, PartialEq, Eq, Drop, Error)]
pub enum RcsFault {
    /// The byte, from 1, at which the first token begins that can't come at its place.
    #[error("bad RCS file at byte {0}")]
    BadRcs(u64),
    /// The number of the revision that is unfit, the head being 1; 0 for the description.
    #[error("revision {0} is unfit")]
    BadRevision(u64),
    /// The number of the revision, and the line of its text at fault.
    #[error("revision {0} fails at line {1}")]
    RcsScript(u64, u64),
    #[error("out of memory")]
    Memory,
}

impl From<Memory> for RcsFault {
    fn from(_: Memory) -> RcsFault
        ensures { result ≡ RcsFault.Memory }
    {
        RcsFault::Memory
    }
}
