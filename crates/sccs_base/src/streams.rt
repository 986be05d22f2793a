ghost use Rattle.std.specs.Prelude.{◌≡◌, ℕ, ◌<◌, ◌≤◌, List, Option, length, IfOk, OnOk, OnErr};
ghost use Rattle.sccs_base.specs.Causes.{GivesText};
ghost use Rattle.sccs_base.specs.Stream.{Rose, one_more, TakesOk, TakesNone, GivesOk, GivesSome};

use std::alloc::{AllocError, AllocFailed};
use thiserror::Error;

/// An outside object failed.
#[derive(Clone, Copy, Debug, PartialEq, Eq)]
pub struct Failed;

/// There was no memory.
#[derive(Clone, Copy, Debug, PartialEq, Eq)]
pub struct Memory;

impl From<AllocError> for Memory {
    fn from(_error: AllocError) -> Memory {
        Memory
    }
}

impl<T: Drop> From<AllocFailed<T>> for Memory {
    fn from(_error: AllocFailed<T>) -> Memory {
        Memory
    }
}

/// Why a line was not made.
#[derive(Clone, Copy, Debug, PartialEq, Eq, Error)]
pub enum MakeFault {
    #[error("Unfit")]
    Unfit,
    #[error("Memory")]
    Memory,
}

/// Why a source was not taken whole.
#[derive(Clone, Copy, Debug, PartialEq, Eq, Error)]
pub enum TakeFault {
    #[error("Failed")]
    Failed,
    #[error("TooLong")]
    TooLong,
    #[error("Memory")]
    Memory,
}

/// One more call or fault. At the last value of the counter it stays there.
pub fn one_more(count: u64) -> u64
    ensures value { result ≡ one_more count }
    ensures later { count ≤ result }
    ensures rose { Rose count result }
{
    count.saturating_add(1)
}

/// Where bytes come from.
pub trait Source {
    /// The bytes still to come, where the source tells them.
    ghost left: { Self → Option (List ℕ) };

    /// How often the source has failed.
    ghost faults: { Self → ℕ };

    /// Moves the next bytes into the front of a slice that isn't empty, and answers how many
    /// they are: 0 exactly where nothing is left.
    fn take(&mut self, into: &mut [u8]) -> Result<usize, Failed>
        requires { 0 < length into.old }
        ensures bound { IfOk result (λ n. n ≤ length into.old) }
        ensures ok { IfOk result (TakesOk (left self.old) (left self.new) into.old into.new) }
        ensures err { OnErr result (TakesNone (left self.old) (left self.new) into.old into.new) }
        ensures later { faults self.old ≤ faults self.new }
        ensures cause { OnErr result (Rose (faults self.old) (faults self.new)) };
}

/// Where bytes go.
pub trait Sink {
    /// The bytes given so far, where the sink tells them.
    ghost given: { Self → Option (List ℕ) };

    /// How often the sink has failed.
    ghost faults: { Self → ℕ };

    /// Appends all the bytes. Where it fails a prefix of them was appended.
    fn give(&mut self, bytes: &[u8]) -> Result<(), Failed>
        ensures { GivesText bytes.now (given self.old) (given self.new) (faults self.old) (faults self.new) result };
}
