ghost use Rattle.std.specs.Prelude.{◌≡◌, [], Some, IfOk};
ghost use Rattle.sccs_base.specs.Causes.{GivesText};
ghost use Rattle.sccs_keywords.specs.Held.{held_bytes};

use sccs_base::{Failed, Sink, one_more};
use std::alloc::Global;

/// A sink that holds the bytes of a line until they are given on. It fails at want of memory alone.
#[derive(Drop)]
pub struct HeldLine {
    bytes: Vec<u8>,
    faults: u64,
}

impl HeldLine {
    /// No bytes. It takes no memory yet.
    pub fn new(alloc: Global) -> HeldLine
        ensures { held_bytes result ≡ [] }
    {
        HeldLine {
            bytes: Vec::new(alloc),
            faults: 0,
        }
    }

    /// The bytes that are held.
    pub fn bytes(&self) -> &[u8]
        ensures { result.now ≡ held_bytes self.now }
    {
        self.bytes.as_slice()
    }

    /// Lets go of the bytes, and keeps their memory.
    pub fn clear(&mut self)
        ensures { held_bytes self.new ≡ [] }
    {
        self.bytes.clear();
    }
}

impl Sink for HeldLine {
    ghost use Rattle.sccs_keywords.specs.Held.{held_bytes};

    ghost given = { λ s. Some (held_bytes s) };

    ghost faults = { λ s. s.faults };

    fn give(&mut self, bytes: &[u8]) -> Result<(), Failed> {
        let Ok(()) = self.bytes.extend_from_slice(bytes) else {
            self.faults = one_more(self.faults);
            return Err(Failed);
        };
        Ok(())
    }
}
