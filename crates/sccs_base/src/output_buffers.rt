ghost use Rattle.std.specs.Prelude.{◌≡◌, ◌<◌, ◌≤◌, List, [], ◌++◌, flat_map, IsTrue, IfOk, OnOk, OnErr};
ghost use Rattle.sccs_base.specs.Causes.{GivesText};
ghost use Rattle.sccs_base.specs.Stream.{Rose, GivesSome, Buffers};

use crate::streams::{Failed, Memory, Sink};
use std::alloc::Global;
use std::marker::Model;

// how many bytes a buffer holds at most
const ROOM: usize = 65_536;

/// Bytes that are held back until a sink gets them, 64 KiB at most. Contracts see it as the bytes
/// that are held. Each of its calls takes the sink, which is the same one until a flush.
#[derive(Drop)]
pub struct OutputBuffer {
    bytes: Vec<u8>,
}

impl Model for OutputBuffer {
    ghost use Rattle.std.specs.Prelude.{List, ℕ};

    ghost Value = { List ℕ };

    ghost view = { λ s. s.bytes.items };
}

impl OutputBuffer {
    /// Takes its room at once, and holds nothing.
    pub fn new(alloc: Global) -> Result<OutputBuffer, Memory>
        ensures { IfOk result (λ buffer. buffer ≡ []) }
    {
        let bytes = Vec::with_capacity(alloc, ROOM)?;
        Ok(OutputBuffer { bytes })
    }

    // holds bytes back where there is room for them
    #[inline(always)]
    fn hold(&mut self, bytes: &[u8]) -> bool
        ensures held { IsTrue result → self.new ≡ self.old ++ bytes.now }
        ensures full { ¬ IsTrue result → self.new ≡ self.old }
    {
        if bytes.len() > ROOM.saturating_sub(self.bytes.len()) {
            return false;
        }
        self.bytes.extend_from_slice(bytes).is_ok()
    }

    /// Gives what is held, and holds nothing then. Where it fails the sink got a prefix of it, and
    /// the rest is lost.
    pub fn flush<S: Sink>(&mut self, out: &mut S) -> Result<(), Failed>
        ensures gives { GivesText self.old
            (S.given out.old) (S.given out.new) (S.faults out.old) (S.faults out.new) result }
        ensures empty { self.new ≡ [] }
    {
        if self.bytes.is_empty() {
            return Ok(());
        }
        let given = out.give(self.bytes.as_slice());
        self.bytes.clear();
        given
    }

    /// Takes bytes after those that are held: where there is room they are held too, else what is
    /// held goes to the sink first. Where it fails the sink got a prefix of what was held and the
    /// bytes, the rest is lost, and nothing is held.
    pub fn give<S: Sink>(&mut self, out: &mut S, bytes: &[u8]) -> Result<(), Failed>
        ensures ok { OnOk result
            (Buffers self.old bytes.now self.new (S.given out.old) (S.given out.new)) }
        ensures err { OnErr result
            (GivesSome (S.given out.old) (S.given out.new) (self.old ++ bytes.now)) }
        ensures empty { OnErr result (self.new ≡ []) }
        ensures later { S.faults out.old ≤ S.faults out.new }
        ensures cause { OnErr result (Rose (S.faults out.old) (S.faults out.new)) }
    {
        if self.hold(bytes) {
            return Ok(());
        }
        self.flush(out)?;
        if self.hold(bytes) {
            return Ok(());
        }
        out.give(bytes)
    }

    /// Takes the parts in their order, as one text, as `give` does.
    pub fn give_parts<S: Sink>(&mut self, out: &mut S, parts: &[&[u8]]) -> Result<(), Failed>
        ensures ok { OnOk result (Buffers self.old (flat_map (λ p. p.now) parts.now) self.new
            (S.given out.old) (S.given out.new)) }
        ensures err { OnErr result (GivesSome (S.given out.old) (S.given out.new)
            (self.old ++ flat_map (λ p. p.now) parts.now)) }
        ensures empty { OnErr result (self.new ≡ []) }
        ensures later { S.faults out.old ≤ S.faults out.new }
        ensures cause { OnErr result (Rose (S.faults out.old) (S.faults out.new)) }
    {
        for part in parts {
            let Ok(()) = self.give(out, part) else {
                return Err(Failed);
            };
        }
        Ok(())
    }
}
