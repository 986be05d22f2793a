use crate::checks::removable;
use crate::writing::write_without;
use sccs_base::{Name, Sink, Source};
use sccs_changes::{Change, Prepared, read_pending};
use sccs_disk::Disk;
use sccs_sid::{Sid, Stamp, StepFault};
use std::alloc::Global;

/// rmdel on a name: the delta of a SID is taken out of the s-file, where it is the newest of its branch and no
/// other rests on it. It refuses a name that is locked, files that can't be read or don't agree, a login that may
/// not make deltas, a SID that no live delta has, one that is being edited, a delta that others rest on or that
/// is the first of the file, and a login that made neither it nor the first one, in this order. POSIX, Shell and
/// Utilities, rmdel.
#[derive(Clone, Copy)]
pub struct Rmdel<'a> {
    pub sid: &'a Sid,
    pub stamp: &'a Stamp,
}

impl Change for Rmdel<'_> {
    ghost use Rattle.sccs_rmdel.specs.Locks.{rmdel_locked};
    ghost use Rattle.sccs_rmdel.specs.RmdelStep.{rmdel_change};

    ghost change = { λ r. rmdel_change r.sid.now r.stamp.now };

    ghost locked = { λ r. rmdel_locked r.sid.now r.stamp.now };

    fn takes_input(&self) -> bool {
        false
    }

    fn prepare<I: Source, O: Sink, D: Disk>(
        &self,
        alloc: Global,
        name: &Name,
        _input: &mut I,
        _out: &mut O,
        disk: &mut D,
    ) -> Result<Prepared, StepFault> {
        let found = read_pending(alloc, disk, name)?;
        let serial = removable(&found.front.header, &found.edits, *self.sid, self.stamp)?;
        write_without(alloc, name, found.front, serial, disk)
    }
}
