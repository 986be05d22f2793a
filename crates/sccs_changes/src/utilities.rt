ghost use Rattle.sccs_changes.specs.Changes.{locking};
ghost use Rattle.sccs_changes.specs.Utilities.{locking_keeps};

use crate::changes::Change;
use crate::transactions::change_file;
use sccs_base::{Name, Sink, Source};
use sccs_disk::Disk;
use sccs_sid::StepFault;
use sccs_steps::Utility;
use std::alloc::Global;

/// A change of files, made under the lock of their name.
#[derive(Drop)]
pub struct Locking<C> {
    pub change: C,
}

impl<C: Change> Utility for Locking<C> {
    ghost action = { λ l. locking (C.change l.change) };

    ghost keeps = { λ l. locking_keeps (C.change l.change) };

    fn name(&self, operand: &[u8]) -> Option<Name> {
        Name::read_sfile(operand)
    }

    fn takes_input(&self) -> bool {
        self.change.takes_input()
    }

    fn step<I: Source, O: Sink, E: Sink, D: Disk>(
        &self,
        alloc: Global,
        name: &Name,
        input: &mut I,
        out: &mut O,
        err: &mut E,
        disk: &mut D,
    ) -> Result<(), StepFault> {
        change_file(alloc, &self.change, name, input, out, err, disk)
    }
}
