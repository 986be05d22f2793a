ghost use Rattle.std.specs.Prelude.{◌≡◌};
ghost use Rattle.sccs_edit.specs.Keeps.{pending_keeps};
ghost use Rattle.sccs_edit.specs.PendingStep.{pending_action, pending_status};

use crate::steps::pending;
use sccs_base::{Name, Sink, Source};
use sccs_disk::Disk;
use sccs_sid::StepFault;
use sccs_steps::{StatusRule, UtilityWithStatus};
use std::alloc::Global;

/// tell and check as utilities: their operands are names of s-files.
#[derive(Drop)]
pub struct Entries {
    /// Whether each entry is printed, and its being there is the status 1, as check does.
    pub whole: bool,
}

// the status of a name with an entry, or with none
fn pending_status(whole: bool, found: bool) -> u8
    ensures { result ≡ pending_status whole found }
{
    if whole && found { 1 } else { 0 }
}

impl UtilityWithStatus for Entries {
    ghost action = { λ e. pending_action e.whole };

    ghost keeps = { λ e. pending_keeps e.whole };

    fn name(&self, operand: &[u8]) -> Option<Name> {
        Name::read_sfile(operand)
    }

    fn takes_input(&self) -> bool {
        false
    }

    fn rule(&self) -> StatusRule {
        StatusRule::Greatest
    }

    fn step<I: Source, O: Sink, E: Sink, D: Disk>(
        &self,
        alloc: Global,
        name: &Name,
        _input: &mut I,
        out: &mut O,
        _err: &mut E,
        disk: &mut D,
    ) -> Result<u8, StepFault> {
        let found = pending(alloc, self.whole, name, out, disk)?;
        Ok(pending_status(self.whole, found))
    }
}
