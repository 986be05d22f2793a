ghost use Rattle.sccs_steps.specs.Ordinaries.{ordinary, ordinary_keeps};

use crate::statuses::{StatusRule, with_status};
use crate::utilities::{Utility, UtilityWithStatus};
use sccs_base::{Name, Sink, Source};
use sccs_disk::Disk;
use sccs_sid::StepFault;
use std::alloc::Global;

/// An ordinary utility: the status of a step that is made is 0, and of several statuses the greatest counts.
#[derive(Drop)]
pub struct Ordinary<U> {
    pub utility: U,
}

impl<U: Utility> UtilityWithStatus for Ordinary<U> {
    ghost action = { λ o. ordinary (U.action o.utility) };

    ghost keeps = { λ o. ordinary_keeps (U.action o.utility) (U.keeps o.utility) };

    fn name(&self, operand: &[u8]) -> Option<Name> {
        self.utility.name(operand)
    }

    fn takes_input(&self) -> bool {
        self.utility.takes_input()
    }

    fn rule(&self) -> StatusRule {
        StatusRule::Greatest
    }

    fn step<I: Source, O: Sink, E: Sink, D: Disk>(
        &self,
        alloc: Global,
        name: &Name,
        input: &mut I,
        out: &mut O,
        err: &mut E,
        disk: &mut D,
    ) -> Result<u8, StepFault> {
        let made = self.utility.step(alloc, name, input, out, err, disk);
        with_status(made)
    }
}
