ghost use Rattle.sccs_soak.specs.Dropping.{dropping, dropping_keeps};

use sccs_base::{Name, NullSink, Sink, Source};
use sccs_disk::Disk;
use sccs_sid::StepFault;
use sccs_steps::{StatusRule, UtilityWithStatus};
use std::alloc::Global;

/// A utility whose output is dropped: only its refusals are said.
#[derive(Drop)]
pub struct Dropping<'a, U> {
    pub utility: &'a U,
}

impl<'a, U: UtilityWithStatus> UtilityWithStatus for Dropping<'a, U> {
    ghost action = { λ d. dropping (U.action d.utility.now) };

    ghost keeps = { λ d. dropping_keeps (U.action d.utility.now) (U.keeps d.utility.now) };

    fn name(&self, operand: &[u8]) -> Option<Name> {
        self.utility.name(operand)
    }

    fn takes_input(&self) -> bool {
        self.utility.takes_input()
    }

    fn rule(&self) -> StatusRule {
        self.utility.rule()
    }

    fn step<I: Source, O: Sink, E: Sink, D: Disk>(
        &self,
        alloc: Global,
        name: &Name,
        input: &mut I,
        _out: &mut O,
        _err: &mut E,
        disk: &mut D,
    ) -> Result<u8, StepFault> {
        self.utility
            .step(alloc, name, input, &mut NullSink, &mut NullSink, disk)
    }
}
