ghost use Rattle.std.specs.Prelude.{◌≡◌};
ghost use Rattle.sccs_what.specs.Checks.{what_keeps};
ghost use Rattle.sccs_what.specs.WhatStep.{found_status, what_action};

use crate::steps::what;
use sccs_base::{Name, Sink, Source};
use sccs_disk::Disk;
use sccs_sid::StepFault;
use sccs_steps::{StatusRule, UtilityWithStatus};
use std::alloc::Global;

/// what as a utility: its operands are names of files of any kind, and its status is 0 where something was found in one
/// of them. With `first` each file is left behind the first text. POSIX, Shell and Utilities, what.
#[derive(Drop)]
pub struct What {
    pub first: bool,
}

// the status of a file in which something was found, or nothing
fn found_status(found: bool) -> u8
    ensures { result ≡ found_status found }
{
    if found { 0 } else { 1 }
}

impl UtilityWithStatus for What {
    ghost action = { λ w. what_action w.first };

    ghost keeps = { λ w. what_keeps w.first };

    fn name(&self, operand: &[u8]) -> Option<Name> {
        Name::read(operand)
    }

    fn takes_input(&self) -> bool {
        false
    }

    fn rule(&self) -> StatusRule {
        StatusRule::AnyZero
    }

    fn step<I: Source, O: Sink, E: Sink, D: Disk>(
        &self,
        alloc: Global,
        name: &Name,
        _input: &mut I,
        out: &mut O,
        _err: &mut E,
        disk: &mut D,
    ) -> Result<u8, StepFault> {
        let found = what(alloc, self.first, name, out, disk)?;
        Ok(found_status(found))
    }
}
