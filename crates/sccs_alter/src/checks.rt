ghost use Rattle.std.specs.Prelude.{IfSome};
ghost use Rattle.sccs_disk.specs.Files.{View};
ghost use Rattle.sccs_disk.specs.Told.{seen};
ghost use Rattle.sccs_steps.specs.Actions.{RefusesWithin};
ghost use Rattle.sccs_changes.specs.PFiles.{OnlyReads};
ghost use Rattle.sccs_alter.specs.CheckStep.{Checks, check_action, check_checks, check_keeps, checked_file};

use sccs_base::{Name, Sink, Source};
use sccs_body::inspect;
use sccs_disk::Disk;
use sccs_sid::StepFault;
use sccs_steps::Utility;
use std::alloc::Global;

/// admin -h on an s-file: it is read to its end, and refused where it isn't there, is too long, or isn't one with its
/// sum.
/// Nothing is locked, changed or said. POSIX, Shell and Utilities, admin, -h.
#[derive(Clone, Copy)]
pub struct Check;

// makes the checks on an s-file
fn check_file<D: Disk>(alloc: Global, disk: &mut D, name: &Name) -> Result<(), StepFault>
    ensures told { IfSome (seen (D.told disk.old)) (λ (v : View). Checks (checked_file (v name.now)) result) }
    ensures checks { RefusesWithin check_checks result }
    ensures frame { OnlyReads D.told D.faults disk.old disk.new result }
{
    inspect(alloc, disk, name)?;
    Ok(())
}

impl Utility for Check {
    ghost action = { λ s. check_action };

    ghost keeps = { λ s. check_keeps };

    fn name(&self, operand: &[u8]) -> Option<Name> {
        Name::read_sfile(operand)
    }

    fn takes_input(&self) -> bool {
        false
    }

    fn step<I: Source, O: Sink, E: Sink, D: Disk>(
        &self,
        alloc: Global,
        name: &Name,
        _input: &mut I,
        _out: &mut O,
        _err: &mut E,
        disk: &mut D,
    ) -> Result<(), StepFault> {
        check_file(alloc, disk, name)
    }
}
