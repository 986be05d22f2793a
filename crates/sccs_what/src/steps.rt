ghost use Rattle.std.specs.Prelude.{◌≡◌};
ghost use Rattle.sccs_disk.specs.Told.{seen};
ghost use Rattle.sccs_steps.specs.Actions.{RefusesWithin};
ghost use Rattle.sccs_steps.specs.Causes.{PrintCauses};
ghost use Rattle.sccs_what.specs.WhatStep.{MeetsWhat, what_checks};

use crate::files::print_texts;
use sccs_base::{FILE_LIMIT, Name, Sink};
use sccs_disk::Disk;
use sccs_sid::{Refusal, StepFault};
use std::alloc::Global;

/// what on a file: its name and a colon, and a line for the text behind each mark `@(#)`; with `first` for the first
/// one alone. Answers whether there is one. POSIX, Shell and Utilities, what.
pub fn what<O: Sink, D: Disk>(
    alloc: Global,
    first: bool,
    name: &Name,
    out: &mut O,
    disk: &mut D,
) -> Result<bool, StepFault>
    ensures meets { MeetsWhat first name.now result (seen (D.told disk.old)) (seen (D.told disk.new)) (O.given out.old)
        (O.given out.new) }
    ensures same { D.told disk.new ≡ D.told disk.old }
    ensures checks { RefusesWithin what_checks result }
    ensures causes { PrintCauses result (O.faults out.old) (O.faults out.new) (D.faults disk.old) (D.faults disk.new) }
{
    match disk.size(name) {
        Ok(Some(size)) => {
            if size > FILE_LIMIT {
                return Err(StepFault::Refused(Refusal::TooLong));
            }
            print_texts(alloc, first, name, size, out, disk)
        }
        Ok(None) => Err(StepFault::Refused(Refusal::Missing)),
        Err(_) => Err(StepFault::DiskFault),
    }
}
