ghost use Rattle.std.specs.Prelude.{ℕ, All, IfOk, IfSome};
ghost use Rattle.sccs_base.specs.Name.{IsSFileName};
ghost use Rattle.sccs_disk.specs.Files.{View};
ghost use Rattle.sccs_disk.specs.Told.{seen};
ghost use Rattle.sccs_pfile.specs.Entries.{IsEdit};
ghost use Rattle.sccs_name_files.specs.StepFiles.{look};
ghost use Rattle.sccs_steps.specs.Actions.{RefusesWithin};
ghost use Rattle.sccs_steps.specs.Causes.{StepCauses, counts};
ghost use Rattle.sccs_changes.specs.PFiles.{Answers, OnlyReads};
ghost use Rattle.sccs_edit.specs.Checks.{sact_keeps};
ghost use Rattle.sccs_edit.specs.SactStep.{ShowsEdits, found_edits, sact_action, sact_checks, shows_entries};

use crate::sact_reports::{message_of, report_of};
use sccs_base::{Name, Sink, Source};
use sccs_changes::{Prepared, read_pfile, report};
use sccs_disk::Disk;
use sccs_pfile::Edits;
use sccs_sid::{Refusal, StepFault};
use sccs_steps::Utility;
use sccs_store::{NewG, NewP};
use std::alloc::Global;

/// sact on a name: the pending edits of its p-file, a line for each: the SIDs that were got and are to be made,
/// login, date and time. POSIX, Shell and Utilities, sact.
#[derive(Clone, Copy)]
pub struct Sact {
    /// Whether a heading stands before the lines.
    pub heading: bool,
}

/// The entries of a name's p-file, where its s-file is there.
pub fn find_edits<D: Disk>(alloc: Global, disk: &mut D, name: &Name) -> Result<Edits, StepFault>
    requires { IsSFileName name.now }
    ensures told { IfSome (seen (D.told disk.old)) (λ (v : View). Answers (found_edits (look v name.now)) result) }
    ensures valid { IfOk result (All IsEdit) }
    ensures checks { RefusesWithin sact_checks result }
    ensures frame { OnlyReads D.told D.faults disk.old disk.new result }
{
    match disk.size(name) {
        Ok(Some(_)) => read_pfile(alloc, disk, name),
        Ok(None) => Err(StepFault::Refused(Refusal::Missing)),
        Err(_) => Err(StepFault::DiskFault),
    }
}

// gives the lines of entries, or says that there are none
fn show<O: Sink, E: Sink>(
    alloc: Global,
    heading: bool,
    name: &Name,
    edits: &Edits,
    out: &mut O,
    err: &mut E,
) -> Result<(), StepFault>
    requires { All IsEdit edits.now }
    ensures shows { ShowsEdits result (shows_entries heading name.now edits.now) (O.given out.old) (O.given out.new)
        (E.given err.old) (E.given err.new) }
    ensures causes { (input disk : ℕ) → StepCauses result
        (counts input (O.faults out.old) (E.faults err.old) disk) (counts input (O.faults out.new)
        (E.faults err.new) disk) }
{
    let Ok(text) = report_of(alloc, heading, name, edits) else {
        return Err(StepFault::Memory);
    };
    let Ok(message) = message_of(alloc, name, edits) else {
        return Err(StepFault::Memory);
    };
    let shown = Prepared {
        new_s: false,
        new_p: NewP::Keep,
        new_g: NewG::Keep,
        report: text,
        message,
    };
    report(&shown, out, err)
}

impl Utility for Sact {
    ghost action = { λ s. sact_action s.heading };

    ghost keeps = { λ s. sact_keeps s.heading };

    fn step<I: Source, O: Sink, E: Sink, D: Disk>(
        &self,
        alloc: Global,
        name: &Name,
        _input: &mut I,
        out: &mut O,
        err: &mut E,
        disk: &mut D,
    ) -> Result<(), StepFault> {
        let edits = find_edits(alloc, disk, name)?;
        show(alloc, self.heading, name, &edits, out, err)
    }

    fn name(&self, operand: &[u8]) -> Option<Name> {
        Name::read_sfile(operand)
    }

    fn takes_input(&self) -> bool {
        false
    }
}
