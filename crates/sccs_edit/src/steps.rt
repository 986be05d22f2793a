ghost use Rattle.std.specs.Prelude.{◌≡◌, ℕ, true, drop, All, IfOk};
ghost use Rattle.sccs_base.specs.Name.{IsSFileName};
ghost use Rattle.sccs_disk.specs.Told.{seen};
ghost use Rattle.sccs_tokens.specs.Written.{ended};
ghost use Rattle.sccs_pfile.specs.Entries.{IsEdit};
ghost use Rattle.sccs_steps.specs.Actions.{RefusesWithin};
ghost use Rattle.sccs_steps.specs.Causes.{PrintCauses};
ghost use Rattle.sccs_edit.specs.SactStep.{sact_checks};
ghost use Rattle.sccs_edit.specs.PendingStep.{MeetsPending, PrintsPending, has_entry, pending_text};

use crate::sact::find_edits;
use crate::sact_reports::report_of;
use sccs_base::{Bytes, Memory, Name, Sink};
use sccs_disk::Disk;
use sccs_pfile::Edits;
use sccs_sid::StepFault;
use std::alloc::Global;

// the module name and LF
fn module_line(alloc: Global, name: &Name) -> Result<Bytes, Memory>
    requires { IsSFileName name.now }
    ensures { IfOk result (λ line. line ≡ ended (drop 2 name.now)) }
{
    let mut line = Vec::new(alloc);
    line.extend_from_slice(name.module().bytes())?;
    line.push(b'\n')?;
    Ok(Bytes::from_vec(line))
}

// what is printed of a name with entries
fn pending_text(alloc: Global, whole: bool, name: &Name, edits: &Edits) -> Result<Bytes, Memory>
    requires sfile { IsSFileName name.now }
    requires valid { All IsEdit edits.now }
    requires some { has_entry edits.now ≡ true }
    ensures { IfOk result (λ text. text ≡ pending_text whole name.now edits.now) }
{
    if whole {
        report_of(alloc, false, name, edits)
    } else {
        module_line(alloc, name)
    }
}

// prints entries, and answers whether there are some
fn print_pending<O: Sink>(
    alloc: Global,
    whole: bool,
    name: &Name,
    edits: &Edits,
    out: &mut O,
) -> Result<bool, StepFault>
    requires sfile { IsSFileName name.now }
    requires valid { All IsEdit edits.now }
    ensures prints { PrintsPending whole name.now edits.now (O.given out.old) (O.given out.new) result }
    ensures causes { (disk : ℕ) → PrintCauses result (O.faults out.old) (O.faults out.new) disk disk }
{
    if edits.len() == 0 {
        return Ok(false);
    }
    let Ok(text) = pending_text(alloc, whole, name, edits) else {
        return Err(StepFault::Memory);
    };
    match out.give(text.bytes()) {
        Ok(()) => Ok(true),
        Err(_) => Err(StepFault::WriteFault),
    }
}

/// tell or check on a name: where its p-file has an entry tell prints the module name, and check, which is `whole`,
/// a line for each entry, as sact does. Answers whether there is an entry. Refusals: Missing, TooLong and BadPfile,
/// as sact's. System V, p-file.
pub fn pending<D: Disk, O: Sink>(
    alloc: Global,
    whole: bool,
    name: &Name,
    out: &mut O,
    disk: &mut D,
) -> Result<bool, StepFault>
    requires { IsSFileName name.now }
    ensures meets { MeetsPending whole name.now result (seen (D.told disk.old)) (seen (D.told disk.new))
        (O.given out.old) (O.given out.new) }
    ensures same { D.told disk.new ≡ D.told disk.old }
    ensures checks { RefusesWithin sact_checks result }
    ensures causes { PrintCauses result (O.faults out.old) (O.faults out.new) (D.faults disk.old) (D.faults disk.new) }
{
    let edits = find_edits(alloc, disk, name)?;
    print_pending(alloc, whole, name, &edits, out)
}
