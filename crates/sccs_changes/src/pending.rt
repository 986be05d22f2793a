ghost use Rattle.std.specs.Prelude.{◌≢◌, All, Err, IfOk, IfSome};
ghost use Rattle.sccs_base.specs.Name.{IsSFileName, p_file};
ghost use Rattle.sccs_disk.specs.Files.{View};
ghost use Rattle.sccs_disk.specs.Told.{seen};
ghost use Rattle.sccs_history.specs.History.{IsHeader, IsSpelled};
ghost use Rattle.sccs_pfile.specs.Agreement.{Agrees, first_disagreeing};
ghost use Rattle.sccs_pfile.specs.Entries.{IsEdit};
ghost use Rattle.sccs_sid.specs.declared.refusals.StepFault.TheVariants as faults;
ghost use Rattle.sccs_steps.specs.Actions.{RefusesWithin};
ghost use Rattle.sccs_table.specs.FrontFile.{IsPlaced};
ghost use Rattle.sccs_changes.specs.PFiles.{OnlyReads, PassesCheck};
ghost use Rattle.sccs_changes.specs.Pending.{AnswersPending, agreeing, agreement_checks, pending_checks};
ghost use Rattle.sccs_changes.specs.Pending.{sfile_size_checks, sized};

use crate::pfiles::{entries, read_p};
use sccs_base::{FILE_LIMIT, Name};
use sccs_body::inspect;
use sccs_disk::Disk;
use sccs_history::Header;
use sccs_pfile::{Edits, agree};
use sccs_sid::{Refusal, StepFault};
use sccs_table::Front;
use std::alloc::Global;

/// An s-file that was read to its end, and the entries of its p-file.
#[derive(Drop)]
pub struct Pending {
    pub front: Front,
    pub edits: Edits,
}

// whether the s-file is there, and not too long
fn check_size<D: Disk>(disk: &mut D, name: &Name) -> Result<(), StepFault>
    ensures told { IfSome (seen (D.told disk.old)) (λ (v : View). PassesCheck (sized (v name.now)) result) }
    ensures checks { RefusesWithin sfile_size_checks result }
    ensures frame { OnlyReads D.told D.faults disk.old disk.new result }
{
    match disk.size(name) {
        Ok(Some(size)) => {
            if size > FILE_LIMIT {
                Err(StepFault::Refused(Refusal::TooLong))
            } else {
                Ok(())
            }
        }
        Ok(None) => Err(StepFault::Refused(Refusal::Missing)),
        Err(_) => Err(StepFault::DiskFault),
    }
}

// whether the entries agree with the table
fn check_agreement(alloc: Global, header: &Header, edits: &Edits) -> Result<(), StepFault>
    ensures value { PassesCheck (agreeing (first_disagreeing header.now.records edits.now)) result }
    ensures agrees { IfOk result (λ _. Agrees header.now.records edits.now) }
    ensures checks { RefusesWithin agreement_checks result }
    ensures fault { result ≢ Err faults.Memory }
    ensures broke { result ≢ Err faults.DiskFault }
{
    match agree(alloc, header, edits) {
        Ok(()) => Ok(()),
        Err(fault) => Err(StepFault::Refused(Refusal::Disagree(fault.entry))),
    }
}

/// Reads an s-file to its end and the entries of its p-file, and makes these checks in their order: it is there,
/// and neither file is longer than 1,073,741,824 bytes; it is an s-file, with its sum; each line of the p-file
/// is an entry, and the entries agree with the delta table. sccsfile(4); System V, p-file.
pub fn read_pending<D: Disk>(alloc: Global, disk: &mut D, name: &Name) -> Result<Pending, StepFault>
    requires { IsSFileName name.now }
    ensures told { IfSome (seen (D.told disk.old)) (λ (v : View). AnswersPending (v name.now) (v (p_file name.now))
        result) }
    ensures placed { IfOk result (λ p. IsPlaced p.front) }
    ensures rules { IfOk result (λ p. IsHeader p.front.header) }
    ensures spelled { IfOk result (λ p. IsSpelled p.front.header) }
    ensures edits { IfOk result (λ p. All IsEdit p.edits) }
    ensures agrees { IfOk result (λ p. Agrees p.front.header.records p.edits) }
    ensures checks { RefusesWithin pending_checks result }
    ensures frame { OnlyReads D.told D.faults disk.old disk.new result }
{
    check_size(disk, name)?;
    let bytes = read_p(alloc, disk, name)?;
    let front = inspect(alloc, disk, name)?;
    let edits = entries(alloc, bytes.bytes())?;
    check_agreement(alloc, &front.header, &edits)?;
    Ok(Pending { front, edits })
}
