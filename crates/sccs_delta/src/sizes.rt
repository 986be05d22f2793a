ghost use Rattle.std.specs.Prelude.{◌≢◌, Err, IfSome};
ghost use Rattle.sccs_base.specs.Name.{IsSFileName};
ghost use Rattle.sccs_disk.specs.Files.{View};
ghost use Rattle.sccs_disk.specs.Told.{seen};
ghost use Rattle.sccs_name_files.specs.StepFiles.{look};
ghost use Rattle.sccs_changes.specs.PFiles.{OnlyReads, PassesCheck};
ghost use Rattle.sccs_sid.specs.declared.refusals.StepFault.TheVariants as faults;
ghost use Rattle.sccs_steps.specs.Actions.{RefusesWithin};
ghost use Rattle.sccs_delta.specs.DeltaStep.{delta_checks, sizes_checked};
ghost use Rattle.sccs_delta.specs.Sizes.{is_short_enough, s_is_there, script_is_short};

use sccs_base::{FILE_LIMIT, Name};
use sccs_disk::Disk;
use sccs_sid::{Refusal, StepFault};

/// Whether an s-file is there: Missing comes exactly where it isn't.
pub fn check_there<D: Disk>(disk: &mut D, name: &Name) -> Result<(), StepFault>
    ensures told { IfSome (seen (D.told disk.old)) (λ (v : View). PassesCheck (s_is_there (v name.now)) result) }
    ensures checks { RefusesWithin delta_checks result }
    ensures frame { OnlyReads D.told D.faults disk.old disk.new result }
{
    match disk.size(name) {
        Ok(Some(_)) => Ok(()),
        Ok(None) => Err(StepFault::Refused(Refusal::Missing)),
        Err(_) => Err(StepFault::DiskFault),
    }
}

// whether a file isn't longer than it may be
fn check_short<D: Disk>(disk: &mut D, file: &Name) -> Result<(), StepFault>
    ensures told { IfSome (seen (D.told disk.old)) (λ (v : View). PassesCheck (is_short_enough (v file.now)) result) }
    ensures checks { RefusesWithin delta_checks result }
    ensures frame { OnlyReads D.told D.faults disk.old disk.new result }
{
    match disk.size(file) {
        Ok(Some(size)) => {
            if size > FILE_LIMIT {
                Err(StepFault::Refused(Refusal::TooLong))
            } else {
                Ok(())
            }
        }
        Ok(None) => Ok(()),
        Err(_) => Err(StepFault::DiskFault),
    }
}

// whether a script isn't longer than a file may be
fn check_script(script: &[u8]) -> Result<(), StepFault>
    ensures told { PassesCheck (script_is_short script.now) result }
    ensures checks { RefusesWithin delta_checks result }
    ensures broke { result ≢ Err faults.DiskFault }
    ensures read { result ≢ Err faults.ReadFault }
    ensures write { result ≢ Err faults.WriteFault }
{
    if script.len() as u64 > FILE_LIMIT {
        Err(StepFault::Refused(Refusal::TooLong))
    } else {
        Ok(())
    }
}

/// Whether the s-file is there, and it, the p-file, the g-file and the script aren't longer than files may be.
pub fn check_sizes<D: Disk>(disk: &mut D, name: &Name, script: &[u8]) -> Result<(), StepFault>
    requires sfile { IsSFileName name.now }
    ensures told { IfSome (seen (D.told disk.old)) (λ (v : View). PassesCheck (sizes_checked script.now
        (look v name.now)) result) }
    ensures checks { RefusesWithin delta_checks result }
    ensures frame { OnlyReads D.told D.faults disk.old disk.new result }
{
    check_there(disk, name)?;
    check_script(script)?;
    check_short(disk, name)?;
    check_short(disk, &name.sibling(b'p'))?;
    check_short(disk, &name.module())
}
