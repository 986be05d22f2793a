ghost use Rattle.std.specs.Prelude.{◌≢◌, All, Err, IfOk, IfSome};
ghost use Rattle.sccs_base.specs.Name.{IsSFileName, p_file};
ghost use Rattle.sccs_disk.specs.Files.{View};
ghost use Rattle.sccs_disk.specs.Told.{seen};
ghost use Rattle.sccs_pfile.specs.Entries.{IsEdit};
ghost use Rattle.sccs_pfile.specs.Reading.{edits_of};
ghost use Rattle.sccs_sid.specs.declared.refusals.StepFault.TheVariants as fault;
ghost use Rattle.sccs_steps.specs.Actions.{RefusesWithin};
ghost use Rattle.sccs_changes.specs.PFiles.{Answers, OnlyReads, entries_of, entry_checks, or_bad_pfile, pfile_checks};
ghost use Rattle.sccs_changes.specs.PFiles.{short_bytes, size_checks};

use sccs_base::{Bytes, Name};
use sccs_disk::Disk;
use sccs_name_files::{WholeFault, read_whole};
use sccs_pfile::{Edits, PfileFault, read_edits};
use sccs_sid::{Refusal, StepFault};
use std::alloc::Global;

// the bytes of a file; none where it isn't there
fn read_bytes<D: Disk>(alloc: Global, disk: &mut D, file: &Name) -> Result<Bytes, StepFault>
    ensures told { IfSome (seen (D.told disk.old)) (λ (v : View). Answers (short_bytes (v file.now)) result) }
    ensures checks { RefusesWithin size_checks result }
    ensures frame { OnlyReads D.told D.faults disk.old disk.new result }
{
    match read_whole(alloc, disk, file) {
        Ok(bytes) => Ok(bytes),
        Err(WholeFault::Missing) => Ok(Bytes::empty(alloc)),
        Err(WholeFault::TooLong) => Err(StepFault::Refused(Refusal::TooLong)),
        Err(WholeFault::Failed) => Err(StepFault::DiskFault),
        Err(WholeFault::Memory) => Err(StepFault::Memory),
    }
}

/// The bytes of the p-file of an s-file's name; none where it isn't there. TooLong comes exactly where it is
/// longer than 1,073,741,824 bytes.
pub fn read_p<D: Disk>(alloc: Global, disk: &mut D, name: &Name) -> Result<Bytes, StepFault>
    requires { IsSFileName name.now }
    ensures told { IfSome (seen (D.told disk.old)) (λ (v : View). Answers (short_bytes (v (p_file name.now))) result) }
    ensures checks { RefusesWithin size_checks result }
    ensures frame { OnlyReads D.told D.faults disk.old disk.new result }
{
    read_bytes(alloc, disk, &name.sibling(b'p'))
}

/// The entries of a p-file's bytes. BadPfile names the first line, from 1, that is none.
pub fn entries(alloc: Global, bytes: &[u8]) -> Result<Edits, StepFault>
    ensures value { Answers (or_bad_pfile (edits_of bytes.now)) result }
    ensures valid { IfOk result (All IsEdit) }
    ensures checks { RefusesWithin entry_checks result }
    ensures broke { result ≢ Err fault.DiskFault }
    ensures read { result ≢ Err fault.ReadFault }
    ensures write { result ≢ Err fault.WriteFault }
{
    match read_edits(alloc, bytes) {
        Ok(edits) => Ok(edits),
        Err(PfileFault::BadPfile(line)) => Err(StepFault::Refused(Refusal::BadPfile(line))),
        Err(PfileFault::Memory) => Err(StepFault::Memory),
    }
}

/// The entries of the p-file of an s-file's name, which has none where it isn't there. TooLong comes exactly
/// where it is longer than 1,073,741,824 bytes, BadPfile with the first line, from 1, that is no entry. System
/// V, p-file.
pub fn read_pfile<D: Disk>(alloc: Global, disk: &mut D, name: &Name) -> Result<Edits, StepFault>
    requires { IsSFileName name.now }
    ensures told { IfSome (seen (D.told disk.old)) (λ (v : View). Answers (entries_of (v (p_file name.now))) result) }
    ensures valid { IfOk result (All IsEdit) }
    ensures checks { RefusesWithin pfile_checks result }
    ensures frame { OnlyReads D.told D.faults disk.old disk.new result }
{
    let bytes = read_p(alloc, disk, name)?;
    entries(alloc, bytes.bytes())
}
