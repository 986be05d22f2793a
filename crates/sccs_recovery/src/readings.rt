ghost use Rattle.std.specs.Prelude.{◌≡◌, ◌≢◌, All, Some, Ok, Err, IfOk, IfSome, IsErrOf, Option, IsSome};
ghost use Rattle.sccs_base.specs.Name.{IsSFileName, p_file};
ghost use Rattle.sccs_disk.specs.Files.{Content, View};
ghost use Rattle.sccs_disk.specs.Told.{seen};
ghost use Rattle.sccs_pfile.specs.Entries.{IsEdit};
ghost use Rattle.sccs_pfile.specs.Reading.{edits_of};
ghost use Rattle.sccs_recovery.specs.Checks.{IsWithin, ReadsOrRefuses, ReadsTable, bytes_read, table_in, table_read};
ghost use Rattle.sccs_recovery.specs.Entries.{Finds, HasEntries, Recovers};
ghost use Rattle.sccs_disk.specs.Causes.{DiskCauses};

use crate::entries_left::{PfileLeft, entries_left};
use sccs_base::{Bytes, Name};
use sccs_body::inspect;
use sccs_disk::Disk;
use sccs_name_files::{WholeFault, read_whole};
use sccs_pfile::{Edits, PfileFault, read_edits};
use sccs_sid::{Refusal, StepFault};
use sccs_table::Front;
use std::alloc::Global;

// the bytes of a file, where it is there
fn read_bytes<D: Disk>(alloc: Global, disk: &mut D, name: &Name) -> Result<Option<Bytes>, StepFault>
    ensures told { IfSome (seen (D.told disk.old)) (λ (v : View). ReadsOrRefuses (bytes_read (v name.now)) result) }
    ensures same { D.told disk.new ≡ D.told disk.old }
    ensures causes { DiskCauses (IsErrOf result StepFault.DiskFault) (D.faults disk.old) (D.faults disk.new) }
    ensures within { IsWithin result }
{
    match read_whole(alloc, disk, name) {
        Ok(bytes) => Ok(Some(bytes)),
        Err(WholeFault::Missing) => Ok(None),
        Err(WholeFault::TooLong) => Err(StepFault::Refused(Refusal::TooLong)),
        Err(WholeFault::Failed) => Err(StepFault::DiskFault),
        Err(WholeFault::Memory) => Err(StepFault::Memory),
    }
}

// the bytes of a p-file, where it is there
fn read_p<D: Disk>(alloc: Global, disk: &mut D, name: &Name) -> Result<Option<Bytes>, StepFault>
    requires { IsSFileName name.now }
    ensures told { IfSome (seen (D.told disk.old)) (λ (v : View). ReadsOrRefuses (bytes_read (v (p_file name.now)))
        result) }
    ensures same { D.told disk.new ≡ D.told disk.old }
    ensures causes { DiskCauses (IsErrOf result StepFault.DiskFault) (D.faults disk.old) (D.faults disk.new) }
    ensures within { IsWithin result }
{
    read_bytes(alloc, disk, &name.sibling(b'p'))
}

// the front of an s-file that is there
fn read_there<D: Disk>(alloc: Global, disk: &mut D, name: &Name) -> Result<Option<Front>, StepFault>
    ensures told { IfSome (seen (D.told disk.old)) (λ (v : View). IsSome (v name.now)
        → ReadsTable (table_read (v name.now)) result) }
    ensures same { D.told disk.new ≡ D.told disk.old }
    ensures causes { DiskCauses (IsErrOf result StepFault.DiskFault) (D.faults disk.old) (D.faults disk.new) }
    ensures within { IsWithin result }
{
    Ok(Some(inspect(alloc, disk, name)?))
}

// the front of an s-file, where it is there
fn read_s<D: Disk>(alloc: Global, disk: &mut D, name: &Name) -> Result<Option<Front>, StepFault>
    ensures told { IfSome (seen (D.told disk.old)) (λ (v : View). ReadsTable (table_read (v name.now)) result) }
    ensures same { D.told disk.new ≡ D.told disk.old }
    ensures causes { DiskCauses (IsErrOf result StepFault.DiskFault) (D.faults disk.old) (D.faults disk.new) }
    ensures within { IsWithin result }
{
    match disk.size(name) {
        Ok(Some(_)) => read_there(alloc, disk, name),
        Ok(None) => Ok(None),
        Err(_) => Err(StepFault::DiskFault),
    }
}

// what is left of entries; all of them where there is no s-file
fn left_of(alloc: Global, front: Option<Front>, edits: Edits) -> PfileLeft
    requires { All IsEdit edits }
    ensures left { (s : Option Content) (c : Content) → table_read s ≡ Ok (table_in front) → edits_of c.bytes ≡ Ok edits
        → Recovers s (Some c) result }
    ensures entries { HasEntries result }
{
    match front {
        Some(front) => entries_left(alloc, front.header.records.items(), edits),
        None => PfileLeft::Same,
    }
}

// what is left of a p-file, where it is there
fn left_of_bytes(
    alloc: Global,
    bytes: Option<Bytes>,
    front: Option<Front>,
) -> Result<PfileLeft, StepFault>
    ensures left { (s p : Option Content) → bytes_read p ≡ Ok bytes → table_read s ≡ Ok (table_in front)
        → Finds s p result }
    ensures entries { IfOk result HasEntries }
    ensures works { result ≢ Err StepFault.DiskFault }
    ensures within { IsWithin result }
{
    match bytes {
        Some(all) => match read_edits(alloc, all.bytes()) {
            Ok(edits) => Ok(left_of(alloc, front, edits)),
            Err(PfileFault::BadPfile(line)) => Err(StepFault::Refused(Refusal::BadPfile(line))),
            Err(PfileFault::Memory) => Err(StepFault::Memory),
        },
        None => Ok(PfileLeft::Same),
    }
}

// reads the s-file besides the bytes of the p-file
fn left_with<D: Disk>(
    alloc: Global,
    bytes: Option<Bytes>,
    disk: &mut D,
    name: &Name,
) -> Result<PfileLeft, StepFault>
    ensures told { IfSome (seen (D.told disk.old)) (λ (v : View). bytes_read (v (p_file name.now)) ≡ Ok bytes
        → Finds (v name.now) (v (p_file name.now)) result) }
    ensures entries { IfOk result HasEntries }
    ensures same { D.told disk.new ≡ D.told disk.old }
    ensures causes { DiskCauses (IsErrOf result StepFault.DiskFault) (D.faults disk.old) (D.faults disk.new) }
    ensures within { IsWithin result }
{
    let front = read_s(alloc, disk, name)?;
    left_of_bytes(alloc, bytes, front)
}

/// Reads the s-file and the p-file of a name, where they are there, and answers what recovery makes of
/// the p-file. The checks come in the order of their numbers.
pub fn read_left<D: Disk>(alloc: Global, disk: &mut D, name: &Name) -> Result<PfileLeft, StepFault>
    requires { IsSFileName name.now }
    ensures told { IfSome (seen (D.told disk.old)) (λ (v : View). Finds (v name.now) (v (p_file name.now)) result) }
    ensures entries { IfOk result HasEntries }
    ensures same { D.told disk.new ≡ D.told disk.old }
    ensures causes { DiskCauses (IsErrOf result StepFault.DiskFault) (D.faults disk.old) (D.faults disk.new) }
    ensures within { IsWithin result }
{
    let bytes = read_p(alloc, disk, name)?;
    left_with(alloc, bytes, disk, name)
}
