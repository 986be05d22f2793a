ghost use Rattle.std.specs.Prelude.{◌≡◌, Some, IsErrOf, OnErr, OnOk};
ghost use Rattle.std.specs.Str.{bytes_eq};
ghost use Rattle.sccs_disk.specs.Calls.{IsThere};
ghost use Rattle.sccs_disk.specs.Causes.{DiskCauses};
ghost use Rattle.sccs_disk.specs.Effects.{altered, appended};
ghost use Rattle.sccs_disk.specs.Files.{View, put};
ghost use Rattle.sccs_disk.specs.Images.{IsFirm};
ghost use Rattle.sccs_disk.specs.Told.{seen};
ghost use Rattle.sccs_name_files.specs.StepFiles.{Moves};
ghost use Rattle.sccs_name_files.specs.Touches.{Leaves, TouchesOnly};
ghost use Rattle.sccs_crash_points.specs.Recovery.{without_name};
ghost use Rattle.sccs_store.specs.Commits.{Becomes};
ghost use Rattle.sccs_writers.specs.OneFile.{OnlyWrites};
ghost use Rattle.sccs_group.specs.Grouping.{file_of};

use crate::calls::clear;
use sccs_base::Name;
use sccs_disk::{Disk, DiskRefusal};
use sccs_store::renew;

// appends bytes to a file, and syncs it
fn append_text<D: Disk>(disk: &mut D, name: &Name, text: &[u8]) -> Result<(), DiskRefusal>
    requires { IsThere name.now (D.told disk.old) }
    ensures view { OnOk result (Becomes (altered name.now (appended text.now)) (seen (D.told disk.old))
        (seen (D.told disk.new))) }
    ensures only { OnlyWrites name.now (D.told disk.old) (D.told disk.new) }
    ensures firm { OnOk result (Leaves (IsFirm name.now) (D.told disk.old) (D.told disk.new)) }
    ensures causes { DiskCauses (IsErrOf result DiskRefusal.Failed) (D.faults disk.old) (D.faults disk.new) }
{
    disk.append(name, text)?;
    match disk.sync(name) {
        Ok(()) => Ok(()),
        Err(_) => Err(DiskRefusal::Failed),
    }
}

// makes a file of these bytes, in place of one that is there, and syncs it
fn write_text<D: Disk>(disk: &mut D, name: &Name, text: &[u8]) -> Result<(), DiskRefusal>
    ensures view { OnOk result (Becomes (λ (v : View). put v name.now (Some (file_of text.now)))
        (seen (D.told disk.old)) (seen (D.told disk.new))) }
    ensures view_err { OnErr result (Moves (bytes_eq name.now) (λ (v : View). v) (seen (D.told disk.old))
        (seen (D.told disk.new))) }
    ensures touches { TouchesOnly (bytes_eq name.now) (D.told disk.old) (D.told disk.new) }
    ensures firm { OnOk result (Leaves (IsFirm name.now) (D.told disk.old) (D.told disk.new)) }
    ensures causes { DiskCauses (IsErrOf result DiskRefusal.Failed) (D.faults disk.old) (D.faults disk.new) }
{
    renew(disk, name)?;
    append_text(disk, name, text)
}

/// Removes a file for which memory was wanting, where it is there; it is gone, or the disk failed.
pub fn drop_text<D: Disk>(disk: &mut D, name: &Name) -> DiskRefusal
    ensures gone { result ≡ DiskRefusal.Memory → Becomes (without_name name.now) (seen (D.told disk.old))
        (seen (D.told disk.new)) }
    ensures moves { Moves (bytes_eq name.now) (λ (v : View). v) (seen (D.told disk.old)) (seen (D.told disk.new)) }
    ensures touches { TouchesOnly (bytes_eq name.now) (D.told disk.old) (D.told disk.new) }
    ensures causes { DiskCauses (result ≡ DiskRefusal.Failed) (D.faults disk.old) (D.faults disk.new) }
{
    match clear(disk, name) {
        Ok(()) => DiskRefusal::Memory,
        Err(_) => DiskRefusal::Failed,
    }
}

/// Makes a file of these bytes, in place of one that is there, and syncs it. At want of memory the file
/// is gone.
pub fn write_anew<D: Disk>(disk: &mut D, name: &Name, text: &[u8]) -> Result<(), DiskRefusal>
    ensures view { OnOk result (Becomes (λ (v : View). put v name.now (Some (file_of text.now)))
        (seen (D.told disk.old)) (seen (D.told disk.new))) }
    ensures view_err { OnErr result (Moves (bytes_eq name.now) (λ (v : View). v) (seen (D.told disk.old))
        (seen (D.told disk.new))) }
    ensures gone { IsErrOf result DiskRefusal.Memory → Becomes (without_name name.now) (seen (D.told disk.old))
        (seen (D.told disk.new)) }
    ensures touches { TouchesOnly (bytes_eq name.now) (D.told disk.old) (D.told disk.new) }
    ensures firm { OnOk result (Leaves (IsFirm name.now) (D.told disk.old) (D.told disk.new)) }
    ensures causes { DiskCauses (IsErrOf result DiskRefusal.Failed) (D.faults disk.old) (D.faults disk.new) }
{
    match write_text(disk, name, text) {
        Ok(()) => Ok(()),
        Err(DiskRefusal::Failed) => Err(DiskRefusal::Failed),
        Err(DiskRefusal::Memory) => Err(drop_text(disk, name)),
    }
}
