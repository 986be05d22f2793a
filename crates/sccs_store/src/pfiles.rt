ghost use Rattle.std.specs.Prelude.{All, Some, IsErrOf, OnErr, OnOk};
ghost use Rattle.std.specs.Str.{bytes_eq};
ghost use Rattle.sccs_base.specs.Name.{IsSFileName, q_file};
ghost use Rattle.sccs_disk.specs.Calls.{IsThere};
ghost use Rattle.sccs_disk.specs.Effects.{altered, appended};
ghost use Rattle.sccs_disk.specs.Files.{put};
ghost use Rattle.sccs_disk.specs.Images.{IsFirm};
ghost use Rattle.sccs_disk.specs.Told.{seen};
ghost use Rattle.sccs_name_files.specs.StepFiles.{Moves};
ghost use Rattle.sccs_name_files.specs.Touches.{Leaves, TouchesOnly};
ghost use Rattle.sccs_pfile.specs.Entries.{IsEdit};
ghost use Rattle.sccs_pfile.specs.Recovered.{written_pfile};
ghost use Rattle.sccs_pfile.specs.Written.{edits_text};
ghost use Rattle.sccs_store.specs.Commits.{Becomes};
ghost use Rattle.sccs_writers.specs.OneFile.{OnlyWrites};
ghost use Rattle.sccs_disk.specs.Causes.{DiskCauses};

use crate::working_files::start;
use sccs_base::Name;
use sccs_disk::{Disk, DiskRefusal};
use sccs_pfile::{Edits, write_edits};

// appends entries to a file, and syncs it
fn append_edits<D: Disk>(edits: &Edits, disk: &mut D, name: &Name) -> Result<(), DiskRefusal>
    requires there { IsThere name.now (D.told disk.old) }
    requires edits { All IsEdit edits.now }
    ensures view { OnOk result (Becomes (altered name.now (appended (edits_text edits.now))) (seen (D.told disk.old))
        (seen (D.told disk.new))) }
    ensures only { OnlyWrites name.now (D.told disk.old) (D.told disk.new) }
    ensures firm { OnOk result (Leaves (IsFirm name.now) (D.told disk.old) (D.told disk.new)) }
    ensures causes { DiskCauses (IsErrOf result DiskRefusal.Failed) (D.faults disk.old) (D.faults disk.new) }
{
    write_edits(edits, disk, name)?;
    match disk.sync(name) {
        Ok(()) => Ok(()),
        Err(_) => Err(DiskRefusal::Failed),
    }
}

// appends entries to the q-file, and syncs it
fn append_q<D: Disk>(edits: &Edits, disk: &mut D, name: &Name) -> Result<(), DiskRefusal>
    requires sfile { IsSFileName name.now }
    requires there { IsThere (q_file name.now) (D.told disk.old) }
    requires edits { All IsEdit edits.now }
    ensures view { OnOk result (Becomes (altered (q_file name.now) (appended (edits_text edits.now)))
        (seen (D.told disk.old)) (seen (D.told disk.new))) }
    ensures only { OnlyWrites (q_file name.now) (D.told disk.old) (D.told disk.new) }
    ensures firm { OnOk result (Leaves (IsFirm (q_file name.now)) (D.told disk.old) (D.told disk.new)) }
    ensures causes { DiskCauses (IsErrOf result DiskRefusal.Failed) (D.faults disk.old) (D.faults disk.new) }
{
    append_edits(edits, disk, &name.sibling(b'q'))
}

/// Writes the q-file of an s-file's name, a p-file of these entries as they are written, and syncs it.
/// System V, p-file. A p-file without entries is removed by a commit, and never prepared.
pub fn prepare_p<D: Disk>(edits: &Edits, disk: &mut D, name: &Name) -> Result<(), DiskRefusal>
    requires sfile { IsSFileName name.now }
    requires edits { All IsEdit edits.now }
    ensures view { OnOk result (Becomes (λ v. put v (q_file name.now) (Some (written_pfile edits.now)))
        (seen (D.told disk.old)) (seen (D.told disk.new))) }
    ensures view_err { OnErr result (Moves (bytes_eq (q_file name.now)) (λ v. v) (seen (D.told disk.old))
        (seen (D.told disk.new))) }
    ensures touches { TouchesOnly (bytes_eq (q_file name.now)) (D.told disk.old) (D.told disk.new) }
    ensures firm { OnOk result (Leaves (IsFirm (q_file name.now)) (D.told disk.old) (D.told disk.new)) }
    ensures causes { DiskCauses (IsErrOf result DiskRefusal.Failed) (D.faults disk.old) (D.faults disk.new) }
{
    start(disk, name, b'q')?;
    append_q(edits, disk, name)
}
