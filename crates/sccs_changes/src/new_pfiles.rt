ghost use Rattle.std.specs.Prelude.{All, IfOk, IsErrOf};
ghost use Rattle.std.specs.Str.{bytes_eq};
ghost use Rattle.sccs_base.specs.Name.{IsSFileName, q_file};
ghost use Rattle.sccs_disk.specs.Images.{IsFirm};
ghost use Rattle.sccs_disk.specs.Told.{seen};
ghost use Rattle.sccs_name_files.specs.StepFiles.{Moves};
ghost use Rattle.sccs_name_files.specs.Touches.{Leaves, TouchesOnly};
ghost use Rattle.sccs_pfile.specs.Entries.{IsEdit};
ghost use Rattle.sccs_store.specs.Stops.{OnReplace};
ghost use Rattle.sccs_changes.specs.NewEntries.{IsRenewed, PreparesEntries};
ghost use Rattle.sccs_disk.specs.Causes.{DiskCauses};

use sccs_base::Name;
use sccs_disk::{Disk, DiskRefusal};
use sccs_pfile::Edits;
use sccs_store::{NewP, prepare_p};

/// Prepares the p-file of an s-file's name that is to have these entries, and answers what a commit makes of
/// the old one: the q-file takes its place, or it is removed where there are no entries.
pub fn prepare_entries<D: Disk>(
    edits: &Edits,
    disk: &mut D,
    name: &Name,
) -> Result<NewP, DiskRefusal>
    requires sfile { IsSFileName name.now }
    requires edits { All IsEdit edits.now }
    ensures entries { IfOk result (λ new. PreparesEntries name.now edits.now new (D.told disk.old) (D.told disk.new)) }
    ensures renewed { IfOk result (λ new. IsRenewed new) }
    ensures moves { Moves (bytes_eq (q_file name.now)) (λ v. v) (seen (D.told disk.old)) (seen (D.told disk.new)) }
    ensures touches { TouchesOnly (bytes_eq (q_file name.now)) (D.told disk.old) (D.told disk.new) }
    ensures firm { IfOk result (λ new. OnReplace new (Leaves (IsFirm (q_file name.now)) (D.told disk.old)
        (D.told disk.new))) }
    ensures causes { DiskCauses (IsErrOf result DiskRefusal.Failed) (D.faults disk.old) (D.faults disk.new) }
{
    if edits.len() == 0 {
        return Ok(NewP::Remove);
    }
    prepare_p(edits, disk, name)?;
    Ok(NewP::Replace)
}
