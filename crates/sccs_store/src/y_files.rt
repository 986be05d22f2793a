ghost use Rattle.std.specs.Prelude.{OnOk, IsErr};
ghost use Rattle.sccs_base.specs.Name.{IsSFileName, y_file};
ghost use Rattle.sccs_disk.specs.Calls.{IsThere};
ghost use Rattle.sccs_disk.specs.Effects.{altered};
ghost use Rattle.sccs_disk.specs.Images.{IsFirm};
ghost use Rattle.sccs_disk.specs.Told.{seen};
ghost use Rattle.sccs_store.specs.Finished.{finished};
ghost use Rattle.sccs_name_files.specs.Touches.{Leaves};
ghost use Rattle.sccs_store.specs.Commits.{Becomes};
ghost use Rattle.sccs_writers.specs.OneFile.{OnlyWrites};
ghost use Rattle.sccs_disk.specs.Causes.{DiskCauses};

use crate::modes::Mode;
use crate::working_files::seal;
use sccs_base::{Failed, Name};
use sccs_disk::Disk;

// syncs a file, with its mark as it is to be
fn finish<D: Disk>(disk: &mut D, name: &Name, mode: Mode) -> Result<(), Failed>
    requires { IsThere name.now (D.told disk.old) }
    ensures view { OnOk result (Becomes (altered name.now (finished mode)) (seen (D.told disk.old))
        (seen (D.told disk.new))) }
    ensures only { OnlyWrites name.now (D.told disk.old) (D.told disk.new) }
    ensures firm { OnOk result (Leaves (IsFirm name.now) (D.told disk.old) (D.told disk.new)) }
    ensures causes { DiskCauses (IsErr result) (D.faults disk.old) (D.faults disk.new) }
{
    match mode {
        Mode::Writable => disk.sync(name),
        Mode::Protected => seal(disk, name),
    }
}

/// Takes the mark writable from the y-file of an s-file's name, unless it is to keep it, and syncs the
/// file.
pub fn finish_y<D: Disk>(disk: &mut D, name: &Name, mode: Mode) -> Result<(), Failed>
    requires sfile { IsSFileName name.now }
    requires there { IsThere (y_file name.now) (D.told disk.old) }
    ensures view { OnOk result (Becomes (altered (y_file name.now) (finished mode)) (seen (D.told disk.old))
        (seen (D.told disk.new))) }
    ensures only { OnlyWrites (y_file name.now) (D.told disk.old) (D.told disk.new) }
    ensures firm { OnOk result (Leaves (IsFirm (y_file name.now)) (D.told disk.old) (D.told disk.new)) }
    ensures causes { DiskCauses (IsErr result) (D.faults disk.old) (D.faults disk.new) }
{
    finish(disk, &name.sibling(b'y'), mode)
}
