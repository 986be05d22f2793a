ghost use Rattle.std.specs.Prelude.{◌≡◌, ◌||◌, drop, IfOk, OnErr, OnOk, IsErr};
ghost use Rattle.std.specs.Str.{bytes_eq};
ghost use Rattle.sccs_base.specs.Name.{IsSFileName, y_file};
ghost use Rattle.sccs_disk.specs.Calls.{IsThere};
ghost use Rattle.sccs_disk.specs.Effects.{renamed};
ghost use Rattle.sccs_disk.specs.Told.{seen};
ghost use Rattle.sccs_name_files.specs.StepFiles.{l_file};
ghost use Rattle.sccs_store.specs.Finished.{MayWrite};
ghost use Rattle.sccs_store.specs.Placing.{HalfPlaces, PlaceEnds, PlaceStops, Places};
ghost use Rattle.sccs_crash_points.specs.Unlocked.{KeepsOthers};
ghost use Rattle.sccs_store.specs.Commits.{Becomes, MayBecome};
ghost use Rattle.sccs_disk.specs.Causes.{DiskCauses};

use sccs_base::{Failed, Name};
use sccs_disk::Disk;

/// Whether the g-file of an s-file's name is there and may be written.
pub fn is_writable_g<D: Disk>(disk: &mut D, name: &Name) -> Result<bool, Failed>
    requires { IsSFileName name.now }
    ensures ok { IfOk result (MayWrite (seen (D.told disk.old)) (drop 2 name.now)) }
    ensures same { D.told disk.new ≡ D.told disk.old }
    ensures causes { DiskCauses (IsErr result) (D.faults disk.old) (D.faults disk.new) }
{
    match disk.writable(&name.module())? {
        Some(writable) => Ok(writable),
        None => Ok(false),
    }
}

// puts a file in the place of another and syncs the names
fn place<D: Disk>(disk: &mut D, from: &Name, to: &Name) -> Result<(), Failed>
    requires { IsThere from.now (D.told disk.old) }
    ensures view { OnOk result (Becomes (renamed from.now to.now) (seen (D.told disk.old)) (seen (D.told disk.new))) }
    ensures halfway { OnErr result (MayBecome (renamed from.now to.now) (seen (D.told disk.old))
        (seen (D.told disk.new))) }
    ensures done { OnOk result (Places from.now to.now (D.told disk.old) (D.told disk.new)) }
    ensures half { OnErr result (HalfPlaces from.now to.now (D.told disk.old) (D.told disk.new)) }
    ensures causes { DiskCauses (IsErr result) (D.faults disk.old) (D.faults disk.new) }
{
    disk.rename(from, to)?;
    disk.sync_names()
}

/// Puts the y-file of an s-file's name in the place of its g-file and syncs the names. It takes no memory.
/// A stop leaves every s-file and p-file as it was, and the g-file as one could leave it before the call,
/// or as the y-file was; after the call, only the latter.
pub fn place_g<D: Disk>(disk: &mut D, name: &Name) -> Result<(), Failed>
    requires sfile { IsSFileName name.now }
    requires there { IsThere (y_file name.now) (D.told disk.old) }
    ensures view { OnOk result (Becomes (renamed (y_file name.now) (drop 2 name.now)) (seen (D.told disk.old))
        (seen (D.told disk.new))) }
    ensures halfway { OnErr result (MayBecome (renamed (y_file name.now) (drop 2 name.now)) (seen (D.told disk.old))
        (seen (D.told disk.new))) }
    ensures stopped { OnErr result (PlaceStops name.now (drop 2 name.now) (D.told disk.old) (D.told disk.new)) }
    ensures calm { OnOk result (PlaceEnds name.now (drop 2 name.now) (D.told disk.old) (D.told disk.new)) }
    ensures others { KeepsOthers (λ k. bytes_eq (y_file name.now) k || bytes_eq (drop 2 name.now) k) (D.told disk.old)
        (D.told disk.new) }
    ensures causes { DiskCauses (IsErr result) (D.faults disk.old) (D.faults disk.new) }
{
    place(disk, &name.sibling(b'y'), &name.module())
}

/// Puts the y-file of an s-file's name in the place of its l-file and syncs the names, as `place_g` does.
pub fn place_l<D: Disk>(disk: &mut D, name: &Name) -> Result<(), Failed>
    requires sfile { IsSFileName name.now }
    requires there { IsThere (y_file name.now) (D.told disk.old) }
    ensures view { OnOk result (Becomes (renamed (y_file name.now) (l_file name.now)) (seen (D.told disk.old))
        (seen (D.told disk.new))) }
    ensures halfway { OnErr result (MayBecome (renamed (y_file name.now) (l_file name.now)) (seen (D.told disk.old))
        (seen (D.told disk.new))) }
    ensures stopped { OnErr result (PlaceStops name.now (l_file name.now) (D.told disk.old) (D.told disk.new)) }
    ensures calm { OnOk result (PlaceEnds name.now (l_file name.now) (D.told disk.old) (D.told disk.new)) }
    ensures others { KeepsOthers (λ k. bytes_eq (y_file name.now) k || bytes_eq (l_file name.now) k) (D.told disk.old)
        (D.told disk.new) }
    ensures causes { DiskCauses (IsErr result) (D.faults disk.old) (D.faults disk.new) }
{
    place(disk, &name.sibling(b'y'), &name.sibling(b'l'))
}
