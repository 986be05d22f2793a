ghost use Rattle.std.specs.Prelude.{◌≡◌, drop, OnErr, OnOk, IsErr};
ghost use Rattle.sccs_base.specs.Name.{IsSFileName, p_file, q_file, x_file, y_file, z_file};
ghost use Rattle.sccs_disk.specs.Calls.{IsThere};
ghost use Rattle.sccs_disk.specs.Told.{seen};
ghost use Rattle.sccs_crash_points.specs.Recovery.{without_name};
ghost use Rattle.sccs_crash_points.specs.Unlocked.{KeepsOthers, is_own};
ghost use Rattle.sccs_store.specs.Commits.{Becomes, IsPart, MayBecome, Needs, committed, plan, replaced, swapped};
ghost use Rattle.sccs_store.specs.Stops.{CommitEnds, CommitStops, HalfSwaps, HalfUnlocks, Swaps, Unlocks};
ghost use Rattle.sccs_disk.specs.Causes.{DiskCauses};

use crate::new_files::NewFile;
use sccs_base::{Failed, Name};
use sccs_disk::Disk;

// puts a prepared file in the place of another, or removes that one
fn swap<D: Disk>(disk: &mut D, new: NewFile, from: &Name, to: &Name) -> Result<(), Failed>
    requires { Needs new from.now to.now (D.told disk.old) }
    ensures ok { OnOk result (Becomes (swapped new from.now to.now) (seen (D.told disk.old)) (seen (D.told disk.new))) }
    ensures err { OnErr result (MayBecome (swapped new from.now to.now) (seen (D.told disk.old))
        (seen (D.told disk.new))) }
    ensures done { OnOk result (Swaps new from.now to.now (D.told disk.old) (D.told disk.new)) }
    ensures half { OnErr result (HalfSwaps new from.now to.now (D.told disk.old) (D.told disk.new)) }
    ensures causes { DiskCauses (IsErr result) (D.faults disk.old) (D.faults disk.new) }
{
    match new {
        NewFile::Keep => Ok(()),
        NewFile::Replace => disk.rename(from, to),
        NewFile::Remove => disk.remove(to),
    }
}

// whether the s-file is replaced or kept
fn replaced(new_s: bool) -> NewFile
    ensures { result ≡ replaced new_s }
{
    if new_s {
        NewFile::Replace
    } else {
        NewFile::Keep
    }
}

// puts the x-file in the place of the s-file, or keeps that
fn swap_s<D: Disk>(disk: &mut D, new_s: bool, name: &Name) -> Result<(), Failed>
    requires sfile { IsSFileName name.now }
    requires needs { Needs (replaced new_s) (x_file name.now) name.now (D.told disk.old) }
    ensures ok { OnOk result (Becomes (swapped (replaced new_s) (x_file name.now) name.now) (seen (D.told disk.old))
        (seen (D.told disk.new))) }
    ensures err { OnErr result (MayBecome (swapped (replaced new_s) (x_file name.now) name.now) (seen (D.told disk.old))
        (seen (D.told disk.new))) }
    ensures done { OnOk result (Swaps (replaced new_s) (x_file name.now) name.now (D.told disk.old) (D.told disk.new)) }
    ensures half { OnErr result (HalfSwaps (replaced new_s) (x_file name.now) name.now (D.told disk.old)
        (D.told disk.new)) }
    ensures causes { DiskCauses (IsErr result) (D.faults disk.old) (D.faults disk.new) }
{
    swap(disk, replaced(new_s), &name.sibling(b'x'), name)
}

// puts the q-file in the place of the p-file, or removes that
fn swap_p<D: Disk>(disk: &mut D, new: NewFile, name: &Name) -> Result<(), Failed>
    requires sfile { IsSFileName name.now }
    requires needs { Needs new (q_file name.now) (p_file name.now) (D.told disk.old) }
    ensures ok { OnOk result (Becomes (swapped new (q_file name.now) (p_file name.now)) (seen (D.told disk.old))
        (seen (D.told disk.new))) }
    ensures err { OnErr result (MayBecome (swapped new (q_file name.now) (p_file name.now)) (seen (D.told disk.old))
        (seen (D.told disk.new))) }
    ensures done { OnOk result (Swaps new (q_file name.now) (p_file name.now) (D.told disk.old) (D.told disk.new)) }
    ensures half { OnErr result (HalfSwaps new (q_file name.now) (p_file name.now) (D.told disk.old)
        (D.told disk.new)) }
    ensures causes { DiskCauses (IsErr result) (D.faults disk.old) (D.faults disk.new) }
{
    swap(disk, new, &name.sibling(b'q'), &name.sibling(b'p'))
}

// puts the y-file in the place of the g-file, or removes that
fn swap_g<D: Disk>(disk: &mut D, new: NewFile, name: &Name) -> Result<(), Failed>
    requires sfile { IsSFileName name.now }
    requires needs { Needs new (y_file name.now) (drop 2 name.now) (D.told disk.old) }
    ensures ok { OnOk result (Becomes (swapped new (y_file name.now) (drop 2 name.now)) (seen (D.told disk.old))
        (seen (D.told disk.new))) }
    ensures err { OnErr result (MayBecome (swapped new (y_file name.now) (drop 2 name.now)) (seen (D.told disk.old))
        (seen (D.told disk.new))) }
    ensures done { OnOk result (Swaps new (y_file name.now) (drop 2 name.now) (D.told disk.old) (D.told disk.new)) }
    ensures half { OnErr result (HalfSwaps new (y_file name.now) (drop 2 name.now) (D.told disk.old)
        (D.told disk.new)) }
    ensures causes { DiskCauses (IsErr result) (D.faults disk.old) (D.faults disk.new) }
{
    swap(disk, new, &name.sibling(b'y'), &name.module())
}

// removes the z-file and syncs the names
fn unlock<D: Disk>(disk: &mut D, name: &Name) -> Result<(), Failed>
    requires sfile { IsSFileName name.now }
    requires there { IsThere (z_file name.now) (D.told disk.old) }
    ensures ok { OnOk result (Becomes (without_name (z_file name.now)) (seen (D.told disk.old))
        (seen (D.told disk.new))) }
    ensures err { OnErr result (MayBecome (without_name (z_file name.now)) (seen (D.told disk.old))
        (seen (D.told disk.new))) }
    ensures done { OnOk result (Unlocks (z_file name.now) (D.told disk.old) (D.told disk.new)) }
    ensures half { OnErr result (HalfUnlocks (z_file name.now) (D.told disk.old) (D.told disk.new)) }
    ensures causes { DiskCauses (IsErr result) (D.faults disk.old) (D.faults disk.new) }
{
    disk.remove(&name.sibling(b'z'))?;
    disk.sync_names()
}

/// Puts the prepared files in the place of the old ones: x over the s-file, then q over the p-file, or
/// the p-file is removed, then y over the g-file, or that is removed; then z is removed, and the names
/// are synced. It takes no memory. Where it fails, recovery runs first. A stop leaves what one could leave
/// before the commit, or what recovers to the new files; after it, only the latter.
pub fn commit<D: Disk>(
    disk: &mut D,
    name: &Name,
    new_s: bool,
    new_p: NewFile,
    new_g: NewFile,
) -> Result<(), Failed>
    requires sfile { IsSFileName name.now }
    requires z { IsThere (z_file name.now) (D.told disk.old) }
    requires s { Needs (replaced new_s) (x_file name.now) name.now (D.told disk.old) }
    requires p { Needs new_p (q_file name.now) (p_file name.now) (D.told disk.old) }
    requires g { Needs new_g (y_file name.now) (drop 2 name.now) (D.told disk.old) }
    ensures view { OnOk result (Becomes (committed name.now (plan new_s new_p new_g)) (seen (D.told disk.old))
        (seen (D.told disk.new))) }
    ensures halfway { OnErr result (IsPart name.now (plan new_s new_p new_g) (seen (D.told disk.old))
        (seen (D.told disk.new))) }
    ensures stopped { OnErr result (CommitStops name.now (plan new_s new_p new_g) (D.told disk.old) (D.told disk.new)) }
    ensures calm { OnOk result (CommitEnds name.now (plan new_s new_p new_g) (D.told disk.old) (D.told disk.new)) }
    ensures others { KeepsOthers (is_own name.now) (D.told disk.old) (D.told disk.new) }
    ensures causes { DiskCauses (IsErr result) (D.faults disk.old) (D.faults disk.new) }
{
    swap_s(disk, new_s, name)?;
    swap_p(disk, new_p, name)?;
    swap_g(disk, new_g, name)?;
    unlock(disk, name)
}
