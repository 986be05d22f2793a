ghost use Rattle.std.specs.Prelude.{◌≡◌, ◌≤◌, Some, drop, IsErr, OnErr, OnOk};
ghost use Rattle.std.specs.Str.{bytes_eq};
ghost use Rattle.sccs_base.specs.Name.{IsSFileName, p_file, q_file, sibling, x_file};
ghost use Rattle.sccs_disk.specs.Causes.{DiskCauses};
ghost use Rattle.sccs_disk.specs.Files.{Remove, Rename, View};
ghost use Rattle.sccs_disk.specs.Told.{seen};
ghost use Rattle.sccs_name_files.specs.Touches.{TouchesOnly};
ghost use Rattle.sccs_crash_points.specs.Recovery.{fate_at, without_name};
ghost use Rattle.sccs_crash_points.specs.Unlocked.{KeepsOthers};
ghost use Rattle.sccs_store.specs.Commits.{Becomes, MayBecome};
ghost use Rattle.sccs_group.specs.Finishing.{FinishesBy, MayCall};
ghost use Rattle.sccs_group.specs.Halfway.{PlacesPart, is_own_but_g, is_own_of_member};
ghost use Rattle.sccs_group.specs.Members.{IsNamed, g_gone, p_taken, placed, taken};

use crate::members::Member;
use sccs_base::{Failed, Name};
use sccs_disk::Disk;
use sccs_intents::Fate;

/// Removes a file where it is there.
pub fn clear<D: Disk>(disk: &mut D, name: &Name) -> Result<(), Failed>
    ensures view { OnOk result (Becomes (without_name name.now) (seen (D.told disk.old)) (seen (D.told disk.new))) }
    ensures view_err { OnErr result (MayBecome (without_name name.now) (seen (D.told disk.old))
        (seen (D.told disk.new))) }
    ensures call { MayCall (Remove name.now) name.now (D.told disk.old) (D.told disk.new) }
    ensures touches { TouchesOnly (bytes_eq name.now) (D.told disk.old) (D.told disk.new) }
    ensures causes { DiskCauses (IsErr result) (D.faults disk.old) (D.faults disk.new) }
{
    match disk.size(name)? {
        Some(_) => disk.remove(name),
        None => Ok(()),
    }
}

/// Puts a file that is there in the place of another.
pub fn take_place<D: Disk>(disk: &mut D, from: &Name, to: &Name) -> Result<(), Failed>
    ensures view { OnOk result (Becomes (taken from.now to.now) (seen (D.told disk.old)) (seen (D.told disk.new))) }
    ensures view_err { OnErr result (MayBecome (taken from.now to.now) (seen (D.told disk.old))
        (seen (D.told disk.new))) }
    ensures call { MayCall (Rename from.now to.now) from.now (D.told disk.old) (D.told disk.new) }
    ensures causes { DiskCauses (IsErr result) (D.faults disk.old) (D.faults disk.new) }
{
    match disk.size(from)? {
        Some(_) => disk.rename(from, to),
        None => Ok(()),
    }
}

// puts the x-file in the place of the s-file
fn place_s<D: Disk>(disk: &mut D, name: &Name) -> Result<(), Failed>
    requires { IsSFileName name.now }
    ensures view { OnOk result (Becomes (taken (x_file name.now) name.now) (seen (D.told disk.old))
        (seen (D.told disk.new))) }
    ensures view_err { OnErr result (MayBecome (taken (x_file name.now) name.now) (seen (D.told disk.old))
        (seen (D.told disk.new))) }
    ensures call { MayCall (Rename (x_file name.now) name.now) (x_file name.now) (D.told disk.old) (D.told disk.new) }
    ensures causes { DiskCauses (IsErr result) (D.faults disk.old) (D.faults disk.new) }
{
    take_place(disk, &name.sibling(b'x'), name)
}

// puts the q-file in the place of the p-file
fn place_q<D: Disk>(disk: &mut D, name: &Name) -> Result<(), Failed>
    requires { IsSFileName name.now }
    ensures view { OnOk result (Becomes (taken (q_file name.now) (p_file name.now)) (seen (D.told disk.old))
        (seen (D.told disk.new))) }
    ensures view_err { OnErr result (MayBecome (taken (q_file name.now) (p_file name.now)) (seen (D.told disk.old))
        (seen (D.told disk.new))) }
    ensures call { MayCall (Rename (q_file name.now) (p_file name.now)) (q_file name.now) (D.told disk.old)
        (D.told disk.new) }
    ensures causes { DiskCauses (IsErr result) (D.faults disk.old) (D.faults disk.new) }
{
    take_place(disk, &name.sibling(b'q'), &name.sibling(b'p'))
}

/// Removes one of the files of an s-file's name, by its first letter, where it is there.
pub fn clear_sibling<D: Disk>(disk: &mut D, name: &Name, letter: u8) -> Result<(), Failed>
    requires sfile { IsSFileName name.now }
    requires low { 97 ≤ letter }
    requires high { letter ≤ 122 }
    ensures view { OnOk result (Becomes (without_name (sibling letter name.now)) (seen (D.told disk.old))
        (seen (D.told disk.new))) }
    ensures view_err { OnErr result (MayBecome (without_name (sibling letter name.now)) (seen (D.told disk.old))
        (seen (D.told disk.new))) }
    ensures call { MayCall (Remove (sibling letter name.now)) (sibling letter name.now) (D.told disk.old)
        (D.told disk.new) }
    ensures causes { DiskCauses (IsErr result) (D.faults disk.old) (D.faults disk.new) }
{
    clear(disk, &name.sibling(letter))
}

// removes the g-file where it is there
fn clear_g<D: Disk>(disk: &mut D, name: &Name) -> Result<(), Failed>
    requires { IsSFileName name.now }
    ensures view { OnOk result (Becomes (without_name (drop 2 name.now)) (seen (D.told disk.old))
        (seen (D.told disk.new))) }
    ensures view_err { OnErr result (MayBecome (without_name (drop 2 name.now)) (seen (D.told disk.old))
        (seen (D.told disk.new))) }
    ensures call { MayCall (Remove (drop 2 name.now)) (drop 2 name.now) (D.told disk.old) (D.told disk.new) }
    ensures causes { DiskCauses (IsErr result) (D.faults disk.old) (D.faults disk.new) }
{
    clear(disk, &name.module())
}

// puts the new p-file in the place of the old one, or removes that
fn place_p<D: Disk>(disk: &mut D, name: &Name, fate: Fate) -> Result<(), Failed>
    requires { IsSFileName name.now }
    ensures view { OnOk result (Becomes (p_taken fate name.now) (seen (D.told disk.old)) (seen (D.told disk.new))) }
    ensures view_err { OnErr result (MayBecome (p_taken fate name.now) (seen (D.told disk.old))
        (seen (D.told disk.new))) }
    ensures story { FinishesBy (λ (v : View). fate_at v name.now ≡ Some fate) (D.told disk.old) (D.told disk.new) }
    ensures others { KeepsOthers (is_own_but_g name.now) (D.told disk.old) (D.told disk.new) }
    ensures causes { DiskCauses (IsErr result) (D.faults disk.old) (D.faults disk.new) }
{
    match fate {
        Fate::Replaced => place_q(disk, name),
        Fate::Removed => clear_sibling(disk, name, b'p'),
    }
}

// removes the g-file of a member where it goes
fn place_g<D: Disk>(disk: &mut D, member: &Member) -> Result<(), Failed>
    requires { IsSFileName member.now.entry.name }
    ensures view { OnOk result (Becomes (g_gone member.now.removes_g member.now.entry.name) (seen (D.told disk.old))
        (seen (D.told disk.new))) }
    ensures view_err { OnErr result (MayBecome (g_gone member.now.removes_g member.now.entry.name)
        (seen (D.told disk.old)) (seen (D.told disk.new))) }
    ensures story { FinishesBy (λ (v : View). IsNamed v member.now) (D.told disk.old) (D.told disk.new) }
    ensures others { KeepsOthers (is_own_of_member member.now) (D.told disk.old) (D.told disk.new) }
    ensures causes { DiskCauses (IsErr result) (D.faults disk.old) (D.faults disk.new) }
{
    if member.removes_g {
        clear_g(disk, &member.entry.name)
    } else {
        Ok(())
    }
}

/// Puts the new files of a member in their places: x over the s-file, then q over the p-file, or the
/// p-file is removed; then y is removed, and the g-file where it goes.
pub fn place<D: Disk>(disk: &mut D, member: &Member) -> Result<(), Failed>
    requires { IsSFileName member.now.entry.name }
    ensures view { OnOk result (Becomes (placed member.now) (seen (D.told disk.old)) (seen (D.told disk.new))) }
    ensures halfway { OnErr result (PlacesPart member.now (seen (D.told disk.old)) (seen (D.told disk.new))) }
    ensures story { FinishesBy (λ (v : View). IsNamed v member.now) (D.told disk.old) (D.told disk.new) }
    ensures others { KeepsOthers (is_own_of_member member.now) (D.told disk.old) (D.told disk.new) }
    ensures causes { DiskCauses (IsErr result) (D.faults disk.old) (D.faults disk.new) }
{
    place_s(disk, &member.entry.name)?;
    place_p(disk, &member.entry.name, member.entry.fate)?;
    clear_sibling(disk, &member.entry.name, b'y')?;
    place_g(disk, member)
}
