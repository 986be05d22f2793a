ghost use Rattle.std.specs.Prelude.{◌≤◌, Some, IsErrOf, OnErr, OnOk, IsErr};
ghost use Rattle.std.specs.Str.{bytes_eq};
ghost use Rattle.sccs_base.specs.Name.{IsSFileName, sibling, x_file};
ghost use Rattle.sccs_disk.specs.Calls.{HasRange, IsThere};
ghost use Rattle.sccs_disk.specs.Effects.{altered, empty_file, protected};
ghost use Rattle.sccs_disk.specs.Files.{put};
ghost use Rattle.sccs_disk.specs.Images.{IsFirm, IsOwn};
ghost use Rattle.sccs_disk.specs.Told.{seen};
ghost use Rattle.sccs_name_files.specs.StepFiles.{Moves, is_left, is_working};
ghost use Rattle.sccs_name_files.specs.Touches.{Leaves, TouchesOnly};
ghost use Rattle.sccs_store.specs.Commits.{Becomes, abandoned, with_sum_line};
ghost use Rattle.sccs_crash_points.specs.Recovery.{cleared, without_name};
ghost use Rattle.sccs_writers.specs.OneFile.{OnlyWrites};
ghost use Rattle.sccs_disk.specs.Causes.{DiskCauses};

use sccs_base::{Failed, Name};
use sccs_disk::{Creation, Disk, DiskRefusal};
use sccs_table::Sum;
use sccs_writers::five_digits;

// removes a file where it is there
fn clear<D: Disk>(disk: &mut D, name: &Name) -> Result<(), Failed>
    ensures view { OnOk result (Becomes (without_name name.now) (seen (D.told disk.old)) (seen (D.told disk.new))) }
    ensures view_err { OnErr result (Moves (bytes_eq name.now) (λ v. v) (seen (D.told disk.old))
        (seen (D.told disk.new))) }
    ensures touches { TouchesOnly (bytes_eq name.now) (D.told disk.old) (D.told disk.new) }
    ensures causes { DiskCauses (IsErr result) (D.faults disk.old) (D.faults disk.new) }
{
    match disk.size(name)? {
        Some(_) => disk.remove(name),
        None => Ok(()),
    }
}

// Makes an empty file. One that has come there since is another program's, and is left alone.
fn make<D: Disk>(disk: &mut D, name: &Name) -> Result<(), DiskRefusal>
    ensures view { OnOk result (Becomes (λ v. put v name.now (Some empty_file)) (seen (D.told disk.old))
        (seen (D.told disk.new))) }
    ensures view_err { OnErr result (Moves (bytes_eq name.now) (λ v. v) (seen (D.told disk.old))
        (seen (D.told disk.new))) }
    ensures touches { TouchesOnly (bytes_eq name.now) (D.told disk.old) (D.told disk.new) }
    ensures own { OnOk result (Leaves (IsOwn name.now) (D.told disk.old) (D.told disk.new)) }
    ensures causes { DiskCauses (IsErrOf result DiskRefusal.Failed) (D.faults disk.old) (D.faults disk.new) }
{
    match disk.create(name)? {
        Creation::Created => Ok(()),
        Creation::Exists => Err(DiskRefusal::Memory),
    }
}

/// Makes an empty file. One that is there is removed first.
pub fn renew<D: Disk>(disk: &mut D, name: &Name) -> Result<(), DiskRefusal>
    ensures view { OnOk result (Becomes (λ v. put v name.now (Some empty_file)) (seen (D.told disk.old))
        (seen (D.told disk.new))) }
    ensures view_err { OnErr result (Moves (bytes_eq name.now) (λ v. v) (seen (D.told disk.old))
        (seen (D.told disk.new))) }
    ensures touches { TouchesOnly (bytes_eq name.now) (D.told disk.old) (D.told disk.new) }
    ensures own { OnOk result (Leaves (IsOwn name.now) (D.told disk.old) (D.told disk.new)) }
    ensures causes { DiskCauses (IsErrOf result DiskRefusal.Failed) (D.faults disk.old) (D.faults disk.new) }
{
    match clear(disk, name) {
        Ok(()) => make(disk, name),
        Err(_) => Err(DiskRefusal::Failed),
    }
}

/// Makes a working file of an s-file's name empty: `x` the new s-file, `q` the new p-file, `y` the new
/// g-file. One that an earlier stop left is removed.
pub fn start<D: Disk>(disk: &mut D, name: &Name, letter: u8) -> Result<(), DiskRefusal>
    requires sfile { IsSFileName name.now }
    requires low { 97 ≤ letter }
    requires high { letter ≤ 122 }
    ensures view { OnOk result (Becomes (λ v. put v (sibling letter name.now) (Some empty_file))
        (seen (D.told disk.old)) (seen (D.told disk.new))) }
    ensures view_err { OnErr result (Moves (bytes_eq (sibling letter name.now)) (λ v. v) (seen (D.told disk.old))
        (seen (D.told disk.new))) }
    ensures touches { TouchesOnly (bytes_eq (sibling letter name.now)) (D.told disk.old) (D.told disk.new) }
    ensures own { OnOk result (Leaves (IsOwn (sibling letter name.now)) (D.told disk.old) (D.told disk.new)) }
    ensures causes { DiskCauses (IsErrOf result DiskRefusal.Failed) (D.faults disk.old) (D.faults disk.new) }
{
    renew(disk, &name.sibling(letter))
}

/// Takes the mark writable from a file and syncs it.
pub fn seal<D: Disk>(disk: &mut D, name: &Name) -> Result<(), Failed>
    requires { IsThere name.now (D.told disk.old) }
    ensures view { OnOk result (Becomes (altered name.now protected) (seen (D.told disk.old))
        (seen (D.told disk.new))) }
    ensures only { OnlyWrites name.now (D.told disk.old) (D.told disk.new) }
    ensures firm { OnOk result (Leaves (IsFirm name.now) (D.told disk.old) (D.told disk.new)) }
    ensures causes { DiskCauses (IsErr result) (D.faults disk.old) (D.faults disk.new) }
{
    disk.protect(name)?;
    disk.sync(name)
}

// puts the digits of a sum into the sum line of a file, protects the file and syncs it
fn write_sum<D: Disk>(disk: &mut D, name: &Name, sum: u16) -> Result<(), DiskRefusal>
    requires { HasRange name.now 2 5 (D.told disk.old) }
    ensures view { OnOk result (Becomes (altered name.now (with_sum_line sum)) (seen (D.told disk.old))
        (seen (D.told disk.new))) }
    ensures only { OnlyWrites name.now (D.told disk.old) (D.told disk.new) }
    ensures firm { OnOk result (Leaves (IsFirm name.now) (D.told disk.old) (D.told disk.new)) }
    ensures causes { DiskCauses (IsErrOf result DiskRefusal.Failed) (D.faults disk.old) (D.faults disk.new) }
{
    disk.write_at(name, 2, &five_digits(u32::from(sum)))?;
    match seal(disk, name) {
        Ok(()) => Ok(()),
        Err(_) => Err(DiskRefusal::Failed),
    }
}

/// Puts the digits of the plain sum into the sum line of the x-file, protects the file and syncs it.
pub fn finish_x<D: Disk>(disk: &mut D, name: &Name, sum: &Sum) -> Result<(), DiskRefusal>
    requires sfile { IsSFileName name.now }
    requires there { HasRange (x_file name.now) 2 5 (D.told disk.old) }
    ensures view { OnOk result (Becomes (altered (x_file name.now) (with_sum_line sum.now.0)) (seen (D.told disk.old))
        (seen (D.told disk.new))) }
    ensures only { OnlyWrites (x_file name.now) (D.told disk.old) (D.told disk.new) }
    ensures firm { OnOk result (Leaves (IsFirm (x_file name.now)) (D.told disk.old) (D.told disk.new)) }
    ensures causes { DiskCauses (IsErrOf result DiskRefusal.Failed) (D.faults disk.old) (D.faults disk.new) }
{
    write_sum(disk, &name.sibling(b'x'), sum.plain())
}

/// Removes one of the files of an s-file's name, by its first letter, where it is there.
pub fn clear_sibling<D: Disk>(disk: &mut D, name: &Name, letter: u8) -> Result<(), Failed>
    requires sfile { IsSFileName name.now }
    requires low { 97 ≤ letter }
    requires high { letter ≤ 122 }
    ensures view { OnOk result (Becomes (without_name (sibling letter name.now)) (seen (D.told disk.old))
        (seen (D.told disk.new))) }
    ensures view_err { OnErr result (Moves (bytes_eq (sibling letter name.now)) (λ v. v) (seen (D.told disk.old))
        (seen (D.told disk.new))) }
    ensures touches { TouchesOnly (bytes_eq (sibling letter name.now)) (D.told disk.old) (D.told disk.new) }
    ensures causes { DiskCauses (IsErr result) (D.faults disk.old) (D.faults disk.new) }
{
    clear(disk, &name.sibling(letter))
}

/// Removes the x-, q- and y-file of an s-file's name where they are there.
pub fn clear_working<D: Disk>(disk: &mut D, name: &Name) -> Result<(), Failed>
    requires { IsSFileName name.now }
    ensures view { OnOk result (Becomes (cleared name.now) (seen (D.told disk.old)) (seen (D.told disk.new))) }
    ensures view_err { OnErr result (Moves (is_working name.now) (λ v. v) (seen (D.told disk.old))
        (seen (D.told disk.new))) }
    ensures touches { TouchesOnly (is_working name.now) (D.told disk.old) (D.told disk.new) }
    ensures causes { DiskCauses (IsErr result) (D.faults disk.old) (D.faults disk.new) }
{
    clear_sibling(disk, name, b'x')?;
    clear_sibling(disk, name, b'q')?;
    clear_sibling(disk, name, b'y')
}

/// Removes the x-, q-, y- and z-file of an s-file's name where they are there.
pub fn abandon<D: Disk>(disk: &mut D, name: &Name) -> Result<(), Failed>
    requires { IsSFileName name.now }
    ensures view { OnOk result (Becomes (abandoned name.now) (seen (D.told disk.old)) (seen (D.told disk.new))) }
    ensures view_err { OnErr result (Moves (is_left name.now) (λ v. v) (seen (D.told disk.old))
        (seen (D.told disk.new))) }
    ensures touches { TouchesOnly (is_left name.now) (D.told disk.old) (D.told disk.new) }
    ensures causes { DiskCauses (IsErr result) (D.faults disk.old) (D.faults disk.new) }
{
    clear_working(disk, name)?;
    clear_sibling(disk, name, b'z')
}
