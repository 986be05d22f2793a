ghost use Rattle.std.specs.Prelude.{◌≡◌, IsErr, OnErr, OnOk};
ghost use Rattle.sccs_disk.specs.Causes.{DiskCauses};
ghost use Rattle.sccs_disk.specs.Files.{View};
ghost use Rattle.sccs_disk.specs.Told.{seen};
ghost use Rattle.sccs_name_files.specs.StepFiles.{Moves};
ghost use Rattle.sccs_intents.specs.Intents.{intent_file};
ghost use Rattle.sccs_crash_points.specs.Unlocked.{KeepsOthers};
ghost use Rattle.sccs_store.specs.Commits.{Becomes};
ghost use Rattle.sccs_group.specs.Finishing.{CanClose, CompletesBy, FinishesBy, AreUnlocked};
ghost use Rattle.sccs_group.specs.Halfway.{IsHalfway, PlacesFirst, is_left_of_group, is_lock_of, is_own_of};
ghost use Rattle.sccs_group.specs.Halfway.{is_own_of_group};
ghost use Rattle.sccs_group.specs.Members.{AreMembers, AreNamed, HasGroup, closed, completed, each_by, placed};
ghost use Rattle.sccs_group.specs.Members.{unlocked};

use crate::calls::{clear, clear_sibling, place};
use crate::members::Member;
use sccs_base::{Failed, Name};
use sccs_disk::Disk;

// puts the new files of members in their places, one member after the other
fn place_all<D: Disk>(disk: &mut D, members: &[Member]) -> Result<(), Failed>
    requires { AreMembers members.now }
    ensures view { OnOk result (Becomes (each_by placed members.now) (seen (D.told disk.old))
        (seen (D.told disk.new))) }
    ensures halfway { OnErr result (PlacesFirst members.now (seen (D.told disk.old)) (seen (D.told disk.new))) }
    ensures story { FinishesBy (AreNamed members.now) (D.told disk.old) (D.told disk.new) }
    ensures others { KeepsOthers (is_own_of members.now) (D.told disk.old) (D.told disk.new) }
    ensures causes { DiskCauses (IsErr result) (D.faults disk.old) (D.faults disk.new) }
{
    for member in members {
        place(disk, member)?;
    }
    Ok(())
}

// removes the z-file of each member where it is there
fn unlock_all<D: Disk>(disk: &mut D, members: &[Member]) -> Result<(), Failed>
    requires { AreMembers members.now }
    ensures view { OnOk result (Becomes (each_by unlocked members.now) (seen (D.told disk.old))
        (seen (D.told disk.new))) }
    ensures moves { Moves (is_lock_of members.now) (λ (v : View). v) (seen (D.told disk.old)) (seen (D.told disk.new)) }
    ensures story { FinishesBy (AreUnlocked members.now) (D.told disk.old) (D.told disk.new) }
    ensures others { KeepsOthers (is_lock_of members.now) (D.told disk.old) (D.told disk.new) }
    ensures causes { DiskCauses (IsErr result) (D.faults disk.old) (D.faults disk.new) }
{
    for member in members {
        clear_sibling(disk, &member.entry.name, b'z')?;
    }
    Ok(())
}

// removes the intent, and then each z-file; then the names are synced
fn close<D: Disk>(disk: &mut D, intent: &Name, members: &[Member]) -> Result<(), Failed>
    requires intent { intent.now ≡ intent_file }
    requires members { AreMembers members.now }
    ensures view { OnOk result (Becomes (closed members.now) (seen (D.told disk.old)) (seen (D.told disk.new))) }
    ensures moves { Moves (is_left_of_group members.now) (λ (v : View). v) (seen (D.told disk.old))
        (seen (D.told disk.new)) }
    ensures story { FinishesBy (CanClose members.now) (D.told disk.old) (D.told disk.new) }
    ensures done { OnOk result (CompletesBy (CanClose members.now) (D.told disk.old) (D.told disk.new)) }
    ensures others { KeepsOthers (is_left_of_group members.now) (D.told disk.old) (D.told disk.new) }
    ensures causes { DiskCauses (IsErr result) (D.faults disk.old) (D.faults disk.new) }
{
    clear(disk, intent)?;
    unlock_all(disk, members)?;
    disk.sync_names()
}

/// Completes a group whose intent is there: for each member, in order, x goes over the s-file, q over
/// the p-file or the p-file is removed, y is removed, and the g-file where it goes; then the intent is
/// removed, then each z-file; then the names are synced. What isn't there is passed over, so it may be
/// begun again wherever it was stopped. It takes no memory.
pub fn complete<D: Disk>(disk: &mut D, intent: &Name, members: &[Member]) -> Result<(), Failed>
    requires intent { intent.now ≡ intent_file }
    requires members { AreMembers members.now }
    ensures view { OnOk result (Becomes (completed members.now) (seen (D.told disk.old)) (seen (D.told disk.new))) }
    ensures halfway { OnErr result (IsHalfway members.now (seen (D.told disk.old)) (seen (D.told disk.new))) }
    ensures story { FinishesBy (HasGroup members.now) (D.told disk.old) (D.told disk.new) }
    ensures done { OnOk result (CompletesBy (HasGroup members.now) (D.told disk.old) (D.told disk.new)) }
    ensures others { KeepsOthers (is_own_of_group members.now) (D.told disk.old) (D.told disk.new) }
    ensures causes { DiskCauses (IsErr result) (D.faults disk.old) (D.faults disk.new) }
{
    place_all(disk, members)?;
    close(disk, intent, members)
}
