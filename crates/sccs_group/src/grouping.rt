ghost use Rattle.std.specs.Prelude.{◌≡◌, ◌<◌, ◌≤◌, length, IfOk, IsErr, IsErrOf, OnErr, OnOk};
ghost use Rattle.std.specs.Str.{bytes_eq};
ghost use Rattle.sccs_disk.specs.Calls.{IsThere};
ghost use Rattle.sccs_disk.specs.Causes.{DiskCauses};
ghost use Rattle.sccs_disk.specs.Effects.{renamed};
ghost use Rattle.sccs_disk.specs.Files.{View};
ghost use Rattle.sccs_disk.specs.Told.{seen};
ghost use Rattle.sccs_name_files.specs.Touches.{TouchesOnly};
ghost use Rattle.sccs_intents.specs.Intents.{intent_file, plan_file};
ghost use Rattle.sccs_intents.specs.Written.{intent_text};
ghost use Rattle.sccs_crash_points.specs.Recovery.{without_name};
ghost use Rattle.sccs_crash_points.specs.Unlocked.{KeepsOthers};
ghost use Rattle.sccs_store.specs.Commits.{Becomes};
ghost use Rattle.sccs_group.specs.Ended.{CommitsGroup};
ghost use Rattle.sccs_group.specs.Grouping.{AnnounceEnds, AnnounceStops, GroupEnds, GroupStops, announced};
ghost use Rattle.sccs_group.specs.Halfway.{IsHalfway, is_own_of_group};
ghost use Rattle.sccs_group.specs.Members.{AreMembers, IsWritten, completed, entries_of};

use crate::finishing::complete;
use crate::members::{Member, Members};
use crate::names::{intent_name, plan_name};
use crate::plans::{drop_text, write_anew};
use sccs_base::{Bytes, Failed, Memory, Name};
use sccs_disk::{Disk, DiskRefusal};
use sccs_intents::{Entries, intent_text};
use std::alloc::Global;

// the plan becomes the intent, and the group is completed
fn announce<D: Disk>(
    disk: &mut D,
    plan: &Name,
    intent: &Name,
    members: &[Member],
) -> Result<(), Failed>
    requires plan { plan.now ≡ plan_file }
    requires intent { intent.now ≡ intent_file }
    requires there { IsThere plan.now (D.told disk.old) }
    requires members { AreMembers members.now }
    requires written { IsWritten members.now }
    ensures view { OnOk result (Becomes (λ (v : View). completed members.now (renamed plan_file intent_file v))
        (seen (D.told disk.old)) (seen (D.told disk.new))) }
    ensures halfway { OnErr result (IsHalfway members.now (seen (D.told disk.old)) (seen (D.told disk.new))) }
    ensures stops { OnErr result (AnnounceStops members.now (D.told disk.old) (D.told disk.new)) }
    ensures ends { OnOk result (AnnounceEnds members.now (D.told disk.old) (D.told disk.new)) }
    ensures others { KeepsOthers (is_own_of_group members.now) (D.told disk.old) (D.told disk.new) }
    ensures causes { DiskCauses (IsErr result) (D.faults disk.old) (D.faults disk.new) }
{
    disk.rename(plan, intent)?;
    complete(disk, intent, members)
}

// commits members with the text of their intent
fn commit_text<D: Disk>(
    disk: &mut D,
    plan: &Name,
    intent: &Name,
    text: &[u8],
    members: &[Member],
) -> Result<(), DiskRefusal>
    requires plan { plan.now ≡ plan_file }
    requires intent { intent.now ≡ intent_file }
    requires text { text.now ≡ intent_text (entries_of members.now) }
    requires members { AreMembers members.now }
    requires written { IsWritten members.now }
    ensures view { OnOk result (Becomes (λ (v : View). completed members.now (announced members.now v))
        (seen (D.told disk.old)) (seen (D.told disk.new))) }
    ensures halfway { OnErr result (IsHalfway members.now (seen (D.told disk.old)) (seen (D.told disk.new))) }
    ensures memory { IsErrOf result DiskRefusal.Memory → TouchesOnly (bytes_eq plan_file) (D.told disk.old)
        (D.told disk.new) }
    ensures gone { IsErrOf result DiskRefusal.Memory → Becomes (without_name plan_file) (seen (D.told disk.old))
        (seen (D.told disk.new)) }
    ensures stops { OnErr result (GroupStops members.now (D.told disk.old) (D.told disk.new)) }
    ensures ends { OnOk result (GroupEnds members.now (D.told disk.old) (D.told disk.new)) }
    ensures others { KeepsOthers (is_own_of_group members.now) (D.told disk.old) (D.told disk.new) }
    ensures causes { DiskCauses (IsErrOf result DiskRefusal.Failed) (D.faults disk.old) (D.faults disk.new) }
{
    write_anew(disk, plan, text)?;
    match announce(disk, plan, intent, members) {
        Ok(()) => Ok(()),
        Err(_) => Err(DiskRefusal::Failed),
    }
}

// the text of the intent of members
fn text_of_intent(alloc: Global, members: &[Member]) -> Result<Bytes, Memory>
    ensures { IfOk result (λ text. text ≡ intent_text (entries_of members.now)) }
{
    let mut entries = Entries::empty(alloc);
    for member in members {
        entries.push(member.entry)?;
    }
    intent_text(alloc, &entries)
}

/// Commits a group of 1 to 1,000 members that are prepared and whose names differ. The intent is written
/// as the plan, synced, and renamed; then the new files of each member, in order, take their places;
/// then the intent goes, and each z-file; then the names are synced. Memory comes only before the
/// renaming; then the plan is gone, and the members are prepared as before. Failed comes only where the
/// disk failed; recovery runs first then. A stop leaves what one could leave before the commit, or what
/// recovers to the new files of all members; after it, only the latter.
pub fn commit_group<D: Disk>(
    alloc: Global,
    members: &Members,
    disk: &mut D,
) -> Result<(), DiskRefusal>
    requires members { AreMembers members.now }
    requires some { 0 < length members.now }
    requires few { length members.now ≤ 1000 }
    ensures ends { CommitsGroup result members.now (D.told disk.old) (D.told disk.new) }
    ensures others { KeepsOthers (is_own_of_group members.now) (D.told disk.old) (D.told disk.new) }
    ensures causes { DiskCauses (IsErrOf result DiskRefusal.Failed) (D.faults disk.old) (D.faults disk.new) }
{
    let plan = plan_name();
    let list = members.items();
    match text_of_intent(alloc, list) {
        Ok(text) => commit_text(disk, &plan, &intent_name(), text.bytes(), list),
        Err(_) => Err(drop_text(disk, &plan)),
    }
}
