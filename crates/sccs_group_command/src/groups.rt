ghost use Rattle.std.specs.Prelude.{◌≡◌, ◌∷◌, [], None, codes, map, true, IfSome};
ghost use Rattle.sccs_base.specs.Name.{is_name};
ghost use Rattle.sccs_disk.specs.Files.{View};
ghost use Rattle.sccs_disk.specs.Told.{seen};
ghost use Rattle.sccs_intents.specs.Intents.{intent_file};
ghost use Rattle.sccs_group.specs.Halfway.{is_own_of_group};
ghost use Rattle.sccs_crash_points.specs.Unlocked.{BeginsUnlocked, KeepsOthers};
ghost use Rattle.sccs_changes.specs.PFiles.{ChangesDisk, OnlyReads};
ghost use Rattle.sccs_sid.specs.Moment.{IsMoment};
ghost use Rattle.sccs_sid.specs.Refusal.{number_of};
ghost use Rattle.sccs_sid.specs.declared.refusals.Refusal.TheVariants.{GroupPending};
ghost use Rattle.sccs_steps.specs.Actions.{RefusesWithin};
ghost use Rattle.sccs_steps.specs.Calls.{world};
ghost use Rattle.sccs_steps.specs.Causes.{StepCauses, counts};
ghost use Rattle.sccs_group_command.specs.GroupStep.{group_step, names_of};
ghost use Rattle.sccs_group_command.specs.Making.{ChecksNone, CommitCrashPoints, CommitsJoint, Finishes, GroupCauses};
ghost use Rattle.sccs_group_command.specs.Making.{GroupCrashPoints, IsJoint, MayCommit, MeetsGroup, SpeaksGroup};
ghost use Rattle.sccs_group_command.specs.Making.{is_own_of_names, member_of};
ghost use Rattle.sccs_group_command.specs.Preparing.{AreGrouped, ArePlain, made_names};

use crate::entries::GroupEntry;
use crate::joining::{Joint, joint_of};
use crate::prepared_entries::{NamedFault, PreparedEntry};
use crate::preparing::{abandon_all, prepare_all};
use sccs_base::{Name, Sink};
use sccs_changes::report;
use sccs_disk::{Disk, DiskRefusal};
use sccs_group::{commit_group, intent_name};
use sccs_sid::{Refusal, Stamp, StepFault};
use std::alloc::Global;

// the name that bytes are known to be
fn named(bytes: &[u8]) -> Name
    requires { is_name bytes.now ≡ true }
    ensures { result ≡ bytes.now }
{
    match Name::read(bytes) {
        Some(name) => name,
        None => unreachable!(),
    }
}

// the name of a group itself: `-`
fn own_name() -> Name
    ensures { result ≡ codes "-" }
{
    named(b"-")
}

// a group is refused while another one is pending
fn check_none<D: Disk>(disk: &mut D) -> Result<(), StepFault>
    ensures told { IfSome (seen (D.told disk.old)) (λ (v : View). ChecksNone result (v intent_file)) }
    ensures refuses { RefusesWithin (number_of GroupPending ∷ []) result }
    ensures frame { OnlyReads D.told D.faults disk.old disk.new result }
{
    match disk.size(&intent_name()) {
        Ok(None) => Ok(()),
        Ok(Some(_)) => Err(StepFault::Refused(Refusal::GroupPending)),
        Err(_) => Err(StepFault::DiskFault),
    }
}

// commits prepared entries, whose members and texts are made; where memory is wanting they are abandoned
fn commit_joint<D: Disk>(
    alloc: Global,
    joint: &Joint,
    made: &[PreparedEntry],
    disk: &mut D,
) -> Result<(), StepFault>
    requires members { joint.now.members ≡ map member_of made.now }
    requires may { MayCommit made.now }
    ensures others { KeepsOthers (is_own_of_group (map member_of made.now)) (D.told disk.old) (D.told disk.new) }
    ensures crash_points { CommitCrashPoints result made.now (D.told disk.old) (D.told disk.new) }
    ensures told { CommitsJoint result (made_names made.now) joint.now.members (seen (D.told disk.old))
        (seen (D.told disk.new)) }
    ensures causes { ChangesDisk D.faults disk.old disk.new result }
{
    match commit_group(alloc, &joint.members, disk) {
        Ok(()) => Ok(()),
        Err(DiskRefusal::Failed) => Err(StepFault::DiskFault),
        Err(DiskRefusal::Memory) => Err(abandon_all(StepFault::Memory, made, disk)),
    }
}

// commits prepared entries, and gives what is to be said of them
fn finish_joint<O: Sink, E: Sink, D: Disk>(
    alloc: Global,
    joint: &Joint,
    made: &[PreparedEntry],
    out: &mut O,
    err: &mut E,
    disk: &mut D,
) -> Result<(), StepFault>
    requires joint { IsJoint made.now joint.now }
    requires may { MayCommit made.now }
    ensures others { KeepsOthers (is_own_of_group (map member_of made.now)) (D.told disk.old) (D.told disk.new) }
    ensures crash_points { CommitCrashPoints result made.now (D.told disk.old) (D.told disk.new) }
    ensures told { Finishes result made.now (world (seen (D.told disk.old)) (O.given out.old) (E.given err.old))
        (world (seen (D.told disk.new)) (O.given out.new) (E.given err.new)) }
    ensures causes { StepCauses result (counts 0 (O.faults out.old) (E.faults err.old) (D.faults disk.old))
        (counts 0 (O.faults out.new) (E.faults err.new) (D.faults disk.new)) }
{
    commit_joint(alloc, joint, made, disk)?;
    report(&joint.said, out, err)
}

// commits prepared entries, and reports them
fn finish<O: Sink, E: Sink, D: Disk>(
    alloc: Global,
    made: &[PreparedEntry],
    out: &mut O,
    err: &mut E,
    disk: &mut D,
) -> Result<(), StepFault>
    requires { MayCommit made.now }
    ensures others { KeepsOthers (is_own_of_group (map member_of made.now)) (D.told disk.old) (D.told disk.new) }
    ensures crash_points { CommitCrashPoints result made.now (D.told disk.old) (D.told disk.new) }
    ensures told { Finishes result made.now (world (seen (D.told disk.old)) (O.given out.old) (E.given err.old))
        (world (seen (D.told disk.new)) (O.given out.new) (E.given err.new)) }
    ensures causes { StepCauses result (counts 0 (O.faults out.old) (E.faults err.old) (D.faults disk.old))
        (counts 0 (O.faults out.new) (E.faults err.new) (D.faults disk.new)) }
{
    match joint_of(alloc, made) {
        Ok(joint) => finish_joint(alloc, &joint, made, out, err, disk),
        Err(_) => Err(abandon_all(StepFault::Memory, made, disk)),
    }
}

// makes the deltas of a group while no other one is pending
fn make_free<O: Sink, E: Sink, D: Disk>(
    alloc: Global,
    stamp: &Stamp,
    entries: &[GroupEntry],
    out: &mut O,
    err: &mut E,
    disk: &mut D,
) -> Result<(), NamedFault>
    requires moment { IsMoment stamp.now.moment }
    requires entries { AreGrouped entries.now }
    requires none { IfSome (seen (D.told disk.old)) (λ (v : View). v intent_file ≡ None) }
    ensures others { KeepsOthers (is_own_of_names (names_of entries.now)) (D.told disk.old) (D.told disk.new) }
    ensures unlocked { ArePlain (names_of entries.now) → BeginsUnlocked (D.told disk.old) (D.told disk.new) }
    ensures crash_points { ArePlain (names_of entries.now) → GroupCrashPoints result (names_of entries.now)
        (λ (v : View). group_step stamp.now v entries.now) (D.told disk.old) (D.told disk.new) }
    ensures told { ArePlain (names_of entries.now) → MeetsGroup result (names_of entries.now)
        (λ (v : View). group_step stamp.now v entries.now)
        (world (seen (D.told disk.old)) (O.given out.old) (E.given err.old)) (world (seen (D.told disk.new))
        (O.given out.new) (E.given err.new)) }
    ensures speaks { SpeaksGroup result (E.given err.old) (E.given err.new) }
    ensures causes { GroupCauses result (O.faults out.old) (O.faults out.new) (E.faults err.old) (E.faults err.new)
        (D.faults disk.old) (D.faults disk.new) }
{
    let made = prepare_all(alloc, stamp, entries, disk)?;
    match finish(alloc, made.items(), out, err, disk) {
        Ok(()) => Ok(()),
        Err(fault) => Err(NamedFault {
            name: own_name(),
            fault,
        }),
    }
}

/// Makes the deltas of a group whole or not at all: each entry is locked and prepared, then all are committed
/// together, and only then reports and warnings are written. The first refusal is answered with its name; then
/// nothing has changed. It is refused as a whole while another group is pending.
pub fn make_group<O: Sink, E: Sink, D: Disk>(
    alloc: Global,
    stamp: &Stamp,
    entries: &[GroupEntry],
    out: &mut O,
    err: &mut E,
    disk: &mut D,
) -> Result<(), NamedFault>
    requires moment { IsMoment stamp.now.moment }
    requires entries { AreGrouped entries.now }
    ensures others { KeepsOthers (is_own_of_names (names_of entries.now)) (D.told disk.old) (D.told disk.new) }
    ensures unlocked { ArePlain (names_of entries.now) → BeginsUnlocked (D.told disk.old) (D.told disk.new) }
    ensures crash_points { ArePlain (names_of entries.now) → GroupCrashPoints result (names_of entries.now)
        (λ (v : View). group_step stamp.now v entries.now) (D.told disk.old) (D.told disk.new) }
    ensures told { ArePlain (names_of entries.now) → MeetsGroup result (names_of entries.now)
        (λ (v : View). group_step stamp.now v entries.now)
        (world (seen (D.told disk.old)) (O.given out.old) (E.given err.old)) (world (seen (D.told disk.new))
        (O.given out.new) (E.given err.new)) }
    ensures speaks { SpeaksGroup result (E.given err.old) (E.given err.new) }
    ensures causes { GroupCauses result (O.faults out.old) (O.faults out.new) (E.faults err.old) (E.faults err.new)
        (D.faults disk.old) (D.faults disk.new) }
{
    match check_none(disk) {
        Ok(()) => make_free(alloc, stamp, entries, out, err, disk),
        Err(fault) => Err(NamedFault {
            name: own_name(),
            fault,
        }),
    }
}
