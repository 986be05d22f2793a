ghost use Rattle.std.specs.Prelude.{◌≡◌, ◌≢◌, ℕ, List, Option, Bool, Ok, Err, is_some, IfOk, IfSome, IsErr, IsErrOf};
ghost use Rattle.std.specs.Prelude.{OnErr, OnOk};
ghost use Rattle.sccs_disk.specs.Causes.{DiskCauses};
ghost use Rattle.sccs_disk.specs.Files.{View};
ghost use Rattle.sccs_disk.specs.Told.{seen};
ghost use Rattle.sccs_intents.specs.Intents.{intent_file, intent_of, plan_file};
ghost use Rattle.sccs_crash_points.specs.Recovery.{without_name};
ghost use Rattle.sccs_crash_points.specs.Unlocked.{KeepsOthers};
ghost use Rattle.sccs_store.specs.Commits.{Becomes};
ghost use Rattle.sccs_sid.specs.declared.refusals.StepFault.TheVariants as step;
ghost use Rattle.sccs_group.specs.Ended.{FinishesGroup, step_result as step_result_spec};
ghost use Rattle.sccs_group.specs.Finishing.{Always, CompletesBy, FinishesBy};
ghost use Rattle.sccs_group.specs.Halfway.{IsHalfway, intended, is_own_of_group};
ghost use Rattle.sccs_group.specs.Members.{AreMembers};
ghost use Rattle.std.specs.Str.{bytes_eq};
ghost use Rattle.sccs_name_files.specs.Touches.{TouchesOnly};
ghost use Rattle.sccs_group.specs.declared.members.Member.{Member};
ghost use Rattle.sccs_group.specs.declared.recovering.GroupFault.{GroupFault};
ghost use Rattle.sccs_group.specs.declared.recovering.GroupFault.TheVariants as group;
ghost use Rattle.sccs_group.specs.Recovering.{IsBad, IsWellFormed, ReadsBytes, ReadsMembers, bare, group_finished};
ghost use Rattle.sccs_group.specs.Recovering.{intent_finished};

use crate::calls::clear;
use crate::finishing::complete;
use crate::members::{Member, Members};
use crate::names::{intent_name, plan_name};
use sccs_base::{Failed, Memory, Name};
use sccs_disk::Disk;
use sccs_intents::{Entries, IntentFault, read_intent};
use sccs_name_files::{WholeFault, read_whole};
use sccs_sid::{Refusal, StepFault};
use std::alloc::Global;

/// Why a group wasn't finished: this line of the intent, from 1, isn't of its form; the disk failed; or
/// want of memory.
#[derive(Clone, Copy, Debug, PartialEq, Eq)]
pub enum GroupFault {
    BadIntent(u64),
    Failed,
    Memory,
}

// the members that entries name
fn members_of(alloc: Global, entries: &Entries) -> Result<Members, Memory>
    ensures { IfOk result (λ members. members ≡ bare entries.now) }
{
    let mut members = Members::empty(alloc);
    for entry in entries.items() {
        members.push(Member {
            entry: *entry,
            removes_g: false,
        })?;
    }
    Ok(members)
}

// the members that an intent of these bytes names
fn read_bytes(alloc: Global, bytes: &[u8]) -> Result<Members, GroupFault>
    ensures members { IfOk result (λ members. AreMembers members) }
    ensures read { ReadsBytes bytes.now result }
    ensures form { IfOk result (λ (members : List Member). (line : ℕ) → intent_of bytes.now ≡ Err line → ⊥) }
{
    match read_intent(alloc, bytes) {
        Ok(entries) => match members_of(alloc, &entries) {
            Ok(members) => Ok(members),
            Err(_) => Err(GroupFault::Memory),
        },
        Err(IntentFault::BadIntent(line)) => Err(GroupFault::BadIntent(line)),
        Err(IntentFault::Memory) => Err(GroupFault::Memory),
    }
}

// the members that the intent names; None where it isn't there
fn read_members<D: Disk>(
    alloc: Global,
    disk: &mut D,
    intent: &Name,
) -> Result<Option<Members>, GroupFault>
    ensures told { IfSome (seen (D.told disk.old)) (λ (v : View). ReadsMembers (v intent.now) result) }
    ensures members { IfOk result (λ found. IfSome found (λ members. AreMembers members)) }
    ensures form { IfOk result (λ (found : Option (List Member)). IfSome (seen (D.told disk.old))
        (λ (v : View). IsWellFormed (v intent.now))) }
    ensures same { D.told disk.new ≡ D.told disk.old }
    ensures causes { DiskCauses (IsErrOf result GroupFault.Failed) (D.faults disk.old) (D.faults disk.new) }
{
    match read_whole(alloc, disk, intent) {
        Ok(bytes) => match read_bytes(alloc, bytes.bytes()) {
            Ok(members) => Ok(Some(members)),
            Err(fault) => Err(fault),
        },
        Err(WholeFault::Missing) => Ok(None),
        Err(WholeFault::TooLong) => Err(GroupFault::BadIntent(1)),
        Err(WholeFault::Failed) => Err(GroupFault::Failed),
        Err(WholeFault::Memory) => Err(GroupFault::Memory),
    }
}

// what is left of a group is done, where members were found; then the names are synced
fn finish_found<D: Disk>(
    disk: &mut D,
    intent: &Name,
    found: &Option<Members>,
) -> Result<bool, Failed>
    requires intent { intent.now ≡ intent_file }
    requires members { IfSome found.now (λ members. AreMembers members) }
    requires told { IfSome (seen (D.told disk.old)) (λ (v : View). ReadsMembers (v intent_file) (Ok found.now)) }
    ensures view { OnOk result (Becomes intent_finished (seen (D.told disk.old)) (seen (D.told disk.new))) }
    ensures halfway { OnErr result (IfSome (seen (D.told disk.old)) (λ (v : View). IsHalfway (intended v)
        (seen (D.told disk.old)) (seen (D.told disk.new)))) }
    ensures found { IfOk result (λ answer. answer ≡ is_some found.now) }
    ensures story { FinishesBy Always (D.told disk.old) (D.told disk.new) }
    ensures done { OnOk result (CompletesBy Always (D.told disk.old) (D.told disk.new)) }
    ensures others { IfSome (seen (D.told disk.old)) (λ (v : View). KeepsOthers (is_own_of_group (intended v))
        (D.told disk.old) (D.told disk.new)) }
    ensures causes { DiskCauses (IsErr result) (D.faults disk.old) (D.faults disk.new) }
{
    match found {
        None => match disk.sync_names() {
            Ok(()) => Ok(false),
            Err(fault) => Err(fault),
        },
        Some(members) => match complete(disk, intent, members.items()) {
            Ok(()) => Ok(true),
            Err(fault) => Err(fault),
        },
    }
}

// what is left of the group of an intent is done, where it is there; then the names are synced
fn finish_intent<D: Disk>(alloc: Global, disk: &mut D, intent: &Name) -> Result<bool, GroupFault>
    requires { intent.now ≡ intent_file }
    ensures view { OnOk result (Becomes intent_finished (seen (D.told disk.old)) (seen (D.told disk.new))) }
    ensures halfway { OnErr result (IfSome (seen (D.told disk.old)) (λ (v : View). IsHalfway (intended v)
        (seen (D.told disk.old)) (seen (D.told disk.new)))) }
    ensures found { IfOk result (λ found. IfSome (seen (D.told disk.old)) (λ (v : View). found ≡ is_some
        (v intent_file))) }
    ensures form { IfOk result (λ (found : Bool). IfSome (seen (D.told disk.old)) (λ (v : View). IsWellFormed
        (v intent_file))) }
    ensures bad { (line : ℕ) → result ≡ Err (GroupFault.BadIntent line)
        → (D.told disk.new ≡ D.told disk.old) × IfSome (seen (D.told disk.old))
        (λ (v : View). IsBad (v intent_file) line) }
    ensures memory { IsErrOf result GroupFault.Memory → D.told disk.new ≡ D.told disk.old }
    ensures story { FinishesBy Always (D.told disk.old) (D.told disk.new) }
    ensures done { OnOk result (CompletesBy Always (D.told disk.old) (D.told disk.new)) }
    ensures others { IfSome (seen (D.told disk.old)) (λ (v : View). KeepsOthers (is_own_of_group (intended v))
        (D.told disk.old) (D.told disk.new)) }
    ensures causes { DiskCauses (IsErrOf result GroupFault.Failed) (D.faults disk.old) (D.faults disk.new) }
{
    let found = read_members(alloc, disk, intent)?;
    match finish_found(disk, intent, &found) {
        Ok(answer) => Ok(answer),
        Err(_) => Err(GroupFault::Failed),
    }
}

// a plan goes, and what is left of a group is done
fn finish_named<D: Disk>(
    alloc: Global,
    disk: &mut D,
    plan: &Name,
    intent: &Name,
) -> Result<bool, GroupFault>
    requires plan { plan.now ≡ plan_file }
    requires intent { intent.now ≡ intent_file }
    ensures view { OnOk result (Becomes group_finished (seen (D.told disk.old)) (seen (D.told disk.new))) }
    ensures halfway { OnErr result (IfSome (seen (D.told disk.old)) (λ (v : View). IsHalfway (intended v)
        (seen (D.told disk.old)) (seen (D.told disk.new)))) }
    ensures found { IfOk result (λ found. IfSome (seen (D.told disk.old)) (λ (v : View). found ≡ is_some
        (v intent_file))) }
    ensures form { IfOk result (λ (found : Bool). IfSome (seen (D.told disk.old)) (λ (v : View). IsWellFormed
        (v intent_file))) }
    ensures bad { (line : ℕ) → result ≡ Err (GroupFault.BadIntent line)
        → Becomes (without_name plan_file) (seen (D.told disk.old)) (seen (D.told disk.new))
        × IfSome (seen (D.told disk.old)) (λ (v : View). IsBad (v intent_file) line) }
    ensures memory { IsErrOf result GroupFault.Memory → Becomes (without_name plan_file) (seen (D.told disk.old))
        (seen (D.told disk.new)) }
    ensures touches { (fault : GroupFault) → result ≡ Err fault → fault ≢ group.Failed
        → TouchesOnly (bytes_eq plan_file) (D.told disk.old) (D.told disk.new) }
    ensures story { FinishesBy Always (D.told disk.old) (D.told disk.new) }
    ensures done { OnOk result (CompletesBy Always (D.told disk.old) (D.told disk.new)) }
    ensures others { IfSome (seen (D.told disk.old)) (λ (v : View). KeepsOthers (is_own_of_group (intended v))
        (D.told disk.old) (D.told disk.new)) }
    ensures causes { DiskCauses (IsErrOf result GroupFault.Failed) (D.faults disk.old) (D.faults disk.new) }
{
    match clear(disk, plan) {
        Ok(()) => finish_intent(alloc, disk, intent),
        Err(_) => Err(GroupFault::Failed),
    }
}

// the same as the answer of a step
fn step_result(finished: Result<bool, GroupFault>) -> Result<bool, StepFault>
    ensures { result ≡ step_result_spec finished }
{
    match finished {
        Ok(there) => Ok(there),
        Err(GroupFault::BadIntent(line)) => Err(StepFault::Refused(Refusal::BadIntent(line))),
        Err(GroupFault::Failed) => Err(StepFault::DiskFault),
        Err(GroupFault::Memory) => Err(StepFault::Memory),
    }
}

/// Finishes a group that was stopped: a plan that is there is removed; where the intent is there, what is
/// left of the group is done, then the intent and each z-file are removed; it ends with a sync of the
/// names, and answers whether the intent was there. At BadIntent the intent stays. Each moment leaves what
/// recovers as a folder that a stop could leave at the start, so it may be stopped anywhere and run again.
pub fn finish_group<D: Disk>(alloc: Global, disk: &mut D) -> Result<bool, StepFault>
    ensures ends { FinishesGroup result (D.told disk.old) (D.told disk.new) }
    ensures others { IfSome (seen (D.told disk.old)) (λ (v : View). KeepsOthers (is_own_of_group (intended v))
        (D.told disk.old) (D.told disk.new)) }
    ensures causes { DiskCauses (result ≡ Err step.DiskFault) (D.faults disk.old) (D.faults disk.new) }
{
    step_result(finish_named(alloc, disk, &plan_name(), &intent_name()))
}
