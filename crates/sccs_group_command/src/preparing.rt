ghost use Rattle.std.specs.Prelude.{◌≡◌, ◌⊎◌, ◌≤◌, ◌∷◌, [], Err, IfOk, OnErr, OnOk};
ghost use Rattle.std.specs.List.{AllByRecursion};
ghost use Rattle.sccs_base.specs.Name.{IsSFileName};
ghost use Rattle.sccs_base.specs.Stream.{Rose};
ghost use Rattle.sccs_disk.specs.Files.{View};
ghost use Rattle.sccs_disk.specs.Told.{seen};
ghost use Rattle.sccs_name_files.specs.StepFiles.{is_left};
ghost use Rattle.sccs_name_files.specs.Touches.{TouchesOnly};
ghost use Rattle.sccs_changes.specs.PFiles.{ChangesDisk};
ghost use Rattle.sccs_sid.specs.Moment.{IsMoment};
ghost use Rattle.sccs_sid.specs.declared.refusals.StepFault.TheVariants as step;
ghost use Rattle.sccs_changes.specs.Changes.{CouldPrepare};
ghost use Rattle.sccs_group_command.specs.GroupStep.{could_entry, entry_outcome, entry_steps, names_of};
ghost use Rattle.sccs_group_command.specs.Preparing.{AddsEntry, AllCauses, AreDifferent, AreMade, ArePlain, Between};
ghost use Rattle.sccs_group_command.specs.Preparing.{CouldAdd, CouldPrepareAll, GivesAllBack, GivesBack, IsAdded};
ghost use Rattle.sccs_group_command.specs.Preparing.{IsFirmEntry, IsNamed, LosesNothing, LosesOfSound, PreparesAll};
ghost use Rattle.sccs_group_command.specs.Preparing.{PreparesEntry, is_any_left, made_names};

use crate::entries::GroupEntry;
use crate::prepared_entries::{NamedFault, PreparedEntries, PreparedEntry};
use sccs_base::Name;
use sccs_changes::Prepared;
use sccs_delta::prepare_delta;
use sccs_disk::Disk;
use sccs_sid::{Refusal, Stamp, StepFault};
use sccs_store::{LockFault, abandon, lock};
use std::alloc::Global;

// takes away what was prepared of a name, and answers why; after a disk fault recovery does that
fn give_up<D: Disk>(fault: StepFault, name: &Name, disk: &mut D) -> StepFault
    requires { IsSFileName name.now }
    ensures gives_back { GivesBack result fault name.now (seen (D.told disk.old)) (seen (D.told disk.new)) }
    ensures touches { TouchesOnly (is_left name.now) (D.told disk.old) (D.told disk.new) }
    ensures later { D.faults disk.old ≤ D.faults disk.new }
    ensures cause { result ≡ step.DiskFault → (fault ≡ step.DiskFault) × (D.faults disk.new ≡ D.faults disk.old)
        ⊎ Rose (D.faults disk.old) (D.faults disk.new) }
{
    if let StepFault::DiskFault = fault {
        return fault;
    }
    match abandon(disk, name) {
        Ok(()) => fault,
        Err(_) => StepFault::DiskFault,
    }
}

/// Prepares the delta of an entry: the name is checked and locked, and the new files are written as working
/// files. Where it ends otherwise, they and the lock are gone, unless the disk failed.
pub fn prepare_entry<D: Disk>(
    alloc: Global,
    stamp: &Stamp,
    entry: &GroupEntry,
    disk: &mut D,
) -> Result<Prepared, StepFault>
    requires { IsMoment stamp.now.moment }
    ensures told { Between (λ (u v : View). PreparesEntry result entry.now.name (entry_outcome stamp.now u entry.now) u
        v) (seen (D.told disk.old)) (seen (D.told disk.new)) }
    ensures firm { IfOk result (λ p. IsFirmEntry entry.now.name p (D.told disk.old) (D.told disk.new)) }
    ensures touches { TouchesOnly (is_left entry.now.name) (D.told disk.old) (D.told disk.new) }
    ensures before { LosesNothing (entry.now.name ∷ []) (D.told disk.old) (D.told disk.new) }
    ensures speaks { CouldPrepare could_entry result }
    ensures causes { ChangesDisk D.faults disk.old disk.new result }
{
    let name = &entry.name;
    if !name.is_sfile() {
        return Err(StepFault::Refused(Refusal::BadName));
    }
    match lock(disk, name) {
        Ok(()) => {}
        Err(LockFault::Locked) => return Err(StepFault::Refused(Refusal::Locked)),
        Err(LockFault::Failed) => return Err(StepFault::DiskFault),
        Err(LockFault::Memory) => return Err(StepFault::Memory),
    }
    let script = entry.script.bytes();
    match prepare_delta(alloc, &entry.words, name, stamp, script, disk) {
        Ok(prepared) => Ok(prepared),
        Err(fault) => Err(give_up(fault, name, disk)),
    }
}

// prepares an entry, and puts it behind those that are prepared
fn add_entry<D: Disk>(
    alloc: Global,
    stamp: &Stamp,
    entry: &GroupEntry,
    made: &mut PreparedEntries,
    disk: &mut D,
) -> Result<(), StepFault>
    requires { IsMoment stamp.now.moment }
    ensures told { Between (λ (u v : View). AddsEntry result entry.now.name (entry_outcome stamp.now u entry.now)
        made.old made.new u v) (seen (D.told disk.old)) (seen (D.told disk.new)) }
    ensures added { OnOk result (IsAdded entry.now.name made.old made.new (D.told disk.old) (D.told disk.new)) }
    ensures same { OnErr result (made.new ≡ made.old) }
    ensures touches { TouchesOnly (is_left entry.now.name) (D.told disk.old) (D.told disk.new) }
    ensures before { LosesNothing (entry.now.name ∷ []) (D.told disk.old) (D.told disk.new) }
    ensures speaks { CouldAdd result made.old made.new }
    ensures causes { ChangesDisk D.faults disk.old disk.new result }
{
    let prepared = prepare_entry(alloc, stamp, entry, disk)?;
    let name = entry.name;
    match made.push(PreparedEntry { name, prepared }) {
        Ok(()) => Ok(()),
        Err(_) => Err(give_up(StepFault::Memory, &name, disk)),
    }
}

/// Takes away what was prepared of entries, in their order, and answers why; after a disk fault recovery does
/// that.
pub fn abandon_all<D: Disk>(fault: StepFault, made: &[PreparedEntry], disk: &mut D) -> StepFault
    requires { AllByRecursion IsNamed (made_names made.now) }
    ensures gives_back { GivesAllBack result fault (made_names made.now) (seen (D.told disk.old))
        (seen (D.told disk.new)) }
    ensures touches { TouchesOnly (is_any_left (made_names made.now)) (D.told disk.old) (D.told disk.new) }
    ensures before { LosesOfSound (made_names made.now) (D.told disk.old) (D.told disk.new) }
    ensures later { D.faults disk.old ≤ D.faults disk.new }
    ensures cause { result ≡ step.DiskFault → (fault ≡ step.DiskFault) × (D.faults disk.new ≡ D.faults disk.old)
        ⊎ Rose (D.faults disk.old) (D.faults disk.new) }
{
    let mut fault = fault;
    for entry in made {
        fault = give_up(fault, &entry.name, disk);
    }
    fault
}

/// Prepares the entries of a group, one after the other. Where one ends otherwise, those before it are abandoned,
/// and the answer has its name.
pub fn prepare_all<D: Disk>(
    alloc: Global,
    stamp: &Stamp,
    entries: &[GroupEntry],
    disk: &mut D,
) -> Result<PreparedEntries, NamedFault>
    requires moment { IsMoment stamp.now.moment }
    requires different { AreDifferent (names_of entries.now) }
    ensures told { ArePlain (names_of entries.now) → Between (λ (u v : View). PreparesAll result (names_of entries.now)
        (entry_steps stamp.now u entries.now) u v) (seen (D.told disk.old)) (seen (D.told disk.new)) }
    ensures made { IfOk result (λ made. AreMade made (names_of entries.now) (D.told disk.old) (D.told disk.new)) }
    ensures touches { TouchesOnly (is_any_left (names_of entries.now)) (D.told disk.old) (D.told disk.new) }
    ensures before { ArePlain (names_of entries.now) → LosesNothing (names_of entries.now) (D.told disk.old)
        (D.told disk.new) }
    ensures speaks { CouldPrepareAll result }
    ensures causes { AllCauses D.faults disk.old disk.new result }
{
    let mut made = PreparedEntries::empty(alloc);
    for entry in entries {
        match add_entry(alloc, stamp, entry, &mut made, disk) {
            Ok(()) => {}
            Err(fault) => {
                let fault = abandon_all(fault, made.items(), disk);
                return Err(NamedFault {
                    name: entry.name,
                    fault,
                });
            }
        }
    }
    Ok(made)
}
