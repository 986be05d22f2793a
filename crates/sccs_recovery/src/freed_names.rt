ghost use Rattle.std.specs.Prelude.{◌≡◌, [], IfOk, IfSome, IsErrOf};
ghost use Rattle.sccs_disk.specs.Causes.{DiskCauses};
ghost use Rattle.sccs_disk.specs.Files.{View};
ghost use Rattle.sccs_disk.specs.Told.{seen};
ghost use Rattle.sccs_intents.specs.Intents.{intent_of, well_formed};
ghost use Rattle.sccs_base.specs.NameSets.{HasNames};
ghost use Rattle.sccs_recovery.specs.FinishStep.{freed_in, names_of};

use sccs_base::{Memory, NameSet, insert_name};
use sccs_disk::{Disk, DiskRefusal};
use sccs_group::intent_name;
use sccs_intents::{Entries, IntentFault, read_intent};
use sccs_name_files::{WholeFault, read_whole};
use std::alloc::Global;
use std::collections::BTreeSet;

// no name
fn no_names(alloc: Global) -> NameSet
    ensures { HasNames result (names_of []) }
{
    BTreeSet::new(alloc)
}

// the names of entries
fn entry_names(alloc: Global, entries: &Entries) -> Result<NameSet, Memory>
    ensures { IfOk result (λ set. HasNames set (names_of entries.now)) }
{
    let mut set = BTreeSet::new(alloc);
    for entry in entries.items() {
        insert_name(&mut set, alloc, entry.name.bytes())?;
    }
    Ok(set)
}

// the names of an intent of these bytes; none where it isn't of its form
fn text_names(alloc: Global, bytes: &[u8]) -> Result<NameSet, Memory>
    ensures { IfOk result (λ set. HasNames set (names_of (well_formed (intent_of bytes.now)))) }
{
    match read_intent(alloc, bytes) {
        Ok(entries) => entry_names(alloc, &entries),
        Err(IntentFault::BadIntent(_)) => Ok(no_names(alloc)),
        Err(IntentFault::Memory) => Err(Memory),
    }
}

/// The names that finishing a group frees: those of the intent, where it is there and has its form.
pub fn freed_names<D: Disk>(alloc: Global, disk: &mut D) -> Result<NameSet, DiskRefusal>
    ensures told { IfOk result (λ set. IfSome (seen (D.told disk.old)) (λ (v : View). HasNames set (freed_in v))) }
    ensures same { D.told disk.new ≡ D.told disk.old }
    ensures causes { DiskCauses (IsErrOf result DiskRefusal.Failed) (D.faults disk.old) (D.faults disk.new) }
{
    match read_whole(alloc, disk, &intent_name()) {
        Ok(bytes) => match text_names(alloc, bytes.bytes()) {
            Ok(set) => Ok(set),
            Err(_) => Err(DiskRefusal::Memory),
        },
        Err(WholeFault::Missing) => Ok(no_names(alloc)),
        Err(WholeFault::TooLong) => Ok(no_names(alloc)),
        Err(WholeFault::Failed) => Err(DiskRefusal::Failed),
        Err(WholeFault::Memory) => Err(DiskRefusal::Memory),
    }
}
