ghost use Rattle.std.specs.Prelude.{◌≡◌, ◌≢◌, ◌≤◌, ℕ, List, Some, Err, IfSome, true, false};
ghost use Rattle.sccs_base.specs.Stream.{Rose};
ghost use Rattle.sccs_disk.specs.Files.{View};
ghost use Rattle.sccs_disk.specs.Told.{seen};
ghost use Rattle.sccs_sid.specs.Moment.{IsMoment};
ghost use Rattle.sccs_sid.specs.declared.refusals.StepFault.TheVariants as faults;
ghost use Rattle.sccs_steps.specs.Actions.{RefusesWithin};
ghost use Rattle.sccs_delta.specs.DeltaStep.{delta_change, delta_checks};
ghost use Rattle.sccs_delta.specs.Locks.{delta_locked};
ghost use Rattle.sccs_delta.specs.Sizes.{HearsScript};

use crate::preparing::prepare_delta;
use crate::sizes::check_there;
use sccs_base::{Bytes, FILE_LIMIT, Name, Sink, Source, TakeFault, take_all};
use sccs_changes::{Change, Prepared};
use sccs_disk::Disk;
use sccs_sid::{Refusal, Stamp, StepFault};
use sccs_words::DeltaWords;
use std::alloc::Global;

/// delta on a name: a new version, by the script on standard input, of the version that the login has reserved.
/// POSIX, Shell and Utilities, delta.
#[derive(Drop)]
pub struct Delta<'a> {
    pub words: &'a DeltaWords,
    pub stamp: &'a Stamp,
    ghost valid: { IsMoment stamp.now.moment },
}

// the script, whole, where the s-file is there
fn hear<I: Source, D: Disk>(
    alloc: Global,
    name: &Name,
    input: &mut I,
    disk: &mut D,
) -> Result<Bytes, StepFault>
    ensures hears { (i : List ℕ) → I.left input.old ≡ Some i → IfSome (seen (D.told disk.old))
        (λ (v : View). HearsScript i (v name.now) result) }
    ensures checks { RefusesWithin delta_checks result }
    ensures same { D.told disk.new ≡ D.told disk.old }
    ensures heard { I.faults input.old ≤ I.faults input.new }
    ensures later { D.faults disk.old ≤ D.faults disk.new }
    ensures read { result ≡ Err faults.ReadFault → Rose (I.faults input.old) (I.faults input.new) }
    ensures write { result ≢ Err faults.WriteFault }
    ensures broke { result ≡ Err faults.DiskFault → Rose (D.faults disk.old) (D.faults disk.new) }
{
    check_there(disk, name)?;
    match take_all(alloc, input, FILE_LIMIT) {
        Ok(script) => Ok(script),
        Err(TakeFault::TooLong) => Err(StepFault::Refused(Refusal::TooLong)),
        Err(TakeFault::Failed) => Err(StepFault::ReadFault),
        Err(TakeFault::Memory) => Err(StepFault::Memory),
    }
}

impl Change for Delta<'_> {
    ghost change = { λ d. delta_change d.words.now d.stamp.now };

    ghost locked = { λ d. delta_locked d.words.now d.stamp.now };

    fn takes_input(&self) -> bool {
        true
    }

    fn prepare<I: Source, O: Sink, D: Disk>(
        &self,
        alloc: Global,
        name: &Name,
        input: &mut I,
        _out: &mut O,
        disk: &mut D,
    ) -> Result<Prepared, StepFault> {
        let script = hear(alloc, name, input, disk)?;
        prepare_delta(alloc, self.words, name, self.stamp, script.bytes(), disk)
    }
}
