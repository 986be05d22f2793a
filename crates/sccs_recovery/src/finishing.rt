ghost use Rattle.std.specs.Prelude.{◌≡◌, ℕ, Err, IfSome, List, OnOk};
ghost use Rattle.sccs_disk.specs.Causes.{DiskCauses};
ghost use Rattle.sccs_disk.specs.Files.{View};
ghost use Rattle.sccs_disk.specs.Told.{seen};
ghost use Rattle.sccs_base.specs.NameSets.{HasNames};
ghost use Rattle.sccs_step_lists.specs.Following.{RunsStepList};
ghost use Rattle.sccs_steps.specs.Settings.{SameLoans, setting};
ghost use Rattle.sccs_steps.specs.declared.faults.Fault.TheVariants as ends;
ghost use Rattle.sccs_recovery.specs.FinishingEnds.{BegunFinishing, FinishEnds, FinishOthers, WholeFinishing};
ghost use Rattle.sccs_recovery.specs.FinishingEnds.{status_of};
ghost use Rattle.sccs_recovery.specs.FinishStep.{finishing_step_list, freed_in};

use crate::freed_names::freed_names;
use crate::plans::lose_plan;
use sccs_base::{NameSet, Sink, Source};
use sccs_disk::{Disk, DiskRefusal};
use sccs_group::finish_group;
use sccs_sid::StepFault;
use sccs_steps::{Fault, Streams};
use std::alloc::Global;

// the status; an intent that isn't of its form is left to the names
fn status_of(finished: Result<bool, StepFault>) -> Result<u8, Fault>
    ensures { result ≡ status_of finished }
{
    match finished {
        Ok(_) => Ok(0),
        Err(StepFault::Refused(_)) => Ok(0),
        Err(StepFault::Memory) => Err(Fault::Memory),
        Err(StepFault::ReadFault) => Err(Fault::ReadFault),
        Err(StepFault::WriteFault) => Err(Fault::WriteFault),
        Err(StepFault::DiskFault) => Err(Fault::DiskFault),
    }
}

// finishes a group that was stopped; an intent that isn't of its form stays
fn finish_disk<D: Disk>(alloc: Global, disk: &mut D) -> Result<u8, Fault>
    ensures ends { FinishEnds result (D.told disk.old) (D.told disk.new) }
    ensures others { FinishOthers (D.told disk.old) (D.told disk.new) }
    ensures causes { DiskCauses (result ≡ Err ends.DiskFault) (D.faults disk.old) (D.faults disk.new) }
{
    status_of(finish_group(alloc, disk))
}

// the same, with the names that are freed
fn finish_names<D: Disk>(alloc: Global, disk: &mut D, freed: &mut NameSet) -> Result<u8, Fault>
    ensures ends { FinishEnds result (D.told disk.old) (D.told disk.new) }
    ensures others { FinishOthers (D.told disk.old) (D.told disk.new) }
    ensures causes { DiskCauses (result ≡ Err ends.DiskFault) (D.faults disk.old) (D.faults disk.new) }
    ensures freed { OnOk result (IfSome (seen (D.told disk.old)) (λ (v : View). HasNames freed.new (freed_in v))) }
{
    match freed_names(alloc, disk) {
        Ok(names) => {
            *freed = names;
            finish_disk(alloc, disk)
        }
        Err(DiskRefusal::Memory) => Err(lose_plan(disk)),
        Err(DiskRefusal::Failed) => Err(Fault::DiskFault),
    }
}

/// Finishes a group that was stopped: a plan goes; where an intent is there that has its form, what is left of
/// its group is done, and it goes. Nothing is written, and the status is 0. `freed` becomes the set of the names
/// of the intent that was finished, which aren't locked any more.
pub fn finish<I: Source, O: Sink, E: Sink, D: Disk>(
    alloc: Global,
    streams: &mut Streams<I, O, E, D>,
    freed: &mut NameSet,
) -> Result<u8, Fault>
    ensures loans { SameLoans streams.old streams.new }
    ensures left { (setting I.Source O.Sink E.Sink D.Disk streams.new).left
        ≡ (setting I.Source O.Sink E.Sink D.Disk streams.old).left }
    ensures heard { (setting I.Source O.Sink E.Sink D.Disk streams.new).faults.input
        ≡ (setting I.Source O.Sink E.Sink D.Disk streams.old).faults.input }
    ensures ends { FinishEnds result (setting I.Source O.Sink E.Sink D.Disk streams.old).stage.told
        (setting I.Source O.Sink E.Sink D.Disk streams.new).stage.told }
    ensures freed { OnOk result (IfSome (seen (setting I.Source O.Sink E.Sink D.Disk streams.old).stage.told)
        (λ (v : View). HasNames freed.new (freed_in v))) }
    ensures run { RunsStepList finishing_step_list (λ (i : List ℕ). Unit {0}) WholeFinishing BegunFinishing result
        (setting I.Source O.Sink E.Sink D.Disk streams.old) (setting I.Source O.Sink E.Sink D.Disk streams.new) }
{
    finish_names(alloc, streams.disk, freed)
}
