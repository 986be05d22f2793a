ghost use Rattle.std.specs.Prelude.{◌≡◌, ◌⊎◌, ◌≤◌, ℕ, List, Option, [], Err, false, true};
ghost use Rattle.sccs_base.specs.Name.{IsSFileName};
ghost use Rattle.sccs_base.specs.Stream.{Rose};
ghost use Rattle.sccs_disk.specs.Told.{seen};
ghost use Rattle.sccs_sid.specs.declared.refusals.StepFault.TheVariants as step;
ghost use Rattle.sccs_steps.specs.Actions.{SpeaksBy, Stepped};
ghost use Rattle.sccs_steps.specs.Calls.{scene, world};
ghost use Rattle.sccs_steps.specs.Causes.{Ignores, StepCauses, counts};
ghost use Rattle.sccs_crash_points.specs.Unlocked.{KeepsOthers, is_own};
ghost use Rattle.sccs_steps.specs.StepStops.{StepCrashPoints};
ghost use Rattle.sccs_steps.specs.Unlocked.{StepOthers, StepUnlocked};
ghost use Rattle.sccs_changes.specs.Changes.{IsReady, locking};
ghost use Rattle.sccs_name_files.specs.StepFiles.{is_left};
ghost use Rattle.sccs_name_files.specs.Touches.{TouchesOnly};
ghost use Rattle.sccs_changes.specs.Ends.{FinishesCommit, GivesUp};
ghost use Rattle.sccs_changes.specs.Stops.{Commits};

use crate::changes::Change;
use crate::prepared::Prepared;
use crate::reports::report;
use sccs_base::{Name, Sink, Source};
use sccs_disk::Disk;
use sccs_sid::{Refusal, StepFault};
use sccs_store::{LockFault, abandon, commit, lock};
use std::alloc::Global;

// commits what was prepared, and reports it
fn finish<O: Sink, E: Sink, D: Disk>(
    prepared: &Prepared,
    name: &Name,
    out: &mut O,
    err: &mut E,
    disk: &mut D,
) -> Result<(), StepFault>
    requires sfile { IsSFileName name.now }
    requires ready { IsReady name.now prepared.now (D.told disk.old) }
    ensures finishes { FinishesCommit result name.now prepared.now
        (world (seen (D.told disk.old)) (O.given out.old) (E.given err.old)) (world (seen (D.told disk.new))
        (O.given out.new) (E.given err.new)) }
    ensures commits { Commits result name.now prepared.now (D.told disk.old) (D.told disk.new) }
    ensures others { KeepsOthers (is_own name.now) (D.told disk.old) (D.told disk.new) }
    ensures none { prepared.now.report ≡ [] → O.given out.new ≡ O.given out.old }
    ensures causes { (input : ℕ) → StepCauses result
        (counts input (O.faults out.old) (E.faults err.old) (D.faults disk.old)) (counts input (O.faults out.new)
        (E.faults err.new) (D.faults disk.new)) }
{
    match commit(disk, name, prepared.new_s, prepared.new_p, prepared.new_g) {
        Ok(()) => report(prepared, out, err),
        Err(_) => Err(StepFault::DiskFault),
    }
}

// takes away what a change has made, and answers why it gave up; after a disk fault recovery does that
fn give_up<D: Disk>(fault: StepFault, name: &Name, disk: &mut D) -> Result<(), StepFault>
    requires { IsSFileName name.now }
    ensures touches { TouchesOnly (is_left name.now) (D.told disk.old) (D.told disk.new) }
    ensures gives_up { (out err : Option (List ℕ)) → GivesUp result fault name.now
        (world (seen (D.told disk.old)) out err) (world (seen (D.told disk.new)) out err) }
    ensures later { D.faults disk.old ≤ D.faults disk.new }
    ensures cause { result ≡ Err step.DiskFault → (fault ≡ step.DiskFault) × (D.faults disk.new ≡ D.faults disk.old)
        ⊎ Rose (D.faults disk.old) (D.faults disk.new) }
{
    if let StepFault::DiskFault = fault {
        return Err(fault);
    }
    match abandon(disk, name) {
        Ok(()) => Err(fault),
        Err(_) => Err(StepFault::DiskFault),
    }
}

/// Changes the files of a name whole or not at all: locks it, prepares the new files, and commits them; or
/// gives up, and nothing has changed. The report and the message are written after the commit. Where it
/// begins on a calm disk and the name is safe, a stop at any moment leaves what recovers as before it or as
/// after it; and it ends on a calm disk, unless the disk failed.
pub fn change_file<C: Change, I: Source, O: Sink, E: Sink, D: Disk>(
    alloc: Global,
    change: &C,
    name: &Name,
    input: &mut I,
    out: &mut O,
    err: &mut E,
    disk: &mut D,
) -> Result<(), StepFault>
    requires { IsSFileName name.now }
    ensures step { Stepped (locking (C.change change.now)) result name.now (I.left input.old)
        (scene (D.told disk.old) (O.given out.old) (E.given err.old)) (scene (D.told disk.new) (O.given out.new)
        (E.given err.new)) }
    ensures crash_points { StepCrashPoints (locking (C.change change.now)) result name.now (I.left input.old)
        (scene (D.told disk.old) (O.given out.old) (E.given err.old)) (scene (D.told disk.new) (O.given out.new)
        (E.given err.new)) }
    ensures unlocked { StepUnlocked (locking (C.change change.now)) name.now (D.told disk.old) (D.told disk.new) }
    ensures others { StepOthers (locking (C.change change.now)) name.now (D.told disk.old) (D.told disk.new) }
    ensures speaks { SpeaksBy (C.change change.now).could result name.now (E.given err.old) (E.given err.new) }
    ensures silent { (C.change change.now).silent ≡ true → O.given out.new ≡ O.given out.old }
    ensures ignores { (C.change change.now).takes ≡ false
        → Ignores step.ReadFault (I.left input.old) (I.left input.new) (I.faults input.old) (I.faults input.new)
        result }
    ensures causes { StepCauses result
        (counts (I.faults input.old) (O.faults out.old) (E.faults err.old) (D.faults disk.old))
        (counts (I.faults input.new) (O.faults out.new) (E.faults err.new) (D.faults disk.new)) }
{
    match lock(disk, name) {
        Ok(()) => {}
        Err(LockFault::Locked) => return Err(StepFault::Refused(Refusal::Locked)),
        Err(LockFault::Failed) => return Err(StepFault::DiskFault),
        Err(LockFault::Memory) => return Err(StepFault::Memory),
    }
    match change.prepare(alloc, name, input, out, disk) {
        Ok(prepared) => finish(&prepared, name, out, err, disk),
        Err(fault) => give_up(fault, name, disk),
    }
}
