ghost use Rattle.std.specs.Prelude.{◌≡◌, ◌≢◌, ◌↔◌, ◌≤◌, false, Err, None, IfOk, IfSome, IsErrOf, OnErr, OnOk};
ghost use Rattle.std.specs.Prelude.{option_map, IsErr};
ghost use Rattle.sccs_base.specs.Name.{IsSFileName, p_file, q_file, y_file, z_file};
ghost use Rattle.sccs_base.specs.Stream.{Rose};
ghost use Rattle.sccs_disk.specs.Calls.{IsThere};
ghost use Rattle.sccs_disk.specs.Files.{View};
ghost use Rattle.sccs_disk.specs.Images.{IsFirm};
ghost use Rattle.sccs_disk.specs.Told.{seen};
ghost use Rattle.sccs_name_files.specs.StepFiles.{AreCleared, Moves, MovesPartly, is_left, is_working};
ghost use Rattle.sccs_name_files.specs.Touches.{Leaves, TouchesOnly};
ghost use Rattle.sccs_crash_points.specs.CrashPoints.{LeavesCalm, LeavesFirm, RecoversOn};
ghost use Rattle.sccs_crash_points.specs.Recovery.{cleared, recover_alone, without_name};
ghost use Rattle.sccs_crash_points.specs.Unlocked.{KeepsOthers, is_own};
ghost use Rattle.sccs_sid.specs.declared.refusals.Refusal.{Refusal};
ghost use Rattle.sccs_sid.specs.declared.refusals.StepFault.TheVariants as step;
ghost use Rattle.sccs_store.specs.Commits.{Becomes, Needs, committed, plan};
ghost use Rattle.sccs_store.specs.Stops.{OnReplace};
ghost use Rattle.sccs_store.specs.declared.new_files.NewFile.TheVariants.{Keep};
ghost use Rattle.sccs_recovery.specs.Checks.{IsWithin, PassesChecks, checked, readable};
ghost use Rattle.sccs_recovery.specs.Ends.{RecoversName};
ghost use Rattle.sccs_recovery.specs.Entries.{HasEntries, PreparesLeft, Recovers, new_of};
ghost use Rattle.sccs_disk.specs.Causes.{DiskCauses};

use crate::entries_left::PfileLeft;
use crate::readings::read_left;
use sccs_base::{Failed, Name};
use sccs_disk::{Disk, DiskRefusal};
use sccs_sid::StepFault;
use sccs_store::{NewFile, clear_sibling, clear_working, commit, prepare_p};
use std::alloc::Global;

/// Whether a step was stopped on a name.
#[derive(Clone, Copy, Debug, PartialEq, Eq)]
pub enum Recovered {
    /// Its z-file wasn't there.
    Clean,
    /// What a step had begun is finished or undone.
    Recovered,
}

// prepares the q-file, where entries are left of a p-file that loses some
fn prepare_left<D: Disk>(
    left: &PfileLeft,
    disk: &mut D,
    name: &Name,
) -> Result<NewFile, DiskRefusal>
    requires sfile { IsSFileName name.now }
    requires entries { HasEntries left.now }
    ensures new { IfOk result (λ new. new ≡ new_of left.now) }
    ensures view { OnOk result (PreparesLeft name.now left.now (seen (D.told disk.old)) (seen (D.told disk.new))) }
    ensures moves { Moves (is_working name.now) (λ v. v) (seen (D.told disk.old)) (seen (D.told disk.new)) }
    ensures touches { TouchesOnly (is_working name.now) (D.told disk.old) (D.told disk.new) }
    ensures firm { IfOk result (λ new. OnReplace new (Leaves (IsFirm (q_file name.now)) (D.told disk.old)
        (D.told disk.new))) }
    ensures causes { DiskCauses (IsErrOf result DiskRefusal.Failed) (D.faults disk.old) (D.faults disk.new) }
{
    match left {
        PfileLeft::Same => Ok(NewFile::Keep),
        PfileLeft::Gone => Ok(NewFile::Remove),
        PfileLeft::Others(edits) => match prepare_p(edits, disk, name) {
            Ok(()) => Ok(NewFile::Replace),
            Err(fault) => Err(fault),
        },
    }
}

// removes the working files, and prepares what a commit then makes of the p-file
fn prepare<D: Disk>(left: &PfileLeft, disk: &mut D, name: &Name) -> Result<NewFile, DiskRefusal>
    requires sfile { IsSFileName name.now }
    requires z { IsThere (z_file name.now) (D.told disk.old) }
    requires entries { HasEntries left.now }
    requires left { IfSome (seen (D.told disk.old)) (λ (v : View). Recovers (v name.now) (v (p_file name.now))
        left.now) }
    ensures view { IfOk result (λ new. option_map (committed name.now (plan false new Keep)) (seen (D.told disk.new))
        ≡ option_map (recover_alone name.now) (seen (D.told disk.old))) }
    ensures z { OnOk result (IsThere (z_file name.now) (D.told disk.new)) }
    ensures needs { IfOk result (λ new. Needs new (q_file name.now) (p_file name.now) (D.told disk.new)) }
    ensures moves { Moves (is_working name.now) (λ v. v) (seen (D.told disk.old)) (seen (D.told disk.new)) }
    ensures touches { TouchesOnly (is_working name.now) (D.told disk.old) (D.told disk.new) }
    ensures firm { IfOk result (λ new. OnReplace new (Leaves (IsFirm (q_file name.now)) (D.told disk.old)
        (D.told disk.new))) }
    ensures causes { DiskCauses (IsErrOf result DiskRefusal.Failed) (D.faults disk.old) (D.faults disk.new) }
{
    match clear_working(disk, name) {
        Ok(()) => prepare_left(left, disk, name),
        Err(_) => Err(DiskRefusal::Failed),
    }
}

// takes away what was prepared, where memory is wanting
fn give_up<D: Disk>(disk: &mut D, name: &Name) -> StepFault
    requires { IsSFileName name.now }
    ensures accepts { (refusal : Refusal) → result ≡ step.Refused refusal → ⊥ }
    ensures moves { Moves (is_working name.now) (λ v. v) (seen (D.told disk.old)) (seen (D.told disk.new)) }
    ensures view { result ≡ step.Memory → Becomes (cleared name.now) (seen (D.told disk.old)) (seen (D.told disk.new)) }
    ensures touches { TouchesOnly (is_working name.now) (D.told disk.old) (D.told disk.new) }
    ensures later { D.faults disk.old ≤ D.faults disk.new }
    ensures cause { result ≡ step.DiskFault → Rose (D.faults disk.old) (D.faults disk.new) }
    ensures read { result ≢ step.ReadFault }
    ensures write { result ≢ step.WriteFault }
{
    match clear_working(disk, name) {
        Ok(()) => StepFault::Memory,
        Err(_) => StepFault::DiskFault,
    }
}

// finishes or undoes what a step had begun
fn finish<D: Disk>(left: &PfileLeft, disk: &mut D, name: &Name) -> Result<(), StepFault>
    requires sfile { IsSFileName name.now }
    requires z { IsThere (z_file name.now) (D.told disk.old) }
    requires entries { HasEntries left.now }
    requires left { IfSome (seen (D.told disk.old)) (λ (v : View). Recovers (v name.now) (v (p_file name.now))
        left.now) }
    ensures view { OnOk result (Becomes (recover_alone name.now) (seen (D.told disk.old)) (seen (D.told disk.new))) }
    ensures accepts { (refusal : Refusal) → result ≡ Err (step.Refused refusal) → ⊥ }
    ensures memory { IsErrOf result StepFault.Memory → Moves (is_working name.now) (λ v. v) (seen (D.told disk.old))
        (seen (D.told disk.new)) }
    ensures cleared { IsErrOf result StepFault.Memory → AreCleared name.now (seen (D.told disk.old))
        (seen (D.told disk.new)) }
    ensures touches { IsErrOf result StepFault.Memory → TouchesOnly (is_working name.now) (D.told disk.old)
        (D.told disk.new) }
    ensures others { KeepsOthers (is_own name.now) (D.told disk.old) (D.told disk.new) }
    ensures partly { IsErrOf result StepFault.DiskFault → MovesPartly (is_left name.now) (recover_alone name.now)
        (seen (D.told disk.old)) (seen (D.told disk.new)) }
    ensures story { RecoversOn (D.told disk.old) (D.told disk.new) }
    ensures calm { OnOk result (LeavesCalm (D.told disk.old) (D.told disk.new)) }
    ensures firm { LeavesFirm (D.told disk.old) (D.told disk.new) }
    ensures causes { DiskCauses (IsErrOf result StepFault.DiskFault) (D.faults disk.old) (D.faults disk.new) }
    ensures within { IsWithin result }
{
    match prepare(left, disk, name) {
        Ok(new_p) => match commit(disk, name, false, new_p, NewFile::Keep) {
            Ok(()) => Ok(()),
            Err(_) => Err(StepFault::DiskFault),
        },
        Err(DiskRefusal::Failed) => Err(StepFault::DiskFault),
        Err(DiskRefusal::Memory) => Err(give_up(disk, name)),
    }
}

// recovers a name whose z-file is there
fn unlock<D: Disk>(alloc: Global, disk: &mut D, name: &Name) -> Result<(), StepFault>
    requires sfile { IsSFileName name.now }
    requires z { IsThere (z_file name.now) (D.told disk.old) }
    ensures checks { IfSome (seen (D.told disk.old)) (λ (v : View). PassesChecks
        (readable (v name.now) (v (p_file name.now))) result) }
    ensures ends { RecoversName name.now (D.told disk.old) (D.told disk.new) (D.faults disk.old) (D.faults disk.new)
        result }
{
    let left = read_left(alloc, disk, name)?;
    finish(&left, disk, name)
}

// recovers a name whose z-file isn't there: its y-file goes
fn tidy<D: Disk>(disk: &mut D, name: &Name) -> Result<(), Failed>
    requires { IsSFileName name.now }
    ensures view { OnOk result (Becomes (without_name (y_file name.now)) (seen (D.told disk.old))
        (seen (D.told disk.new))) }
    ensures view_err { OnErr result (Moves (is_working name.now) (λ v. v) (seen (D.told disk.old))
        (seen (D.told disk.new))) }
    ensures others { KeepsOthers (is_own name.now) (D.told disk.old) (D.told disk.new) }
    ensures story { RecoversOn (D.told disk.old) (D.told disk.new) }
    ensures calm { OnOk result (LeavesCalm (D.told disk.old) (D.told disk.new)) }
    ensures firm { LeavesFirm (D.told disk.old) (D.told disk.new) }
    ensures causes { DiskCauses (IsErr result) (D.faults disk.old) (D.faults disk.new) }
{
    clear_sibling(disk, name, b'y')?;
    disk.sync_names()
}

/// Finishes or undoes what a step that was stopped had begun on a name. Where its z-file is there, the
/// x-, q- and y-file are removed, entries whose SID to be made is live leave the p-file, z is removed,
/// and the names are synced. Where it isn't there, a y-file is removed, the names are synced, and the
/// answer is Clean. It may be stopped at any moment and run again: a stop leaves what recovers to the
/// s-files and p-files that a stop could leave at its start, and s-files and p-files stay firm. At Ok the
/// disk is calm. The checks are made only where the z-file is there, and at a refusal nothing has changed.
pub fn recover<D: Disk>(alloc: Global, disk: &mut D, name: &Name) -> Result<Recovered, StepFault>
    requires { IsSFileName name.now }
    ensures clean { IfOk result (λ answer. IfSome (seen (D.told disk.old)) (λ (v : View). (answer ≡ Recovered.Clean)
        ↔ (v (z_file name.now) ≡ None))) }
    ensures checks { IfSome (seen (D.told disk.old)) (λ (v : View). PassesChecks (checked name.now v) result) }
    ensures ends { RecoversName name.now (D.told disk.old) (D.told disk.new) (D.faults disk.old) (D.faults disk.new)
        result }
{
    match disk.size(&name.sibling(b'z')) {
        Ok(Some(_)) => match unlock(alloc, disk, name) {
            Ok(()) => Ok(Recovered::Recovered),
            Err(fault) => Err(fault),
        },
        Ok(None) => match tidy(disk, name) {
            Ok(()) => Ok(Recovered::Clean),
            Err(_) => Err(StepFault::DiskFault),
        },
        Err(_) => Err(StepFault::DiskFault),
    }
}
