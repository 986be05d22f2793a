//! Laws of finishing a group.

ghost use Rattle.std.specs.Prelude.{ℕ, Bool, List, Result, Ok, Err};
ghost use Rattle.sccs_disk.specs.Files.{View};
ghost use Rattle.sccs_disk.specs.Told.{Told};
ghost use Rattle.sccs_crash_points.specs.Recovery.{RecoversAs};
ghost use Rattle.sccs_steps.specs.Actions.{Action};
ghost use Rattle.sccs_steps.specs.ListStops.{KeepsSafe};
ghost use Rattle.sccs_steps.specs.StepLists.{all_moved, moves_of};
ghost use Rattle.sccs_steps.specs.declared.faults.Fault.{Fault};
ghost use Rattle.sccs_step_lists.specs.Tests.{Passes};
ghost use Rattle.sccs_steps.specs.Running.{Steps};
ghost use Rattle.sccs_steps.specs.Recovering.{RecoversSteps};
ghost use Rattle.sccs_recovery.specs.AnyDisk.{RecoversAll};
ghost use Rattle.sccs_recovery.specs.FinishingEnds.{FinishEnds};
ghost use Rattle.sccs_recovery.specs.FinishStep.{finishing_step};

/// What finishing makes of a view recovers as the view does, and names that were safe are safe in it.
pub fn finishing_keeps_what_recovers()
    ensures recovers { (v : View) → RecoversAs v (all_moved v (moves_of (finishing_step v))) }
    ensures safe { (v : View) → KeepsSafe v (all_moved v (moves_of (finishing_step v))) }
{}

/// A call that finishes a group, and then one that recovers names, may be stopped at any moment and begun again on
/// whatever is left, from any disk on which the group may be finished; so may one in which finishing failed.
pub fn any_disk_is_recovered()
    ensures goes_on { (x : Action) (steps : Steps) (given : List ℕ → Bool) (status : ℕ) (r : Result ℕ Fault)
        (a b c : Told)
        → FinishEnds (Ok status) a b → RecoversSteps x steps (Passes given) r b c → RecoversAll r a c }
    ensures failed { (fault : Fault) (a b : Told) → FinishEnds (Err fault) a b → RecoversAll (Err fault) a b }
{}
