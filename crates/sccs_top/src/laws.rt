ghost use Rattle.std.specs.Prelude.{◌≡◌, ◌≢◌, ℕ, Bool, true, List, take, Option, Some, Result, Ok, Err, IfOk, IfSome};
ghost use Rattle.std.specs.Prelude.{IsSome};
ghost use Rattle.std.specs.List.{AllByRecursion};
ghost use Rattle.sccs_base.specs.Login.{IsLogin};
ghost use Rattle.sccs_disk.specs.Files.{Content, Folder, Model, View, view_in, view_of};
ghost use Rattle.sccs_disk.specs.Images.{Allows};
ghost use Rattle.sccs_disk.specs.Told.{Told, seen};
ghost use Rattle.sccs_name_files.specs.Touches.{Each, newest};
ghost use Rattle.sccs_base.specs.Name.{IsSFileName};
ghost use Rattle.sccs_group.specs.Finishing.{CanFinish};
ghost use Rattle.sccs_crash_points.specs.CrashPoints.{IsCalmUnnamed};
ghost use Rattle.sccs_crash_points.specs.Recovery.{fate_at};
ghost use Rattle.sccs_steps.specs.StepStops.{IsSafe};
ghost use Rattle.sccs_sid.specs.declared.moments.Stamp.{Stamp};
ghost use Rattle.sccs_history.specs.History.{AreLines};
ghost use Rattle.sccs_name_files.specs.StepFiles.{Files, Shows};
ghost use Rattle.sccs_steps.specs.Calls.{Scene};
ghost use Rattle.sccs_steps.specs.ListStops.{KeepsSafe, KeepsSafeFrom, MayBegin, Spares};
ghost use Rattle.sccs_steps.specs.StepEffects.{StepEffect};
ghost use Rattle.sccs_steps.specs.StepLists.{NamedStep, folder_after};
ghost use Rattle.sccs_steps.specs.declared.faults.Fault.{Fault};
ghost use Rattle.sccs_steps.specs.declared.faults.Fault.TheVariants as ends;
ghost use Rattle.sccs_step_lists.specs.StepLists.{AllSafe, AllTake, Portion};
ghost use Rattle.sccs_step_lists.specs.Following.{AreKnown, StepListCrashPoints, RecoversTold};
ghost use Rattle.sccs_words.specs.declared.commands.AdminWords.{AdminWords};
ghost use Rattle.sccs_words.specs.declared.commands.Usage.{Usage};
ghost use Rattle.sccs_admin.specs.AdminStep.{AreAdminValues, admin_outcome};
ghost use Rattle.sccs_delta.specs.Replays.{DeltaCall, IsDeltaCall};
ghost use Rattle.sccs_top.specs.Asked.{asked_of};
ghost use Rattle.sccs_top.specs.declared.asking.Asked.{Asked};
ghost use Rattle.sccs_top.specs.Following.{FollowsStop, MayFollow};
ghost use Rattle.sccs_top.specs.MadeHistories.{IsReplayed};
ghost use Rattle.sccs_top.specs.NextAsks.{NextAsks};
ghost use Rattle.sccs_top.specs.Runs.{Caller, run_portions, words_recover};

/// Runs may follow one another. Where one ended, but at a disk fault, the disk is calm and the names that were
/// safe are safe, as the next one asks. Whatever a stop leaves of it, once all names are recovered s-files and
/// p-files are those to which the folder recovers after one number of steps, the same for all names, and the
/// names that were safe in whatever a stop could leave before are safe. There recovery may run, wherever the run
/// ended, where each name of an intent that it left was so.
pub fn runs_follow_one_another()
    ensures ended { (w : List ℕ → Bool) (r : Result ℕ Fault) (folder : Folder) (ts : List NamedStep) (a b : Scene)
        (m : Model) (past : List Model)
        → (run : StepListCrashPoints w r folder ts a b m past) → r ≢ Err ends.DiskFault
        → MayFollow m folder (folder_after folder (take run.list.number ts)) b.told }
    ensures stopped { (w : List ℕ → Bool) (r : Result ℕ Fault) (folder : Folder) (ts : List NamedStep) (a b : Scene)
        (m : Model) (past : List Model)
        → (run : StepListCrashPoints w r folder ts a b m past)
        → Each (Allows (FollowsStop m folder ts)) run.list.went.added m }
    ensures faulted { (w : List ℕ → Bool) (r : Result ℕ Fault) (folder : Folder) (ts : List NamedStep) (a b : Scene)
        (m : Model) (past : List Model)
        → (run : StepListCrashPoints w r folder ts a b m past)
        → ((n : List ℕ) → IsSFileName n → IsSome (fate_at (view_of (newest run.list.went.added m)) n)
        → Allows (IsSafe n) m) → CanFinish (newest run.list.went.added m) }
    ensures safe { (ps : List Portion) (u v : View) → KeepsSafe u v → AllTake ps → AllSafe u ps → AllSafe v ps }
{}

/// On a calm disk where no intent names an s-file a run may begin, and names that are safe are so in whatever a stop
/// could leave.
pub fn calm_disks_begin_runs()
    ensures begins { (w : List ℕ → Bool) (folder : Folder) (m : Model) → Spares w → Shows w (Some (view_of m))
        (view_in folder) → IsCalmUnnamed m → MayBegin folder m }
    ensures calm { (m : Model) (v : View) → IsCalmUnnamed m → KeepsSafeFrom m v → KeepsSafe (view_of m) v }
{}

/// In a history that admin makes of a text and that calls of delta go on with, accepted or refused, the version of each
/// live serial is its replay, which begins with the lines of the text. POSIX, Shell and Utilities, admin and delta.
pub fn made_histories_replay()
    ensures { (words : AdminWords) (stamp : Stamp) (n input : List ℕ) (named : List (Option Content)) (f : Files)
        (effect : StepEffect) (calls : List DeltaCall)
        → AreAdminValues words stamp → IsLogin stamp.login → IfSome words.comment AreLines → AreLines words.mrs
        → admin_outcome words stamp n input named f ≡ Ok effect → AllByRecursion IsDeltaCall calls
        → IsReplayed words n input named f effect calls }
{}

/// Of two commands that words of the front end stand for nothing is asked of the second: it has one operand at most,
/// and no input.
pub fn second_commands_ask_nothing()
    ensures { (who : Caller) (words : List (List ℕ)) → IfOk (asked_of words) (NextAsks who) }
{}

/// What recover prints and leaves is known on any disk, be it calm or as a disk fault left it: where the disk tells
/// what recovers as the folder does, as where it tells the folder itself, its steps are those that `run` says, with
/// an intent of a group too.
pub fn recovery_is_known()
    ensures known { (who : Caller) (words : Result Asked Usage) (told : Told) (folder : Folder) (i : List ℕ)
        → words_recover words ≡ true → RecoversTold told folder
        → AreKnown told folder (run_portions who words folder i) }
    ensures exactly { (told : Told) (folder : Folder) → seen told ≡ Some (view_in folder) → RecoversTold told folder }
{}
