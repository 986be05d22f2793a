//! Laws: what the definitions of this crate say together. Each is proved of all values.
ghost use Rattle.std.specs.Prelude.{◌≡◌, ℕ, List};
ghost use Rattle.sccs_base.specs.Name.{IsSFileName, sibling};
ghost use Rattle.sccs_disk.specs.Effects.{settled};
ghost use Rattle.sccs_disk.specs.Files.{Content, Model, View, view_of};
ghost use Rattle.sccs_disk.specs.MemoryFiles.{IsSettled, model_of, with_placed};
ghost use Rattle.sccs_disk.specs.States.{empty_state};
ghost use Rattle.sccs_disk.specs.Told.{Told};
ghost use Rattle.sccs_name_files.specs.StepFiles.{is_early};
ghost use Rattle.sccs_name_files.specs.Touches.{newest};
ghost use Rattle.sccs_crash_points.specs.Calm.{HasFirm, IsCalm};
ghost use Rattle.sccs_crash_points.specs.CrashPoints.{IsAt, IsAtName, SameElsewhere, Stays};
ghost use Rattle.sccs_crash_points.specs.Recovery.{IsSound, RecoversAs, pair_of, recover};
ghost use Rattle.sccs_crash_points.specs.Unlocked.{KeptOthers};

/// Recovering a name twice is recovering it once, and recovery leaves the s-file and the p-file of a
/// sound name as they are.
pub fn recovery_is_made_once()
    ensures once { (n : List ℕ) (v : View) → IsSFileName n → recover n (recover n v) ≡ recover n v }
    ensures sound { (n : List ℕ) (v : View) → IsSFileName n → IsSound n v → pair_of (recover n v) n ≡ pair_of v n }
{}

/// On a calm disk s-files and p-files are firm, and where they are firm the disk is calm once the names
/// are synced.
pub fn calm_disks_are_firm()
    ensures firm { (m : Model) → IsCalm m → HasFirm m }
    ensures synced { (m : Model) → HasFirm m → IsCalm (settled m) }
{}

/// A disk is calm where each of its files is firm and no name operation is pending. So it is where it has no
/// file, it stays so where a firm file is put on it, and so a stop leaves a disk in memory.
pub fn settled_disks_are_calm()
    ensures calm { (m : Model) → IsSettled m → IsCalm m }
    ensures empty { IsSettled (model_of empty_state) }
    ensures put { (n : List ℕ) (c : Content) (m : Model) → IsSettled m → IsSettled (with_placed n c m) }
{}

/// From a calm disk on, a call that changes at most the working files, the z-file and the l-file of a sound
/// name leaves every s-file and p-file in each image of each of its crash points, and the disk calm.
pub fn calls_before_a_commit_lose_nothing()
    ensures { (n : List ℕ) (m : Model) (past : List Model) (new : Told) → IsSFileName n → IsCalm m
        → IsSound n (view_of m)
        → KeptOthers (is_early n) m past new → (went : Stays (view_of m) m past new) × IsCalm (newest went.added m) }
{}

/// What is said of all names at once by the view after a step, said name by name: the step's name recovers
/// as after the step, or as before it while the number is 0; every other name as before.
pub fn names_recover_one_by_one()
    ensures { (n : List ℕ) (v w : View) (j : ℕ) (u : View) → IsSFileName n → SameElsewhere n v w → IsAt v w j u
        → IsAtName n v w j u }
{}
