ghost use Rattle.std.specs.Prelude.{◌≡◌, ◌⊎◌, ℕ, List, false};
ghost use Rattle.std.specs.Str.{bytes_eq};
ghost use Rattle.sccs_base.specs.Name.{IsSFileName, z_file};
ghost use Rattle.sccs_disk.specs.Files.{Model, View, view_of};
ghost use Rattle.sccs_disk.specs.Told.{Tells, Told};
ghost use Rattle.sccs_name_files.specs.StepFiles.{is_early, is_working, l_file, placed};
ghost use Rattle.sccs_crash_points.specs.Calm.{IsCalm};
ghost use Rattle.sccs_crash_points.specs.CrashPoints.{EndsAfter, EndsBefore, EndsWithin};
ghost use Rattle.sccs_crash_points.specs.Recovery.{IsSound, RecoversAs};
ghost use Rattle.sccs_crash_points.specs.Unlocked.{KeepsOthers};
ghost use Rattle.sccs_store.specs.Commits.{Plan, committed, files_after, part_of};
ghost use Rattle.sccs_store.specs.Stops.{CommitEnds, CommitStops, HasPrepared, IsPlainPlan};

/// A commit puts the chosen files in their places and leaves all others but working files, where at most
/// the z-file and the l-file differ from before all; after some of its changes each file but the z-file is
/// as it was, or as the commit makes it.
pub fn commits_place_their_files()
    ensures whole { (n : List ℕ) (c : Plan) (u v : View) (k : List ℕ) → IsSFileName n → is_working n k ≡ false
        → (bytes_eq (l_file n) k ≡ false → bytes_eq (z_file n) k ≡ false → u k ≡ v k) → committed n c u k ≡ placed v n
        (files_after n c u) k }
    ensures parts { (n : List ℕ) (c : Plan) (u v : View) (k : List ℕ) (i : ℕ) → IsSFileName n → is_working n k ≡ false
        → bytes_eq (z_file n) k ≡ false → u k ≡ v k
        → (part_of n c i u k ≡ v k) ⊎ (part_of n c i u k ≡ placed v n (files_after n c u) k) }
{}

/// A step that begins on a calm disk, where its name is sound, is made whole or not at all, wherever it is
/// stopped: before its commit each image of each moment has the old s-files and p-files, and the disk is
/// calm; in it each recovers as before the step or as after it; after it as after the step, and the disk
/// is calm.
pub fn steps_are_made_whole()
    ensures before { (n : List ℕ) (a b : Told) (m : Model) (past : List Model) → IsSFileName n → a ≡ Tells m past
        → IsCalm m
        → IsSound n (view_of m) → KeepsOthers (is_early n) a b → EndsBefore (view_of m) m past b }
    ensures within { (n : List ℕ) (c : Plan) (a b d : Told) (m : Model) (past : List Model) (w : View) → IsSFileName n
        → a ≡ Tells m past → IsCalm m → IsSound n (view_of m) → IsPlainPlan n c → HasPrepared n c a b
        → ((m1 : Model) (past1 : List Model) → b ≡ Tells m1 past1 → RecoversAs w (committed n c (view_of m1)))
        → CommitStops n c b d → EndsWithin (view_of m) w m past d }
    ensures after { (n : List ℕ) (c : Plan) (a b d : Told) (m : Model) (past : List Model) (w : View) → IsSFileName n
        → a ≡ Tells m past → IsCalm m → IsSound n (view_of m) → IsPlainPlan n c → HasPrepared n c a b
        → ((m1 : Model) (past1 : List Model) → b ≡ Tells m1 past1 → RecoversAs w (committed n c (view_of m1)))
        → CommitEnds n c b d → EndsAfter (view_of m) w m past d }
{}
