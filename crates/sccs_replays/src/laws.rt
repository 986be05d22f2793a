ghost use Rattle.std.specs.Prelude.{ℕ, List, Option};
ghost use Rattle.std.specs.List.{AllByRecursion};
ghost use Rattle.sccs_base.specs.Name.{IsSFileName};
ghost use Rattle.sccs_disk.specs.Files.{Content};
ghost use Rattle.sccs_delta.specs.Replays.{Texts};
ghost use Rattle.sccs_replays.specs.PastRuns.{AreInTurn, HasVersions, IsPastRun, PastRun, replay, s_file_after};

/// After runs that follow one another, each made to its end or in part, a rooted s-file that was there with these
/// versions, or wasn't there, can be read, and the version of each live serial is its replay over the steps that were
/// accepted. Between two runs other files may change. The deltas of a group are those of its entries; for a name of a
/// group that a recover finishes the start is behind that recover. POSIX, Shell and Utilities, admin and delta.
pub fn runs_replay()
    ensures { (n : List ℕ) (s : Option Content) (texts : Texts) (runs : List PastRun)
        → IsSFileName n → AllByRecursion (IsPastRun n) runs → AreInTurn n s runs → HasVersions s texts
        → HasVersions (s_file_after n s runs) (replay n texts runs) }
{}
