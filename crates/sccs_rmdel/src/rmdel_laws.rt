//! Laws: what rmdel's step leaves. Each is proved of all values.
ghost use Rattle.std.specs.Prelude.{◌≡◌, List, ℕ, Option, Some, Ok};
ghost use Rattle.sccs_disk.specs.Files.{Content};
ghost use Rattle.sccs_sid.specs.declared.moments.Stamp.{Stamp};
ghost use Rattle.sccs_sid.specs.declared.sids.Sid.{Sid};
ghost use Rattle.sccs_name_files.specs.StepFiles.{Files};
ghost use Rattle.sccs_steps.specs.StepEffects.{StepEffect};
ghost use Rattle.sccs_rmdel.specs.NewVersions.{RemovesDelta};
ghost use Rattle.sccs_rmdel.specs.RmdelStep.{rmdel_outcome};

/// A removal that is accepted takes the delta that the words mean out of the s-file, and nothing else: every
/// other live delta has the version that it had, and the file can be read again.
pub fn removals_keep_versions()
    ensures { (sid : Sid) (stamp : Stamp) (n i : List ℕ) (named : List (Option Content))
        (f : Files) (old : Content) (effect : StepEffect)
        → f.s ≡ Some old → rmdel_outcome sid stamp n i named f ≡ Ok effect → RemovesDelta sid stamp f old effect }
{}
