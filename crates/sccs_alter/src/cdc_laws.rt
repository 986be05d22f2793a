//! Laws: what cdc's step leaves. Each is proved of all values.
ghost use Rattle.std.specs.Prelude.{◌≡◌, List, ℕ, Option, Some, Ok};
ghost use Rattle.sccs_disk.specs.Files.{Content};
ghost use Rattle.sccs_sid.specs.declared.moments.Stamp.{Stamp};
ghost use Rattle.sccs_name_files.specs.StepFiles.{Files};
ghost use Rattle.sccs_steps.specs.StepEffects.{StepEffect};
ghost use Rattle.sccs_words.specs.declared.commands.CdcWords.{CdcWords};
ghost use Rattle.sccs_alter.specs.CdcStep.{cdc_outcome};
ghost use Rattle.sccs_alter.specs.NewVersions.{ChangesDelta};
ghost use Rattle.sccs_alter.specs.CdcParts.{HasLines};

/// A cdc that is accepted changes the MRs and the comment of the delta that the words mean, and nothing else: no
/// version, no set, no item and nothing else of a record; the old comment is the end of the new one, and the file can
/// be read again.
pub fn changes_keep_versions()
    ensures { (words : CdcWords) (stamp : Stamp) (n i : List ℕ) (named : List (Option Content))
        (f : Files) (old : Content) (effect : StepEffect)
        → HasLines words stamp → f.s ≡ Some old → cdc_outcome words stamp n i named f ≡ Ok effect
        → ChangesDelta words stamp f old effect }
{}
