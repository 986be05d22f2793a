ghost use Rattle.std.specs.Prelude.{◌≡◌, ℕ, ◌<◌, ◌-◌, List, length, Ok};
ghost use Rattle.sccs_grammar.specs.File.{IsSFile};
ghost use Rattle.sccs_history.specs.Applied.{version};
ghost use Rattle.sccs_history.specs.Body.{lines_of};
ghost use Rattle.sccs_history.specs.History.{IsRooted};
ghost use Rattle.sccs_rcs.specs.ImportStep.{rcs_content};
ghost use Rattle.sccs_trunks.specs.TrunkItems.{items_of};
ghost use Rattle.sccs_rcs_file.specs.Trunk.{rcs_read};
ghost use Rattle.sccs_trunks.specs.TrunkHistories.{IsTrunk, head_text, history_of, scripts_of, text_behind};
ghost use Rattle.sccs_trunks.specs.TrunkHistories.{trunk_scripts};
ghost use Rattle.sccs_trunks.specs.declared.revisions.Rcs.{Rcs};

/// What is read of an RCS file is a trunk, and each of its scripts is fit for the text before it.
pub fn read_trunks()
    ensures trunk { (bytes : List ℕ) (rcs : Rcs) → rcs_read bytes ≡ Ok rcs
        → IsTrunk rcs.revisions rcs.description (head_text rcs.revisions) (scripts_of rcs.revisions) }
    ensures scripts { (bytes : List ℕ) (rcs : Rcs) → rcs_read bytes ≡ Ok rcs
        → trunk_scripts rcs.revisions ≡ Ok (scripts_of rcs.revisions) }
{}

/// What import makes of the trunk of an RCS file is an s-file of the header and the items that it wrote, its table is
/// rooted, and each version is the text of its revision.
pub fn imported_files_are_read()
    ensures reads { (bytes : List ℕ) (rcs : Rcs) → rcs_read bytes ≡ Ok rcs
        → IsSFile (rcs_content rcs).bytes (history_of rcs).header (items_of (history_of rcs).lines) }
    ensures rooted { (rcs : Rcs) → IsRooted (history_of rcs) }
    ensures versions { (bytes : List ℕ) (rcs : Rcs) (n : ℕ) → rcs_read bytes ≡ Ok rcs → n < length rcs.revisions
        → version (length rcs.revisions - n) (history_of rcs).header.records
        (lines_of (items_of (history_of rcs).lines))
        ≡ text_behind n rcs }
{}
