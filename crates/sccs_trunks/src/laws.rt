ghost use Rattle.std.specs.Prelude.{◌≡◌, ℕ, suc, ◌<◌, ◌≤◌, ◌+◌, ◌-◌, List, [], Ok, length};
ghost use Rattle.std.specs.List.{AllByRecursion};
ghost use Rattle.sccs_history.specs.Applied.{live_serials, version};
ghost use Rattle.sccs_history.specs.Body.{GoesOn, HistoryLine, IsLine, lines_of};
ghost use Rattle.sccs_history.specs.History.{IsRooted, IsValid};
ghost use Rattle.sccs_trunks.specs.Changes.{Change, changes_of, revised};
ghost use Rattle.sccs_trunks.specs.Lengths.{put_count, struck_count};
ghost use Rattle.sccs_trunks.specs.TrunkHistories.{IsTrunk, trunk_history};
ghost use Rattle.sccs_trunks.specs.TrunkItems.{items_of};
ghost use Rattle.sccs_trunks.specs.Trunks.{revision_text, trunk_lines};
ghost use Rattle.sccs_trunks.specs.declared.revisions.Revision.{Revision};

/// Each version of a trunk's history is the text of its revision, whatever the scripts are.
pub fn trunk_versions()
    ensures { (revisions : List Revision) (description head : List (List ℕ)) (scripts : List (List Change)) (n : ℕ)
        → length revisions ≡ suc (length scripts) → n ≤ length scripts
        → version (length revisions - n) (trunk_history revisions description (trunk_lines head scripts)).header.records
        (trunk_lines head scripts)
        ≡ revision_text n head scripts }
{}

/// The history of a trunk as it is read is valid and rooted.
pub fn trunk_histories()
    ensures valid { (revisions : List Revision) (description head : List (List ℕ)) (scripts : List (List Change))
        → IsTrunk revisions description head scripts
        → IsValid (trunk_history revisions description (trunk_lines head scripts)) }
    ensures rooted { (revisions : List Revision) (description head : List (List ℕ)) (scripts : List (List Change))
        → IsRooted (trunk_history revisions description (trunk_lines head scripts)) }
{}

/// The items of lines of which each has at most one deleter have these lines, and keep the rules of a
/// body; and those of a trunk do.
pub fn trunk_items()
    ensures lines { (live : List ℕ) (lines : List HistoryLine)
        → AllByRecursion (IsLine live) lines → AllByRecursion (λ line. length line.deleters ≤ 1) lines
        → AllByRecursion (λ line. 0 < line.inserter) lines
        → lines_of (items_of lines) ≡ lines }
    ensures rules { (live : List ℕ) (lines : List HistoryLine)
        → AllByRecursion (IsLine live) lines → AllByRecursion (λ line. length line.deleters ≤ 1) lines
        → AllByRecursion (λ line. 0 < line.inserter) lines
        → GoesOn live [] (items_of lines) }
    ensures trunk { (revisions : List Revision) (description head : List (List ℕ)) (scripts : List (List Change))
        → length revisions ≡ suc (length scripts)
        → (lines_of (items_of (trunk_lines head scripts)) ≡ trunk_lines head scripts)
        × GoesOn (live_serials (trunk_history revisions description (trunk_lines head scripts)).header.records) []
        (items_of (trunk_lines head scripts)) }
{}

/// A script that is fit for a text makes of it as many lines as its changes add, less those that they
/// take away.
pub fn revised_lengths()
    ensures { (text script : List (List ℕ)) (changes : List Change)
        → changes_of (length text) script ≡ Ok changes
        → length (revised changes text) ≡ length text + put_count changes - struck_count changes }
{}
