ghost use Rattle.std.specs.Prelude.{◌≡◌, ℕ, List, [], Ok, map};
ghost use Rattle.std.specs.List.{AllByRecursion};
ghost use Rattle.sccs_history.specs.Body.{HistoryLine};
ghost use Rattle.sccs_trunks.specs.Cells.{Cell, joined, laid};
ghost use Rattle.sccs_trunks.specs.Counts.{IsInOrder};
ghost use Rattle.sccs_trunks.specs.Scripts.{laid_scripts, texts_of};
ghost use Rattle.sccs_trunks.specs.Changes.{Change};
ghost use Rattle.sccs_trunks.specs.Trunks.{head_line, settled, trunk_lines};
ghost use Rattle.sccs_trunks.specs.TrunkHistories.{scripts_from};
ghost use Rattle.sccs_trunks.specs.declared.revisions.Revision.{Revision};

/// The cells of two scripts in a row do to lines what the scripts do, one after the other.
pub fn joined_cells()
    ensures { (later cells : List Cell) (lines : List HistoryLine)
        → laid (joined later cells) lines ≡ laid later (laid cells lines) }
{}

/// Where each script of a trunk is fit for the text that those before it make, the lines of its history
/// are what the cells of all scripts make of the head's, whatever was left open being the first
/// revision's.
pub fn trunk_cells()
    ensures { (n : ℕ) (head : List (List ℕ)) (revisions : List Revision) (scripts : List (List Change))
        → scripts_from n head revisions ≡ Ok scripts
        → trunk_lines head scripts ≡ map settled (laid_scripts 0 (texts_of revisions) (map head_line head)) }
{}

/// Each line of a trunk's history has an inserter, and one deleter at most, which is above it.
pub fn trunk_order()
    ensures { (head : List (List ℕ)) (scripts : List (List Change))
        → AllByRecursion IsInOrder (trunk_lines head scripts) }
{}
