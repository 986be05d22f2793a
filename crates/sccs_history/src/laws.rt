ghost use Rattle.std.specs.Prelude.{◌≡◌, ◌↔◌, ℕ, true, Bool, List, []};
ghost use Rattle.std.specs.List.{AllByRecursion};
ghost use Rattle.sccs_history.specs.Applied.{Asked, GoesBack, IsApplied, OnPath, applied, live_serials, newest, path};
ghost use Rattle.sccs_history.specs.Applied.{serials_of, version};
ghost use Rattle.sccs_history.specs.Body.{Begins, GoesOn, HistoryLine, IsLine, inserter, is_insert, lines_of, mark};
ghost use Rattle.sccs_history.specs.Body.{may_stand};
ghost use Rattle.sccs_history.specs.Linear.{IsLinear, has_no_delete, texts_of, undeleted};
ghost use Rattle.sccs_history.specs.Numbers.{Falls, has};
ghost use Rattle.sccs_history.specs.declared.headers.Item.TheVariants.{Text};

use crate::headers::{Item, Record};

/// The lines of items that begin a body over live serials have a live inserter, which is open by
/// Insert where they stand, and greater live deleters; and a whole body begins one.
pub fn body_lines()
    ensures lines { (live : List ℕ) (items : List Item)
        → Begins live [] items → AllByRecursion (IsLine live) (lines_of items) }
    ensures inserter { (live : List ℕ) (before : List Item) (text : List ℕ)
        → may_stand live before (Text text) ≡ true → is_insert (mark (inserter before) before) ≡ true }
    ensures whole { (live : List ℕ) (items : List Item) → GoesOn live [] items → Begins live [] items }
{}

/// A serial is on the path of a delta of the table exactly where it is that delta's or, through
/// predecessors, an ancestor's.
pub fn paths()
    ensures { (records : List Record) (target n : ℕ) → Falls 65536 (serials_of records) → GoesBack records
        → (has (path target records) n ≡ true) ↔ OnPath records target n }
{}

/// The applied set agrees with the rules at each record of the table, and no other set does. It has
/// live serials of the table alone.
pub fn applied_sets()
    ensures agrees { (asked : Asked) (records : List Record) → Falls 65536 (serials_of records)
        → IsApplied asked records (has (applied asked records)) }
    ensures only { (asked : Asked) (records : List Record) (set : ℕ → Bool) → Falls 65536 (serials_of records)
        → IsApplied asked records set
        → AllByRecursion (λ r. set r.serial ≡ has (applied asked records) r.serial) records }
    ensures live { (asked : Asked) (records : List Record) (n : ℕ)
        → has (applied asked records) n ≡ true → has (live_serials records) n ≡ true }
{}

/// In a table where each record is live, names nothing in its lists and has the next one for its
/// predecessor, the newest version has the texts of all lines that no delta deleted, in order; and
/// in a body without Delete items these are all texts.
pub fn linear_versions()
    ensures lines { (records : List Record) (lines : List HistoryLine)
        → IsLinear records → AllByRecursion (IsLine (live_serials records)) lines
        → version (newest records) records lines ≡ undeleted lines }
    ensures body { (records : List Record) (items : List Item)
        → IsLinear records → GoesOn (live_serials records) [] items
        → version (newest records) records (lines_of items) ≡ undeleted (lines_of items) }
    ensures no_delete { (items : List Item)
        → has_no_delete items ≡ true → undeleted (lines_of items) ≡ texts_of items }
{}
