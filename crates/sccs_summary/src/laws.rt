//! Laws: what the definitions of this crate say together. Each is proved of all values.
ghost use Rattle.std.specs.Prelude.{◌≡◌, ◌↔◌, false, true, take, codes};
ghost use Rattle.sccs_history.specs.Numbers.{has};
ghost use Rattle.sccs_history.specs.declared.headers.Record.{Record};
ghost use Rattle.sccs_summary.specs.Summaries.{Choice, entry_text};

/// A summary marks as applied exactly the deltas of the set that is got: what it has of a delta begins with two
/// blanks where the set has it, and else with two stars.
pub fn summaries_mark_the_set()
    ensures applied { (c : Choice) (r : Record) → (take 2 (entry_text c r) ≡ codes "  ") ↔ (has c.set r.serial ≡ true) }
    ensures others { (c : Choice) (r : Record) → (take 2 (entry_text c r) ≡ codes "**") ↔ (has c.set r.serial ≡ false) }
{}
