ghost use Rattle.std.specs.Prelude.{◌≡◌, ℕ, false, List};
ghost use Rattle.std.specs.List.{list_any};
ghost use Rattle.sccs_keywords.specs.Expansion.{expanded};
ghost use Rattle.sccs_keywords.specs.Keywords.{is_keyword, parts};
ghost use Rattle.sccs_keywords.specs.declared.facts.Facts.{Facts};

/// A line without keywords is its own expansion.
pub fn lines_without_keywords()
    ensures { (facts : Facts) (number : ℕ) (line : List ℕ) → list_any is_keyword (parts line) ≡ false
        → expanded facts number line ≡ line }
{}
