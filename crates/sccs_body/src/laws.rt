ghost use Rattle.std.specs.Prelude.{◌≡◌, ◌⊎◌, ℕ, List, Err};
ghost use Rattle.sccs_grammar.specs.File.{file_of};
ghost use Rattle.sccs_grammar.specs.declared.faults.FileFault.TheVariants.{BadSum};
ghost use Rattle.sccs_grammar.specs.AnySum.{unsummed_file};

/// Reading that passes over the stored sum answers as reading that checks it, but where that answers that the
/// sum is wrong.
pub fn sums_are_passed_over()
    ensures { (bytes : List ℕ) → (file_of bytes ≡ unsummed_file bytes)
        ⊎ ((stored plain : ℕ) × (file_of bytes ≡ Err (BadSum stored plain))) }
{}
