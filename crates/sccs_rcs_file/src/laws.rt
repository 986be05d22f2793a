ghost use Rattle.std.specs.Prelude.{◌≡◌, ◌↔◌, ℕ, List, Ok, Err};
ghost use Rattle.sccs_rcs_file.specs.Forms.{FailsAt, RcsFile, Spells};
ghost use Rattle.sccs_rcs_file.specs.Reading.{file_of};

/// Bytes are read as a file exactly where they are spelled as it, so as one at most; and where they
/// aren't, the tokens before the fault can be followed to a file, and what comes there can't.
pub fn files_are_read()
    ensures whole { (bytes : List ℕ) (f : RcsFile) → (file_of bytes ≡ Ok f) ↔ Spells bytes f }
    ensures fault { (bytes : List ℕ) (left : ℕ) → file_of bytes ≡ Err left → FailsAt bytes left }
{}
