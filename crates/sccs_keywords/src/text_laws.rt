ghost use Rattle.std.specs.Prelude.{◌≡◌, ◌+◌, ◌++◌, ℕ, false, List, length, map};
ghost use Rattle.sccs_tokens.specs.Written.{bytes_of};
ghost use Rattle.sccs_history.specs.Body.{HistoryLine};
ghost use Rattle.sccs_history.specs.declared.headers.Record.{Record};
ghost use Rattle.sccs_keywords.specs.Forms.{LineForm, bare_form, formed_text, has_keywords, texts, unreplaced};

/// In a form without module name, SIDs and keywords lines are given as they are, each with LF.
pub fn lines_as_they_are()
    ensures { (records : List Record) (number : ℕ) (lines : List HistoryLine)
        → formed_text bare_form records number lines ≡ bytes_of (texts lines) }
{}

/// A text without keywords is the same with and without what they are replaced by.
pub fn texts_without_keywords()
    ensures { (form : LineForm) (records : List Record) (number : ℕ) (lines : List HistoryLine)
        → has_keywords (texts lines) ≡ false
        → formed_text form records number lines ≡ formed_text (unreplaced form) records number lines }
{}

/// The text of lines behind others is that of the first, and that of the others numbered on.
pub fn texts_put_together()
    ensures { (form : LineForm) (records : List Record) (number : ℕ) (lines more : List HistoryLine)
        → formed_text form records number (lines ++ more)
        ≡ formed_text form records number lines ++ formed_text form records (number + length lines) more }
{}
