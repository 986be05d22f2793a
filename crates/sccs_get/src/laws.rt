ghost use Rattle.std.specs.Prelude.{◌≡◌, Bool, List, ℕ, true, Ok};
ghost use Rattle.sccs_history.specs.Applied.{newest, version};
ghost use Rattle.sccs_history.specs.Body.{lines_of};
ghost use Rattle.sccs_history.specs.Linear.{has_no_delete, texts_of, undeleted};
ghost use Rattle.sccs_grammar.specs.File.{Parsed, answer, file_of};
ghost use Rattle.sccs_name_files.specs.StepFiles.{Files};
ghost use Rattle.sccs_changes.specs.Pending.{bytes_at};
ghost use Rattle.sccs_sid.specs.declared.moments.Stamp.{Stamp};
ghost use Rattle.sccs_words.specs.declared.commands.GetWords.{GetWords};
ghost use Rattle.sccs_get.specs.Linear.{AsksNewest, GivesTexts, IsLinearFile};

/// A get of a linear file that asks for no version finds one, whatever else its words say: its lines are the
/// version of the newest record, which is the lines that no delta deleted; in a body without `^AD` lines these
/// are all its lines. With -k and nothing before lines it gives just these, to standard output or as the g-file,
/// behind the summary that -L or -l asks for.
pub fn linear_files()
    ensures version { (words : GetWords) (stamp : Stamp) (place n : List ℕ) (heading : Bool) (f : Files)
        (parsed : Parsed)
        → answer file_of (bytes_at f.s) ≡ Ok parsed → AsksNewest words → IsLinearFile parsed
        → GivesTexts words stamp place heading n f parsed (version (newest parsed.header.records) parsed.header.records
        (lines_of parsed.items)) }
    ensures lines { (words : GetWords) (stamp : Stamp) (place n : List ℕ) (heading : Bool) (f : Files) (parsed : Parsed)
        → answer file_of (bytes_at f.s) ≡ Ok parsed → AsksNewest words → IsLinearFile parsed
        → GivesTexts words stamp place heading n f parsed (undeleted (lines_of parsed.items)) }
    ensures plain { (words : GetWords) (stamp : Stamp) (place n : List ℕ) (heading : Bool) (f : Files) (parsed : Parsed)
        → answer file_of (bytes_at f.s) ≡ Ok parsed → AsksNewest words → IsLinearFile parsed
        → has_no_delete parsed.items ≡ true
        → GivesTexts words stamp place heading n f parsed (texts_of parsed.items) }
{}
