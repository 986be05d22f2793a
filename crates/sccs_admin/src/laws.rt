ghost use Rattle.std.specs.Prelude.{◌≡◌, ℕ, List, [], ◌∷◌, Ok, IfSome};
ghost use Rattle.sccs_base.specs.Cut.{text_of};
ghost use Rattle.sccs_base.specs.Login.{IsLogin};
ghost use Rattle.sccs_admin.specs.AdminStep.{AreAdminValues};
ghost use Rattle.sccs_grammar.specs.File.{IsSFile};
ghost use Rattle.sccs_history.specs.Body.{lines_of};
ghost use Rattle.sccs_history.specs.History.{AreLines};
ghost use Rattle.sccs_history.specs.Select.{select};
ghost use Rattle.sccs_sid.specs.declared.moments.Stamp.{Stamp};
ghost use Rattle.sccs_words.specs.declared.commands.AdminWords.{AdminWords};
ghost use Rattle.sccs_admin.specs.NewFiles.{new_content, new_header, new_items};
ghost use Rattle.sccs_admin.specs.Rules.{new_rules};
ghost use Rattle.sccs_admin.specs.declared.finding.NewTexts.{NewTexts};
ghost use Rattle.sccs_admin.specs.declared.rules.NewRules.{NewRules};

/// What admin makes of its texts and words is an s-file of the header and the items that it wrote, and the version of
/// its one delta is the text's lines.
pub fn new_files_are_read()
    ensures reads { (words : AdminWords) (stamp : Stamp) (texts : NewTexts) (rules : NewRules)
        → AreAdminValues words stamp → IsLogin stamp.login → IfSome words.comment AreLines → AreLines words.mrs
        → new_rules words texts ≡ Ok rules
        → IsSFile (new_content words stamp rules (text_of texts.text)).bytes (new_header words stamp rules)
        (new_items (text_of texts.text)) }
    ensures version { (lines : List (List ℕ)) → select (1 ∷ []) (lines_of (new_items lines)) ≡ lines }
{}
