ghost use Rattle.std.specs.Prelude.{◌≡◌, ℕ, List, Ok};
ghost use Rattle.sccs_grammar.specs.File.{IsSFile};
ghost use Rattle.sccs_history.specs.History.{IsHeader, IsSpelled};
ghost use Rattle.sccs_history.specs.declared.headers.Header.{Header};
ghost use Rattle.sccs_history.specs.declared.headers.Item.{Item};
ghost use Rattle.sccs_store.specs.SealedFiles.{sealed};
ghost use Rattle.sccs_words.specs.declared.commands.AdminWords.{AdminWords};
ghost use Rattle.sccs_alter.specs.AlterStep.{altered_header, file_read};

/// What admin makes of an s-file that was read, with -z whatever its stored sum is, whose header keeps the rules and
/// has a spelling as each one that is read, is an s-file of the altered header over the same items, and the delta
/// table stays: each version is as it was.
pub fn altered_files_are_read()
    ensures reads { (words : AdminWords) (bytes text : List ℕ) (header new : Header) (items : List Item)
        → IsHeader header → IsSpelled header → file_read words.fix bytes ≡ Ok
        (record { header = header; items = items }) → altered_header words header text ≡ Ok new
        → IsSFile (sealed new items).bytes new items }
    ensures records { (words : AdminWords) (text : List ℕ) (header new : Header)
        → altered_header words header text ≡ Ok new → new.records ≡ header.records }
{}
