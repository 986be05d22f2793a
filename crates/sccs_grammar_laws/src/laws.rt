ghost use Rattle.std.specs.Prelude.{◌≡◌, ℕ, List, [], Ok, Err};
ghost use Rattle.sccs_history.specs.declared.headers.Item.{Item};
ghost use Rattle.sccs_history.specs.Body.{GoesOn};
ghost use Rattle.sccs_history.specs.History.{KeepsRules};
ghost use Rattle.sccs_grammar.specs.File.{checked_front};
ghost use Rattle.sccs_grammar.specs.Front.{ParsedFront, front_from, start};
ghost use Rattle.sccs_tokens.specs.Items.{items_from};
ghost use Rattle.sccs_grammar.specs.declared.header_parsers.HeaderParser.{HeaderParser};
ghost use Rattle.sccs_grammar_laws.specs.HeaderLines.{BeginSFile, BeginWithHeader};
ghost use Rattle.sccs_grammar_laws.specs.ViablePrefixes.{AreSerials, BodyCompletion, IsViable, HeaderCompletion};
ghost use Rattle.sccs_grammar_laws.specs.ViablePrefixes.{Reached, ends};

/// A header is read where its lines are entries of the table, users, flags and description, each part
/// as `header_says` has it, and it keeps the rules; and each header that is read is so.
pub fn headers_are_their_lines()
    ensures read { (n : ℕ) (lines : List (List ℕ)) (p : ParsedFront) → front_from n start lines ≡ Ok p
        → BeginWithHeader n lines p × KeepsRules p.header }
    ensures made { (n : ℕ) (lines : List (List ℕ)) (p : ParsedFront) → BeginWithHeader n lines p
        → KeepsRules p.header → front_from n start lines ≡ Ok p }
{}

/// A file's front is read, up to its body, where it is a sum line with the sum of what follows it, and
/// the lines of a header that keeps the rules; and each that is read is so.
pub fn files_begin_with_headers()
    ensures read { (bytes : List ℕ) (p : ParsedFront) → checked_front bytes ≡ Ok p
        → BeginSFile bytes p × KeepsRules p.header }
    ensures made { (bytes : List ℕ) (p : ParsedFront) → BeginSFile bytes p → KeepsRules p.header
        → checked_front bytes ≡ Ok p }
{}

/// What items have opened can be ended, and so each body that was begun can become a whole one.
pub fn body_prefixes_are_viable()
    ensures items { (live : List ℕ) (before : List Item) → Reached live before → GoesOn live before (ends before) }
    ensures lines { (live : List ℕ) (n k : ℕ) (lines : List (List ℕ)) (tail : List ℕ) → AreSerials live
        → items_from live n [] lines tail ≡ Err k → BodyCompletion live n k lines }
{}

/// A header that is read up to its users, its flags or its description can become a whole one, and
/// so can one that is read up to the end of an entry, where each predecessor is there.
pub fn header_prefixes_are_viable()
    ensures { (n : ℕ) (r : HeaderParser) → IsViable r → HeaderCompletion n r }
{}
