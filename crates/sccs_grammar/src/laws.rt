ghost use Rattle.std.specs.Prelude.{◌≡◌, ℕ, suc, ◌+◌, ◌<◌, Ok, true, false, List, [], ◌∷◌, ◌++◌, map, length, not};
ghost use Rattle.std.specs.Prelude.{decimal};
ghost use Rattle.std.specs.List.{AllByRecursion};
ghost use Rattle.sccs_history.specs.Applied.{live_serials};
ghost use Rattle.sccs_history.specs.Body.{GoesOn};
ghost use Rattle.sccs_history.specs.History.{AreBare, AreLines, HasSpelling, IsFlag, IsHeader, IsSpelled, KeepsRules};
ghost use Rattle.sccs_history.specs.History.{has_own_letters};
ghost use Rattle.sccs_history.specs.Numbers.{is_empty, share};
ghost use Rattle.sccs_grammar.specs.Entries.{with_entry};
ghost use Rattle.sccs_grammar.specs.Front.{ParsedFront, all_below, at_description, at_flags, at_lists, at_table};
ghost use Rattle.sccs_grammar.specs.Front.{at_texts, at_users, front_from, start, with_comments, with_exclude};
ghost use Rattle.sccs_grammar.specs.Front.{with_ignore, with_include, with_mrs};
ghost use Rattle.sccs_grammar.specs.File.{IsSFile};
ghost use Rattle.sccs_tokens.specs.Items.{items_from};
ghost use Rattle.sccs_tokens.specs.Tokens.{token};
ghost use Rattle.sccs_tokens.specs.Written.{HasLines, IsItem, IsSerial, canonical, comment_line, counts_line};
ghost use Rattle.sccs_tokens.specs.Written.{delta_line, delta_part, end_line, flag_line, item_line, list_lines};
ghost use Rattle.sccs_tokens.specs.Written.{mr_line};

use crate::header_parsers::{HeaderParser, ListsSeen, TableEntry};
use crate::tables::Table;
use sccs_history::{Flag, Header, Item, Record};
use sccs_tokens::LineToken;

/// A fault within the lines is the fault whatever lines follow, and whatever bytes follow the last LF.
pub fn faults_stay()
    ensures front { (lines more : List (List ℕ)) (n k : ℕ) (r : HeaderParser)
        → k < n + length lines → front_from n r lines ≡ Err k → front_from n r (lines ++ more) ≡ Err k }
    ensures body { (live : List ℕ) (lines more : List (List ℕ)) (tail later : List ℕ) (n k : ℕ) (before : List Item)
        → k < n + length lines → items_from live n before lines tail ≡ Err k
        → items_from live n before (lines ++ more) later ≡ Err k }
{}

/// The header that lines spell keeps the rules, and has a spelling.
pub fn headers_keep_rules()
    ensures rules { (n : ℕ) (lines : List (List ℕ)) (p : ParsedFront)
        → front_from n start lines ≡ Ok p → KeepsRules p.header }
    ensures spelled { (n : ℕ) (lines : List (List ℕ)) (p : ParsedFront)
        → AreLines lines → front_from n start lines ≡ Ok p → IsSpelled p.header }
{}

/// Users, flags and a description that are written are read again.
pub fn short_parts_again()
    ensures users { (n : ℕ) (entries : Table) (before users rest : List (List ℕ)) → AreBare users
        → front_from n (at_users entries before) (users ++ rest)
        ≡ front_from (n + length users) (at_users entries (before ++ users)) rest }
    ensures flags { (n : ℕ) (entries : Table) (users : List (List ℕ)) (flags : List Flag) (rest : List (List ℕ))
        → AllByRecursion IsFlag flags → has_own_letters flags ≡ true
        → front_from n (at_flags entries users []) (map flag_line flags ++ rest)
        ≡ front_from (n + length flags) (at_flags entries users flags) rest }
    ensures description { (n : ℕ) (entries : Table) (users : List (List ℕ)) (flags : List Flag)
        (before lines rest : List (List ℕ)) → AreBare lines
        → front_from n (at_description entries users flags before) (lines ++ rest)
        ≡ front_from (n + length lines) (at_description entries users flags (before ++ lines)) rest }
{}

/// The counts, the lists, the MRs and the comments of an entry that are written are read again.
pub fn entry_parts_again()
    ensures counts { (i d u : ℕ) → i < 100000 → d < 100000 → u < 100000 → token (counts_line i d u) ≡ Some
        (LineToken.Counts i d u) }
    ensures include { (n : ℕ) (entries : Table) (e : TableEntry) (seen : ListsSeen) (ns : List ℕ) (rest : List (List ℕ))
        → AllByRecursion IsSerial ns → e.row.include ≡ [] → seen.included ≡ false
        → all_below e.row.serial ns ≡ true → share ns e.row.exclude ≡ false
        → front_from n (at_lists entries e seen) (list_lines 105 ns ++ rest)
        ≡ front_from (n + length (list_lines 105 ns)) (at_lists entries (with_include e ns)
        (record seen { included = not (is_empty ns) })) rest }
    ensures exclude { (n : ℕ) (entries : Table) (e : TableEntry) (seen : ListsSeen) (ns : List ℕ) (rest : List (List ℕ))
        → AllByRecursion IsSerial ns → e.row.exclude ≡ [] → seen.excluded ≡ false
        → all_below e.row.serial ns ≡ true → share ns e.row.include ≡ false
        → front_from n (at_lists entries e seen) (list_lines 120 ns ++ rest)
        ≡ front_from (n + length (list_lines 120 ns)) (at_lists entries (with_exclude e ns)
        (record seen { excluded = not (is_empty ns) })) rest }
    ensures ignore { (n : ℕ) (entries : Table) (e : TableEntry) (seen : ListsSeen) (ns : List ℕ) (rest : List (List ℕ))
        → AllByRecursion IsSerial ns → e.row.ignore ≡ [] → seen.ignored ≡ false → all_below e.row.serial ns ≡ true
        → front_from n (at_lists entries e seen) (list_lines 103 ns ++ rest)
        ≡ front_from (n + length (list_lines 103 ns)) (at_lists entries (with_ignore e ns)
        (record seen { ignored = not (is_empty ns) })) rest }
    ensures texts { (n : ℕ) (entries : Table) (e : TableEntry) (seen : ListsSeen) (mrs comments rest : List (List ℕ))
        → front_from n (at_lists entries e seen) (map mr_line mrs ++ (map comment_line comments ++ (end_line ∷ rest)))
        ≡ front_from (suc (n + length mrs + length comments))
        (at_table (with_entry entries (with_comments (with_mrs e mrs) comments))) rest }
{}

/// A delta line that is written says its record.
pub fn delta_again()
    ensures { (r : Record) → HasSpelling r → IsSerial r.serial → r.predecessor < 65536
        → token (delta_line r) ≡ Some (LineToken.Delta (delta_part r)) }
{}

/// The items of a whole body that are written are read again.
pub fn body_again()
    ensures { (live : List ℕ) (n : ℕ) (before items : List Item)
        → AllByRecursion IsItem items → GoesOn live before items
        → items_from live n before (map item_line items) [] ≡ Ok items }
{}

/// The written spelling of a header that keeps the rules, and of the items of a body over its live
/// serials, is an s-file of them.
pub fn file_again()
    ensures { (header : Header) (items : List Item) → IsHeader header → IsSpelled header
        → AllByRecursion IsItem items → AllByRecursion HasLines items → GoesOn (live_serials header.records) [] items
        → IsSFile (canonical header items) header items }
{}
