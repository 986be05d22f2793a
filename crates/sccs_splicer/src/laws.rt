ghost use Rattle.std.specs.Prelude.{◌≡◌, ◌<◌, ◌≤◌, ℕ, List, [], ◌∷◌, Ok, length};
ghost use Rattle.std.specs.List.{AllByRecursion};
ghost use Rattle.sccs_disk.specs.Told.{Told};
ghost use Rattle.sccs_grammar.specs.File.{IsSFile};
ghost use Rattle.sccs_tokens.specs.Written.{canonical, HasLines, IsItem};
ghost use Rattle.sccs_history.specs.Applied.{live_serials};
ghost use Rattle.sccs_history.specs.Body.{above, GoesOn, lines_of};
ghost use Rattle.sccs_history.specs.History.{IsHeader, IsSpelled};
ghost use Rattle.sccs_history.specs.Select.{select};
ghost use Rattle.sccs_history.specs.declared.headers.Header.{Header};
ghost use Rattle.sccs_history.specs.declared.headers.Item.{Item};
ghost use Rattle.sccs_script_laws.specs.Places.{places, told_behind};
ghost use Rattle.sccs_script_laws.specs.Plans.{plan};
ghost use Rattle.sccs_script_laws.specs.declared.scripts.Order.{Order};
ghost use Rattle.sccs_script.specs.Checks.{HaveLines};
ghost use Rattle.sccs_writers.specs.Puts.{PutsText, Writer};
ghost use Rattle.sccs_writers.specs.Spelled.{spelled};
ghost use Rattle.sccs_splicer.specs.Splices.{new_splice, items_owed, Splices, SplicerState};

/// The items of a body are pushed, each line with whether a set shows it, to a splicer that began with
/// the plan of a script for as many lines as the set shows, and then it is finished: what was put is
/// the written spelling of the items of a new delta. Behind a header that keeps the rules, whose newest
/// delta has the serial, an s-file of them reads as these.
pub fn spliced_bodies()
    ensures whole { (items : List Item) (set : List ℕ) (orders : List Order) (n : ℕ) (s : SplicerState)
        (w w2 w3 : Writer)
        (a b c : Told) (f g h : ℕ)
        → Splices (told_behind set [] items) (new_splice n (plan orders (length (select set (lines_of items))))) s w w2
        a b f g (Ok (tt {0}))
        → PutsText (spelled (items_owed s [])) w2 w3 b c g h (Ok (tt {0}))
        → PutsText (spelled (places items set orders n)) w w3 a c f h (Ok (tt {0})) }
    ensures line { (items : List Item) (set : List ℕ) (orders : List Order) (n : ℕ) (s : SplicerState) (w w2 : Writer)
        (a b : Told) (f g : ℕ)
        → Splices (told_behind set [] items) (new_splice n (plan orders (length (select set (lines_of items))))) s w w2
        a b f g (Ok (tt {0}))
        → s.line ≡ length (select set (lines_of items)) }
    ensures reads { (header : Header) (live : List ℕ) (items : List Item) (set : List ℕ) (orders : List Order) (n : ℕ)
        → IsHeader header → IsSpelled header → live_serials header.records ≡ n ∷ live → 0 < n → n < 65536
        → above items ≤ n
        → AllByRecursion IsItem items → AllByRecursion HasLines items → HaveLines orders → GoesOn live [] items
        → IsSFile (canonical header (places items set orders n)) header (places items set orders n) }
{}
