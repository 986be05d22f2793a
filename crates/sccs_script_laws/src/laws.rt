ghost use Rattle.std.specs.Prelude.{◌≡◌, ◌+◌, ◌<◌, ◌≤◌, ◌-◌, ℕ, false, List, [], ◌∷◌, ◌++◌, length, take, drop};
ghost use Rattle.sccs_history.specs.Body.{GoesOn, HistoryLine, above, lines_of};
ghost use Rattle.sccs_history.specs.Numbers.{has};
ghost use Rattle.sccs_history.specs.Removal.{dropped};
ghost use Rattle.sccs_history.specs.Select.{select, shows};
ghost use Rattle.sccs_history.specs.declared.headers.Item.{Item};
ghost use Rattle.sccs_script_laws.specs.Places.{places};
ghost use Rattle.sccs_script_laws.specs.Plans.{added_count, IsInOrder, plan, planted};
ghost use Rattle.sccs_script_laws.specs.Scripts.{apply};
ghost use Rattle.sccs_script_laws.specs.Weave.{AreBelow, deleted, inserted, unchanged, weave};
ghost use Rattle.sccs_script_laws.specs.declared.scripts.Order.{Order};
ghost use Rattle.sccs_script_laws.specs.declared.scripts.OrderKind.TheVariants.{Append, Change, Delete};

/// A new delta's set shows of the woven lines what the script makes of the base, and every set
/// without the delta shows what it showed.
pub fn woven_versions()
    ensures own { (set : List ℕ) (n : ℕ) (orders : List Order) (lines : List HistoryLine) → AreBelow n lines
        → select (n ∷ set) (weave set n orders lines) ≡ apply orders (select set lines) }
    ensures others { (other set : List ℕ) (n : ℕ) (orders : List Order) (lines : List HistoryLine) → has other n ≡ false
        → select other (weave set n orders lines) ≡ select other lines }
{}

/// The woven lines are the old ones with those of the script's plan for as many lines as the set
/// shows, whatever the order of the commands.
pub fn woven_by_plan()
    ensures { (set : List ℕ) (n : ℕ) (orders : List Order) (lines : List HistoryLine) → AreBelow n lines
        → weave set n orders lines ≡ planted (shows set) (plan orders (length (select set lines))) n lines }
{}

/// The numbers of a script's plan rise.
pub fn plans_in_order()
    ensures { (orders : List Order) (count : ℕ) → IsInOrder (plan orders count) }
{}

/// How many lines the new delta inserts, deletes and leaves, by the script's plan.
pub fn counted_by_plan()
    ensures inserted { (set : List ℕ) (n : ℕ) (orders : List Order) (lines : List HistoryLine) → AreBelow n lines
        → inserted n (weave set n orders lines) ≡ added_count (plan orders (length (select set lines))).added }
    ensures deleted { (set : List ℕ) (n : ℕ) (orders : List Order) (lines : List HistoryLine) → AreBelow n lines
        → deleted n (weave set n orders lines) ≡ length (plan orders (length (select set lines))).deleted }
    ensures unchanged { (set : List ℕ) (n : ℕ) (orders : List Order) (lines : List HistoryLine) → AreBelow n lines
        → has set n ≡ false
        → unchanged set n (weave set n orders lines) + length (plan orders (length (select set lines))).deleted ≡ length
        (select set lines) }
{}

/// The items of a new delta: their lines are the woven ones, its set shows what the script makes of
/// the base, every set without the delta shows what it showed, taking the delta's items out gives
/// the old ones, and with the delta live they keep the rules of a body.
pub fn placed_items()
    ensures lines { (items : List Item) (set : List ℕ) (orders : List Order) (n : ℕ) → 0 < n → above items ≤ n
        → lines_of (places items set orders n) ≡ weave set n orders (lines_of items) }
    ensures own { (items : List Item) (set : List ℕ) (orders : List Order) (n : ℕ) → 0 < n → above items ≤ n
        → select (n ∷ set) (lines_of (places items set orders n)) ≡ apply orders (select set (lines_of items)) }
    ensures others { (items : List Item) (other set : List ℕ) (orders : List Order) (n : ℕ) → 0 < n → above items ≤ n
        → has other n ≡ false → select other (lines_of (places items set orders n)) ≡ select other (lines_of items) }
    ensures undone { (items : List Item) (set : List ℕ) (orders : List Order) (n : ℕ) → 0 < n → above items ≤ n
        → dropped n (places items set orders n) ≡ items }
    ensures rules { (live : List ℕ) (items : List Item) (set : List ℕ) (orders : List Order) (n : ℕ) → above items ≤ n
        → GoesOn live [] items → GoesOn (n ∷ live) [] (places items set orders n) }
{}

/// What one order makes of a text that has the lines it names; and orders are made in turn.
pub fn orders_on_texts()
    ensures appends { (order : Order) (text : List (List ℕ)) → order.kind ≡ Append → order.first ≤ length text
        → apply (order ∷ []) text ≡ take order.first text ++ (order.lines ++ drop order.first text) }
    ensures deletes { (order : Order) (text : List (List ℕ)) → order.kind ≡ Delete → 0 < order.first
        → order.first ≤ order.last
        → apply (order ∷ []) text ≡ take (order.first - 1) text ++ drop order.last text }
    ensures changes { (order : Order) (text : List (List ℕ)) → order.kind ≡ Change → 0 < order.first
        → order.first ≤ order.last
        → order.last ≤ length text
        → apply (order ∷ []) text ≡ take (order.first - 1) text ++ (order.lines ++ drop order.last text) }
    ensures turns { (orders more : List Order) (text : List (List ℕ)) → apply (orders ++ more) text ≡ apply more
        (apply orders text) }
{}
