ghost use Rattle.std.specs.Prelude.{◌≡◌, List, [], Some, length};
ghost use Rattle.sccs_script_laws.specs.Places.{told_behind};
ghost use Rattle.sccs_history.specs.Body.{lines_of};
ghost use Rattle.sccs_history.specs.Select.{select};
ghost use Rattle.sccs_history.specs.declared.headers.Item.{Item};
ghost use Rattle.sccs_splicer.specs.Splices.{items_owed};
ghost use Rattle.sccs_copies.specs.BaseSplicing.{base_splicing};
ghost use Rattle.sccs_copies.specs.declared.base_splicers.BaseSplicer.{BaseSplicer};

/// A splicer of a new delta that took no line yet doesn't refuse a whole body exactly where the set shows as
/// many of its lines as were counted; and then it makes of it what it owes.
pub fn spliced_outputs()
    ensures told { (b : BaseSplicer) (body items : List Item) → b.splicer.line ≡ 0 → base_splicing.output b [] body
        ≡ Some items
        → (length (select b.set (lines_of body)) ≡ b.lines)
        × (items ≡ items_owed b.splicer (told_behind b.set [] body)) }
    ensures made { (b : BaseSplicer) (body : List Item) → b.splicer.line ≡ 0 → length (select b.set (lines_of body))
        ≡ b.lines
        → base_splicing.output b [] body ≡ Some (items_owed b.splicer (told_behind b.set [] body)) }
{}
