//! Laws: what the definitions of this crate say together. Each is proved of all values.
ghost use Rattle.std.specs.Prelude.{◌≡◌, ◌∷◌, ℕ, List, [], Some, true, false};
ghost use Rattle.sccs_sid.specs.declared.sids.Sid.{Sid};
ghost use Rattle.sccs_history.specs.Applied.{live_serials, newest};
ghost use Rattle.sccs_history.specs.Body.{GoesOn, HistoryLine, lines_of};
ghost use Rattle.sccs_history.specs.History.{History, IsHeader, IsRooted, IsSpelled, IsTable, IsValid, is_rooted};
ghost use Rattle.sccs_history.specs.Numbers.{has, without};
ghost use Rattle.sccs_history.specs.Removal.{dropped, dropped_lines};
ghost use Rattle.sccs_history.specs.Select.{select};
ghost use Rattle.sccs_history.specs.declared.headers.Header.{Header};
ghost use Rattle.sccs_history.specs.declared.headers.Item.{Item};
ghost use Rattle.sccs_history.specs.declared.headers.Record.{Record};
ghost use Rattle.sccs_records.specs.NewDeltas.{last_of, with_deltas};
ghost use Rattle.sccs_records.specs.declared.new_deltas.NewDelta.{NewDelta};
ghost use Rattle.sccs_pfile.specs.Agreement.{Agrees};
ghost use Rattle.sccs_pfile.specs.declared.entries.Edit.{Edit};
ghost use Rattle.sccs_rmdel.specs.Leaves.{is_base, is_edited, live_delta};
ghost use Rattle.sccs_rmdel.specs.Removed.{KeepsVersions, history_without, removed_records, without_delta};

/// The items of a body without those of a delta have its lines without those that the delta inserted, and
/// with the delta among no line's deleters; to each set without the delta these are what the old lines
/// were; and they keep the rules of a body over the live serials but that of the delta.
pub fn removed_items()
    ensures lines { (n : ℕ) (items : List Item) → lines_of (dropped n items) ≡ dropped_lines n (lines_of items) }
    ensures selects { (set : List ℕ) (n : ℕ) (lines : List HistoryLine) → has set n ≡ false
        → select set (dropped_lines n lines) ≡ select set lines }
    ensures rules { (live : List ℕ) (n : ℕ) (items : List Item) → GoesOn live [] items
        → GoesOn (without n live) [] (dropped n items) }
{}

/// Where no live delta rests on a delta of a rooted table, its removal changes no version of another one.
pub fn removal_keeps_versions()
    ensures { (n : ℕ) (records : List Record) (lines : List HistoryLine) → IsTable records → is_rooted records ≡ true
        → is_base records n ≡ false → KeepsVersions n records lines }
{}

/// A header keeps its rules and its spelling when a delta is removed; and a valid history stays one, rooted
/// where no live delta rests on the delta.
pub fn removal_keeps_rules()
    ensures header { (n : ℕ) (header : Header) → IsHeader header → IsHeader (without_delta n header) }
    ensures spelled { (n : ℕ) (header : Header) → IsSpelled header → IsSpelled (without_delta n header) }
    ensures live { (n : ℕ) (records : List Record)
        → live_serials (removed_records n records) ≡ without n (live_serials records) }
    ensures valid { (n : ℕ) (h : History) → IsValid h → IsValid (history_without n h) }
    ensures rooted { (n : ℕ) (h : History) → IsRooted h → is_base h.header.records n ≡ false
        → IsRooted (history_without n h) }
{}

/// A table whose one live delta is its first is rooted. A rooted table stays so with new deltas, the first of which
/// is made on a live one; and so is the one on which the next is made.
pub fn new_deltas_keep_roots()
    ensures first { (records : List Record) → IsTable records → live_serials records ≡ 1 ∷ []
        → is_rooted records ≡ true }
    ensures rooted { (header : Header) (on : ℕ) (ds : List NewDelta) → is_rooted header.records ≡ true
        → has (0 ∷ live_serials header.records) on ≡ true → is_rooted (with_deltas header on ds).records ≡ true }
    ensures last { (header : Header) (on : ℕ) (ds : List NewDelta) → has (0 ∷ live_serials header.records) on ≡ true
        → has (0 ∷ live_serials (with_deltas header on ds).records) (last_of on (newest header.records) ds) ≡ true }
{}

/// Pending edits that agree with a table still do when a delta is removed that none of them got or lists.
pub fn removal_keeps_edits()
    ensures { (records : List Record) (sid : Sid) (r : Record) (edits : List Edit) → IsTable records
        → live_delta records sid ≡ Some r → Agrees records edits → is_edited edits sid ≡ false
        → Agrees (removed_records r.serial records) edits }
{}
