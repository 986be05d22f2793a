ghost use Rattle.std.specs.Prelude.{◌≡◌, ◌+◌, ◌<◌, ◌≤◌, ℕ, suc, true, List, [], Ok, None, Some, length, remove};
ghost use Rattle.std.specs.Prelude.{slice_get};
ghost use Rattle.std.specs.List.{AllByRecursion};
ghost use Rattle.sccs_base.specs.Login.{IsLogin};
ghost use Rattle.sccs_disk.specs.Files.{Content};
ghost use Rattle.sccs_sid.specs.Moment.{IsMoment};
ghost use Rattle.sccs_sid.specs.declared.moments.Stamp.{Stamp};
ghost use Rattle.sccs_sid.specs.declared.sids.Sid.{Sid};
ghost use Rattle.sccs_grammar.specs.File.{IsSFile, Parsed};
ghost use Rattle.sccs_script_laws.specs.Places.{places};
ghost use Rattle.sccs_script_laws.specs.Plans.{plan};
ghost use Rattle.sccs_script_laws.specs.Scripts.{apply};
ghost use Rattle.sccs_script_laws.specs.declared.scripts.Order.{Order};
ghost use Rattle.sccs_records.specs.declared.new_deltas.Counts.{Counts};
ghost use Rattle.sccs_history.specs.Applied.{live_serials, newest, version};
ghost use Rattle.sccs_history.specs.Body.{GoesOn, lines_of};
ghost use Rattle.sccs_history.specs.History.{AreLines, IsHeader, IsSpelled, IsTable};
ghost use Rattle.sccs_history.specs.Numbers.{has};
ghost use Rattle.sccs_history.specs.Select.{select};
ghost use Rattle.sccs_history.specs.declared.headers.Header.{Header};
ghost use Rattle.sccs_history.specs.declared.headers.Item.{Item};
ghost use Rattle.sccs_history.specs.declared.headers.Record.{Record};
ghost use Rattle.sccs_name_files.specs.StepFiles.{Files};
ghost use Rattle.sccs_pfile.specs.Agreement.{Agrees};
ghost use Rattle.sccs_pfile.specs.Entries.{IsEdit};
ghost use Rattle.sccs_pfile.specs.declared.entries.Edit.{Edit};
ghost use Rattle.sccs_records.specs.NewDeltas.{FitsTable, with_record};
ghost use Rattle.sccs_records.specs.declared.new_deltas.NewDelta.{NewDelta};
ghost use Rattle.sccs_script.specs.Checks.{ranged};
ghost use Rattle.sccs_steps.specs.StepEffects.{StepEffect};
ghost use Rattle.sccs_words.specs.declared.commands.DeltaWords.{DeltaWords};
ghost use Rattle.sccs_delta.specs.DeltaStep.{entry_base, entry_delta, delta_outcome};
ghost use Rattle.sccs_delta.specs.declared.entries.Base.{Base};
ghost use Rattle.sccs_copies.specs.Examining.{result_of};
ghost use Rattle.sccs_delta.specs.NewVersions.{MakesVersions};
ghost use Rattle.sccs_delta.specs.Replays.{DeltaCall, IsDeltaCall, ReplaysVersions};
ghost use Rattle.sccs_delta.specs.NullDeltas.{lines_with, null_deltas, serial_behind, skipped_by, with_nulls};
ghost use Rattle.sccs_delta.specs.Versions.{IsOrdered, base_set};

/// What a script's plan makes of its base is what the script makes of it. A script that fits a text fits a
/// longer one, and has the same plan for it; so a plan can be made before the lines of the base are counted.
pub fn results_by_plan()
    ensures result { (orders : List Order) (text : List (List ℕ)) → result_of (plan orders (length text)) text
        ≡ apply orders text }
    ensures fits { (orders : List Order) (count more : ℕ) → AllByRecursion IsOrdered orders
        → ranged orders count ≡ Ok tt → ranged orders (count + more) ≡ Ok tt }
    ensures longer { (orders : List Order) (count more : ℕ) → AllByRecursion IsOrdered orders
        → ranged orders count ≡ Ok tt → plan orders (count + more) ≡ plan orders count }
{}

/// A new delta's version is what its script makes of the base, that is of the version got with the delta's lists;
/// and no other version changes.
pub fn versions_through_deltas()
    ensures own { (records : List Record) (on : ℕ) (d : NewDelta) (items : List Item) (orders : List Order)
        → IsTable records → GoesOn (live_serials records) [] items
        → version (suc (newest records)) (with_record records on d)
        (lines_of (places items (base_set records on d) orders (suc (newest records))))
        ≡ apply orders (select (base_set records on d) (lines_of items)) }
    ensures others { (records : List Record) (on m : ℕ) (d : NewDelta) (items : List Item) (orders : List Order)
        → IsTable records → GoesOn (live_serials records) [] items → m ≤ newest records
        → version m (with_record records on d) (lines_of (places items (base_set records on d) orders
        (suc (newest records))))
        ≡ version m records (lines_of items) }
{}

/// The null deltas of an entry that agrees with the table may be put on it, one after the other, and then the
/// entry's delta on the last of them: the header keeps the rules, and has a spelling where it had one.
/// sccsfile(4), "Flags", n.
pub fn null_deltas_fit()
    ensures rules { (header : Header) (edits : List Edit) (place number : ℕ) (edit : Edit) (base : Base)
        (words : DeltaWords) (stamp : Stamp) (counts : Counts)
        → IsHeader header → Agrees header.records edits → slice_get edits place ≡ Some edit
        → entry_base header.records number edit ≡ Ok base
        → newest header.records + length (skipped_by header edits edit) < 65535
        → IsHeader (with_nulls header base.got (null_deltas stamp (skipped_by header edits edit))
        (entry_delta words stamp edit base.include base.exclude counts)) }
    ensures spelled { (header : Header) (edits : List Edit) (edit : Edit) (base : Base) (words : DeltaWords)
        (stamp : Stamp) (counts : Counts)
        → IsSpelled header → IsEdit edit → IsMoment stamp.moment → IsLogin stamp.login → AreLines words.mrs
        → AreLines words.comment
        → IsSpelled (with_nulls header base.got (null_deltas stamp (skipped_by header edits edit))
        (entry_delta words stamp edit base.include base.exclude counts)) }
{}

/// The entries that a delta leaves agree with the table that has its null deltas and the delta: no null delta has
/// a SID that an entry is to make, and lists that share no live SID share none of the new ones.
pub fn left_entries_agree()
    ensures { (stamp : Stamp) (header : Header) (got : ℕ) (edits : List Edit) (place : ℕ) (edit : Edit) (d : NewDelta)
        → Agrees header.records edits → slice_get edits place ≡ Some edit → d.sid ≡ edit.made
        → Agrees (with_nulls header got (null_deltas stamp (skipped_by header edits edit)) d).records
        (remove edits place) }
{}

/// Behind null deltas a new delta's version is what its script makes of the base, that is of the version got
/// with the delta's lists. Each null delta's version is that of the delta got, on which the first of them is
/// made, and no other version changes.
pub fn versions_through_null_deltas()
    ensures own { (stamp : Stamp) (header : Header) (got : ℕ) (sids : List Sid) (d : NewDelta) (items : List Item)
        (orders : List Order)
        → IsTable header.records → GoesOn (live_serials header.records) [] items
        → newest header.records + length sids < 65535
        → AllByRecursion (λ n. has (live_serials header.records) n ≡ true) d.include
        → AllByRecursion (λ n. has (live_serials header.records) n ≡ true) d.exclude
        → version (serial_behind header got (null_deltas stamp sids)) (with_nulls header got (null_deltas stamp sids)
        d).records
        (lines_with header got (null_deltas stamp sids) d items orders)
        ≡ apply orders (select (base_set header.records got d) (lines_of items)) }
    ensures nulls { (stamp : Stamp) (header : Header) (got : ℕ) (sids : List Sid) (d : NewDelta) (items : List Item)
        (orders : List Order)
        → IsTable header.records → GoesOn (live_serials header.records) [] items
        → newest header.records + length sids < 65535
        → (k : ℕ) → newest header.records < k → k < serial_behind header got (null_deltas stamp sids)
        → version k (with_nulls header got (null_deltas stamp sids) d).records
        (lines_with header got (null_deltas stamp sids) d items orders)
        ≡ version got header.records (lines_of items) }
    ensures others { (stamp : Stamp) (header : Header) (got : ℕ) (sids : List Sid) (d : NewDelta) (items : List Item)
        (orders : List Order)
        → IsTable header.records → GoesOn (live_serials header.records) [] items
        → newest header.records + length sids < 65535
        → (m : ℕ) → m ≤ newest header.records
        → version m (with_nulls header got (null_deltas stamp sids) d).records
        (lines_with header got (null_deltas stamp sids) d items orders)
        ≡ version m header.records (lines_of items) }
{}

/// A delta's step that is accepted makes an s-file that can be read. Its newest delta has the SID of the entry, and
/// its version is what the script makes of the base: of what the set of the delta got, with the lists of the entry,
/// shows of the file before. Each null delta's version is that of the delta got, each older one stays, and the
/// entry leaves the p-file. POSIX, Shell and Utilities, delta.
pub fn deltas_add_versions()
    ensures { (words : DeltaWords) (stamp : Stamp) (n input : List ℕ) (f : Files) (s : Content) (effect : StepEffect)
        → IsMoment stamp.moment → IsLogin stamp.login → AreLines words.mrs → AreLines words.comment
        → f.s ≡ Some s → delta_outcome words stamp n input [] f ≡ Ok effect
        → MakesVersions words stamp input f s effect }
{}

/// Behind calls of delta on an s-file, accepted or refused, the version of each live serial is its replay. The replay
/// of a serial that was there is its version at the start, that of a null delta is the replay of the delta got, and
/// that of a delta is what its script makes of its base: without lists of the replay of the delta got, else of
/// what the listed set shows of the s-file just before. A refused call changes nothing.
pub fn histories_replay()
    ensures { (n : List ℕ) (s : Content) (file : Parsed) (calls : List DeltaCall)
        → IsSFile s.bytes file.header file.items → AllByRecursion IsDeltaCall calls → ReplaysVersions n s file calls }
{}
