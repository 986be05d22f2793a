ghost use Rattle.std.specs.Prelude.{◌≡◌, ◌≤◌, ℕ, suc, false, List, [], ◌∷◌, None};
ghost use Rattle.sccs_history.specs.Applied.{applied, newest, serials_of, version_of};
ghost use Rattle.sccs_history.specs.History.{IsHeader, IsSpelled, IsTable};
ghost use Rattle.sccs_history.specs.Numbers.{Falls, has};
ghost use Rattle.sccs_history.specs.declared.headers.Header.{Header};
ghost use Rattle.sccs_history.specs.declared.headers.Record.{Record};
ghost use Rattle.sccs_records.specs.NewDeltas.{FitsTable, HasSpellings, with_delta, with_record};
ghost use Rattle.sccs_records.specs.declared.new_deltas.NewDelta.{NewDelta};

/// A table that keeps the rules keeps them with a new delta that may be put on it, and so does a header;
/// one that has a spelling has one.
pub fn new_deltas_keep_rules()
    ensures table { (records : List Record) (on : ℕ) (d : NewDelta) → IsTable records → FitsTable records on d
        → IsTable (with_record records on d) }
    ensures header { (header : Header) (on : ℕ) (d : NewDelta) → IsHeader header → FitsTable header.records on d
        → IsHeader (with_delta header on d) }
    ensures spelled { (header : Header) (on : ℕ) (d : NewDelta) → IsSpelled header → HasSpellings d
        → IsSpelled (with_delta header on d) }
{}

/// A new delta is in no older version. Its own version is made of it and the set of the delta on which
/// it was made, with the lists of the new one as those of the call. Beneath a new delta without lists the
/// lists of a call go on to the delta on which it was made.
pub fn sets_with_new_deltas()
    ensures others { (records : List Record) (on m : ℕ) (d : NewDelta) → Falls 65536 (serials_of records)
        → m ≤ newest records
        → applied (version_of m) (with_record records on d) ≡ applied (version_of m) records }
    ensures own { (records : List Record) (on : ℕ) (d : NewDelta) → Falls 65536 (serials_of records)
        → applied (version_of (suc (newest records))) (with_record records on d)
        ≡ suc (newest records) ∷ applied
        (record { target = on; include = d.include; exclude = d.exclude; cutoff = None }) records }
    ensures beneath { (records : List Record) (on : ℕ) (d : NewDelta) (include exclude : List ℕ)
        → Falls 65536 (serials_of records)
        → d.include ≡ [] → d.exclude ≡ [] → has include (suc (newest records)) ≡ false
        → has exclude (suc (newest records)) ≡ false
        → applied (record { target = suc (newest records); include = include; exclude = exclude; cutoff = None })
        (with_record records on d)
        ≡ suc (newest records) ∷ applied (record { target = on; include = include; exclude = exclude; cutoff = None })
        records }
{}
