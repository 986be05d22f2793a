//! Laws: what the definitions of this crate say together. Each is proved of all values.
ghost use Rattle.std.specs.Prelude.{◌≡◌, ◌++◌, ◌∷◌, ◌||◌, [], ℕ, Bool, true, List, Option, Some, Ok, All, map, remove};
ghost use Rattle.std.specs.Prelude.{slice_get};
ghost use Rattle.sccs_disk.specs.Files.{Content};
ghost use Rattle.sccs_sid.specs.declared.sids.Sid.{Sid};
ghost use Rattle.sccs_sid.specs.declared.sids.Spec.{Spec};
ghost use Rattle.sccs_history.specs.History.{lives, same_sid};
ghost use Rattle.sccs_history.specs.declared.headers.Header.{Header};
ghost use Rattle.sccs_history.specs.declared.headers.Record.{Record};
ghost use Rattle.sccs_sets.specs.Made.{to_be_made};
ghost use Rattle.sccs_pfile.specs.declared.entries.Edit.{Edit};
ghost use Rattle.sccs_pfile.specs.Agreement.{Agrees, has_lists};
ghost use Rattle.sccs_pfile.specs.Entries.{IsEdit};
ghost use Rattle.sccs_pfile.specs.Reading.{IsPFile};
ghost use Rattle.sccs_pfile.specs.Recovered.{pfile_of, recovered_pfile, table_of};
ghost use Rattle.sccs_pfile.specs.Written.{edits_text};

/// Entries that are written are read back as the same, and entries that are read have a spelling.
pub fn entries_again()
    ensures written { (edits : List Edit) → All IsEdit edits → IsPFile (edits_text edits) edits }
    ensures read { (bytes : List ℕ) (edits : List Edit) → IsPFile bytes edits → All IsEdit edits }
{}

/// Recovering twice is recovering once.
pub fn recovered_once()
    ensures { (s p : Option Content) → recovered_pfile s (recovered_pfile s p) ≡ recovered_pfile s p }
{}

/// Where the entries agree with the table of the s-file recovery leaves the p-file as it is.
pub fn agreeing_entries_stay()
    ensures { (s p : Content) (records : List Record) (edits : List Edit)
        → table_of s.bytes ≡ Some records → IsPFile p.bytes edits → Agrees records edits
        → recovered_pfile (Some s) (Some p) ≡ Some p }
{}

/// Where a delta made the SID of an entry live, and no other, recovery leaves the p-file without this
/// entry, and that p-file as it is.
pub fn made_entries_leave()
    ensures leaves { (s p : Content) (old new : List Record) (edits : List Edit) (place : ℕ) (e : Edit)
        → table_of s.bytes ≡ Some new → IsPFile p.bytes edits → Agrees old edits → slice_get edits place ≡ Some e
        → ((sid : Sid) → lives new sid ≡ (same_sid e.made sid || lives old sid))
        → recovered_pfile (Some s) (Some p) ≡ pfile_of (remove edits place) }
    ensures others { (s p : Content) (old new : List Record) (edits : List Edit) (place : ℕ) (e : Edit)
        → table_of s.bytes ≡ Some new → IsPFile p.bytes edits → Agrees old edits → slice_get edits place ≡ Some e
        → ((sid : Sid) → lives new sid ≡ (same_sid e.made sid || lives old sid))
        → recovered_pfile (Some s) (pfile_of (remove edits place)) ≡ pfile_of (remove edits place) }
{}

/// An entry that get -e adds keeps the agreement: its SID got is live, its lists name live SIDs and
/// share none, and its SID to be made is made beside those of the other entries.
pub fn new_entries_agree()
    ensures { (header : Header) (edits : List Edit) (e : Edit) (got : ℕ) (spec : Option Spec) (branch : Bool)
        → Agrees header.records edits → lives header.records e.got ≡ true → has_lists header.records e ≡ true
        → to_be_made header (map (λ x. x.made) edits) got spec branch ≡ Some e.made
        → Agrees header.records (edits ++ e ∷ []) }
{}
