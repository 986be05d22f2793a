//! Laws: what the definitions of this crate say in other words. Each is proved of all values.
ghost use Rattle.std.specs.Prelude.{◌≡◌, ◌<◌, ◌≤◌, ◌+◌, ◌-◌, List, ℕ, ◌∷◌, ◌++◌, length, take, Ok, Err, All};
ghost use Rattle.sccs_sid.specs.declared.sid_lists.Range.{Range};
ghost use Rattle.sccs_sid.specs.declared.sids.Spec.{Spec};
ghost use Rattle.sccs_sid.specs.Cutoff.{cutoff_of, digit_pieces, of_pieces};
ghost use Rattle.sccs_sid.specs.SidLists.{IsRange, list_of, list_text};
ghost use Rattle.sccs_sid.specs.Spec.{IsSpec, spec_of, spec_text};

/// A SID that is asked for, written, is read back as the same.
pub fn spec_round_trip()
    ensures { (spec : Spec) → IsSpec spec → spec_of (spec_text spec) ≡ Ok spec }
{}

/// A written list of at least one range is read back as the same.
pub fn list_round_trip()
    ensures { (range : Range) (ranges : List Range) → All IsRange (range ∷ ranges)
        → list_of (list_text (range ∷ ranges)) ≡ Ok (range ∷ ranges) }
{}

/// The place of a fault of a list is that of one of its bytes, from 1, or the first after them.
pub fn list_fault_within()
    ensures { (bytes : List ℕ) (place : ℕ) → list_of bytes ≡ Err place
        → (0 < place) × (place ≤ length bytes + 1) }
{}

/// The bytes before the place of a fault can be followed to a list.
pub fn list_prefix_is_viable()
    ensures { (bytes : List ℕ) (place : ℕ) → list_of bytes ≡ Err place
        → (more : List ℕ) × (ranges : List Range)
        × (list_of (take (place - 1) bytes ++ more) ≡ Ok ranges) }
{}

/// With the byte at the place they can't: whatever follows, the fault stays there.
pub fn list_fault_stays()
    ensures { (bytes : List ℕ) (place : ℕ) → list_of bytes ≡ Err place → place ≤ length bytes
        → (more : List ℕ) → list_of (take place bytes ++ more) ≡ Err place }
{}

/// A cutoff is read by its pieces: the numbers of one or two digits that stand in the bytes.
pub fn cutoff_by_pieces()
    ensures { (bytes : List ℕ) → cutoff_of bytes ≡ of_pieces (digit_pieces bytes) }
{}
