ghost use Rattle.std.specs.Prelude.{◌≡◌, ◌≢◌, ◌<◌, ◌≤◌, ◌==◌, ℕ, not, ◌&&◌, true, false, Bool, List, [], ◌∷◌, Ok, None};
ghost use Rattle.std.specs.Prelude.{Some, Option, length, map, option_and_then, IfSome};
ghost use Rattle.std.specs.List.{AllByRecursion, IsDistinct, flat_map};
ghost use Rattle.sccs_sid.specs.declared.sids.Sid.{Sid};
ghost use Rattle.sccs_sid.specs.declared.sid_lists.Range.{Range};
ghost use Rattle.sccs_history.specs.FlagText.{flag_b};
ghost use Rattle.sccs_history.specs.declared.headers.Header.{Header};
ghost use Rattle.sccs_history.specs.declared.headers.Record.{Record};
ghost use Rattle.sccs_history.specs.Applied.{newest, serials_of};
ghost use Rattle.sccs_history.specs.Numbers.{Falls, has};
ghost use Rattle.sccs_history.specs.History.{same_sid};
ghost use Rattle.sccs_sid.specs.Spec.{IsSpec};
ghost use Rattle.sccs_sid.specs.declared.sids.Spec.{Spec};
ghost use Rattle.sccs_flags.specs.FlagValues.{has_flag};
ghost use Rattle.sccs_sid.specs.declared.sids.Spec.TheVariants.{Branch, Release};
ghost use Rattle.sccs_sets.specs.Made.{is_taken, made_on, next_level, next_on_line, on_new_branch, to_be_made};
ghost use Rattle.sccs_sets.specs.Naming.{IsRising, in_range, named_serials, range_named, unless};
ghost use Rattle.sccs_sets.specs.OnceNamed.{first_fault, first_places, range_serials};
ghost use Rattle.sccs_sets.specs.Retrieved.{branch_sequence, branch_sid, live_where, newest_where, retrieved};
ghost use Rattle.sccs_sets.specs.Retrieved.{serial_of, trunk_level, trunk_release, trunk_sid};
ghost use Rattle.sccs_sets.specs.SidTable.{fitting_rows, got_in, made_in, rows};
ghost use Rattle.sccs_sets.specs.Trunks.{IsTrunk};

/// The first live record that passes a test has the greatest serial of those that do, and where none
/// is found none passes.
pub fn newest_records()
    ensures some { (test : Sid → Bool) (records : List Record) (n : ℕ) → Falls 65536 (serials_of records)
        → newest_where test records ≡ Some n → AllByRecursion (λ r. r.serial ≤ n) (live_where test records) }
    ensures one { (test : Sid → Bool) (records : List Record) (n : ℕ)
        → newest_where test records ≡ Some n → has (serials_of (live_where test records)) n ≡ true }
    ensures none { (test : Sid → Bool) (records : List Record)
        → newest_where test records ≡ None
        → AllByRecursion (λ r. (not r.removed && test r.sid) ≡ false) records }
{}

/// A range names the live deltas on its line from one end to the other and no others, in rising
/// order of their SIDs.
pub fn ranges()
    ensures named { (records : List Record) (range : Range) (n : ℕ)
        → has (map (λ q. q.serial) (range_named records range)) n
        ≡ has (serials_of (live_where (in_range range) records)) n }
    ensures order { (records : List Record) (range : Range) → IsRising (range_named records range) }
{}

/// A list of several ranges is at fault at its first range that is. Else it names the serials of its
/// ranges, one range after the other, each serial at its first place alone: none twice, and each that a
/// range names.
pub fn several_ranges()
    ensures named { (records : List Record) (ranges : List Range)
        → named_serials records [] ranges
        ≡ unless (first_fault records ranges) (Ok (first_places (flat_map (range_serials records) ranges))) }
    ensures distinct { (numbers : List ℕ) → IsDistinct ◌==◌ (first_places numbers) }
    ensures each { (numbers : List ℕ) (n : ℕ) → has (first_places numbers) n ≡ has numbers n }
{}

/// Where each delta is live and on the trunk and SIDs rise with serials, the newest delta is got
/// where no SID is asked for, by `-t` too.
pub fn trunks()
    ensures { (newer : Record) (older : List Record) (top : Bool) → IsTrunk (newer ∷ older)
        → retrieved (newer ∷ older) None top ≡ Some (newest (newer ∷ older)) }
{}

/// The SID that is made is neither that of a live delta nor a reserved one.
pub fn made_sids()
    ensures { (records : List Record) (reserved : List Sid) (got sid : Sid) (spec : Option Spec) (branch : Bool)
        → made_on records reserved got spec branch ≡ Some sid
        → is_taken records reserved (λ s. same_sid s sid) ≡ false }
{}

/// Where nothing is reserved, the SID got and the SID to be made are those of the one row of the table
/// of POSIX get that fits; where none fits, or its SID isn't live, none is got.
pub fn sid_table()
    ensures one { (records : List Record) (spec : Option Spec) (branch : Bool)
        → length (fitting_rows branch (rows records spec)) ≤ 1 }
    ensures got { (records : List Record) (spec : Option Spec) (branch : Bool)
        → retrieved records spec false ≡ option_and_then (serial_of records)
        (got_in (fitting_rows branch (rows records spec))) }
    ensures made { (header : Header) (spec : Option Spec) (branch : Bool) (n : ℕ)
        → Falls 65536 (serials_of header.records) → IfSome spec IsSpec → retrieved header.records spec false ≡ Some n
        → to_be_made header [] n spec branch
        ≡ made_in (fitting_rows (branch && has_flag header.flags flag_b) (rows header.records spec)) }
{}

/// Where nothing is reserved and no branch is asked for: on the newest delta of the trunk the next
/// level is made, where its release is given too, and the first delta of a later release that is given;
/// on the newest delta of a branch the next one of the branch. On a trunk delta of a release before the
/// newest a new branch is made. POSIX, get -e, the SID to be made.
pub fn made_cases()
    ensures newest { (records : List Record) (release level : ℕ)
        → trunk_release records None ≡ Some release → trunk_level records release ≡ Some level
        → (made_on records [] (trunk_sid release level) None false ≡ next_level (trunk_sid release level))
        × (made_on records [] (trunk_sid release level) (Some (Release release)) false ≡ next_level
        (trunk_sid release level)) }
    ensures later { (records : List Record) (release level later : ℕ)
        → trunk_release records None ≡ Some release → trunk_level records release ≡ Some level → release < later
        → made_on records [] (trunk_sid release level) (Some (Release later)) false ≡ Some (trunk_sid later 1) }
    ensures branch { (records : List Record) (release level number sequence : ℕ)
        → number ≢ 0 → branch_sequence records release level number ≡ Some sequence
        → made_on records [] (branch_sid release level number sequence) (Some (Branch release level number)) false
        ≡ next_on_line (branch_sid release level number sequence) None }
    ensures earlier { (records : List Record) (release level newest : ℕ) (spec : Option Spec) (branch : Bool)
        → trunk_release records None ≡ Some newest → release < newest
        → made_on records [] (trunk_sid release level) spec branch ≡ on_new_branch records []
        (trunk_sid release level) }
{}
