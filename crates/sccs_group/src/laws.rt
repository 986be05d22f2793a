//! Laws: what the definitions of this crate say together. Each is proved of all values.
ghost use Rattle.std.specs.Prelude.{◌≡◌, ◌<◌, ◌≤◌, ℕ, Bool, List, None, Some, false, length, IfSome};
ghost use Rattle.std.specs.List.{AllByRecursion};
ghost use Rattle.std.specs.Str.{bytes_eq};
ghost use Rattle.sccs_base.specs.Name.{IsSFileName, p_file, z_file};
ghost use Rattle.sccs_disk.specs.Files.{Model, View, put, view_of};
ghost use Rattle.sccs_disk.specs.Told.{Tells, Told, seen};
ghost use Rattle.sccs_name_files.specs.StepFiles.{Alike, moved};
ghost use Rattle.sccs_name_files.specs.Touches.{Leaves, newest};
ghost use Rattle.sccs_intents.specs.Intents.{has_name, intent_file};
ghost use Rattle.sccs_crash_points.specs.Calm.{IsCalm};
ghost use Rattle.sccs_crash_points.specs.CrashPoints.{EndsAfter, EndsBefore, EndsWithin, IsFrom, RecoversOn, Went};
ghost use Rattle.sccs_crash_points.specs.Recovery.{RecoversAs, fate_at, pair_of, recover};
ghost use Rattle.sccs_crash_points.specs.Unlocked.{BeginsUnlocked, BeginsUnlockedBut, KeepsOthers};
ghost use Rattle.sccs_group.specs.Changes.{Change, IsPrepared, IsReady, LFileStays, LFilesStay, after_changes};
ghost use Rattle.sccs_group.specs.Changes.{members_in};
ghost use Rattle.sccs_group.specs.Finishing.{Completes};
ghost use Rattle.sccs_group.specs.Grouping.{CanGroup, GroupEnds, GroupStops, announced, new_pair_of};
ghost use Rattle.sccs_group.specs.Halfway.{NoneLocked, first_placed, intended, is_left_of_group, is_own_of_group};
ghost use Rattle.sccs_group.specs.Halfway.{part_placed};
ghost use Rattle.sccs_group.specs.Members.{AreMembers, IsPlainG, IsWritten, completed, each_by, entries_of, placed};
ghost use Rattle.sccs_group.specs.declared.members.Member.{Member};

/// Up to a thousand members, at least one, of which no two have the same name, may be written as an intent.
pub fn thousand_members_are_written()
    ensures { (members : List Member) → 0 < length members → length members ≤ 1000 → AreMembers members
        → IsWritten members }
{}

/// A group that begins on a calm disk is made whole or not at all, wherever it is stopped. Calls before it
/// that leave the old s-files and p-files join; a stop in the commit leaves what recovers as before the
/// group or as after it, and after it, as after it.
pub fn groups_are_made_whole()
    ensures before { (b d : Told) (m : Model) (past : List Model) → EndsBefore (view_of m) m past b
        → ((m1 : Model) (past1 : List Model) → b ≡ Tells m1 past1 → IsCalm m1 → EndsBefore (view_of m1) m1 past1 d)
        → EndsBefore (view_of m) m past d }
    ensures within { (members : List Member) (a b d : Told) (m : Model) (past : List Model) (w : View)
        → a ≡ Tells m past
        → EndsBefore (view_of m) m past b → Leaves (CanGroup members) a b
        → ((m1 : Model) (past1 : List Model) → b ≡ Tells m1 past1 → RecoversAs w (announced members (view_of m1)))
        → GroupStops members b d → EndsWithin (view_of m) w m past d }
    ensures after { (members : List Member) (a b d : Told) (m : Model) (past : List Model) (w : View) → a ≡ Tells m past
        → EndsBefore (view_of m) m past b → Leaves (CanGroup members) a b
        → ((m1 : Model) (past1 : List Model) → b ≡ Tells m1 past1 → RecoversAs w (announced members (view_of m1)))
        → GroupEnds members b d → EndsAfter (view_of m) w m past d }
{}

/// With the intent in its place recovery of a member's name makes the new s-file and p-file, and that of
/// another name what it makes without the intent.
pub fn intents_name_the_new_files()
    ensures members { (members : List Member) (v : View) (member : Member) → IsSFileName member.entry.name
        → fate_at (announced members v) member.entry.name ≡ Some member.entry.fate
        → pair_of (recover member.entry.name (announced members v)) member.entry.name ≡ new_pair_of member v }
    ensures others { (members : List Member) (v : View) (n : List ℕ) → IsWritten members → IsSFileName n
        → v intent_file ≡ None
        → has_name (entries_of members) n ≡ false
        → pair_of (recover n (announced members v)) n ≡ pair_of (recover n v) n }
{}

/// Recovery behind a group that was finished is one call with it.
pub fn recovery_behind_a_group()
    ensures { (b d : Told) (m : Model) (past : List Model) → (done : Completes m past b)
        → view_of (newest done.run.added m) intent_file ≡ None → RecoversOn b d
        → Went (λ (j : ℕ) (w : View). IsFrom m w) m past 0 d }
{}

/// The folder with the intent recovers as the folder after the steps of the members, one after the other.
pub fn groups_recover_as_their_views()
    ensures { (changes : List Change) (v v1 : View) → IsWritten (members_in changes) → v intent_file ≡ None
        → v1 intent_file ≡ None → RecoversAs v v1 → AllByRecursion (IsPrepared v1) changes
        → RecoversAs (after_changes changes v) (announced (members_in changes) v1) }
{}

/// The files of a group are none of the s-files, p-files and z-files of other names; and what an intent
/// names are members, whose g-files stay.
pub fn groups_leave_other_names()
    ensures intended { (v : View) → AreMembers (intended v) × AllByRecursion IsPlainG (intended v) }
    ensures others { (members : List Member) (n : List ℕ) → AreMembers members → AllByRecursion IsPlainG members
        → IsSFileName n
        → has_name (entries_of members) n ≡ false
        → (is_own_of_group members n ≡ false) × (is_own_of_group members (p_file n) ≡ false)
        × (is_own_of_group members (z_file n) ≡ false) }
{}

/// A call that changes the files of a group alone begins unlocked where none of its z-files was there, and
/// else but for names that are exempt, where its members' are.
pub fn groups_begin_unlocked()
    ensures but { (exempt : List ℕ → Bool) (members : List Member) (a b : Told) → AreMembers members
        → AllByRecursion IsPlainG members
        → ((n : List ℕ) → exempt n ≡ false → has_name (entries_of members) n ≡ false)
        → KeepsOthers (is_own_of_group members) a b → BeginsUnlockedBut exempt a b }
    ensures all { (members : List Member) (a b : Told) → AreMembers members → AllByRecursion IsPlainG members
        → IfSome (seen a) (NoneLocked members) → KeepsOthers (is_own_of_group members) a b → BeginsUnlocked a b }
{}

/// As far as the calls of a member have come its files are the new ones, in the order of a step, where they
/// are prepared: the s-file, then the p-file, and behind the last call all of them, where its step leaves the
/// l-file as it is. Other members stay prepared, and behind the calls of all the files are those that their
/// steps make, one after the other.
pub fn members_get_their_files()
    ensures s { (w : List ℕ → Bool) (d : Change) (v u : View) → IsReady w v d → Alike w v u
        → Alike w (part_placed 1 d.member v) (put u d.member.entry.name d.files.s) }
    ensures p { (w : List ℕ → Bool) (d : Change) (v u : View) → IsReady w v d → Alike w v u
        → Alike w (part_placed 2 d.member v) (put (put u d.member.entry.name d.files.s) (p_file d.member.entry.name)
        d.files.p) }
    ensures y { (w : List ℕ → Bool) (d : Change) (v u : View) → IsReady w v d → Alike w v u
        → Alike w (part_placed 3 d.member v) (put (put u d.member.entry.name d.files.s) (p_file d.member.entry.name)
        d.files.p) }
    ensures all { (w : List ℕ → Bool) (d : Change) (v u : View) → IsReady w v d → LFileStays w d u → Alike w v u
        → Alike w (placed d.member v) (moved u d.member.entry.name (Some d.files)) }
    ensures others { (w : List ℕ → Bool) (d other : Change) (v : View) → IsReady w v d → IsReady w v other
        → bytes_eq d.member.entry.name other.member.entry.name ≡ false → IsReady w (placed d.member v) other }
    ensures each { (w : List ℕ → Bool) (changes : List Change) (v u : View) → AreMembers (members_in changes)
        → AllByRecursion (IsReady w v) changes → LFilesStay w changes u → Alike w v u
        → Alike w (each_by placed (members_in changes) v) (after_changes changes u) }
{}

/// A group that is committed whole has all calls of all members behind it, but for the plan, the intent and
/// z-files.
pub fn whole_groups_are_placed()
    ensures { (members : List Member) (v : View)
        → Alike (is_left_of_group members) (completed members (announced members v))
        (first_placed (length members) 0 members v) }
{}
