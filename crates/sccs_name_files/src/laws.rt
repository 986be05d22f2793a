ghost use Rattle.std.specs.Prelude.{◌≡◌, ◌⊎◌, ℕ, Bool, false, List, Result, IsErrOf, IfOk};
ghost use Rattle.std.specs.Str.{bytes_eq};
ghost use Rattle.sccs_base.specs.declared.streams.Failed.{Failed};
ghost use Rattle.sccs_disk.specs.Calls.{Changes, Creates, Done, Half, Writes};
ghost use Rattle.sccs_disk.specs.Effects.{appending, changed, created, creating, overwriting, pended, protecting};
ghost use Rattle.sccs_disk.specs.Effects.{removing, settled, synced, syncing};
ghost use Rattle.sccs_disk.specs.Files.{File, IsSane, Model, Op, Rename, View, view_of};
ghost use Rattle.sccs_disk.specs.Images.{Full, Image, IsFirm, IsOwn};
ghost use Rattle.sccs_disk.specs.Told.{Told};
ghost use Rattle.sccs_name_files.specs.Touches.{Grew, IsBut, Leaves, TellsSane, Touches, TouchesOnly, Touching};
ghost use Rattle.sccs_name_files.specs.Touches.{WritesOnly};

use sccs_disk::{Creation, DiskRefusal};

/// The view is one of the images, with all pending operations made.
pub fn views_are_images()
    ensures image { (m : Model) → Image m (view_of m) }
    ensures full { (m : Model) → Full m (view_of m) }
    ensures among { (m : Model) (w : View) → Full m w → Image m w }
{}

/// A name operation adds only images that have all operations made.
pub fn name_operations_add_whole_images()
    ensures pended { (op : Op) (m : Model) (w : View) → Image (pended op m) w
        → Image m w ⊎ Full (pended op m) w }
    ensures created { (n : List ℕ) (m : Model) (w : View) → IsSane m → Image (created n m) w
        → Image m w ⊎ Full (created n m) w }
{}

/// A change of a file to which one name alone has led changes only that name in each image.
pub fn changes_stay_in_their_file()
    ensures changed { (n : List ℕ) (g : File → File) (m : Model) (w : View) → IsOwn n m
        → Image (changed n g m) w
        → (u : View) × Image m u × ((k : List ℕ) → bytes_eq n k ≡ false → u k ≡ w k) }
    ensures but { (n : List ℕ) (m m2 : Model) (w : View) → IsBut n m m2 → IsOwn n m → Image m2 w
        → (u : View) × Image m u × ((k : List ℕ) → bytes_eq n k ≡ false → u k ≡ w k) }
{}

/// After the names are synced each image has all operations made.
pub fn synced_names_stay()
    ensures { (m : Model) (w : View) → Image (settled m) w → Full m w }
{}

/// A firm file is as it is in each image with all operations made. A synced file is firm, and stays
/// so under its new name, where others are renamed, where the names are synced, and where a call
/// touches other files.
pub fn firm_files_stay()
    ensures stays { (n : List ℕ) (m : Model) (w : View) → IsFirm n m → Full m w → w n ≡ view_of m n }
    ensures synced { (n : List ℕ) (m : Model) → IsFirm n (synced n m) }
    ensures renamed { (a b : List ℕ) (m : Model) → IsFirm a m → IsFirm b (pended (Rename a b) m) }
    ensures others { (a b k : List ℕ) (m : Model) → bytes_eq a k ≡ false → bytes_eq b k ≡ false
        → IsFirm k m → IsFirm k (pended (Rename a b) m) }
    ensures settled { (n : List ℕ) (m : Model) → IsFirm n m → IsFirm n (settled m) }
    ensures touched { (mine : List ℕ → Bool) (m m2 : Model) (k : List ℕ) → Touches mine m m2
        → mine k ≡ false → IsFirm k m → IsFirm k m2 }
{}

/// A new file is its name's own, and stays so where the names are synced.
pub fn new_files_are_owned()
    ensures created { (n : List ℕ) (m : Model) → IsSane m → IsOwn n (created n m) }
    ensures settled { (n : List ℕ) (m : Model) → IsOwn n m → IsOwn n (settled m) }
{}

/// Two calls that touch the files of some names alone are one, and touch no more than more names. A
/// call that writes to one file alone touches it alone, where it is its name's own.
pub fn touching_calls_join()
    ensures then { (mine : List ℕ → Bool) (a b c : Told) → TouchesOnly mine a b → TouchesOnly mine b c
        → TouchesOnly mine a c }
    ensures wider { (mine more : List ℕ → Bool) (a b : Told)
        → ((k : List ℕ) → more k ≡ false → mine k ≡ false) → TouchesOnly mine a b → TouchesOnly more a b }
    ensures writes { (n : List ℕ) (a b c : Told) → WritesOnly n a b → WritesOnly n b c → WritesOnly n a c }
    ensures grew { (n : List ℕ) (m : Model) (past : List Model) (new : Told) → IsSane m → IsOwn n m
        → Grew n m past new → Touching (bytes_eq n) m past new }
{}

/// A call that changes one file writes to it alone, however it ends.
pub fn written_files()
    ensures append { (n bytes : List ℕ) (old new : Told) (before after : ℕ) (r : Result (Unit {0}) DiskRefusal)
        → TellsSane old → Writes (appending n bytes) old new before after r → WritesOnly n old new }
    ensures write_at { (n : List ℕ) (from : ℕ) (bytes : List ℕ) (old new : Told) (before after : ℕ)
        (r : Result (Unit {0}) DiskRefusal) → TellsSane old
        → Writes (overwriting n from bytes) old new before after r → WritesOnly n old new }
    ensures protect { (n : List ℕ) (old new : Told) (before after : ℕ) (r : Result (Unit {0}) Failed)
        → TellsSane old → Changes (protecting n) old new before after r → WritesOnly n old new }
    ensures sync { (n : List ℕ) (old new : Told) (before after : ℕ) (r : Result (Unit {0}) Failed)
        → TellsSane old → Changes (syncing n) old new before after r → WritesOnly n old new }
    ensures firm { (n : List ℕ) (old new : Told) → Done (syncing n) old new → Leaves (IsFirm n) old new }
{}

/// A file that is made or removed is the only one that the call touches, however it ends.
pub fn made_and_removed_files()
    ensures create { (n : List ℕ) (old new : Told) (r : Result Creation DiskRefusal) → TellsSane old
        → IfOk r (Creates n old new) → (IsErrOf r DiskRefusal.Failed → Half (creating n) old new)
        → (IsErrOf r DiskRefusal.Memory → new ≡ old) → TouchesOnly (bytes_eq n) old new }
    ensures owned { (n : List ℕ) (old new : Told) → TellsSane old → Creates n old new Creation.Created
        → Leaves (IsOwn n) old new }
    ensures remove { (n : List ℕ) (old new : Told) (before after : ℕ) (r : Result (Unit {0}) Failed)
        → Changes (removing n) old new before after r → TouchesOnly (bytes_eq n) old new }
{}
