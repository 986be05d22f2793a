//! Laws: what the definitions of this crate say together. Each is proved of all values.
ghost use Rattle.std.specs.Prelude.{◌≡◌, ℕ, List, false, Option};
ghost use Rattle.std.specs.Str.{bytes_eq};
ghost use Rattle.sccs_base.specs.Name.{IsSFileName, y_file};
ghost use Rattle.sccs_disk.specs.Files.{Content, Model, view_of};
ghost use Rattle.sccs_disk.specs.Images.{IsFirm, IsOwn};
ghost use Rattle.sccs_disk.specs.Told.{Tells, Told};
ghost use Rattle.sccs_store.specs.Placing.{EndsPlacing, HasMade, PlaceEnds, PlaceStops};
ghost use Rattle.sccs_name_files.specs.Touches.{Leaves, TellsSane, TouchesOnly};
ghost use Rattle.sccs_crash_points.specs.Calm.{IsCalm};
ghost use Rattle.sccs_crash_points.specs.CrashPoints.{EndsBefore};
ghost use Rattle.sccs_crash_points.specs.Recovery.{is_kept};
ghost use Rattle.sccs_writers.specs.OneFile.{OnlyWrites};

/// A y-file that is begun, written and finished has touched no other file, and is firm.
pub fn y_files_are_made()
    ensures { (n : List ℕ) (a b c d : Told) → TellsSane b → TouchesOnly (bytes_eq (y_file n)) a b
        → Leaves (IsOwn (y_file n)) a b → OnlyWrites (y_file n) b c → OnlyWrites (y_file n) c d
        → Leaves (IsFirm (y_file n)) c d → HasMade n a d }
{}

/// From a calm disk on, where the g-file's name is that of no s-file, p-file or z-file, making a g-file loses
/// nothing, wherever it is stopped: each image of each moment has the old s-files and p-files, and the g-file
/// as a stop could leave it at the start, or the new one; at its end, only the latter. The disk is calm. The
/// same is so of any file into which a y-file is made, as an l-file.
pub fn g_files_are_made_whole()
    ensures before { (n to : List ℕ) (new : Option Content) (a b : Told) (m : Model) (past : List Model)
        → bytes_eq (y_file n) to ≡ false → IsSFileName n
        → a ≡ Tells m past → IsCalm m → TouchesOnly (bytes_eq (y_file n)) a b → EndsPlacing to new 0 m past b }
    ensures within { (n to : List ℕ) (new : Option Content) (a b d : Told) (m : Model) (past : List Model)
        → bytes_eq (y_file n) to ≡ false → IsSFileName n
        → a ≡ Tells m past → IsCalm m → is_kept to ≡ false → HasMade n a b
        → Leaves (λ m1. view_of m1 (y_file n) ≡ new) a b → PlaceStops n to b d → EndsPlacing to new 0 m past d }
    ensures after { (n to : List ℕ) (new : Option Content) (a b d : Told) (m : Model) (past : List Model)
        → bytes_eq (y_file n) to ≡ false → IsSFileName n
        → a ≡ Tells m past → IsCalm m → is_kept to ≡ false → HasMade n a b
        → Leaves (λ m1. view_of m1 (y_file n) ≡ new) a b → PlaceEnds n to b d → EndsPlacing to new 1 m past d }
    ensures pairs { (to : List ℕ) (new : Option Content) (j : ℕ) (m : Model) (past : List Model) (t : Told)
        → EndsPlacing to new j m past t → EndsBefore (view_of m) m past t }
{}
