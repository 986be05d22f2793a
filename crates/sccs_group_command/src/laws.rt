//! Laws: what the definitions of this crate say together. Each is proved of all values.
ghost use Rattle.std.specs.Prelude.{◌≡◌, ℕ, List, Ok};
ghost use Rattle.sccs_group_command.specs.GroupText.{group_of};
ghost use Rattle.sccs_group_command.specs.declared.entries.GroupEntry.{GroupEntry};
ghost use Rattle.sccs_group_command.specs.Preparing.{AreGrouped};

/// The entries that are read of a group's lines may be made a group: their names differ, there is one at least,
/// and a thousand at most.
pub fn entries_read_are_grouped()
    ensures { (lines : List (List ℕ)) (entries : List GroupEntry) → group_of lines ≡ Ok entries → AreGrouped entries }
{}
