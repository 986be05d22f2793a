ghost use Rattle.std.specs.Prelude.{◌≡◌, List, ℕ, ◌∷◌, ◌++◌, All, flat_map, OnOk};
ghost use Rattle.sccs_base.specs.Causes.{Caused};
ghost use Rattle.sccs_disk.specs.Calls.{IsThere};
ghost use Rattle.sccs_sid.specs.Moment.{moment_text};
ghost use Rattle.sccs_sid.specs.Sid.{sid_text};
ghost use Rattle.sccs_sid.specs.SidLists.{range_text};
ghost use Rattle.sccs_tokens.specs.Written.{ended};
ghost use Rattle.sccs_writers.specs.OneFile.{OnlyWrites};
ghost use Rattle.sccs_writers.specs.Puts.{Appends, PutsText};
ghost use Rattle.sccs_pfile.specs.Entries.{IsEdit};
ghost use Rattle.sccs_pfile.specs.Written.{edits_text, entry_text, exclude_option, include_option, option_text};

use crate::entries::{Edit, Edits};
use sccs_base::Name;
use sccs_disk::{Disk, DiskRefusal};
use sccs_sid::{DETAIL_ROOM, Range};
use sccs_table::Sum;
use sccs_writers::PieceWriter;

// puts a range behind other bytes
#[tactic(auto, unfolding(sccs_sid::specs::SidLists::range_text))]
fn put_range<D: Disk>(
    before: &[u8],
    range: &Range,
    out: &mut PieceWriter,
    disk: &mut D,
) -> Result<(), DiskRefusal>
    requires { IsThere out.old.name (D.told disk.old) }
    ensures { PutsText (before.now ++ range_text range.now) out.old out.new (D.told disk.old) (D.told disk.new)
        (D.faults disk.old) (D.faults disk.new) result }
{
    let (mut first, mut last) = ([0; DETAIL_ROOM], [0; DETAIL_ROOM]);
    let front = range.first.text(&mut first);
    if range.first == range.last {
        return out.put_parts(&[before, front], disk);
    }
    out.put_parts(&[before, front, b"-", range.last.text(&mut last)], disk)
}

// puts ranges, each behind a comma
fn put_ranges<D: Disk>(
    ranges: &[Range],
    out: &mut PieceWriter,
    disk: &mut D,
) -> Result<(), DiskRefusal>
    requires { IsThere out.old.name (D.told disk.old) }
    ensures { PutsText (flat_map (λ r. 44 ∷ range_text r) ranges.now) out.old out.new (D.told disk.old)
        (D.told disk.new)
        (D.faults disk.old) (D.faults disk.new) result }
{
    for range in ranges {
        if let Err(fault) = put_range(b",", range, out, disk) {
            return Err(fault);
        }
    }
    Ok(())
}

// puts a list behind its option, where it isn't empty
fn put_list<D: Disk>(
    option: &[u8],
    ranges: &[Range],
    out: &mut PieceWriter,
    disk: &mut D,
) -> Result<(), DiskRefusal>
    requires { IsThere out.old.name (D.told disk.old) }
    ensures { PutsText (option_text option.now ranges.now) out.old out.new (D.told disk.old) (D.told disk.new)
        (D.faults disk.old) (D.faults disk.new) result }
{
    let [first, others @ ..] = ranges else {
        return out.put_parts(&[], disk);
    };
    if let Err(fault) = put_range(option, first, out, disk) {
        return Err(fault);
    }
    put_ranges(others, out, disk)
}

// puts the lists of an entry
fn put_lists<D: Disk>(edit: &Edit, out: &mut PieceWriter, disk: &mut D) -> Result<(), DiskRefusal>
    requires { IsThere out.old.name (D.told disk.old) }
    ensures { PutsText (option_text include_option edit.now.include ++ option_text exclude_option edit.now.exclude)
        out.old out.new (D.told disk.old) (D.told disk.new) (D.faults disk.old) (D.faults disk.new) result }
{
    if let Err(fault) = put_list(b" -i", edit.include.items(), out, disk) {
        return Err(fault);
    }
    put_list(b" -x", edit.exclude.items(), out, disk)
}

// puts an entry without its lists
fn put_front<D: Disk>(edit: &Edit, out: &mut PieceWriter, disk: &mut D) -> Result<(), DiskRefusal>
    requires there { IsThere out.old.name (D.told disk.old) }
    requires edit { IsEdit edit.now }
    ensures { PutsText (sid_text edit.now.got ++ (32 ∷ sid_text edit.now.made
        ++ (32 ∷ edit.now.login ++ (32 ∷ moment_text edit.now.moment))))
        out.old out.new (D.told disk.old) (D.told disk.new) (D.faults disk.old) (D.faults disk.new) result }
{
    let (mut got, mut made) = ([0; DETAIL_ROOM], [0; DETAIL_ROOM]);
    let got = edit.got.text(&mut got);
    let made = edit.made.text(&mut made);
    let moment = edit.moment.text();
    out.put_parts(
        &[got, b" ", made, b" ", edit.login.bytes(), b" ", &moment],
        disk,
    )
}

// puts an entry and LF
fn put_entry<D: Disk>(edit: &Edit, out: &mut PieceWriter, disk: &mut D) -> Result<(), DiskRefusal>
    requires there { IsThere out.old.name (D.told disk.old) }
    requires edit { IsEdit edit.now }
    ensures { PutsText (ended (entry_text edit.now)) out.old out.new (D.told disk.old) (D.told disk.new)
        (D.faults disk.old) (D.faults disk.new) result }
{
    if let Err(fault) = put_front(edit, out, disk) {
        return Err(fault);
    }
    if let Err(fault) = put_lists(edit, out, disk) {
        return Err(fault);
    }
    out.put(b"\n", disk)
}

// puts the entries
fn put_edits<D: Disk>(
    edits: &[Edit],
    out: &mut PieceWriter,
    disk: &mut D,
) -> Result<(), DiskRefusal>
    requires there { IsThere out.old.name (D.told disk.old) }
    requires edits { All IsEdit edits.now }
    ensures { PutsText (edits_text edits.now) out.old out.new (D.told disk.old) (D.told disk.new)
        (D.faults disk.old) (D.faults disk.new) result }
{
    for edit in edits {
        if let Err(fault) = put_entry(edit, out, disk) {
            return Err(fault);
        }
    }
    Ok(())
}

/// Appends the entries to the file of a name, each as it is written: the SID that was got, the SID
/// that is to be made, login, date and time with one blank between two, then ` -iLIST` and ` -xLIST`
/// where they aren't empty, and LF. System V, p-file. It holds back at most 4,096 bytes. Where it
/// fails the file may have other bytes; no other file changes. `Failed` comes only where the disk's
/// count of faults rose.
pub fn write_edits<D: Disk>(edits: &Edits, disk: &mut D, name: &Name) -> Result<(), DiskRefusal>
    requires there { IsThere name.now (D.told disk.old) }
    requires edits { All IsEdit edits.now }
    ensures file { OnOk result (Appends name.now (edits_text edits.now) (D.told disk.old) (D.told disk.new)) }
    ensures only { OnlyWrites name.now (D.told disk.old) (D.told disk.new) }
    ensures cause { Caused DiskRefusal.Failed (D.faults disk.old) (D.faults disk.new) result }
{
    let mut out = PieceWriter::new(name, Sum::new());
    if let Err(fault) = put_edits(edits.items(), &mut out, disk) {
        return Err(fault);
    }
    out.flush(disk)
}
