ghost use Rattle.std.specs.Prelude.{◌≡◌, ◌≤◌, ◌++◌, ℕ, List, [], ◌∷◌, decimal, flat_map, OnOk};
ghost use Rattle.std.specs.List.{AllByRecursion};
ghost use Rattle.sccs_disk.specs.Calls.{IsThere};
ghost use Rattle.sccs_tokens.specs.Written.{behind_blank, bytes_of, counts_line, delta_line, ended, kind_of};
ghost use Rattle.sccs_tokens.specs.Written.{list_lines, mr_line};
ghost use Rattle.sccs_history.specs.History.{HasSpelling, IsSpelled};
ghost use Rattle.sccs_sid.specs.Sid.{sid_text};
ghost use Rattle.sccs_writers.specs.HeaderBytes.{WritesHeader, entry_bytes, flags_bytes, header_bytes, lists_bytes};
ghost use Rattle.sccs_writers.specs.HeaderBytes.{table_bytes, texts_bytes};
ghost use Rattle.sccs_writers.specs.Puts.{PutsText};

use crate::digits::five_digits;
use crate::piece_writers::PieceWriter;
use itoa::Buffer;
use sccs_base::{Name, Text};
use sccs_disk::{Disk, DiskRefusal};
use sccs_history::{Flags, Header, Record, Records, Serials};
use sccs_sid::{DETAIL_ROOM, Sid};
use sccs_table::Sum;

// puts three counts of five digits each
fn put_counts<D: Disk>(
    inserted: &[u8],
    deleted: &[u8],
    unchanged: &[u8],
    out: &mut PieceWriter,
    disk: &mut D,
) -> Result<(), DiskRefusal>
    requires { IsThere out.old.name (D.told disk.old) }
    ensures { PutsText (1 ∷ 115 ∷ 32 ∷ inserted.now ++ (47 ∷ deleted.now ++ (47 ∷ unchanged.now ++ (10 ∷ [])))) out.old
        out.new (D.told disk.old) (D.told disk.new)
        (D.faults disk.old) (D.faults disk.new) result }
{
    out.put_parts(
        &[b"\x01s ", inserted, b"/", deleted, b"/", unchanged, b"\n"],
        disk,
    )
}

// puts a SID as it is written
fn put_sid<D: Disk>(sid: &Sid, out: &mut PieceWriter, disk: &mut D) -> Result<(), DiskRefusal>
    requires { IsThere out.old.name (D.told disk.old) }
    ensures { PutsText (sid_text sid.now) out.old out.new (D.told disk.old) (D.told disk.new)
        (D.faults disk.old) (D.faults disk.new) result }
{
    let mut row = [0; DETAIL_ROOM];
    out.put(sid.text(&mut row), disk)
}

// puts serials, each behind a blank
fn put_serials<D: Disk>(
    serials: &Serials,
    out: &mut PieceWriter,
    disk: &mut D,
) -> Result<(), DiskRefusal>
    requires { IsThere out.old.name (D.told disk.old) }
    ensures { PutsText (flat_map (λ n. 32 ∷ decimal n) serials.now) out.old out.new (D.told disk.old) (D.told disk.new)
        (D.faults disk.old) (D.faults disk.new) result }
{
    for serial in serials.items() {
        let mut buffer = Buffer::new();
        let digits = buffer.format(*serial).as_bytes();
        if let Err(fault) = out.put_parts(&[b" ", digits], disk) {
            return Err(fault);
        }
    }
    Ok(())
}

// puts a mark and a text behind a blank, and no blank for no text
fn put_mark<D: Disk>(
    mark: &[u8],
    text: &[u8],
    out: &mut PieceWriter,
    disk: &mut D,
) -> Result<(), DiskRefusal>
    requires { IsThere out.old.name (D.told disk.old) }
    ensures { PutsText (mark.now ++ (behind_blank text.now ++ (10 ∷ []))) out.old out.new (D.told disk.old)
        (D.told disk.new)
        (D.faults disk.old) (D.faults disk.new) result }
{
    if text.is_empty() {
        return out.put_parts(&[mark, b"\n"], disk);
    }
    out.put_parts(&[mark, b" ", text, b"\n"], disk)
}

// puts lines, each behind the same bytes
fn put_lines<D: Disk>(
    front: &[u8],
    lines: &Text,
    out: &mut PieceWriter,
    disk: &mut D,
) -> Result<(), DiskRefusal>
    requires { IsThere out.old.name (D.told disk.old) }
    ensures { PutsText (flat_map (λ line. ended (front.now ++ line)) lines.now) out.old out.new (D.told disk.old)
        (D.told disk.new)
        (D.faults disk.old) (D.faults disk.new) result }
{
    for line in lines.items() {
        if let Err(fault) = out.put_parts(&[front, line.bytes(), b"\n"], disk) {
            return Err(fault);
        }
    }
    Ok(())
}

// puts a line of serials, and none for no serials
fn put_list<D: Disk>(
    letter: u8,
    serials: &Serials,
    out: &mut PieceWriter,
    disk: &mut D,
) -> Result<(), DiskRefusal>
    requires { IsThere out.old.name (D.told disk.old) }
    ensures { PutsText (bytes_of (list_lines letter serials.now)) out.old out.new (D.told disk.old) (D.told disk.new)
        (D.faults disk.old) (D.faults disk.new) result }
{
    if serials.len() == 0 {
        return Ok(());
    }
    out.put(&[b'\x01', letter], disk)?;
    put_serials(serials, out, disk)?;
    out.put(b"\n", disk)
}

// puts what stands behind the SID of a delta line
fn put_delta_words<D: Disk>(
    moment: &[u8],
    entry: &Record,
    out: &mut PieceWriter,
    disk: &mut D,
) -> Result<(), DiskRefusal>
    requires { IsThere out.old.name (D.told disk.old) }
    ensures { PutsText (32 ∷ (moment.now
        ++ (32 ∷ (entry.now.login
        ++ (32 ∷ (decimal entry.now.serial ++ (32 ∷ (decimal entry.now.predecessor ++ (10 ∷ []))))))))) out.old out.new
        (D.told disk.old) (D.told disk.new)
        (D.faults disk.old) (D.faults disk.new) result }
{
    let (mut serial, mut predecessor) = (Buffer::new(), Buffer::new());
    let serial = serial.format(entry.serial).as_bytes();
    let predecessor = predecessor.format(entry.predecessor).as_bytes();
    out.put_parts(
        &[
            b" ",
            moment,
            b" ",
            entry.login.bytes(),
            b" ",
            serial,
            b" ",
            predecessor,
            b"\n",
        ],
        disk,
    )
}

// how a delta line begins: R for a removed delta, D for one that lives
fn kind(removed: bool) -> &'static [u8]
    ensures { result.now ≡ 1 ∷ 100 ∷ 32 ∷ (kind_of removed ++ (32 ∷ [])) }
{
    if removed { b"\x01d R " } else { b"\x01d D " }
}

// puts the delta line of an entry
fn put_delta<D: Disk>(
    entry: &Record,
    out: &mut PieceWriter,
    disk: &mut D,
) -> Result<(), DiskRefusal>
    requires spelled { HasSpelling entry.now }
    requires there { IsThere out.old.name (D.told disk.old) }
    ensures { PutsText (ended (delta_line entry.now)) out.old out.new (D.told disk.old) (D.told disk.new)
        (D.faults disk.old) (D.faults disk.new) result }
{
    out.put(kind(entry.removed), disk)?;
    put_sid(&entry.sid, out, disk)?;
    put_delta_words(&entry.moment.text(), entry, out, disk)
}

// puts the lists of an entry
fn put_lists<D: Disk>(
    entry: &Record,
    out: &mut PieceWriter,
    disk: &mut D,
) -> Result<(), DiskRefusal>
    requires { IsThere out.old.name (D.told disk.old) }
    ensures { PutsText (lists_bytes entry.now) out.old out.new (D.told disk.old) (D.told disk.new)
        (D.faults disk.old) (D.faults disk.new) result }
{
    put_list(b'i', &entry.include, out, disk)?;
    put_list(b'x', &entry.exclude, out, disk)?;
    put_list(b'g', &entry.ignore, out, disk)
}

// puts lines of MRs
fn put_mrs<D: Disk>(mrs: &Text, out: &mut PieceWriter, disk: &mut D) -> Result<(), DiskRefusal>
    requires { IsThere out.old.name (D.told disk.old) }
    ensures { PutsText (flat_map (λ t. ended (mr_line t)) mrs.now) out.old out.new (D.told disk.old) (D.told disk.new)
        (D.faults disk.old) (D.faults disk.new) result }
{
    for line in mrs.items() {
        if let Err(fault) = put_mark(b"\x01m", line.bytes(), out, disk) {
            return Err(fault);
        }
    }
    Ok(())
}

// puts the MRs of an entry, its comments, and its end
fn put_texts<D: Disk>(
    entry: &Record,
    out: &mut PieceWriter,
    disk: &mut D,
) -> Result<(), DiskRefusal>
    requires { IsThere out.old.name (D.told disk.old) }
    ensures { PutsText (texts_bytes entry.now) out.old out.new (D.told disk.old) (D.told disk.new)
        (D.faults disk.old) (D.faults disk.new) result }
{
    put_mrs(&entry.mrs, out, disk)?;
    put_lines(b"\x01c ", &entry.comments, out, disk)?;
    out.put(b"\x01e\n", disk)
}

// puts the statistics of an entry
fn put_statistics<D: Disk>(
    entry: &Record,
    out: &mut PieceWriter,
    disk: &mut D,
) -> Result<(), DiskRefusal>
    requires { IsThere out.old.name (D.told disk.old) }
    ensures { PutsText (ended (counts_line entry.now.inserted entry.now.deleted entry.now.unchanged)) out.old out.new
        (D.told disk.old) (D.told disk.new)
        (D.faults disk.old) (D.faults disk.new) result }
{
    put_counts(
        &five_digits(entry.inserted),
        &five_digits(entry.deleted),
        &five_digits(entry.unchanged),
        out,
        disk,
    )
}

// puts an entry of the delta table
fn put_entry<D: Disk>(
    entry: &Record,
    out: &mut PieceWriter,
    disk: &mut D,
) -> Result<(), DiskRefusal>
    requires spelled { HasSpelling entry.now }
    requires there { IsThere out.old.name (D.told disk.old) }
    ensures { PutsText (entry_bytes entry.now) out.old out.new (D.told disk.old) (D.told disk.new)
        (D.faults disk.old) (D.faults disk.new) result }
{
    put_statistics(entry, out, disk)?;
    put_delta(entry, out, disk)?;
    put_lists(entry, out, disk)?;
    put_texts(entry, out, disk)
}

// puts the delta table
fn put_table<D: Disk>(
    records: &Records,
    out: &mut PieceWriter,
    disk: &mut D,
) -> Result<(), DiskRefusal>
    requires spelled { AllByRecursion HasSpelling records.now }
    requires there { IsThere out.old.name (D.told disk.old) }
    ensures { PutsText (table_bytes records.now) out.old out.new (D.told disk.old) (D.told disk.new)
        (D.faults disk.old) (D.faults disk.new) result }
{
    for entry in records.items() {
        if let Err(fault) = put_entry(entry, out, disk) {
            return Err(fault);
        }
    }
    Ok(())
}

// puts the flags
fn put_flags<D: Disk>(flags: &Flags, out: &mut PieceWriter, disk: &mut D) -> Result<(), DiskRefusal>
    requires { IsThere out.old.name (D.told disk.old) }
    ensures { PutsText (flags_bytes flags.now) out.old out.new (D.told disk.old) (D.told disk.new)
        (D.faults disk.old) (D.faults disk.new) result }
{
    for flag in flags.items() {
        if let Err(fault) = put_mark(
            &[b'\x01', b'f', b' ', flag.letter],
            flag.text.bytes(),
            out,
            disk,
        ) {
            return Err(fault);
        }
    }
    Ok(())
}

// puts lines between the first and the last line of their part
fn put_part<D: Disk>(
    first: &[u8],
    lines: &Text,
    last: &[u8],
    out: &mut PieceWriter,
    disk: &mut D,
) -> Result<(), DiskRefusal>
    requires { IsThere out.old.name (D.told disk.old) }
    ensures { PutsText (first.now ++ (flat_map ended lines.now ++ last.now)) out.old out.new (D.told disk.old)
        (D.told disk.new)
        (D.faults disk.old) (D.faults disk.new) result }
{
    out.put(first, disk)?;
    put_lines(b"", lines, out, disk)?;
    out.put(last, disk)
}

// puts a header behind its sum line
fn put_header<D: Disk>(
    header: &Header,
    out: &mut PieceWriter,
    disk: &mut D,
) -> Result<(), DiskRefusal>
    requires spelled { IsSpelled header.now }
    requires there { IsThere out.old.name (D.told disk.old) }
    ensures { PutsText (header_bytes header.now) out.old out.new (D.told disk.old) (D.told disk.new)
        (D.faults disk.old) (D.faults disk.new) result }
{
    put_table(&header.records, out, disk)?;
    put_part(b"\x01u\n", &header.users, b"\x01U\n", out, disk)?;
    put_flags(&header.flags, out, disk)?;
    put_part(b"\x01t\n", &header.description, b"\x01T\n", out, disk)
}

// puts a header, and appends what is held back
fn put_whole<D: Disk>(
    header: &Header,
    out: &mut PieceWriter,
    disk: &mut D,
) -> Result<(), DiskRefusal>
    requires spelled { IsSpelled header.now }
    requires there { IsThere out.old.name (D.told disk.old) }
    ensures puts { PutsText (header_bytes header.now) out.old out.new (D.told disk.old) (D.told disk.new)
        (D.faults disk.old) (D.faults disk.new) result }
    ensures empty { OnOk result (out.new.held ≡ []) }
{
    put_header(header, out, disk)?;
    out.flush(disk)
}

/// Appends a header to a file, with the sum line `00000`, whose digits are put in when the sum is known:
/// sccsfile(4). The header behind that line is added to the sums.
pub fn write_header<D: Disk>(
    header: &Header,
    disk: &mut D,
    name: &Name,
    sum: &mut Sum,
) -> Result<(), DiskRefusal>
    requires spelled { IsSpelled header.now }
    requires there { IsThere name.now (D.told disk.old) }
    ensures { WritesHeader header.now name.now sum.old sum.new (D.told disk.old) (D.told disk.new)
        (D.faults disk.old) (D.faults disk.new) result }
{
    disk.append(name, b"\x01h00000\n")?;
    let mut out = PieceWriter::new(name, *sum);
    put_whole(header, &mut out, disk)?;
    *sum = out.sum();
    Ok(())
}
