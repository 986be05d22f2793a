ghost use Rattle.std.specs.Prelude.{◌≡◌, [], IfOk, OnOk};
ghost use Rattle.sccs_disk.specs.Calls.{IsThere};
ghost use Rattle.sccs_tokens.specs.Written.{ended, item_line};
ghost use Rattle.sccs_writers.specs.Controls.{control_line};
ghost use Rattle.sccs_writers.specs.Puts.{PutsText};

use crate::piece_writers::PieceWriter;
use itoa::Buffer;
use sccs_base::{Line, Memory, Name};
use sccs_disk::{Disk, DiskRefusal};
use sccs_history::Item;
use sccs_table::Sum;
use std::alloc::Global;
use std::marker::Model;

/// Appends the items of a body to a file, as they are written: sccsfile(4). It holds back at most
/// 4,096 bytes, and adds up those that it appends.
#[derive(Drop)]
pub struct ItemWriter {
    out: PieceWriter,
}

impl Model for ItemWriter {
    ghost use Rattle.sccs_writers.specs.Puts.{Writer};

    ghost Value = { Writer };

    ghost view = { λ w. w.out };
}

// puts a control line: SOH, a letter, a blank and a serial
fn put_control<D: Disk>(
    letter: &[u8],
    serial: u16,
    out: &mut PieceWriter,
    disk: &mut D,
) -> Result<(), DiskRefusal>
    requires { IsThere out.old.name (D.told disk.old) }
    ensures { PutsText (ended (control_line letter.now serial)) out.old out.new (D.told disk.old) (D.told disk.new)
        (D.faults disk.old) (D.faults disk.new) result }
{
    let mut buffer = Buffer::new();
    let serial = buffer.format(serial).as_bytes();
    out.put_parts(&[b"\x01", letter, b" ", serial, b"\n"], disk)
}

impl ItemWriter {
    /// Goes on with the sums of a header that was written to the file.
    pub fn new(_alloc: Global, name: &Name, sum: Sum) -> Result<ItemWriter, Memory>
        ensures { IfOk result (λ w. w ≡ record { name = name.now; held = []; sums = sum }) }
    {
        Ok(ItemWriter {
            out: PieceWriter::new(name, sum),
        })
    }

    /// The sums of the bytes that were appended.
    pub fn sum(&self) -> Sum
        ensures { result ≡ self.now.sums }
    {
        self.out.sum()
    }

    /// Puts the line of an item.
    pub fn put<D: Disk>(&mut self, disk: &mut D, item: &Item) -> Result<(), DiskRefusal>
        requires { IsThere self.old.name (D.told disk.old) }
        ensures { PutsText (ended (item_line item.now)) self.old self.new (D.told disk.old) (D.told disk.new)
            (D.faults disk.old) (D.faults disk.new) result }
    {
        match item {
            Item::Text(line) => self.out.put_parts(&[line.bytes(), b"\n"], disk),
            Item::Insert(serial) => put_control(b"I", *serial, &mut self.out, disk),
            Item::Delete(serial) => put_control(b"D", *serial, &mut self.out, disk),
            Item::End(serial) => put_control(b"E", *serial, &mut self.out, disk),
        }
    }

    /// Puts lines of text that stand together, each with its LF.
    pub fn put_text<D: Disk>(&mut self, disk: &mut D, lines: &[u8]) -> Result<(), DiskRefusal>
        requires { IsThere self.old.name (D.told disk.old) }
        ensures { PutsText lines.now self.old self.new (D.told disk.old) (D.told disk.new)
            (D.faults disk.old) (D.faults disk.new) result }
    {
        self.out.put(lines, disk)
    }

    /// Puts a line of text.
    pub fn put_line<D: Disk>(&mut self, disk: &mut D, line: &Line) -> Result<(), DiskRefusal>
        requires { IsThere self.old.name (D.told disk.old) }
        ensures { PutsText (ended line.now) self.old self.new (D.told disk.old) (D.told disk.new)
            (D.faults disk.old) (D.faults disk.new) result }
    {
        self.out.put_parts(&[line.bytes(), b"\n"], disk)
    }

    /// Appends the bytes that are held back.
    pub fn flush<D: Disk>(&mut self, disk: &mut D) -> Result<(), DiskRefusal>
        requires { IsThere self.old.name (D.told disk.old) }
        ensures puts { PutsText [] self.old self.new (D.told disk.old) (D.told disk.new)
            (D.faults disk.old) (D.faults disk.new) result }
        ensures empty { OnOk result (self.new.held ≡ []) }
    {
        self.out.flush(disk)
    }
}
