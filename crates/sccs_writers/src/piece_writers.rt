ghost use Rattle.std.specs.Prelude.{◌≡◌, ◌+◌, ◌≤◌, List, ℕ, [], ◌++◌, length, take, flat_map, IsTrue, OnOk};
ghost use Rattle.sccs_disk.specs.Calls.{IsThere, Writes};
ghost use Rattle.sccs_disk.specs.Effects.{appending};
ghost use Rattle.sccs_table.specs.SumOf.{IsSumOf};
ghost use Rattle.sccs_writers.specs.Puts.{PutsText};

use sccs_base::Name;
use sccs_disk::{Disk, DiskRefusal};
use sccs_table::Sum;
use std::marker::Model;

// how many bytes are held back at most
const PIECE: usize = 4096;

/// Appends bytes to a file, and holds back at most 4,096 of them. It adds up the bytes that it
/// appends. Contracts see the name of the file, the bytes that are held back, and the sums.
#[derive(Drop)]
pub struct PieceWriter {
    name: Name,
    piece: [u8; PIECE],
    len: usize,
    sum: Sum,
}

impl Model for PieceWriter {
    ghost use Rattle.sccs_writers.specs.Puts.{Writer};

    ghost Value = { Writer };

    ghost use Rattle.sccs_writers.specs.HeldBytes.{writer_of, IsWithinPiece};

    ghost view = { writer_of };

    ghost invariant = { IsWithinPiece };
}

// appends bytes to the file of a name, and adds them to the sums
fn append<D: Disk>(
    disk: &mut D,
    name: &Name,
    bytes: &[u8],
    sum: &mut Sum,
) -> Result<(), DiskRefusal>
    requires { IsThere name.now (D.told disk.old) }
    ensures writes { Writes (appending name.now bytes.now) (D.told disk.old) (D.told disk.new)
        (D.faults disk.old) (D.faults disk.new) result }
    ensures sums { OnOk result ((front : List ℕ) → IsSumOf sum.old front → IsSumOf sum.new (front ++ bytes.now)) }
{
    disk.append(name, bytes)?;
    sum.add(bytes);
    Ok(())
}

// puts bytes after those at the front of a piece, and answers how many stand there then
fn put_after(piece: &mut [u8], len: usize, bytes: &[u8]) -> usize
    requires { len + length bytes.now ≤ length piece.old }
    ensures end { result ≡ len + length bytes.now }
    ensures same { length piece.new ≡ length piece.old }
    ensures put { take result piece.new ≡ take len piece.old ++ bytes.now }
{
    let end = len + bytes.len();
    piece[len..end].copy_from_slice(bytes);
    end
}

impl PieceWriter {
    /// Holds nothing back yet, and goes on with these sums.
    pub fn new(name: &Name, sum: Sum) -> PieceWriter
        ensures { result ≡ record { name = name.now; held = []; sums = sum } }
    {
        PieceWriter {
            name: *name,
            piece: [0; PIECE],
            len: 0,
            sum,
        }
    }

    /// The sums of the bytes that were appended.
    pub fn sum(&self) -> Sum
        ensures { result ≡ self.now.sums }
    {
        self.sum
    }

    // holds bytes back where there is room for them
    fn hold(&mut self, bytes: &[u8]) -> bool
        ensures held { IsTrue result → self.new.held ≡ self.old.held ++ bytes.now }
        ensures full { ¬ IsTrue result → self.new ≡ self.old }
        ensures name { self.new.name ≡ self.old.name }
        ensures sums { self.new.sums ≡ self.old.sums }
    {
        if bytes.len() > PIECE - self.len {
            return false;
        }
        self.len = put_after(&mut self.piece, self.len, bytes);
        true
    }

    /// Appends the bytes that are held back.
    pub fn flush<D: Disk>(&mut self, disk: &mut D) -> Result<(), DiskRefusal>
        requires { IsThere self.old.name (D.told disk.old) }
        ensures puts { PutsText [] self.old self.new (D.told disk.old) (D.told disk.new)
            (D.faults disk.old) (D.faults disk.new) result }
        ensures empty { OnOk result (self.new.held ≡ []) }
    {
        let len = self.len;
        self.len = 0;
        append(disk, &self.name, &self.piece[..len], &mut self.sum)
    }

    /// Puts bytes after those that are held back: where there is room they are held back too, else
    /// what is held back is appended first.
    pub fn put<D: Disk>(&mut self, bytes: &[u8], disk: &mut D) -> Result<(), DiskRefusal>
        requires { IsThere self.old.name (D.told disk.old) }
        ensures { PutsText bytes.now self.old self.new (D.told disk.old) (D.told disk.new)
            (D.faults disk.old) (D.faults disk.new) result }
    {
        if self.hold(bytes) {
            return Ok(());
        }
        if let Err(fault) = self.flush(disk) {
            return Err(fault);
        }
        if self.hold(bytes) {
            return Ok(());
        }
        append(disk, &self.name, bytes, &mut self.sum)
    }

    /// Puts the parts in their order, as one text.
    pub fn put_parts<D: Disk>(&mut self, parts: &[&[u8]], disk: &mut D) -> Result<(), DiskRefusal>
        requires { IsThere self.old.name (D.told disk.old) }
        ensures { PutsText (flat_map (λ p. p.now) parts.now) self.old self.new (D.told disk.old) (D.told disk.new)
            (D.faults disk.old) (D.faults disk.new) result }
    {
        for part in parts {
            if let Err(fault) = self.put(part, disk) {
                return Err(fault);
            }
        }
        Ok(())
    }
}
