ghost use Rattle.std.specs.Prelude.{◌≡◌, ℕ, List, ◌++◌, ◌<◌, ◌≤◌, ◌+◌, ◌-◌, [], ◌∷◌, true, false, Option, None, Some};
ghost use Rattle.std.specs.Prelude.{length, max, min, replicate, take, drop, IfOk, IfSome, OnOk, OnErr, IsErr};
ghost use Rattle.sccs_base.specs.Cut.{HasNoLf};
ghost use Rattle.sccs_disk.specs.Told.{seen};
ghost use Rattle.sccs_sid.specs.SidLists.{begins};
ghost use Rattle.sccs_table.specs.Marks.{IsNextSoh, IsZeroFrom, MarksOf};
ghost use Rattle.sccs_table.specs.Runs.{HasNoMark, HasNoRun, IsMark, IsRun, lf_count};
ghost use Rattle.sccs_table.specs.SumOf.{IsSumOf};
ghost use Rattle.sccs_table.specs.FrontFile.{IsOuter, ReadsBytes, ReadsOn};
ghost use Rattle.sccs_table.specs.ReaderState.{StandsIn, Stays, Takes, TakesLine, bytes_in};
ghost use Rattle.sccs_disk.specs.Causes.{DiskCauses};

use crate::counts::lines_in;
use crate::piece_marks::{LineEnds, PieceMarks, whole_lines};
use crate::sums::{PlainSum, Sum};
use memchr::{memchr, memrchr};
use sccs_base::{FILE_LIMIT, Failed, Memory, Name};
use sccs_disk::Disk;
use sccs_grammar::FileFault;
use std::alloc::Global;
use std::marker::Model;

/// The place up to which a file is read at most: one byte more than the longest file has.
pub const READ_LIMIT: u64 = FILE_LIMIT + 1;

// the bytes of a sum line with its LF
const SUM_LINE: u64 = 8;

/// Takes the lines of a file in pieces of 4,096 bytes, and adds up all bytes that it reads behind the
/// sum line. Contracts see the bytes that were read and not given yet, the place of the first of
/// them, the file's name, the place up to which it is read at most, and the plain sum.
#[derive(Drop)]
pub struct LineReader {
    name: Name,
    piece: [u8; 4096],
    start: usize,
    end: usize,
    place: u64,
    limit: u64,
    sum: PlainSum,
    marks: PieceMarks,
    // the place in the piece behind its last LF
    whole: usize,
}

impl Model for LineReader {
    ghost use Rattle.sccs_table.specs.ReaderState.{ReaderState};
    ghost use Rattle.sccs_table.specs.HeldPiece.{reader_state, IsPieceKept};

    ghost Value = { ReaderState };

    ghost view = { reader_state };

    ghost invariant = { IsPieceKept };
}

// makes all bytes behind a front 0
fn clear_behind(bytes: &mut [u8], front: usize)
    requires { front ≤ length bytes.old }
    ensures len { length bytes.new ≡ length bytes.old }
    ensures front { take front bytes.new ≡ take front bytes.old }
    ensures rest { drop front bytes.new ≡ replicate (length bytes.old - front) 0 }
{
    bytes[front..].fill(0);
}

// reads so many bytes at a place into the front of a piece; fewer where the file ends. Behind them
// all is 0
fn read_piece<D: Disk>(
    disk: &mut D,
    name: &Name,
    from: u64,
    room: usize,
    piece: &mut [u8],
) -> Result<usize, Failed>
    requires { room ≤ length piece.old }
    ensures same { D.told disk.new ≡ D.told disk.old }
    ensures causes { DiskCauses (IsErr result) (D.faults disk.old) (D.faults disk.new) }
    ensures bound { IfOk result (λ count. count ≤ room) }
    ensures within { IfOk result (λ count. count ≤ length piece.new) }
    ensures told { IfOk result (λ count. IfSome (bytes_in (seen (D.told disk.old)) name.now)
        (λ file. take count piece.new ≡ take room (drop from file))) }
    ensures rest { IfOk result (λ count. drop count piece.new ≡ replicate (length piece.old - count) 0) }
    ensures missing { IfOk result (λ count. IfSome (seen (D.told disk.old)) (λ view. view name.now ≡ None
        → count ≡ 0)) }
{
    let count = disk.read_at(name, from, &mut piece[..room])?;
    let count = count.unwrap_or(0);
    clear_behind(piece, count);
    Ok(count)
}

// asks for no bytes at a place: a disk that fails says so
fn read_nothing<D: Disk>(disk: &mut D, name: &Name, from: u64) -> Result<(), Failed>
    ensures same { D.told disk.new ≡ D.told disk.old }
    ensures causes { DiskCauses (IsErr result) (D.faults disk.old) (D.faults disk.new) }
{
    let _ = disk.read_at(name, from, &mut [])?;
    Ok(())
}

fn begins_with_soh(bytes: &[u8]) -> bool
    ensures { result ≡ begins 1 bytes.now }
{
    match bytes {
        [byte, ..] => *byte == 1,
        [] => false,
    }
}

// the first SOH from a place on of bytes that stand in a piece
#[inline(always)]
fn soh_in(
    marks: &PieceMarks,
    piece: &[u8],
    start: usize,
    bytes: &[u8],
    from: usize,
) -> Option<usize>
    requires marks { MarksOf marks.now piece.now }
    requires order { start ≤ 4096 }
    requires part { bytes.now ≡ take (length bytes.now) (drop start piece.now) }
    requires fits { from ≤ length bytes.now }
    ensures { IsNextSoh bytes.now from (length bytes.now) result }
{
    match marks.next_soh(piece, start + from, start + bytes.len()) {
        Some(at) => Some(at - start),
        None => None,
    }
}

// the first place where SOH stands behind LF, or the length, of bytes that stand in a piece
#[inline(always)]
fn mark_place(marks: &PieceMarks, piece: &[u8], start: usize, bytes: &[u8]) -> usize
    requires marks { MarksOf marks.now piece.now }
    requires order { start ≤ 4096 }
    requires part { bytes.now ≡ take (length bytes.now) (drop start piece.now) }
    ensures fits { result ≤ length bytes.now }
    ensures first { HasNoMark bytes.now result }
    ensures mark { result < length bytes.now → IsMark bytes.now result }
{
    let mut from = 0;
    'places: while let Some(place) = soh_in(marks, piece, start, bytes, from) {
        if 0 < place && bytes[place - 1] == b'\n' {
            return place;
        }
        from = place + 1;
    }
    bytes.len()
}

// how many bytes at the front are text lines, each with its LF, of bytes that stand in a piece
#[inline(always)]
fn run_length(marks: &PieceMarks, piece: &[u8], start: usize, bytes: &[u8]) -> usize
    requires marks { MarksOf marks.now piece.now }
    requires order { start ≤ 4096 }
    requires part { bytes.now ≡ take (length bytes.now) (drop start piece.now) }
    ensures fits { result ≤ length bytes.now }
    ensures run { IsRun (take result bytes.now) }
    ensures longest { HasNoRun (drop result bytes.now) }
{
    if begins_with_soh(bytes) {
        return 0;
    }
    let end = mark_place(marks, piece, start, bytes);
    if end < bytes.len() {
        return end;
    }
    match memrchr(b'\n', &bytes[..end]) {
        Some(at) => at + 1,
        None => 0,
    }
}

// the bytes before the first LF
fn first_line(bytes: &[u8]) -> Option<&[u8]>
    ensures line { IfSome result (λ line. HasNoLf line.now) }
    ensures front { IfSome result (λ line. take (length line.now + 1) bytes.now ≡ line.now ++ 10 ∷ []) }
    ensures fits { IfSome result (λ line. length line.now < length bytes.now) }
    ensures none { result ≡ None → HasNoLf bytes.now }
{
    let at = memchr(b'\n', bytes)?;
    Some(&bytes[..at])
}

// moves a part of a piece to its front
fn move_front(piece: &mut [u8], start: usize, end: usize)
    requires order { start ≤ end }
    requires within { end ≤ length piece.old }
    ensures len { length piece.new ≡ length piece.old }
    ensures front { take (end - start) piece.new ≡ take (end - start) (drop start piece.old) }
{
    piece.copy_within(start..end, 0);
}

// reads so many bytes at a place behind the front of a piece, which stays; fewer where the file ends
fn read_behind<D: Disk>(
    disk: &mut D,
    name: &Name,
    from: u64,
    front: usize,
    room: usize,
    piece: &mut [u8],
) -> Result<usize, Failed>
    requires { front + room ≤ length piece.old }
    ensures same { D.told disk.new ≡ D.told disk.old }
    ensures causes { DiskCauses (IsErr result) (D.faults disk.old) (D.faults disk.new) }
    ensures bound { IfOk result (λ count. count ≤ room) }
    ensures len { length piece.new ≡ length piece.old }
    ensures front { take front piece.new ≡ take front piece.old }
    ensures rest { IfOk result (λ count. drop count (drop front piece.new) ≡ replicate
        (length piece.old - front - count) 0) }
    ensures told { IfOk result (λ count. IfSome (bytes_in (seen (D.told disk.old)) name.now)
        (λ file. take count (drop front piece.new) ≡ take room (drop from file))) }
{
    read_piece(disk, name, from, room, &mut piece[front..])
}

// how many bytes at the front of a piece may be other than 0, where so many stood there before a read
#[inline(always)]
fn filled_by(front: usize, read: Result<usize, Failed>) -> usize
    requires { IfOk read (λ count. front + count ≤ 4096) }
    ensures bound { result ≤ 4096 }
    ensures rest { (piece : List ℕ) → length piece ≡ 4096 → IfOk read (λ count. IsZeroFrom piece (front + count))
        → IsZeroFrom piece result }
{
    match read {
        Ok(count) => front + count,
        Err(_) => 4096,
    }
}

// the first bytes, or all
fn front_part(bytes: &[u8], count: usize) -> &[u8]
    ensures { result.now ≡ take count bytes.now }
{
    bytes.get(..count).unwrap_or(bytes)
}

// how many lines end between two places of a file, which is read for it
fn lines_between<D: Disk>(disk: &mut D, name: &Name, from: u64, to: u64) -> Result<u64, Failed>
    requires { to ≤ 1073741825 }
    ensures same { D.told disk.new ≡ D.told disk.old }
    ensures causes { DiskCauses (IsErr result) (D.faults disk.old) (D.faults disk.new) }
    ensures bound { IfOk result (λ count. count ≤ to - from) }
    ensures told { IfOk result (λ count. IfSome (bytes_in (seen (D.told disk.old)) name.now)
        (λ file. count ≡ lf_count (take (to - from) (drop from file)))) }
{
    let mut piece = [0; 4096];
    let mut at = from;
    let mut count = 0;
    'pieces: loop {
        let room = to.saturating_sub(at).min(4096) as usize;
        let read = read_piece(disk, name, at, room, &mut piece)?;
        if read == 0 {
            return Ok(count);
        }
        count += lines_in(front_part(&piece, read));
        at += read as u64;
    }
}

impl LineReader {
    /// Stands at a place of a file: at its front, or behind its sum line. Whether LFs are looked for
    /// changes no answer, only how soon `lines_held` has it.
    pub fn new(name: &Name, place: u64, limit: u64, ends: LineEnds) -> LineReader
        requires low { place ≤ limit }
        requires high { limit ≤ 1073741825 }
        ensures { result ≡ record { name = name.now; held = []; place = place; limit = limit; sum = 0 } }
    {
        let piece = [0; 4096];
        let marks = PieceMarks::new(ends);
        LineReader {
            name: *name,
            piece,
            start: 0,
            end: 0,
            place,
            limit,
            sum: PlainSum::new(),
            marks,
            whole: 0,
        }
    }

    /// The place of the next byte.
    pub fn place(&self) -> u64
        ensures value { result ≡ self.now.place }
        ensures bound { self.now.place + length self.now.held ≤ self.now.limit }
        ensures limit { self.now.limit ≤ 1073741825 }
    {
        self.place
    }

    /// The place up to which the file is read at most.
    pub fn limit(&self) -> u64
        ensures value { result ≡ self.now.limit }
        ensures bound { result ≤ 1073741825 }
        ensures ahead { self.now.place + length self.now.held ≤ self.now.limit }
    {
        self.limit
    }

    /// The plain sum of all bytes that were read behind the sum line.
    pub fn sum(&self) -> u16
        ensures { result ≡ self.now.sum }
    {
        self.sum.value()
    }

    /// A new reader of the same file, which stands behind its sum line.
    pub fn again(&self) -> LineReader
        requires { 8 ≤ self.now.limit }
        ensures { result ≡ record { name = self.now.name; held = []; place = 8; limit = self.now.limit; sum = 0 } }
    {
        LineReader::new(&self.name, SUM_LINE, self.limit, LineEnds::Unasked)
    }

    // reads the next piece before a place, where nothing is held; false where nothing is left there
    fn fill_to<D: Disk>(&mut self, disk: &mut D, to: u64) -> Result<bool, Failed>
        requires empty { self.old.held ≡ [] }
        requires within { to ≤ self.old.limit }
        ensures frame { ReadsBytes D.told D.faults disk.old disk.new self.old self.new result }
        ensures stays { Stays (bytes_in (seen (D.told disk.old)) self.old.name) self.old self.new }
        ensures place { self.new.place ≡ self.old.place }
        ensures bound { self.new.place + length self.new.held ≤ max to self.new.place }
        ensures more { IfOk result (λ more. more ≡ true → 0 < length self.new.held) }
        ensures none { IfOk result (λ more. more ≡ false → self.new.held ≡ []) }
        ensures failed { OnErr result (self.new.held ≡ []) }
        ensures told { IfOk result (λ more. IfSome (bytes_in (seen (D.told disk.old)) self.old.name)
            (λ file. StandsIn self.old file → StandsIn self.new file
            × (more ≡ false → min to (length file) ≤ self.new.place))) }
    {
        self.start = 0;
        self.end = 0;
        self.whole = 0;
        let room = to.saturating_sub(self.place).min(4096) as usize;
        if room == 0 {
            read_nothing(disk, &self.name, self.place)?;
            return Ok(false);
        }
        let read = read_piece(disk, &self.name, self.place, room, &mut self.piece);
        let filled = filled_by(0, read);
        let total = self.marks.read(&self.piece, filled);
        let count = read?;
        let before = SUM_LINE.saturating_sub(self.place) as usize;
        self.sum.add_behind(total, front_part(&self.piece, before));
        self.end = count;
        self.whole = whole_lines(&self.piece[..count]);
        Ok(count > 0)
    }

    // reads the next piece, where nothing is held; false at the end of the file
    fn fill<D: Disk>(&mut self, disk: &mut D) -> Result<bool, Failed>
        requires { self.old.held ≡ [] }
        ensures frame { ReadsBytes D.told D.faults disk.old disk.new self.old self.new result }
        ensures stays { Stays (bytes_in (seen (D.told disk.old)) self.old.name) self.old self.new }
        ensures place { self.new.place ≡ self.old.place }
        ensures more { IfOk result (λ more. more ≡ true → 0 < length self.new.held) }
        ensures told { IfOk result (λ more. IfSome (bytes_in (seen (D.told disk.old)) self.old.name)
            (λ file. StandsIn self.old file → StandsIn self.new file × (more ≡ false → self.new.place ≡ length file))) }
    {
        let to = self.limit();
        self.fill_to(disk, to)
    }

    // passes over all that is held
    fn let_go(&mut self)
        ensures name { self.new.name ≡ self.old.name }
        ensures limit { self.new.limit ≡ self.old.limit }
        ensures held { self.new.held ≡ [] }
        ensures place { self.new.place ≡ self.old.place + length self.old.held }
        ensures sum { self.new.sum ≡ self.old.sum }
        ensures ahead { self.new.place + length self.new.held ≤ self.new.limit }
    {
        self.place += (self.end - self.start) as u64;
        self.start = 0;
        self.end = 0;
        self.whole = 0;
    }

    /// Passes over all bytes before a place, or up to the end of a file that ends there or before.
    pub fn skip_to<D: Disk>(&mut self, disk: &mut D, to: u64) -> Result<(), Failed>
        requires { to ≤ self.old.limit }
        ensures frame { ReadsBytes D.told D.faults disk.old disk.new self.old self.new result }
        ensures stays { Stays (bytes_in (seen (D.told disk.old)) self.old.name) self.old self.new }
        ensures held { self.new.held ≡ [] }
        ensures onward { self.old.place + length self.old.held ≤ self.new.place }
        ensures bound { self.new.place ≤ max to (self.old.place + length self.old.held) }
        ensures told { OnOk result ((file : List ℕ) → bytes_in (seen (D.told disk.old)) self.old.name ≡ Some file
            → StandsIn self.old file → min to (length file) ≤ self.new.place) }
    {
        let _ = &self.limit;
        'pieces: loop {
            self.let_go();
            if !self.fill_to(disk, to)? {
                return Ok(());
            }
        }
    }

    // moves the held bytes up to LF to a line; false where no LF is held, and then all of them
    fn take_held(&mut self, line: &mut Vec<u8>) -> Result<bool, Memory>
        ensures name { self.new.name ≡ self.old.name }
        ensures limit { self.new.limit ≡ self.old.limit }
        ensures sum { self.new.sum ≡ self.old.sum }
        ensures kept { OnErr result (self.new ≡ self.old) }
        ensures taken { IfOk result (λ ended. Takes self.old self.new line.old.items line.new.items ended) }
        ensures onward { self.old.place ≤ self.new.place }
        ensures ahead { self.new.place + length self.new.held ≤ self.new.limit }
    {
        let held = &self.piece[self.start..self.end];
        match memchr(b'\n', held) {
            Some(at) => {
                line.extend_from_slice(&held[..at])?;
                self.start += at + 1;
                self.place += at as u64 + 1;
                Ok(true)
            }
            None => {
                line.extend_from_slice(held)?;
                self.place += held.len() as u64;
                self.start = self.end;
                Ok(false)
            }
        }
    }

    /// Appends the next line to an empty one, without its LF; false where the file ends before an
    /// LF, and then all that was left.
    pub fn next_line<D: Disk>(
        &mut self,
        disk: &mut D,
        line: &mut Vec<u8>,
    ) -> Result<bool, FileFault>
        requires { line.old.items ≡ [] }
        ensures frame { ReadsOn D.told D.faults disk.old disk.new self.old self.new result }
        ensures outer { IsOuter result }
        ensures stays { Stays (bytes_in (seen (D.told disk.old)) self.old.name) self.old self.new }
        ensures told { IfOk result (λ ended. TakesLine (bytes_in (seen (D.told disk.old)) self.old.name) self.old
            self.new line.new.items ended) }
        ensures line { OnOk result (HasNoLf line.new.items) }
        ensures onward { self.old.place ≤ self.new.place }
        ensures moved { IfOk result (λ ended. ended ≡ true → self.new.place ≡ self.old.place + length line.new.items
            + 1) }
    {
        let _ = &self.limit;
        'pieces: loop {
            match self.take_held(line) {
                Ok(true) => return Ok(true),
                Ok(false) => {}
                Err(Memory) => return Err(FileFault::Memory),
            }
            match self.fill(disk) {
                Ok(true) => {}
                Ok(false) => return Ok(false),
                Err(Failed) => return Err(FileFault::Failed),
            }
        }
    }

    /// Where no LF is held, reads on behind the held bytes, as far as there is room for them; true
    /// where an LF is held then.
    pub fn read_on<D: Disk>(&mut self, disk: &mut D) -> Result<bool, Failed>
        ensures frame { ReadsBytes D.told D.faults disk.old disk.new self.old self.new result }
        ensures stays { Stays (bytes_in (seen (D.told disk.old)) self.old.name) self.old self.new }
        ensures place { self.new.place ≡ self.old.place }
        ensures ahead { self.new.place + length self.new.held ≤ self.new.limit }
        ensures more { IfOk result (λ more. more ≡ true → (lf_count self.old.held ≡ 0) × (0 < lf_count self.new.held)) }
    {
        if self.start < self.whole {
            return Ok(false);
        }
        let held = self.end - self.start;
        let from = self.place + held as u64;
        let room = self.limit.saturating_sub(from).min((4096 - held) as u64) as usize;
        if room == 0 {
            read_nothing(disk, &self.name, from)?;
            return Ok(false);
        }
        move_front(&mut self.piece, self.start, self.end);
        self.start = 0;
        self.end = held;
        self.whole = 0;
        let read = read_behind(disk, &self.name, from, held, room, &mut self.piece);
        let filled = filled_by(held, read);
        let total = self.marks.read(&self.piece, filled);
        let count = read?;
        let before = held + SUM_LINE.saturating_sub(from) as usize;
        self.sum.add_behind(total, front_part(&self.piece, before));
        self.end = held + count;
        self.whole = whole_lines(&self.piece[..self.end]);
        Ok(self.whole > 0)
    }

    /// How many lines end in so many of the held bytes.
    #[inline(always)]
    pub fn lines_held(&self, count: usize) -> u64
        requires { count ≤ length self.now.held }
        ensures { result ≡ lf_count (take count self.now.held) }
    {
        let before = self.marks.lines_before(&self.piece, self.start);
        self.marks.lines_before(&self.piece, self.start + count) - before
    }

    /// The bytes that were read and not given yet.
    pub fn held(&self) -> &[u8]
        ensures { result.now ≡ self.now.held }
    {
        &self.piece[self.start..self.end]
    }

    /// The next line without its LF, where it is held whole; None where no LF is held.
    pub fn held_line(&self) -> Option<&[u8]>
        ensures line { IfSome result (λ line. HasNoLf line.now) }
        ensures front { IfSome result (λ line. take (length line.now + 1) self.now.held ≡ line.now ++ 10 ∷ []) }
        ensures fits { IfSome result (λ line. length line.now < length self.now.held) }
        ensures none { result ≡ None → HasNoLf self.now.held }
    {
        let held = &self.piece[self.start..self.end];
        first_line(held)
    }

    /// Passes over a line of that length which is held whole, and its LF.
    pub fn pass_line(&mut self, count: usize)
        requires { count < length self.old.held }
        ensures name { self.new.name ≡ self.old.name }
        ensures limit { self.new.limit ≡ self.old.limit }
        ensures stays { (o : Option (List ℕ)) → Stays o self.old self.new }
        ensures held { self.new.held ≡ drop (count + 1) self.old.held }
        ensures place { self.new.place ≡ self.old.place + count + 1 }
        ensures ahead { self.new.place + length self.new.held ≤ self.new.limit }
        ensures told { (o : Option (List ℕ)) (line : List ℕ) → HasNoLf line → length line ≡ count
            → take (count + 1) self.old.held ≡ line ++ 10 ∷ [] → TakesLine o self.old self.new line true }
    {
        let end = self.start + count;
        self.start = end + 1;
        self.place += count as u64 + 1;
    }

    /// The text lines that are held whole, each with its LF, up to a line that begins with SOH.
    #[inline(always)]
    pub fn texts(&self) -> &[u8]
        ensures fits { length result.now ≤ length self.now.held }
        ensures front { take (length result.now) self.now.held ≡ result.now }
        ensures run { IsRun result.now }
        ensures longest { HasNoRun (drop (length result.now) self.now.held) }
    {
        let held = &self.piece[self.start..self.end];
        &held[..run_length(&self.marks, &self.piece, self.start, held)]
    }

    /// Passes over so many of the held bytes.
    pub fn pass(&mut self, count: usize)
        requires { count ≤ length self.old.held }
        ensures name { self.new.name ≡ self.old.name }
        ensures limit { self.new.limit ≡ self.old.limit }
        ensures sum { self.new.sum ≡ self.old.sum }
        ensures stays { (o : Option (List ℕ)) → Stays o self.old self.new }
        ensures held { self.new.held ≡ drop count self.old.held }
        ensures place { self.new.place ≡ self.old.place + count }
        ensures ahead { self.new.place + length self.new.held ≤ self.new.limit }
    {
        self.start += count;
        self.place += count as u64;
    }

    /// How many lines end between two places of the file, which is read again for it.
    pub fn lines_between<D: Disk>(&self, disk: &mut D, from: u64, to: u64) -> Result<u64, Failed>
        requires { to ≤ 1073741825 }
        ensures same { D.told disk.new ≡ D.told disk.old }
        ensures causes { DiskCauses (IsErr result) (D.faults disk.old) (D.faults disk.new) }
        ensures bound { IfOk result (λ count. count ≤ to - from) }
        ensures told { IfOk result (λ count. IfSome (bytes_in (seen (D.told disk.old)) self.now.name)
            (λ file. count ≡ lf_count (take (to - from) (drop from file)))) }
    {
        lines_between(disk, &self.name, from, to)
    }

    // adds the held bytes to the sums, and holds none
    fn add_held(&mut self, sum: &mut Sum)
        ensures name { self.new.name ≡ self.old.name }
        ensures limit { self.new.limit ≡ self.old.limit }
        ensures held { self.new.held ≡ [] }
        ensures place { self.new.place ≡ self.old.place + length self.old.held }
        ensures ahead { self.new.place + length self.new.held ≤ self.new.limit }
        ensures kept { self.new.sum ≡ self.old.sum }
        ensures sum { (front : List ℕ) → IsSumOf sum.old front → IsSumOf sum.new (front ++ self.old.held) }
    {
        let held = &self.piece[self.start..self.end];
        sum.add(held);
        self.place += held.len() as u64;
        self.start = self.end;
    }

    /// The sums of all bytes from the reader's place on.
    pub fn sum_left<D: Disk>(&mut self, disk: &mut D) -> Result<Sum, Failed>
        ensures same { D.told disk.new ≡ D.told disk.old }
        ensures causes { DiskCauses (IsErr result) (D.faults disk.old) (D.faults disk.new) }
        ensures told { IfOk result (λ sum. IfSome (bytes_in (seen (D.told disk.old)) self.old.name)
            (λ file. StandsIn self.old file → IsSumOf sum (drop self.old.place file))) }
    {
        let _ = self.limit();
        let mut sum = Sum::new();
        'pieces: loop {
            self.add_held(&mut sum);
            if !self.fill(disk)? {
                return Ok(sum);
            }
        }
    }
}
