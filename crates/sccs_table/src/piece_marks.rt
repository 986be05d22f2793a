//! Where LF and SOH stand in a piece.
ghost use Rattle.std.specs.Prelude.{◌≡◌, ◌≢◌, false, true, ℕ, List, ◌%◌, sum, ◌+◌, ◌*◌, ◌<◌, ◌≤◌, length, replicate};
ghost use Rattle.std.specs.Prelude.{take, drop, get_or, if◌then◌else◌, ◌-◌, ◌==◌};
ghost use Rattle.std.specs.Int.{bit_at};
ghost use Rattle.sccs_base.specs.Cut.{HasNoLf};
ghost use Rattle.sccs_table.specs.Runs.{lf_count};
ghost use Rattle.sccs_table.specs.Marks.{AreMarked, AreSohs, Describes, HasNoSoh, IsNextBlock, IsNextSoh, IsZeroFrom};
ghost use Rattle.sccs_table.specs.Marks.{MarksOf, bit, bits_of, byte_block};

use crate::counts::lines_in;
use crate::piece_counts::{lanes_of, plain_count, plain_sum, sum_with};
use memchr::memrchr;
use sccs_base::{LF, SOH};
use std::simd::prelude::*;

/// Whether a reader will be asked how many lines end before a place.
#[derive(Clone, Copy, Debug, PartialEq, Eq)]
pub enum LineEnds {
    /// It will hardly be, and LFs aren't looked for.
    Unasked,
    /// It will be, and LFs are counted in each piece, or placed.
    Asked,
}

/// What is known of the LFs of a piece.
#[derive(Clone, Copy)]
enum Known {
    Nothing,
    /// How many there are, and the place behind the last.
    Number,
    /// Each one's place.
    Places,
}

/// Where LF and SOH stand in a piece of 4,096 bytes, so that neither is searched for byte by byte.
/// Where no SOH stands in it nor in the one before, its LFs are only counted, if they are asked for; not so
/// where it ends in NUL, as the last piece of a file mostly does.
#[derive(Drop)]
pub struct PieceMarks {
    wanted: LineEnds,
    known: Known,
    // for each 64 bytes, a bit for each that is LF
    ends: [u64; 65],
    // how many LFs stand before each 64 bytes, and how many in all
    before: [u64; 65],
    // a bit for each 64 bytes among which SOH stands
    marked: u64,
    // for each 64 bytes, a bit for each that is SOH, where one stands in the piece
    sohs: [u64; 64],
    // how many LFs there are, and the place behind the last, where their number is known
    count: u64,
    last: usize,
}

// a bit for each of 64 bytes from a place on, whether it is that byte
#[inline(always)]
fn bits_at(piece: &[u8], at: usize, byte: u8) -> u64
    requires { at + 64 ≤ length piece.now }
    ensures { result ≡ bits_of byte (take 64 (drop at piece.now)) }
{
    let lanes = u8x64::from_slice(&piece[at..]);
    lanes.simd_eq(u8x64::splat(byte)).to_bitmask()
}

// the place of the lowest bit
#[inline(always)]
fn lowest(bits: u64) -> usize
    requires { bits ≢ 0 }
    ensures bound { result < 64 }
    ensures set { bit_at bits result ≡ 1 }
    ensures below { (k : ℕ) → k < result → bit_at bits k ≡ 0 }
{
    bits.trailing_zeros() as usize
}

#[inline(always)]
fn shifted_down(bits: u64, by: usize) -> u64
    requires { by < 64 }
    ensures { (k : ℕ) → bit_at result k ≡ bit_at bits (by + k) }
{
    bits >> by
}

// one more bit, where it is set
#[inline(always)]
fn with_bit(bits: u64, at: usize, set: bool) -> u64
    requires { at < 64 }
    ensures kept { (k : ℕ) → k < at → bit_at result k ≡ bit_at bits k }
    ensures last { bit_at bits at ≡ 0 → bit_at result at ≡ bit set }
    ensures above { (k : ℕ) → at < k → bit_at bits k ≡ 0 → bit_at result k ≡ 0 }
{
    if set { bits | (1 << at) } else { bits }
}

// the first marked block behind one
#[inline(always)]
fn block_behind(marked: u64, n: usize) -> Option<usize>
    requires { n < 64 }
    ensures { IsNextBlock marked n result }
{
    let behind = shifted_down(shifted_down(marked, n), 1);
    if behind == 0 {
        None
    } else {
        Some(n + 1 + lowest(behind))
    }
}

// so many blocks have all bytes of a front
#[inline(always)]
fn blocks_of(filled: usize) -> usize
    requires { filled ≤ 4096 }
    ensures bound { result ≤ 64 }
    ensures all { filled ≤ 64 * result }
{
    (filled + 63) / 64
}

// makes all numbers from a place on the same
#[inline(always)]
fn put_behind(numbers: &mut [u64], at: usize, number: u64)
    requires { at ≤ length numbers.old }
    ensures len { length numbers.new ≡ length numbers.old }
    ensures front { take at numbers.new ≡ take at numbers.old }
    ensures rest { drop at numbers.new ≡ replicate (length numbers.old - at) number }
{
    numbers[at..].fill(number);
}

// finds the SOHs of each block of a piece, of which so many at the front aren't all zeros. Answers the marked
// blocks, and the sum of all bytes
fn find_sohs(piece: &[u8], blocks: usize, sohs: &mut [u64]) -> (u64, u16)
    requires long { length piece.now ≡ 4096 }
    requires fits { blocks ≤ 64 }
    requires rest { IsZeroFrom piece.now (64 * blocks) }
    requires sohs { length sohs.old ≡ 64 }
    ensures marked { AreMarked result.0 piece.now 64 }
    ensures sohs { AreSohs sohs.new piece.now 64 }
    ensures sum { result.1 ≡ sum piece.now % 65536 }
{
    let mut marked = 0;
    let mut total: u16 = 0;
    for n in 0..blocks {
        total = sum_with(total, lanes_of(piece, n));
        let bits = bits_at(piece, 64 * n, SOH);
        marked = with_bit(marked, n, bits != 0);
        sohs[n] = bits;
    }
    put_behind(sohs, blocks, 0);
    (marked, total)
}

// describes the blocks of a piece, of which so many at the front aren't all zeros, their LFs and SOHs; the number
// of all its LFs comes last in `before`. Answers the marked blocks and the sum of all bytes
fn describe(
    piece: &[u8],
    blocks: usize,
    ends: &mut [u64],
    before: &mut [u64],
    sohs: &mut [u64],
) -> (u64, u16)
    requires long { length piece.now ≡ 4096 }
    requires fits { blocks ≤ 64 }
    requires rest { IsZeroFrom piece.now (64 * blocks) }
    requires ends { length ends.old ≡ 65 }
    requires before { length before.old ≡ 65 }
    requires sohs { length sohs.old ≡ 64 }
    ensures blocks { Describes ends.new before.new piece.now 64 }
    ensures marked { AreMarked result.0 piece.now 64 }
    ensures sohs { AreSohs sohs.new piece.now 64 }
    ensures sum { result.1 ≡ sum piece.now % 65536 }
    ensures all { get_or before.new 64 0 ≡ lf_count piece.now }
{
    let mut marked = 0;
    let mut count = 0;
    let mut total: u16 = 0;
    for n in 0..blocks {
        total = sum_with(total, lanes_of(piece, n));
        let bits = bits_at(piece, 64 * n, LF);
        let found = bits_at(piece, 64 * n, SOH);
        marked = with_bit(marked, n, found != 0);
        sohs[n] = found;
        ends[n] = bits;
        before[n] = count;
        count += u64::from(bits.count_ones());
    }
    put_behind(sohs, blocks, 0);
    put_behind(ends, blocks, 0);
    put_behind(before, blocks, count);
    (marked, total)
}

/// The place behind the last LF.
pub fn whole_lines(bytes: &[u8]) -> usize
    ensures fits { result ≤ length bytes.now }
    ensures ended { 0 < result → 0 < lf_count bytes.now }
    ensures rest { HasNoLf (drop result bytes.now) }
{
    match memrchr(b'\n', bytes) {
        Some(at) => at + 1,
        None => 0,
    }
}

impl PieceMarks {
    /// No LF and no SOH stand in a piece of zeros.
    pub fn new(wanted: LineEnds) -> PieceMarks
        ensures { (piece : List ℕ) → piece ≡ replicate 4096 0 → MarksOf result piece }
    {
        PieceMarks {
            wanted,
            known: Known::Nothing,
            ends: [0; 65],
            before: [0; 65],
            marked: 0,
            sohs: [0; 64],
            count: 0,
            last: 0,
        }
    }

    /// Looks at a piece, of which so many bytes at the front may be other than 0, and answers the plain sum of its
    /// bytes.
    pub fn read(&mut self, piece: &[u8], filled: usize) -> u16
        requires long { length piece.now ≡ 4096 }
        requires fits { filled ≤ 4096 }
        requires rest { IsZeroFrom piece.now filled }
        ensures marks { MarksOf self.new piece.now }
        ensures sum { result ≡ sum piece.now % 65536 }
    {
        let blocks = blocks_of(filled);
        match self.wanted {
            LineEnds::Unasked => self.read_sohs(piece, blocks),
            LineEnds::Asked => self.read_ends(piece, blocks),
        }
    }

    // looks for SOH alone
    fn read_sohs(&mut self, piece: &[u8], blocks: usize) -> u16
        requires long { length piece.now ≡ 4096 }
        requires fits { blocks ≤ 64 }
        requires rest { IsZeroFrom piece.now (64 * blocks) }
        ensures marks { MarksOf self.new piece.now }
        ensures sum { result ≡ sum piece.now % 65536 }
    {
        self.known = Known::Nothing;
        if self.marked == 0 && piece[4095] != 0 {
            if let Some(total) = plain_sum(piece) {
                return total;
            }
        }
        let (marked, total) = find_sohs(piece, blocks, &mut self.sohs);
        self.marked = marked;
        total
    }

    // looks for LFs too
    fn read_ends(&mut self, piece: &[u8], blocks: usize) -> u16
        requires long { length piece.now ≡ 4096 }
        requires fits { blocks ≤ 64 }
        requires rest { IsZeroFrom piece.now (64 * blocks) }
        ensures marks { MarksOf self.new piece.now }
        ensures sum { result ≡ sum piece.now % 65536 }
    {
        if self.marked == 0 && piece[4095] != 0 {
            if let Some(count) = plain_count(piece) {
                self.known = Known::Number;
                self.count = count.lines;
                self.last = whole_lines(piece);
                return count.total;
            }
        }
        let (marked, total) = describe(
            piece,
            blocks,
            &mut self.ends,
            &mut self.before,
            &mut self.sohs,
        );
        self.marked = marked;
        self.known = Known::Places;
        total
    }

    /// How many LFs stand before a place of the piece.
    #[inline(always)]
    pub fn lines_before(&self, piece: &[u8], at: usize) -> u64
        requires marks { MarksOf self.now piece.now }
        requires fits { at ≤ 4096 }
        ensures { result ≡ lf_count (take at piece.now) }
    {
        match self.known {
            Known::Places => {
                let low = self.ends[at / 64] % (1 << (at % 64));
                self.before[at / 64] + u64::from(low.count_ones())
            }
            Known::Number => {
                if at >= self.last {
                    self.count
                } else {
                    lines_in(&piece[..at])
                }
            }
            Known::Nothing => lines_in(&piece[..at]),
        }
    }

    // the first SOH behind the block of that number; 4,096 where there is none
    #[inline(always)]
    fn soh_behind(&self, piece: &[u8], n: usize) -> usize
        requires marks { MarksOf self.now piece.now }
        requires fits { n < 64 }
        ensures low { 64 * (n + 1) ≤ result }
        ensures high { result ≤ 4096 }
        ensures none { HasNoSoh piece.now (64 * (n + 1)) result }
        ensures first { result < 4096 → get_or piece.now result 0 ≡ 1 }
    {
        match block_behind(self.marked, n) {
            Some(next) => 64 * next + lowest(self.sohs[next]),
            None => 4096,
        }
    }

    // the first SOH from a place on; 4,096 where there is none
    #[inline(always)]
    fn soh_from(&self, piece: &[u8], from: usize) -> usize
        requires marks { MarksOf self.now piece.now }
        requires fits { from < 4096 }
        ensures low { from ≤ result }
        ensures high { result ≤ 4096 }
        ensures none { HasNoSoh piece.now from result }
        ensures first { result < 4096 → get_or piece.now result 0 ≡ 1 }
    {
        if self.marked == 0 {
            return 4096;
        }
        let bits = shifted_down(self.sohs[from / 64], from % 64);
        if bits == 0 {
            return self.soh_behind(piece, from / 64);
        }
        from + lowest(bits)
    }

    /// The first SOH from a place on that stands before another.
    #[inline(always)]
    pub fn next_soh(&self, piece: &[u8], from: usize, to: usize) -> Option<usize>
        requires marks { MarksOf self.now piece.now }
        requires fits { to ≤ 4096 }
        ensures { IsNextSoh piece.now from to result }
    {
        if from >= to {
            return None;
        }
        let at = self.soh_from(piece, from);
        if at < to { Some(at) } else { None }
    }
}
