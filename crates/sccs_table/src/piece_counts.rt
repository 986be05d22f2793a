//! What is found of a piece in which no SOH stands: its sum and how many LFs it has, 64 bytes at a time.
ghost use Rattle.std.specs.Prelude.{◌≡◌, ◌<◌, ◌≤◌, ◌+◌, ◌*◌, ◌%◌, ℕ, List, true, false, sum, length, take, drop};
ghost use Rattle.std.specs.Prelude.{get_or, IfSome};
ghost use Rattle.std.specs.Simd.Lanes.{Each1, sum_l};
ghost use Rattle.sccs_table.specs.Runs.{lf_count};
ghost use Rattle.sccs_table.specs.BlockCounts.{CountedTo};
ghost use Rattle.sccs_table.specs.Marks.{HasNoMarked, byte_block};

use sccs_base::{LF, SOH};
use std::simd::prelude::*;

/// How many bytes of a piece are LF, and the sum of all its bytes.
#[derive(Clone, Copy)]
pub struct PieceCount {
    pub lines: u64,
    pub total: u16,
}

/// What was counted of the blocks so far: how many LFs stand at each of their 64 places, and their sum.
#[derive(Clone, Copy)]
pub struct BlockCount {
    ends: u8x64,
    total: u16,
}

/// The 64 bytes of that number.
#[inline(always)]
pub fn lanes_of(piece: &[u8], n: usize) -> u8x64
    requires { 64 * n + 64 ≤ length piece.now }
    ensures { result ≡ byte_block n piece.now }
{
    u8x64::from_slice(&piece[64 * n..])
}

// counts each byte that is LF in its lane
#[inline(always)]
fn with_ends(ends: u8x64, lanes: u8x64) -> u8x64
    requires { Each1 (λ e. e < 255) ends }
    ensures sum { sum_l result ≡ sum_l ends + lf_count lanes }
    ensures bound { (n : ℕ) → Each1 (λ e. e ≤ n) ends → Each1 (λ e. e ≤ n + 1) result }
{
    let found = lanes.simd_eq(u8x64::splat(LF));
    ends.strict_add(found.select(u8x64::splat(1), u8x64::splat(0)))
}

/// The sum of bytes, and of 64 more.
#[inline(always)]
pub fn sum_with(total: u16, lanes: u8x64) -> u16
    ensures { result ≡ (total + sum lanes) % 65536 }
{
    total.wrapping_add(lanes.cast::<u16>().strict_reduce_sum())
}

// how many were counted in all lanes
#[inline(always)]
fn sum_of_lanes(ends: u8x64) -> u64
    requires { Each1 (λ e. e ≤ 64) ends }
    ensures { result ≡ sum_l ends }
{
    u64::from(ends.cast::<u16>().strict_reduce_sum())
}

impl BlockCount {
    /// Nothing is counted yet.
    #[inline(always)]
    pub fn new() -> BlockCount
        ensures { (piece : List ℕ) → CountedTo result piece 0 }
    {
        BlockCount {
            ends: u8x64::splat(0),
            total: 0,
        }
    }

    /// Counts the block of that number too.
    #[inline(always)]
    pub fn with_block(self, piece: &[u8], n: usize) -> BlockCount
        requires long { length piece.now ≡ 4096 }
        requires fits { n < 64 }
        requires before { CountedTo self piece.now n }
        ensures { CountedTo result piece.now (n + 1) }
    {
        let lanes = lanes_of(piece, n);
        BlockCount {
            ends: with_ends(self.ends, lanes),
            total: sum_with(self.total, lanes),
        }
    }

    /// The counts of a piece, behind all its blocks.
    #[inline(always)]
    pub fn of_piece(self, piece: &[u8]) -> PieceCount
        requires long { length piece.now ≡ 4096 }
        requires all { CountedTo self piece.now 64 }
        ensures lines { result.lines ≡ lf_count piece.now }
        ensures total { result.total ≡ sum piece.now % 65536 }
    {
        PieceCount {
            lines: sum_of_lanes(self.ends),
            total: self.total,
        }
    }
}

// the lesser byte of each lane
#[inline(always)]
fn least_of(least: u8x64, lanes: u8x64) -> u8x64
    ensures before { (k : ℕ) → k < 64 → get_or result k 0 ≤ get_or least k 0 }
    ensures here { (k : ℕ) → k < 64 → get_or result k 0 ≤ get_or lanes k 0 }
{
    least.simd_min(lanes)
}

// whether a lane is as low as SOH
#[inline(always)]
fn has_low(least: u8x64) -> bool
    ensures { result ≡ false → (k : ℕ) → k < 64 → 1 < get_or least k 0 }
{
    least.simd_le(u8x64::splat(SOH)).to_bitmask() != 0
}

/// The sum of a piece in which no SOH stands; None where it does, or NUL.
pub fn plain_sum(piece: &[u8]) -> Option<u16>
    requires { length piece.now ≡ 4096 }
    ensures none { IfSome result (λ _. HasNoMarked piece.now 64) }
    ensures sum { IfSome result (λ total. total ≡ sum piece.now % 65536) }
{
    let mut total: u16 = 0;
    let mut least = u8x64::splat(u8::MAX);
    for n in 0..64usize {
        let lanes = lanes_of(piece, n);
        total = sum_with(total, lanes);
        least = least_of(least, lanes);
    }
    if has_low(least) { None } else { Some(total) }
}

/// The counts of a piece in which no SOH stands; None where it does, or NUL.
pub fn plain_count(piece: &[u8]) -> Option<PieceCount>
    requires { length piece.now ≡ 4096 }
    ensures none { IfSome result (λ _. HasNoMarked piece.now 64) }
    ensures lines { IfSome result (λ c. c.lines ≡ lf_count piece.now) }
    ensures total { IfSome result (λ c. c.total ≡ sum piece.now % 65536) }
{
    let mut count = BlockCount::new();
    let mut least = u8x64::splat(u8::MAX);
    for n in 0..64usize {
        count = count.with_block(piece, n);
        least = least_of(least, lanes_of(piece, n));
    }
    if has_low(least) {
        return None;
    }
    Some(count.of_piece(piece))
}
