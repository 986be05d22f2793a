ghost use Rattle.std.specs.Prelude.{◌≡◌, ◌+◌, ◌<◌, ◌≤◌, List, [], Some, length, insert, remove, slice_get, option_map};
ghost use Rattle.std.specs.Prelude.{All, IfOk, IfErr, IfSome, OnOk, OnErr};
ghost use Rattle.sccs_sid.specs.Reading.{GivesRead};
ghost use Rattle.sccs_sid.specs.Sid.{IsComponent, IsSid};
ghost use Rattle.sccs_sid.specs.SidLists.{IsRange, zero_fault, component_at, begins, branch_at, sid_at, last_at};
ghost use Rattle.sccs_sid.specs.SidLists.{range_at, after_range, piece_at, list_of, ReadsRanges};

use crate::reading::{byte_at, number_at};
use crate::sids::Sid;
use sccs_base::{ListOf, Memory};
use std::alloc::Global;
use std::marker::Model;
use thiserror::Error;

/// The SIDs from one to another. A single SID is a range whose ends are equal.
#[derive(Clone, Copy, Debug, PartialEq, Eq)]
pub struct Range {
    pub first: Sid,
    pub last: Sid,
}

/// Why a list of SIDs was not read: at this byte, from 1, no list goes on; or want of memory.
#[derive(Clone, Copy, Debug, PartialEq, Eq, Error)]
pub enum ListFault {
    #[error("Malformed")]
    Malformed(u64),
    #[error("Memory")]
    Memory,
}

/// A list of ranges. Places count from 0.
#[derive(Drop)]
pub struct SidList {
    ranges: ListOf<Range>,
}

impl Model for SidList {
    ghost use Rattle.std.specs.Prelude.{List};
    ghost use Rattle.sccs_sid.specs.declared.sid_lists.Range.{Range};

    ghost Value = { List Range };

    ghost view = { λ s. s.ranges };
}

// how many bytes are left at the fault of a component of zeros
fn zero_fault(bytes: &[u8], rest: &[u8]) -> usize
    requires { length rest.now < length bytes.now }
    ensures value { result ≡ zero_fault bytes.now rest.now }
    ensures within { result ≤ length bytes.now }
{
    if bytes.len() - rest.len() == 4 {
        rest.len() + 1
    } else {
        rest.len()
    }
}

// whether this byte comes next
fn begins(wanted: u8, bytes: &[u8]) -> bool
    ensures { result ≡ begins wanted bytes.now }
{
    match bytes.first() {
        Some(first) => *first == wanted,
        None => false,
    }
}

// one to four digits, of a number from 1 on
#[tactic(auto, unfolding(crate::specs::SidLists::component_at))]
fn component_at(bytes: &[u8]) -> Result<(u16, &[u8]), usize>
    ensures value { GivesRead (λ x. (x.0, x.1.now)) result (component_at bytes.now) }
    ensures valid { IfOk result (λ x. IsComponent x.0) }
    ensures shorter { IfOk result (λ x. length x.1.now < length bytes.now) }
    ensures left { IfErr result (λ left. left ≤ length bytes.now) }
{
    let (number, rest) = number_at(4, bytes)?;
    if number == 0 {
        return Err(zero_fault(bytes, rest));
    }
    Ok((number as u16, rest))
}

// branch and sequence, each after a dot
#[tactic(auto, unfolding(crate::specs::SidLists::branch_at))]
fn branch_at(release: u16, level: u16, bytes: &[u8]) -> Result<(Sid, &[u8]), usize>
    requires release { IsComponent release }
    requires level { IsComponent level }
    ensures value { GivesRead (λ x. (x.0, x.1.now)) result (branch_at release level bytes.now) }
    ensures valid { IfOk result (λ x. IsSid x.0) }
    ensures shorter { IfOk result (λ x. length x.1.now < length bytes.now) }
    ensures left { IfErr result (λ left. left ≤ length bytes.now) }
{
    let dotted = byte_at(b'.', bytes)?;
    let (branch, rest) = component_at(dotted)?;
    let dotted = byte_at(b'.', rest)?;
    let (sequence, rest) = component_at(dotted)?;
    let sid = Sid {
        release,
        level,
        branch,
        sequence,
    };
    Ok((sid, rest))
}

// R.L, or R.L.B.S where a dot follows
#[tactic(auto, unfolding(crate::specs::SidLists::sid_at))]
fn sid_at(bytes: &[u8]) -> Result<(Sid, &[u8]), usize>
    ensures value { GivesRead (λ x. (x.0, x.1.now)) result (sid_at bytes.now) }
    ensures valid { IfOk result (λ x. IsSid x.0) }
    ensures shorter { IfOk result (λ x. length x.1.now < length bytes.now) }
    ensures left { IfErr result (λ left. left ≤ length bytes.now) }
{
    let (release, rest) = component_at(bytes)?;
    let dotted = byte_at(b'.', rest)?;
    let (level, rest) = component_at(dotted)?;
    if begins(b'.', rest) {
        return branch_at(release, level, rest);
    }
    let sid = Sid {
        release,
        level,
        branch: 0,
        sequence: 0,
    };
    Ok((sid, rest))
}

// the last SID of a range, after a dash
#[tactic(auto, unfolding(crate::specs::SidLists::last_at))]
fn last_at(first: Sid, bytes: &[u8]) -> Result<(Range, &[u8]), usize>
    requires { IsSid first }
    ensures value { GivesRead (λ x. (x.0, x.1.now)) result (last_at first bytes.now) }
    ensures valid { IfOk result (λ x. IsRange x.0) }
    ensures shorter { IfOk result (λ x. length x.1.now < length bytes.now) }
    ensures left { IfErr result (λ left. left ≤ length bytes.now) }
{
    let dashed = byte_at(b'-', bytes)?;
    let (last, rest) = sid_at(dashed)?;
    Ok((Range { first, last }, rest))
}

// one SID, or two where a dash follows
#[tactic(auto, unfolding(crate::specs::SidLists::range_at))]
fn range_at(bytes: &[u8]) -> Result<(Range, &[u8]), usize>
    ensures value { GivesRead (λ x. (x.0, x.1.now)) result (range_at bytes.now) }
    ensures valid { IfOk result (λ x. IsRange x.0) }
    ensures shorter { IfOk result (λ x. length x.1.now < length bytes.now) }
    ensures left { IfErr result (λ left. left ≤ length bytes.now) }
{
    let (first, rest) = sid_at(bytes)?;
    if begins(b'-', rest) {
        return last_at(first, rest);
    }
    Ok((Range { first, last: first }, rest))
}

// a range, and the bytes after its comma, where one follows
#[tactic(auto, unfolding(crate::specs::SidLists::piece_at))]
fn piece_at(bytes: &[u8]) -> Result<(Range, Option<&[u8]>), usize>
    ensures value { GivesRead (λ x. (x.0, option_map (λ rest. rest.now) x.1)) result (piece_at bytes.now) }
    ensures valid { IfOk result (λ x. IsRange x.0) }
    ensures shorter { IfOk result (λ x. IfSome x.1 (λ rest. length rest.now < length bytes.now)) }
    ensures left { IfErr result (λ left. left ≤ length bytes.now) }
{
    let (range, rest) = range_at(bytes)?;
    if rest.is_empty() {
        return Ok((range, None));
    }
    let more = byte_at(b',', rest)?;
    Ok((range, Some(more)))
}

impl SidList {
    /// A list without ranges. It takes no memory yet.
    pub fn empty(alloc: Global) -> SidList
        ensures { result ≡ [] }
    {
        SidList {
            ranges: ListOf::empty(alloc),
        }
    }

    pub fn len(&self) -> u64
        ensures { result ≡ length self.now }
    {
        self.ranges.len()
    }

    /// The range at a place below the length.
    pub fn at(&self, place: u64) -> &Range
        requires { place < length self.now }
        ensures { slice_get self.now place ≡ Some result.now }
    {
        self.ranges.at(place)
    }

    /// Puts a range at a place up to the length. At want of memory nothing changes.
    pub fn insert(&mut self, place: u64, range: Range) -> Result<(), Memory>
        requires { place ≤ length self.old }
        ensures ok { OnOk result (self.new ≡ insert self.old place range) }
        ensures err { OnErr result (self.new ≡ self.old) }
    {
        self.ranges.insert(place, range)
    }

    /// The ranges as a slice.
    pub fn items(&self) -> &[Range]
        ensures { result.now ≡ self.now }
    {
        self.ranges.items()
    }

    /// Takes the range at a place below the length out.
    pub fn remove(&mut self, place: u64)
        requires { place < length self.old }
        ensures { self.new ≡ remove self.old place }
    {
        self.ranges.remove(place);
    }

    /// The list that bytes spell: ranges with a comma between two, a range being one SID or two
    /// with a dash between them. Malformed exactly for other bytes, with the place, from 1, of
    /// the first byte at which no list goes on.
    pub fn read(alloc: Global, bytes: &[u8]) -> Result<SidList, ListFault>
        ensures value { ReadsRanges result (list_of bytes.now) }
        ensures valid { IfOk result (All IsRange) }
    {
        let mut ranges = ListOf::empty(alloc);
        let mut rest = bytes;
        'pieces: for _turn in 0..bytes.len() + 1 {
            let (range, more) = match piece_at(rest) {
                Ok(piece) => piece,
                Err(left) => return Err(ListFault::Malformed((bytes.len() + 1 - left) as u64)),
            };
            let Ok(()) = ranges.push(range) else {
                return Err(ListFault::Memory);
            };
            let Some(more) = more else {
                return Ok(SidList { ranges });
            };
            rest = more;
        }
        Err(ListFault::Malformed((bytes.len() + 1 - rest.len()) as u64))
    }
}
