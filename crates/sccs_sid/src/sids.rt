ghost use Rattle.std.specs.Prelude.{◌≡◌, ◌<◌, ◌≤◌, Ok, [], ◌∷◌, IfOk, OnOk, OnErr};
ghost use Rattle.sccs_base.specs.Causes.{GivesText};
ghost use Rattle.sccs_sid.specs.declared.sids.Sid.{Sid};
ghost use Rattle.sccs_sid.specs.Numbers.{number_list, AreLow};
ghost use Rattle.sccs_sid.specs.Reading.{GivesRead};
ghost use Rattle.sccs_sid.specs.Sid.{IsSid, numbers_after, numbers, sid_of_numbers, sid_of, sid_text};
ghost use Rattle.sccs_sid.specs.Spec.{IsSpec, spec_of_numbers, spec_of};

use crate::details::{DETAIL_ROOM, put_sid};
use crate::reading::{byte_at, number_at};
use itoa::Buffer;
use sccs_base::{Failed, Sink, give_parts};
use thiserror::Error;

/// The number of a delta: release and level on the trunk, with branch and sequence 0, or all four.
#[derive(Clone, Copy, Debug, PartialEq, Eq)]
pub struct Sid {
    pub release: u16,
    pub level: u16,
    pub branch: u16,
    pub sequence: u16,
}

/// A SID or a prefix of one: a release, a branch by release, level and number, or all of a SID.
#[derive(Clone, Copy, Debug, PartialEq, Eq)]
pub enum Spec {
    Release(u16),
    Branch(u16, u16, u16),
    Full(Sid),
}

/// Why bytes are no SID.
#[derive(Clone, Copy, Debug, PartialEq, Eq, Error)]
pub enum SidFault {
    #[error("Malformed")]
    Malformed,
    #[error("OutOfRange")]
    OutOfRange,
}

// one to four numbers
#[derive(Clone, Copy)]
enum Numbers {
    One(u32),
    Two(u32, u32),
    Three(u32, u32, u32),
    Four(u32, u32, u32, u32),
}

#[tactic(auto, unfolding(crate::specs::Sid::numbers_after))]
fn fourth_number(first: u32, second: u32, third: u32, bytes: &[u8]) -> Result<Numbers, usize>
    requires first { first < 10000 }
    requires second { second < 10000 }
    requires third { third < 10000 }
    ensures value { GivesRead number_list result
        (numbers_after 1 (first ∷ second ∷ third ∷ []) bytes.now) }
    ensures low { IfOk result AreLow }
{
    let (fourth, rest) = number_at(4, bytes)?;
    if rest.is_empty() {
        return Ok(Numbers::Four(first, second, third, fourth));
    }
    byte_at(b'.', rest)?;
    Err(0)
}

#[tactic(auto, unfolding(crate::specs::Sid::numbers_after))]
fn third_number(first: u32, second: u32, bytes: &[u8]) -> Result<Numbers, usize>
    requires first { first < 10000 }
    requires second { second < 10000 }
    ensures value { GivesRead number_list result (numbers_after 2 (first ∷ second ∷ []) bytes.now) }
    ensures low { IfOk result AreLow }
{
    let (third, rest) = number_at(4, bytes)?;
    if rest.is_empty() {
        return Ok(Numbers::Three(first, second, third));
    }
    let more = byte_at(b'.', rest)?;
    fourth_number(first, second, third, more)
}

#[tactic(auto, unfolding(crate::specs::Sid::numbers_after))]
fn second_number(first: u32, bytes: &[u8]) -> Result<Numbers, usize>
    requires { first < 10000 }
    ensures value { GivesRead number_list result (numbers_after 3 (first ∷ []) bytes.now) }
    ensures low { IfOk result AreLow }
{
    let (second, rest) = number_at(4, bytes)?;
    if rest.is_empty() {
        return Ok(Numbers::Two(first, second));
    }
    let more = byte_at(b'.', rest)?;
    third_number(first, second, more)
}

// one to four numbers with a dot between two
#[tactic(auto, unfolding(crate::specs::Sid::numbers_after))]
fn read_numbers(bytes: &[u8]) -> Result<Numbers, usize>
    ensures value { GivesRead number_list result (numbers bytes.now) }
    ensures low { IfOk result AreLow }
{
    let (first, rest) = number_at(4, bytes)?;
    if rest.is_empty() {
        return Ok(Numbers::One(first));
    }
    let more = byte_at(b'.', rest)?;
    second_number(first, more)
}

// the SID of two numbers
fn trunk_sid(release: u32, level: u32) -> Result<Sid, SidFault>
    requires release { release < 10000 }
    requires level { level < 10000 }
    ensures value { result ≡ sid_of_numbers (release ∷ level ∷ []) }
    ensures valid { IfOk result IsSid }
{
    if release == 0 || level == 0 {
        return Err(SidFault::OutOfRange);
    }
    Ok(Sid {
        release: release as u16,
        level: level as u16,
        branch: 0,
        sequence: 0,
    })
}

// the SID of four numbers
fn branch_sid(release: u32, level: u32, branch: u32, sequence: u32) -> Result<Sid, SidFault>
    requires release { release < 10000 }
    requires level { level < 10000 }
    requires branch { branch < 10000 }
    requires sequence { sequence < 10000 }
    ensures value { result ≡ sid_of_numbers (release ∷ level ∷ branch ∷ sequence ∷ []) }
    ensures valid { IfOk result IsSid }
{
    if release == 0 || level == 0 || branch == 0 || sequence == 0 {
        return Err(SidFault::OutOfRange);
    }
    Ok(Sid {
        release: release as u16,
        level: level as u16,
        branch: branch as u16,
        sequence: sequence as u16,
    })
}

impl Sid {
    /// The SID that bytes spell: two or four components of one to four digits, with a dot between
    /// two. Malformed exactly for another form, OutOfRange exactly where the form fits and a
    /// component is 0.
    #[tactic(auto, unfolding(crate::specs::Sid::sid_of))]
    pub fn read(bytes: &[u8]) -> Result<Sid, SidFault>
        ensures value { result ≡ sid_of bytes.now }
        ensures valid { IfOk result IsSid }
    {
        match read_numbers(bytes) {
            Ok(Numbers::Two(release, level)) => trunk_sid(release, level),
            Ok(Numbers::Four(release, level, branch, sequence)) => {
                branch_sid(release, level, branch, sequence)
            }
            _ => Err(SidFault::Malformed),
        }
    }

    /// The written spelling, put at the start of a row of bytes: without leading zeros, `R.L`, or
    /// `R.L.B.S` on a branch.
    pub fn text<'a>(&self, row: &'a mut [u8; DETAIL_ROOM]) -> &'a [u8]
        ensures { result.now ≡ sid_text self.now }
    {
        let end = put_sid(self, row);
        &row[..end]
    }

    /// Writes the SID without leading zeros: `R.L`, or `R.L.B.S` on a branch.
    #[tactic(auto, unfolding(crate::specs::Sid::sid_text))]
    pub fn write<S: Sink>(&self, out: &mut S) -> Result<(), Failed>
        ensures { GivesText (sid_text self.now)
            (S.given out.old) (S.given out.new) (S.faults out.old) (S.faults out.new) result }
    {
        let (mut release, mut level) = (Buffer::new(), Buffer::new());
        let release = release.format(self.release).as_bytes();
        let level = level.format(self.level).as_bytes();
        if self.branch == 0 {
            return give_parts(out, &[release, b".", level]);
        }
        let (mut branch, mut sequence) = (Buffer::new(), Buffer::new());
        let branch = branch.format(self.branch).as_bytes();
        let sequence = sequence.format(self.sequence).as_bytes();
        give_parts(out, &[release, b".", level, b".", branch, b".", sequence])
    }
}

impl Spec {
    /// What bytes spell: `R`, `R.L`, `R.L.B` or `R.L.B.S`, of one to four digits each. Malformed
    /// exactly for another form, OutOfRange exactly where the form fits and a number is 0.
    #[tactic(auto, unfolding(crate::specs::Spec::spec_of))]
    pub fn read(bytes: &[u8]) -> Result<Spec, SidFault>
        ensures value { result ≡ spec_of bytes.now }
        ensures valid { IfOk result IsSpec }
    {
        let Ok(numbers) = read_numbers(bytes) else {
            return Err(SidFault::Malformed);
        };
        match numbers {
            Numbers::One(release) if release > 0 => Ok(Spec::Release(release as u16)),
            Numbers::Three(release, level, branch) if release > 0 && level > 0 && branch > 0 => {
                Ok(Spec::Branch(release as u16, level as u16, branch as u16))
            }
            Numbers::Two(release, level) => Ok(Spec::Full(trunk_sid(release, level)?)),
            Numbers::Four(release, level, branch, sequence) => {
                Ok(Spec::Full(branch_sid(release, level, branch, sequence)?))
            }
            _ => Err(SidFault::OutOfRange),
        }
    }
}

/// A written SID is read back as the same.
pub fn sid_again()
    ensures { (sid : Sid) → IsSid sid → sid_of (sid_text sid) ≡ Ok sid }
{}
