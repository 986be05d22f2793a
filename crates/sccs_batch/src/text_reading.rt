ghost use Rattle.std.specs.Prelude.{◌≡◌, ◌+◌, ◌≤◌, drop, length, option_map, take, IfOk, IfSome, is_some};
ghost use Rattle.sccs_batch.specs.Entries.{are_counts, counts_of, field_of, has_own, with_lfs};

use crate::texts::{Counts, OwnLines};
use sccs_base::{Bytes, LF, Line, ListOf, Memory, Words};
use sccs_sid::reading::{cut_at, number};
use std::alloc::Global;

/// The bytes up to the next blank, and those behind it.
pub fn next_field(bytes: &[u8]) -> Option<(&[u8], &[u8])>
    ensures { option_map (λ field. (field.0.now, field.1.now)) result ≡ field_of bytes.now }
{
    let (field, behind) = cut_at(b' ', bytes);
    match behind {
        Some(rest) => Some((field, rest)),
        None => None,
    }
}

// whether an entry may have so many words and lines of input
fn are_counts(words: u32, lines: u32) -> bool
    ensures { result ≡ are_counts words lines }
{
    0 < words && words < 1_001 && lines < 10_000_001
}

/// The counts that two fields say: 1 to 1,000 words, and at most 10,000,000 lines of input.
#[tactic(auto, unfolding(crate::specs::Entries::counts_of))]
pub fn read_counts(words: &[u8], lines: &[u8]) -> Option<Counts>
    ensures value { result ≡ counts_of words.now lines.now }
    ensures words { IfSome result (λ counts. counts.words ≤ 1000) }
    ensures lines { IfSome result (λ counts. counts.lines ≤ 10000000) }
{
    let words = number(8, words)?;
    let lines = number(8, lines)?;
    if are_counts(words, lines) {
        Some(Counts { words, lines })
    } else {
        None
    }
}

/// The lines of an entry among those behind its first one, where there are as many.
pub fn own_lines(counts: Counts, rest: &[Line]) -> Option<OwnLines<'_>>
    requires words { counts.words ≤ 1000 }
    requires lines { counts.lines ≤ 10000000 }
    ensures there { is_some result ≡ has_own counts rest.now }
    ensures words { IfSome result (λ own. own.words.now ≡ take counts.words rest.now) }
    ensures input { IfSome result (λ own. own.input.now ≡ take counts.lines (drop counts.words rest.now)) }
    ensures within { IfSome result (λ own. counts.words + counts.lines ≤ length rest.now) }
{
    let words = counts.words as usize;
    let own = words + counts.lines as usize;
    if rest.len() < own {
        return None;
    }
    Some(OwnLines {
        words: &rest[..words],
        input: &rest[words..own],
    })
}

/// Lines as words.
pub fn copy_words(alloc: Global, lines: &[Line]) -> Result<Words, Memory>
    ensures { IfOk result (λ words. words ≡ lines.now) }
{
    let mut words = Words::new(alloc);
    for line in lines {
        words.push(Bytes::new(alloc, line.bytes())?)?;
    }
    Ok(words)
}

/// The bytes of lines, each with its LF.
pub fn join_lines(alloc: Global, lines: &[Line]) -> Result<Bytes, Memory>
    ensures { IfOk result (λ bytes. bytes ≡ with_lfs lines.now) }
{
    let mut bytes = Vec::new(alloc);
    for line in lines {
        bytes.extend_from_slice(line.bytes())?;
        bytes.push(LF)?;
    }
    Ok(ListOf::from_vec(bytes))
}
