ghost use Rattle.std.specs.Prelude.{◌≡◌, ◌≤◌, length, true, IfOk, IfSome};
ghost use Rattle.sccs_sid.specs.Moment.{IsMoment};
ghost use Rattle.sccs_batch.specs.Entries.{with_lfs};
ghost use Rattle.sccs_batch.specs.BatchText.{batch_entry, head_of, is_single};

use crate::entries::{BatchEntry, EntryHead, FoundEntry};
use crate::text_reading::{copy_words, join_lines, next_field, own_lines, read_counts};
use crate::texts::OwnLines;
use sccs_base::{Line, Login, Memory};
use sccs_sid::{Moment, Stamp};
use std::alloc::Global;

// the first line of an entry
#[tactic(auto, unfolding(crate::specs::BatchText::head_of))]
fn read_head(line: &[u8]) -> Option<EntryHead>
    ensures value { result ≡ head_of line.now }
    ensures valid { IfSome result (λ head. IsMoment head.stamp.moment) }
    ensures words { IfSome result (λ head. head.counts.words ≤ 1000) }
    ensures lines { IfSome result (λ head. head.counts.lines ≤ 10000000) }
{
    let (mark, rest) = next_field(line)?;
    if mark != b"@".as_slice() {
        return None;
    }
    let (date, rest) = next_field(rest)?;
    let (time, rest) = next_field(rest)?;
    let (login, rest) = next_field(rest)?;
    let (words, lines) = next_field(rest)?;
    let Ok(moment) = Moment::read(date, time) else {
        return None;
    };
    let login = Login::read(login)?;
    let counts = read_counts(words, lines)?;
    Some(EntryHead {
        stamp: Stamp { moment, login },
        counts,
    })
}

// whether the words are those of a single command
fn is_single(words: &[Line]) -> bool
    ensures { result ≡ is_single words.now }
{
    match words {
        [] => false,
        [word, ..] => {
            !(word.bytes() == b"batch".as_slice() || word.bytes() == b"soak".as_slice())
        }
    }
}

// the entry of the lines that follow its first one
fn entry_with(alloc: Global, head: &EntryHead, own: &OwnLines<'_>) -> Result<BatchEntry, Memory>
    ensures { IfOk result (λ entry. (entry.stamp ≡ head.now.stamp) × (entry.words ≡ own.now.words.now)
        × (entry.input ≡ with_lfs own.now.input.now)) }
{
    let words = copy_words(alloc, own.words)?;
    let input = join_lines(alloc, own.input)?;
    Ok(BatchEntry {
        stamp: head.stamp,
        words,
        input,
    })
}

/// The entry that a line begins, with the lines behind it; None exactly where it is none.
pub fn read_entry(alloc: Global, line: &[u8], rest: &[Line]) -> Result<Option<FoundEntry>, Memory>
    ensures value { IfOk result (λ found. found ≡ batch_entry line.now rest.now) }
    ensures valid { IfOk result (λ found. IfSome found (λ it. IsMoment it.entry.stamp.moment)) }
    ensures single { IfOk result (λ found. IfSome found (λ it. is_single it.entry.words ≡ true)) }
    ensures within { IfOk result (λ found. IfSome found (λ it. it.lines ≤ length rest.now)) }
{
    let Some(head) = read_head(line) else {
        return Ok(None);
    };
    let Some(own) = own_lines(head.counts, rest) else {
        return Ok(None);
    };
    if !is_single(own.words) {
        return Ok(None);
    }
    let entry = entry_with(alloc, &head, &own)?;
    Ok(Some(FoundEntry {
        entry,
        lines: head.counts.words + head.counts.lines,
    }))
}
