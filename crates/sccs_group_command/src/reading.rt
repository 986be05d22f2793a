ghost use Rattle.std.specs.Prelude.{◌≡◌, ◌≤◌, ◌+◌, length, IfOk, IfSome};
ghost use Rattle.sccs_group_command.specs.GroupText.{AddsEntry, ReadsGroup, entry_at, entry_with, fits_behind};
ghost use Rattle.sccs_group_command.specs.GroupText.{group_of, has_name, head_of, some_of};

use crate::entries::{GroupEntries, GroupEntry, GroupFault};
use sccs_base::{Line, Memory, Name};
use sccs_batch::{Counts, copy_words, join_lines, next_field, own_lines, read_counts};
use sccs_words::{Command, WordsFault, read_words};
use std::alloc::Global;

/// How many entries a group may have.
const MOST_ENTRIES: u64 = 1_000;

// the first line of an entry
#[tactic(auto, unfolding(crate::specs::GroupText::head_of))]
fn read_head(line: &[u8]) -> Option<Counts>
    ensures value { result ≡ head_of line.now }
    ensures words { IfSome result (λ counts. counts.words ≤ 1000) }
    ensures lines { IfSome result (λ counts. counts.lines ≤ 10000000) }
{
    let (mark, rest) = next_field(line)?;
    if mark != b"@".as_slice() {
        return None;
    }
    let (words, lines) = next_field(rest)?;
    read_counts(words, lines)
}

// the delta command of an entry, with its script; None where its lines are no such command
fn read_entry(alloc: Global, counts: Counts, rest: &[Line]) -> Result<Option<GroupEntry>, Memory>
    requires words { counts.words ≤ 1000 }
    requires lines { counts.lines ≤ 10000000 }
    ensures value { IfOk result (λ found. found ≡ entry_with counts rest.now) }
    ensures within { IfOk result (λ found. IfSome found (λ e. counts.words + counts.lines ≤ length rest.now)) }
{
    let Some(own) = own_lines(counts, rest) else {
        return Ok(None);
    };
    let words = copy_words(alloc, own.words)?;
    match read_words(alloc, &words) {
        Ok(Command::Delta(words, name)) => {
            let script = join_lines(alloc, own.input)?;
            Ok(Some(GroupEntry {
                words,
                name,
                script,
            }))
        }
        Ok(_) | Err(WordsFault::Usage(_)) => Ok(None),
        Err(WordsFault::Memory) => Err(Memory),
    }
}

// whether some entry has the name
fn has_name(entries: &GroupEntries, name: &Name) -> bool
    ensures { result ≡ has_name entries.now name.now }
{
    entries.items().iter().any(|entry| entry.name.is(name))
}

// whether an entry may follow others
fn fits_behind(entries: &GroupEntries, entry: &GroupEntry) -> bool
    ensures { result ≡ fits_behind entries.now entry.now }
{
    entries.len() < MOST_ENTRIES && !has_name(entries, &entry.name)
}

// puts the entry of a line behind others, and answers how many lines behind it are its own; None where it is none
fn add_entry(
    alloc: Global,
    entries: &mut GroupEntries,
    line: &[u8],
    rest: &[Line],
) -> Result<Option<u32>, GroupFault>
    ensures adds { AddsEntry result (entry_at entries.old line.now rest.now) entries.old entries.new }
    ensures within { IfOk result (λ next. IfSome next (λ own. own ≤ length rest.now)) }
{
    let Some(counts) = read_head(line) else {
        return Ok(None);
    };
    let Ok(found) = read_entry(alloc, counts, rest) else {
        return Err(GroupFault::Memory);
    };
    let Some(entry) = found else {
        return Ok(None);
    };
    if !fits_behind(entries, &entry) {
        return Ok(None);
    }
    match entries.push(entry) {
        Ok(()) => Ok(Some(counts.words + counts.lines)),
        Err(_) => Err(GroupFault::Memory),
    }
}

// the entries, where there is one
fn some_of(entries: GroupEntries) -> Result<GroupEntries, GroupFault>
    ensures { ReadsGroup result (some_of entries) }
{
    if entries.len() == 0 {
        Err(GroupFault::BadEntry(1))
    } else {
        Ok(entries)
    }
}

/// The entries of a group's lines: 1 to 1,000 delta commands of different names. Else the number of the first
/// line of the first entry that is none, from 1, or 1 where there is no entry.
pub fn read_group(alloc: Global, lines: &[Line]) -> Result<GroupEntries, GroupFault>
    ensures { ReadsGroup result (group_of lines.now) }
{
    let mut entries = GroupEntries::empty(alloc);
    let mut at = 0;
    'entries: while at < lines.len() {
        let line = lines[at].bytes();
        match add_entry(alloc, &mut entries, line, &lines[at + 1..])? {
            Some(own) => at += 1 + own as usize,
            None => return Err(GroupFault::BadEntry(at as u64 + 1)),
        }
    }
    some_of(entries)
}
