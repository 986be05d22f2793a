ghost use Rattle.std.specs.Prelude.{◌≡◌, ◌+◌, [], length};
ghost use Rattle.sccs_base.specs.Cut.{cut};
ghost use Rattle.sccs_intents.specs.Intents.{AddsEntry, Reads, closed, closes, entries_at, entry_of, fate_of, has_name};
ghost use Rattle.sccs_intents.specs.Intents.{intent_of};

use crate::intents::{Entries, FIRST_LINE, Fate, IntentEntry, IntentFault, LAST_LINE};
use sccs_base::{FILE_LIMIT, LF, Name};
use sccs_sid::reading::cut_at;
use std::alloc::Global;

// what becomes of a p-file, by the letter of its line
fn fate_of(letter: u8) -> Option<Fate>
    ensures { result ≡ fate_of letter }
{
    match letter {
        b'r' => Some(Fate::Replaced),
        b'd' => Some(Fate::Removed),
        _ => None,
    }
}

// the entry of a line
#[tactic(auto, unfolding(crate::specs::Intents::entry_of))]
fn read_entry(line: &[u8]) -> Option<IntentEntry>
    ensures { result ≡ entry_of line.now }
{
    let [letter, b' ', name @ ..] = line else {
        return None;
    };
    let fate = fate_of(*letter)?;
    let name = Name::read_sfile(name)?;
    Some(IntentEntry { name, fate })
}

// whether some entry has the name
fn has_name(entries: &Entries, name: &Name) -> bool
    ensures { result ≡ has_name entries.now name.now }
{
    entries.items().iter().any(|entry| entry.name.is(name))
}

// adds the entry of a line, which has a number
fn add_entry(entries: &mut Entries, number: u64, line: &[u8]) -> Result<(), IntentFault>
    ensures { AddsEntry result number (entry_of line.now) entries.old entries.new }
{
    let Some(entry) = read_entry(line) else {
        return Err(IntentFault::BadIntent(number));
    };
    if has_name(entries, &entry.name) {
        return Err(IntentFault::BadIntent(number));
    }
    match entries.push(entry) {
        Ok(()) => Ok(()),
        Err(_) => Err(IntentFault::Memory),
    }
}

// whether a line ends an intent behind these entries
fn closes(entries: &Entries, line: &[u8]) -> bool
    ensures { result ≡ closes entries.now line.now }
{
    entries.len() > 0 && line == LAST_LINE
}

// the entries, where nothing stands behind the last line
fn closed(entries: Entries, number: u64, rest: &[u8]) -> Result<Entries, IntentFault>
    ensures { Reads result (closed number entries (cut rest.now).lines (cut rest.now).tail) }
{
    if rest.is_empty() {
        Ok(entries)
    } else {
        Err(IntentFault::BadIntent(number))
    }
}

// the entries behind the first line
fn read_entries(alloc: Global, bytes: &[u8]) -> Result<Entries, IntentFault>
    ensures { Reads result (entries_at 2 [] bytes.now) }
{
    let mut entries = Entries::empty(alloc);
    let mut rest = bytes;
    let mut number: u64 = 2;
    'lines: while !rest.is_empty() {
        let (line, behind) = cut_at(LF, rest);
        let Some(more) = behind else {
            return Err(IntentFault::BadIntent(number));
        };
        if closes(&entries, line) {
            return closed(entries, number + 1, more);
        }
        add_entry(&mut entries, number, line)?;
        rest = more;
        number += 1;
    }
    Err(IntentFault::BadIntent(number))
}

/// The entries of an intent, in their order. BadIntent names the first line, from 1, that isn't of its
/// form; where an intent ends too early that is the line after the last. One past the limit of a file is
/// at fault in line 1.
#[tactic(auto, unfolding(crate::specs::Intents::intent_of))]
pub fn read_intent(alloc: Global, bytes: &[u8]) -> Result<Entries, IntentFault>
    ensures { Reads result (intent_of bytes.now) }
{
    if bytes.len() as u64 > FILE_LIMIT {
        return Err(IntentFault::BadIntent(1));
    }
    let (line, behind) = cut_at(LF, bytes);
    let Some(rest) = behind else {
        return Err(IntentFault::BadIntent(1));
    };
    if line != FIRST_LINE {
        return Err(IntentFault::BadIntent(1));
    }
    read_entries(alloc, rest)
}
