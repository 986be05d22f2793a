ghost use Rattle.std.specs.Prelude.{◌≡◌, ◌++◌, IfOk, OnOk};
ghost use Rattle.sccs_intents.specs.Written.{ended, entry_text, intent_text, letter_of};

use crate::intents::{Entries, FIRST_LINE, Fate, IntentEntry, LAST_LINE};
use sccs_base::{BLANK, Bytes, LF, ListOf, Memory};
use std::alloc::Global;

// the letter of the line that says what becomes of a p-file
fn letter_of(fate: Fate) -> u8
    ensures { result ≡ letter_of fate }
{
    match fate {
        Fate::Replaced => b'r',
        Fate::Removed => b'd',
    }
}

// puts a line and its LF
fn put_line(text: &mut Vec<u8>, line: &[u8]) -> Result<(), Memory>
    ensures { OnOk result (text.new.items ≡ text.old.items ++ ended line.now) }
{
    text.extend_from_slice(line)?;
    text.push(LF)?;
    Ok(())
}

// puts the line of an entry
fn put_entry(text: &mut Vec<u8>, entry: &IntentEntry) -> Result<(), Memory>
    ensures { OnOk result (text.new.items ≡ text.old.items ++ entry_text entry.now) }
{
    text.push(letter_of(entry.fate))?;
    text.push(BLANK)?;
    put_line(text, entry.name.bytes())
}

/// The text of an intent of these entries, in their order. It is read again as them where one at least
/// is there, their names are those of s-files and differ, and the text is within the limit of a file.
pub fn intent_text(alloc: Global, entries: &Entries) -> Result<Bytes, Memory>
    ensures { IfOk result (λ text. text ≡ intent_text entries.now) }
{
    let mut text = Vec::new(alloc);
    put_line(&mut text, FIRST_LINE)?;
    for entry in entries.items() {
        put_entry(&mut text, entry)?;
    }
    put_line(&mut text, LAST_LINE)?;
    Ok(ListOf::from_vec(text))
}
