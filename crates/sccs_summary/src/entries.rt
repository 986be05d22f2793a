ghost use Rattle.std.specs.Prelude.{◌≡◌, ◌∷◌, ◌++◌, [], IfOk, OnOk, option_map};
ghost use Rattle.sccs_history.specs.History.{HasSpelling};
ghost use Rattle.sccs_history.specs.Numbers.{has};
ghost use Rattle.sccs_summary.specs.Summaries.{choice_of, entry_text, front_text, is_late, live_text, marks, reason};
ghost use Rattle.sccs_summary.specs.Summaries.{tabbed};

use crate::choices::Choices;
use sccs_base::{Bytes, Line, Memory};
use sccs_history::Record;
use sccs_sid::{DETAIL_ROOM, Moment};
use std::alloc::Global;

// whether a serial is in a list
fn has(serials: &[u16], serial: u16) -> bool
    ensures { result ≡ has serials.now serial }
{
    serials.contains(&serial)
}

// whether a delta was made after the last moment that counts
fn is_late(cutoff: Option<Moment>, delta: &Record) -> bool
    ensures { result ≡ is_late (option_map (λ m. m.seconds) cutoff) delta.now }
{
    match cutoff {
        Some(last) => last.seconds < delta.moment.seconds,
        None => false,
    }
}

// why it is applied or not
fn reason(choices: Choices<'_>, delta: &Record) -> u8
    ensures { result ≡ reason (choice_of choices.entry) delta.now }
{
    if is_late(choices.cutoff, delta) {
        return b'C';
    }
    if has(choices.include.items(), delta.serial) {
        return b'I';
    }
    if has(choices.exclude.items(), delta.serial) {
        return b'X';
    }
    b' '
}

// whether it is applied, in two bytes
fn marks(choices: Choices<'_>, delta: &Record) -> &'static [u8]
    ensures { result.now ≡ marks (choice_of choices.entry) delta.now }
{
    if choices.set.has(delta.serial) {
        b"  "
    } else {
        b"**"
    }
}

// adds bytes and one behind them
fn add_part(part: &[u8], behind: u8, text: &mut Vec<u8>) -> Result<(), Memory>
    ensures { OnOk result (text.new.items ≡ text.old.items ++ (part.now ++ behind ∷ [])) }
{
    text.extend_from_slice(part)?;
    text.push(behind)?;
    Ok(())
}

// adds lines, each behind a tab
fn add_lines(lines: &[Line], text: &mut Vec<u8>) -> Result<(), Memory>
    ensures { OnOk result (text.new.items ≡ text.old.items ++ tabbed lines.now) }
{
    for line in lines {
        text.push(b'\t')?;
        add_part(line.bytes(), b'\n', text)?;
    }
    Ok(())
}

// adds the line of a delta
fn add_front(choices: Choices<'_>, delta: &Record, text: &mut Vec<u8>) -> Result<(), Memory>
    requires { HasSpelling delta.now }
    ensures { OnOk result (text.new.items ≡ text.old.items ++ front_text (choice_of choices.entry) delta.now) }
{
    let mut row = [0; DETAIL_ROOM];
    add_part(marks(choices, delta), reason(choices, delta), text)?;
    text.push(b' ')?;
    add_part(delta.sid.text(&mut row), b'\t', text)?;
    add_part(&delta.moment.text(), b' ', text)?;
    add_part(delta.login.bytes(), b'\n', text)
}

/// What a summary has of a delta: nothing of a removed one.
pub fn entry_of(alloc: Global, choices: Choices<'_>, delta: &Record) -> Result<Bytes, Memory>
    requires { HasSpelling delta.now }
    ensures { IfOk result (λ text. text ≡ live_text (choice_of choices.entry) delta.now) }
{
    let mut text = Vec::new(alloc);
    if delta.removed {
        return Ok(Bytes::from_vec(text));
    }
    add_front(choices, delta, &mut text)?;
    add_lines(delta.comments.items(), &mut text)?;
    add_lines(delta.mrs.items(), &mut text)?;
    text.push(b'\n')?;
    Ok(Bytes::from_vec(text))
}
