ghost use Rattle.std.specs.Prelude.{◌≡◌, ◌<◌, ◌+◌, ◌∷◌, [], None, Some, Err, length, All, IfOk, IfSome, MatchOption};
ghost use Rattle.std.specs.Prelude.{MatchResult};
ghost use Rattle.sccs_sid.specs.SidLists.{IsRange};
ghost use Rattle.sccs_sid.specs.Words.{words};
ghost use Rattle.sccs_pfile.specs.Entries.{IsEdit};
ghost use Rattle.sccs_pfile.specs.Reading.{ReadsEdits, edits_of, entries_at, entry_of, entry_of_words};
ghost use Rattle.sccs_pfile.specs.Reading.{edits_with_entry, with_last, edit_with_list, with_option, with_options};
ghost use Rattle.sccs_pfile.specs.Reading.{without_lists};

use crate::entries::{Edit, Edits, PfileFault};
use sccs_base::{LF, Login, Memory};
use sccs_sid::reading::cut_at;
use sccs_sid::words::{begins_blank, first_word};
use sccs_sid::{ListFault, Moment, Sid, SidList};
use std::alloc::Global;

// the words of an entry, and the bytes behind them
#[derive(Clone, Copy)]
struct EntryWords<'a> {
    got: &'a [u8],
    made: &'a [u8],
    login: &'a [u8],
    date: &'a [u8],
    time: &'a [u8],
    options: &'a [u8],
}

// five words
#[tactic(auto, unfolding(crate::specs::Reading::entry_of_words))]
fn entry_words(bytes: &[u8]) -> Option<EntryWords<'_>>
    ensures { MatchOption result (entry_of_words (words bytes.now) ≡ None)
        (λ w. words bytes.now ≡ w.got.now ∷ w.made.now ∷ w.login.now ∷ w.date.now ∷ w.time.now ∷ words w.options.now) }
{
    let (got, rest) = first_word(bytes)?;
    let (made, rest) = first_word(rest)?;
    let (login, rest) = first_word(rest)?;
    let (date, rest) = first_word(rest)?;
    let (time, options) = first_word(rest)?;
    Some(EntryWords {
        got,
        made,
        login,
        date,
        time,
        options,
    })
}

// an entry without lists
#[tactic(auto, unfolding(crate::specs::Reading::without_lists))]
fn without_lists(alloc: Global, words: &EntryWords<'_>) -> Option<Edit>
    ensures value { result ≡ without_lists words.now.got.now words.now.made.now words.now.login.now
        words.now.date.now words.now.time.now }
    ensures valid { IfSome result IsEdit }
{
    let Ok(got) = Sid::read(words.got) else {
        return None;
    };
    let Ok(made) = Sid::read(words.made) else {
        return None;
    };
    let login = Login::read(words.login)?;
    let Ok(moment) = Moment::read(words.date, words.time) else {
        return None;
    };
    Some(Edit {
        got,
        made,
        login,
        moment,
        include: SidList::empty(alloc),
        exclude: SidList::empty(alloc),
    })
}

// adds a list by the letter of its option, where it didn't stand yet
fn with_list(edit: Edit, letter: u8, list: SidList) -> Option<Edit>
    requires edit { IsEdit edit }
    requires list { All IsRange list }
    ensures value { result ≡ edit_with_list edit letter list }
    ensures valid { IfSome result IsEdit }
{
    let mut edit = edit;
    match letter {
        b'i' => {
            if edit.include.len() > 0 {
                return None;
            }
            edit.include = list;
        }
        b'x' => {
            if edit.exclude.len() > 0 {
                return None;
            }
            edit.exclude = list;
        }
        _ => return None,
    }
    Some(edit)
}

// adds the list of a word `-iLIST` or `-xLIST`
#[tactic(auto, unfolding(crate::specs::Reading::with_option))]
fn with_option(alloc: Global, edit: Edit, word: &[u8]) -> Result<Option<Edit>, Memory>
    requires { IsEdit edit }
    ensures value { IfOk result (λ o. o ≡ with_option edit word.now) }
    ensures valid { IfOk result (λ o. IfSome o IsEdit) }
{
    let [b'-', letter, list @ ..] = word else {
        return Ok(None);
    };
    match SidList::read(alloc, list) {
        Ok(list) => Ok(with_list(edit, *letter, list)),
        Err(ListFault::Malformed(_)) => Ok(None),
        Err(ListFault::Memory) => Err(Memory),
    }
}

// adds the list of the last word, where there is one more
fn with_last(alloc: Global, edit: Edit, bytes: &[u8]) -> Result<Option<Edit>, Memory>
    requires { IsEdit edit }
    ensures value { IfOk result (λ o. o ≡ with_last (words bytes.now) edit) }
    ensures valid { IfOk result (λ o. IfSome o IsEdit) }
{
    let Some((word, rest)) = first_word(bytes) else {
        return Ok(Some(edit));
    };
    if first_word(rest).is_some() {
        return Ok(None);
    }
    with_option(alloc, edit, word)
}

// adds the lists of at most two words
fn with_options(alloc: Global, edit: Edit, bytes: &[u8]) -> Result<Option<Edit>, Memory>
    requires { IsEdit edit }
    ensures value { IfOk result (λ o. o ≡ with_options edit (words bytes.now)) }
    ensures valid { IfOk result (λ o. IfSome o IsEdit) }
{
    let Some((word, rest)) = first_word(bytes) else {
        return Ok(Some(edit));
    };
    match with_option(alloc, edit, word)? {
        Some(edit) => with_last(alloc, edit, rest),
        None => Ok(None),
    }
}

// the entry of a line
#[tactic(auto, unfolding(crate::specs::Reading::entry_of_words, crate::specs::Reading::entry_of))]
fn read_entry(alloc: Global, line: &[u8]) -> Result<Option<Edit>, Memory>
    ensures value { IfOk result (λ o. o ≡ entry_of line.now) }
    ensures valid { IfOk result (λ o. IfSome o IsEdit) }
{
    if begins_blank(line) {
        return Ok(None);
    }
    let Some(words) = entry_words(line) else {
        return Ok(None);
    };
    match without_lists(alloc, &words) {
        Some(edit) => with_options(alloc, edit, words.options),
        None => Ok(None),
    }
}

// the entry of the first line, and the bytes behind it
#[tactic(auto, using(crate::proofs::Cuts::no_line))]
fn next_entry(alloc: Global, number: u64, bytes: &[u8]) -> Result<(Edit, &[u8]), PfileFault>
    requires { 0 < length bytes.now }
    ensures value { MatchResult result
        (λ x. edits_with_entry number (Some x.0) (entries_at (number + 1) x.1.now) ≡ entries_at number bytes.now)
        (λ fault. ReadsEdits (Err fault) (entries_at number bytes.now)) }
    ensures valid { IfOk result (λ x. IsEdit x.0) }
    ensures shorter { IfOk result (λ x. length x.1.now < length bytes.now) }
{
    let (line, behind) = cut_at(LF, bytes);
    let Some(rest) = behind else {
        return Err(PfileFault::BadPfile(number));
    };
    match read_entry(alloc, line) {
        Ok(Some(edit)) => Ok((edit, rest)),
        Ok(None) => Err(PfileFault::BadPfile(number)),
        Err(_) => Err(PfileFault::Memory),
    }
}

/// The entries of a p-file, in their order. BadPfile names the first line, from 1, that is none,
/// exactly where there is one. A file without bytes has no entries. POSIX, get -e; System V, p-file.
pub fn read_edits(alloc: Global, bytes: &[u8]) -> Result<Edits, PfileFault>
    ensures value { ReadsEdits result (edits_of bytes.now) }
    ensures valid { IfOk result (All IsEdit) }
{
    let mut edits = Edits::empty(alloc);
    let mut rest = bytes;
    let mut number: u64 = 1;
    'lines: while !rest.is_empty() {
        let (edit, more) = next_entry(alloc, number, rest)?;
        let Ok(()) = edits.push(edit) else {
            return Err(PfileFault::Memory);
        };
        rest = more;
        number += 1;
    }
    Ok(edits)
}
