ghost use Rattle.std.specs.Prelude.{◌≡◌, ◌==◌, IfOk, position};
ghost use Rattle.std.specs.Option.{option_copied};
ghost use Rattle.sccs_flags.specs.FlagValues.{flag_of};
ghost use Rattle.sccs_rules.specs.Flags.{ChangesFlags, changed_flags, flag_with, by_words, locks_all, may_remove};
ghost use Rattle.sccs_rules.specs.Flags.{may_unlock, put_unlocked, remove_word, set_word, sets_flag, sets_letter};
ghost use Rattle.sccs_rules.specs.Flags.{unlock_in, with_flag, without_flag, without_word};

use crate::forms::{are_joined, is_all, is_flag, letter_of, may_set, text_in};
use crate::releases::unlocked;
use sccs_base::{Bytes, Line, Memory, Words};
use sccs_history::{Flag, Flags};
use std::alloc::Global;

/// Why flags can't be changed: the letter of the first bad word, or want of memory.
#[derive(Clone, Copy, Debug, PartialEq, Eq)]
pub enum FlagFault {
    Bad(u8),
    Memory,
}

// the place of the flag of a letter
fn place_of(flags: &[Flag], letter: u8) -> Option<usize>
    ensures { result ≡ position (λ f. f.letter == letter) flags.now }
{
    flags.iter().position(|flag| flag.letter == letter)
}

// the flag of a letter
fn flag_of(flags: &[Flag], letter: u8) -> Option<&Flag>
    ensures { option_copied result ≡ flag_of flags.now letter }
{
    flags.iter().find(|flag| flag.letter == letter)
}

// puts a flag in the place of the one of its letter, or last
fn put_flag(flags: Flags, flag: Flag) -> Result<Flags, Memory>
    ensures { IfOk result (λ after. after ≡ with_flag flag flags) }
{
    let mut flags = flags;
    match place_of(flags.items(), flag.letter) {
        Some(place) => {
            flags.replace(place as u64, flag);
            Ok(flags)
        }
        None => {
            flags.push(flag)?;
            Ok(flags)
        }
    }
}

// takes the flag of a letter out
fn without_flag(flags: Flags, letter: u8) -> Flags
    ensures { result ≡ without_flag letter flags }
{
    let mut flags = flags;
    if let Some(place) = place_of(flags.items(), letter) {
        flags.remove(place as u64);
    }
    flags
}

// sets the flag that a word says
fn set_word(alloc: Global, flags: Flags, word: &[u8]) -> Result<Flags, FlagFault>
    ensures { ChangesFlags (set_word flags word.now) result }
{
    let (letter, text) = (letter_of(word), text_in(word));
    if !may_set(letter, text) {
        return Err(FlagFault::Bad(letter));
    }
    let Ok(text) = Line::new(alloc, text) else {
        return Err(FlagFault::Memory);
    };
    match put_flag(flags, Flag { letter, text }) {
        Ok(flags) => Ok(flags),
        Err(Memory) => Err(FlagFault::Memory),
    }
}

// whether a word that isn't bad sets the flag of a letter
fn sets_letter(word: &[u8], letter: u8) -> bool
    ensures { result ≡ sets_letter letter word.now }
{
    letter_of(word) == letter && may_set(letter, text_in(word))
}

/// Whether some word of -f that isn't bad sets the flag of a letter.
pub fn sets_flag(words: &Words, letter: u8) -> bool
    ensures { result ≡ sets_flag words.now letter }
{
    words
        .items()
        .iter()
        .any(|word| sets_letter(word.bytes(), letter))
}

// whether the flag l stands for all releases
fn locks_all(flags: &[Flag]) -> bool
    ensures { result ≡ locks_all (flag_of flags.now 108) }
{
    match flag_of(flags, b'l') {
        Some(flag) => is_all(flag.text.bytes()),
        None => false,
    }
}

// whether releases may be taken from the flag l
fn may_unlock(flags: &[Flag], text: &[u8]) -> bool
    ensures { result ≡ may_unlock flags.now text.now }
{
    is_all(text) || (are_joined(text) && !locks_all(flags))
}

// whether what a word says may be removed
fn may_remove(flags: &[Flag], letter: u8, text: &[u8]) -> bool
    ensures { result ≡ may_remove flags.now letter text.now }
{
    is_flag(letter) && (text.is_empty() || (letter == b'l' && may_unlock(flags, text)))
}

// the flag l with this text; without one it goes
fn put_unlocked(flags: Flags, text: Line) -> Result<Flags, Memory>
    ensures { IfOk result (λ after. after ≡ put_unlocked flags text) }
{
    if text.bytes().is_empty() {
        return Ok(without_flag(flags, b'l'));
    }
    put_flag(flags, Flag { letter: b'l', text })
}

// takes releases from the list of the flag l, where it is there
fn unlock(alloc: Global, flags: Flags, others: &[u8]) -> Result<Flags, Memory>
    ensures { IfOk result (λ after. after ≡ unlock_in flags others.now (flag_of flags 108)) }
{
    let text = match flag_of(flags.items(), b'l') {
        Some(flag) => unlocked(alloc, others, flag.text.bytes())?,
        None => return Ok(flags),
    };
    put_unlocked(flags, text)
}

// the flags without what a word says
fn without_word(alloc: Global, flags: Flags, letter: u8, text: &[u8]) -> Result<Flags, Memory>
    ensures { IfOk result (λ after. after ≡ without_word flags letter text.now) }
{
    if text.is_empty() || is_all(text) {
        return Ok(without_flag(flags, letter));
    }
    unlock(alloc, flags, text)
}

// removes what a word says
fn remove_word(alloc: Global, flags: Flags, word: &[u8]) -> Result<Flags, FlagFault>
    ensures { ChangesFlags (remove_word flags word.now) result }
{
    let (letter, text) = (letter_of(word), text_in(word));
    if !may_remove(flags.items(), letter, text) {
        return Err(FlagFault::Bad(letter));
    }
    match without_word(alloc, flags, letter, text) {
        Ok(flags) => Ok(flags),
        Err(Memory) => Err(FlagFault::Memory),
    }
}

// sets the flags that words say, in their order
fn set_words(alloc: Global, flags: Flags, words: &[Bytes]) -> Result<Flags, FlagFault>
    ensures { ChangesFlags (by_words set_word flags words.now) result }
{
    let mut flags = flags;
    for word in words {
        flags = set_word(alloc, flags, word.bytes())?;
    }
    Ok(flags)
}

// removes what words say, in their order
fn remove_words(alloc: Global, flags: Flags, words: &[Bytes]) -> Result<Flags, FlagFault>
    ensures { ChangesFlags (by_words remove_word flags words.now) result }
{
    let mut flags = flags;
    for word in words {
        flags = remove_word(alloc, flags, word.bytes())?;
    }
    Ok(flags)
}

/// The flags with those of some words set, each in its place or last, and then those of others removed: POSIX,
/// admin -f and -d. Bad with the letter of the first word that is none: of both, one whose letter is none of
/// b c d f i j l m n q t v; of `set`, one whose text isn't such as its letter may have; of `removed`, one with a
/// text, unless it is `la`, or `l` with releases while flag l isn't `a`.
pub fn change_flags(
    alloc: Global,
    flags: Flags,
    set: &Words,
    removed: &Words,
) -> Result<Flags, FlagFault>
    ensures { ChangesFlags (changed_flags flags set.now removed.now) result }
{
    let flags = set_words(alloc, flags, set.items())?;
    remove_words(alloc, flags, removed.items())
}
