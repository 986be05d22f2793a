ghost use Rattle.std.specs.Prelude.{◌≡◌, ◌==◌, unwrap_or};
ghost use Rattle.std.specs.Option.{option_copied};
ghost use Rattle.sccs_sid.specs.Reading.{number};
ghost use Rattle.sccs_sid.specs.Words.{words};
ghost use Rattle.sccs_flags.specs.FlagValues.{ceiling, flag_of, floor, has_flag, has_release, is_locked_release};
ghost use Rattle.sccs_flags.specs.FlagValues.{is_within_limits, lists_release, locks, number_or};

use sccs_history::{Flag, Header};
use sccs_sid::reading::{cut_at, number};
use sccs_sid::words::first_word;

/// Whether the flag of a letter is there, as b for branches, i for keywords that must be there, j for
/// joint edits. sccsfile(4), "Flags".
pub fn has_flag(header: &Header, letter: u8) -> bool
    ensures { result ≡ has_flag header.now.flags letter }
{
    header
        .flags
        .items()
        .iter()
        .any(|flag| flag.letter == letter)
}

// the flag of a letter
fn flag_of(flags: &[Flag], letter: u8) -> Option<&Flag>
    ensures { option_copied result ≡ flag_of flags.now letter }
{
    flags.iter().find(|flag| flag.letter == letter)
}

// the number of one to four digits that a flag holds
fn number_of(flag: &Flag) -> Option<u16>
    ensures { result ≡ number 4 flag.now.text }
{
    match number(4, flag.text.bytes()) {
        Some(number) => Some(number as u16),
        None => None,
    }
}

// the number that the flag of a letter holds, else another
fn number_or(flags: &[Flag], letter: u8, otherwise: u16) -> u16
    ensures { result ≡ number_or flags.now letter otherwise }
{
    match flag_of(flags, letter) {
        Some(flag) => match number_of(flag) {
            Some(number) => number,
            None => otherwise,
        },
        None => otherwise,
    }
}

/// The greatest release that may be got for an edit or made: that of flag c, else 9999. sccsfile(4),
/// "Flags".
pub fn ceiling(header: &Header) -> u16
    ensures { result ≡ ceiling header.now.flags }
{
    number_or(header.flags.items(), b'c', 9999)
}

/// The least release that may be got for an edit or made: that of flag f, else 1. sccsfile(4),
/// "Flags".
pub fn floor(header: &Header) -> u16
    ensures { result ≡ floor header.now.flags }
{
    number_or(header.flags.items(), b'f', 1)
}

/// Whether a release lies from floor to ceiling, both included.
pub fn is_within_limits(header: &Header, release: u16) -> bool
    ensures { result ≡ is_within_limits header.now.flags release }
{
    floor(header) <= release && release <= ceiling(header)
}

// whether a word is the number of a release
fn is_release(word: &[u8], release: u16) -> bool
    ensures { result ≡ (unwrap_or (number 4 word.now) 0 == release) }
{
    match number(4, word) {
        Some(number) => number == u32::from(release),
        None => release == 0,
    }
}

// whether some word is the number of a release
fn has_release(piece: &[u8], release: u16) -> bool
    ensures { result ≡ has_release (words piece.now) release }
{
    let mut rest = piece;
    'words: while let Some((word, behind)) = first_word(rest) {
        if is_release(word, release) {
            return true;
        }
        rest = behind;
    }
    false
}

// whether releases with commas or blanks between them hold a release
fn lists_release(text: &[u8], release: u16) -> bool
    ensures { result ≡ lists_release text.now release }
{
    let mut rest = text;
    'pieces: loop {
        let (piece, behind) = cut_at(b',', rest);
        if has_release(piece, release) {
            return true;
        }
        match behind {
            Some(more) => rest = more,
            None => return false,
        }
    }
}

// whether the text of flag l locks a release
fn locks(text: &[u8], release: u16) -> bool
    ensures { result ≡ locks text.now release }
{
    matches!(text, [b'a']) || lists_release(text, release)
}

/// Whether a release is locked against deltas: the text of flag l is `a`, or lists it. sccsfile(4),
/// "Flags"; POSIX, admin -f.
pub fn is_locked(header: &Header, release: u16) -> bool
    ensures { result ≡ is_locked_release header.now.flags release }
{
    match flag_of(header.flags.items(), b'l') {
        Some(flag) => locks(flag.text.bytes(), release),
        None => false,
    }
}
