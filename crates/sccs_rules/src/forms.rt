ghost use Rattle.std.specs.Prelude.{◌≡◌};
ghost use Rattle.sccs_sid.specs.Reading.{is_empty};
ghost use Rattle.sccs_sid.specs.Words.{drop_blanks, skip_blanks};
ghost use Rattle.sccs_history.specs.FlagText.{is_all, is_any_sid, is_release};
ghost use Rattle.sccs_rules.specs.Forms.{are_joined, fits_form, flag_form, is_flag, word_letter, may_set, flag_rows};
ghost use Rattle.sccs_rules.specs.Forms.{word_text};
ghost use Rattle.sccs_rules.specs.Users.{has_lf};

use crate::users::has_lf;
use sccs_sid::Spec;
use sccs_sid::reading::{cut_at, number};
use sccs_sid::words::{drop_blanks, skip_blanks};

/// What the text of a flag may be: POSIX, admin -f; sccsfile(4), "Flags".
#[derive(Clone, Copy)]
pub enum Form {
    /// None.
    Bare,
    /// A release, 1 to 9999.
    Release,
    /// A SID in any form: R, R.L, R.L.B or R.L.B.S.
    AnySid,
    /// `a`, or releases with a comma between two.
    Releases,
    /// Any, but not the empty one.
    Needed,
    /// Any.
    Free,
}

/// A flag that may be set: its letter, and what its text may be.
#[derive(Clone, Copy)]
pub struct FlagRow(pub u8, pub Form);

const ROWS: [FlagRow; 12] = [
    FlagRow(b'b', Form::Bare),
    FlagRow(b'c', Form::Release),
    FlagRow(b'd', Form::AnySid),
    FlagRow(b'f', Form::Release),
    FlagRow(b'i', Form::Free),
    FlagRow(b'j', Form::Bare),
    FlagRow(b'l', Form::Releases),
    FlagRow(b'm', Form::Needed),
    FlagRow(b'n', Form::Bare),
    FlagRow(b'q', Form::Needed),
    FlagRow(b't', Form::Needed),
    FlagRow(b'v', Form::Free),
];

// the flags that may be set
fn rows() -> &'static [FlagRow]
    ensures { result.now ≡ flag_rows }
{
    &ROWS
}

// what the text of the flag of a letter may be
fn form_of(letter: u8) -> Option<Form>
    ensures { result ≡ flag_form letter }
{
    let found = rows().iter().find(|row| row.0 == letter)?;
    Some(found.1)
}

/// Whether a letter is that of a flag that may be set or removed.
pub fn is_flag(letter: u8) -> bool
    ensures { result ≡ is_flag letter }
{
    form_of(letter).is_some()
}

// whether bytes are a release
fn is_release(bytes: &[u8]) -> bool
    ensures { result ≡ is_release bytes.now }
{
    match number(4, bytes) {
        Some(release) => release > 0,
        None => false,
    }
}

// whether bytes are a SID in any form
fn is_any_sid(bytes: &[u8]) -> bool
    ensures { result ≡ is_any_sid bytes.now }
{
    Spec::read(bytes).is_ok()
}

/// Whether the text of flag l stands for all releases.
pub fn is_all(text: &[u8]) -> bool
    ensures { result ≡ is_all text.now }
{
    matches!(text, [b'a'])
}

/// Whether bytes are releases with a comma between two.
pub fn are_joined(bytes: &[u8]) -> bool
    ensures { result ≡ are_joined bytes.now }
{
    let mut rest = bytes;
    'pieces: loop {
        let (piece, behind) = cut_at(b',', rest);
        if !is_release(piece) {
            return false;
        }
        match behind {
            Some(more) => rest = more,
            None => return true,
        }
    }
}

// whether a text is of a form
fn fits_form(form: Form, text: &[u8]) -> bool
    ensures { result ≡ fits_form form text.now }
{
    match form {
        Form::Bare => text.is_empty(),
        Form::Release => is_release(text),
        Form::AnySid => is_any_sid(text),
        Form::Releases => is_all(text) || are_joined(text),
        Form::Needed => !text.is_empty(),
        Form::Free => true,
    }
}

/// Whether the flag of a letter may be set with a text.
pub fn may_set(letter: u8, text: &[u8]) -> bool
    ensures { result ≡ may_set letter text.now }
{
    match form_of(letter) {
        Some(form) => fits_form(form, text) && !has_lf(text),
        None => false,
    }
}

/// The letter of a word of -f or -d; of an empty word it is none of a flag.
pub fn letter_of(word: &[u8]) -> u8
    ensures { result ≡ word_letter word.now }
{
    match word.first() {
        Some(letter) => *letter,
        None => 0,
    }
}

/// The text behind the letter, without blanks at its ends.
pub fn text_in(word: &[u8]) -> &[u8]
    ensures { result.now ≡ word_text word.now }
{
    match word {
        [] => word,
        [_, text @ ..] => skip_blanks(drop_blanks(text)),
    }
}
