//! ListKind text a flag may have.
ghost use Rattle.std.specs.Prelude.{◌≡◌};
ghost use Rattle.std.specs.List.{list_all};
ghost use Rattle.sccs_sid.specs.Words.{words};
ghost use Rattle.sccs_history.specs.FlagText.{are_releases, are_spaced, fits_letter, is_all, is_any_sid, is_number};
ghost use Rattle.sccs_history.specs.FlagText.{is_release};

use sccs_sid::Spec;
use sccs_sid::reading::{cut_at, number};
use sccs_sid::words::{begins_blank, ends_blank, first_word};

// a number of one to four digits that isn't 0
fn is_release(word: &[u8]) -> bool
    ensures { result ≡ is_release word.now }
{
    match number(4, word) {
        Some(release) => 0 < release,
        None => false,
    }
}

// whether each word is a release
fn all_releases(bytes: &[u8]) -> bool
    ensures { result ≡ list_all is_release (words bytes.now) }
{
    let mut rest = bytes;
    'words: while let Some((word, behind)) = first_word(rest) {
        if !is_release(word) {
            return false;
        }
        rest = behind;
    }
    true
}

// releases with blanks between two
fn are_spaced(piece: &[u8]) -> bool
    ensures { result ≡ are_spaced piece.now }
{
    !piece.is_empty() && !begins_blank(piece) && !ends_blank(piece) && all_releases(piece)
}

// releases with a comma or blanks between two
fn are_releases(text: &[u8]) -> bool
    ensures { result ≡ are_releases text.now }
{
    let mut rest = text;
    'pieces: loop {
        let (piece, behind) = cut_at(b',', rest);
        if !are_spaced(piece) {
            return false;
        }
        match behind {
            Some(more) => rest = more,
            None => return true,
        }
    }
}

fn is_any_sid(text: &[u8]) -> bool
    ensures { result ≡ is_any_sid text.now }
{
    Spec::read(text).is_ok()
}

fn is_number(text: &[u8]) -> bool
    ensures { result ≡ is_number text.now }
{
    number(4, text).is_some()
}

/// Whether a flag may have the text.
pub fn fits_letter(letter: u8, text: &[u8]) -> bool
    ensures { result ≡ fits_letter letter text.now }
{
    match letter {
        b'c' | b'f' => is_number(text),
        b'd' => is_any_sid(text),
        b'l' => matches!(text, [b'a']) || are_releases(text),
        _ => true,
    }
}
