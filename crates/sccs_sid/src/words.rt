//! Words between blanks. A blank is the byte 32.
ghost use Rattle.std.specs.Prelude.{◌≡◌, ◌<◌, ◌≤◌, ◌^◌, [], ◌∷◌, length, option_map, IfSome, MatchOption};
ghost use Rattle.sccs_sid.specs.Words.{begins_blank, ends_blank, skip_blanks, drop_blanks, words, with_word, one};
ghost use Rattle.sccs_sid.specs.Words.{three};

use crate::reading::{byte_at, cut_at, number, number_at};
use sccs_base::BLANK;

/// Whether a blank comes first.
pub fn begins_blank(bytes: &[u8]) -> bool
    ensures { result ≡ begins_blank bytes.now }
{
    match bytes.first() {
        Some(first) => *first == BLANK,
        None => false,
    }
}

/// Whether a blank comes last.
pub fn ends_blank(bytes: &[u8]) -> bool
    ensures { result ≡ ends_blank bytes.now }
{
    match bytes.last() {
        Some(last) => *last == BLANK,
        None => false,
    }
}

/// The bytes without the blanks at the start.
pub fn skip_blanks(bytes: &[u8]) -> &[u8]
    ensures value { result.now ≡ skip_blanks bytes.now }
    ensures shorter { length result.now ≤ length bytes.now }
{
    for (at, byte) in bytes.iter().enumerate() {
        if *byte != BLANK {
            return &bytes[at..];
        }
    }
    &bytes[bytes.len()..]
}

/// The bytes without the blanks at the end.
pub fn drop_blanks(bytes: &[u8]) -> &[u8]
    ensures value { result.now ≡ drop_blanks bytes.now }
    ensures shorter { length result.now ≤ length bytes.now }
{
    let mut end = bytes.len();
    'blanks: while end > 0 && bytes[end - 1] == BLANK {
        end -= 1;
    }
    &bytes[..end]
}

/// The first word, and the bytes after it; an empty word where none is there.
pub fn next_word(bytes: &[u8]) -> (&[u8], &[u8])
    ensures value { words bytes.now ≡ with_word result.0.now (words result.1.now) }
    ensures shorter { length result.1.now ≤ length bytes.now }
{
    let bytes = skip_blanks(bytes);
    let (word, rest) = cut_at(BLANK, bytes);
    match rest {
        Some(rest) => (word, rest),
        None => (word, &bytes[bytes.len()..]),
    }
}

/// The first word, and the bytes behind it; None where there is no word.
pub fn first_word(bytes: &[u8]) -> Option<(&[u8], &[u8])>
    ensures { MatchOption result (words bytes.now ≡ [])
        (λ x. words bytes.now ≡ x.0.now ∷ words x.1.now) }
{
    let (word, rest) = next_word(bytes);
    if word.is_empty() {
        None
    } else {
        Some((word, rest))
    }
}

/// The word of bytes with one word.
pub fn one_word(bytes: &[u8]) -> Option<&[u8]>
    ensures { option_map (λ x. x.now) result ≡ one (words bytes.now) }
{
    let (word, rest) = next_word(bytes);
    if word.is_empty() {
        return None;
    }
    let (second, _) = next_word(rest);
    if second.is_empty() { Some(word) } else { None }
}

/// Three numbers of one to `most` digits, with a separator between two.
#[tactic(auto, unfolding(crate::specs::Words::three))]
pub fn three(most: u32, separator: u8, bytes: &[u8]) -> Option<(u32, u32, u32)>
    requires low { 0 < most }
    requires high { most ≤ 9 }
    ensures value { result ≡ three most separator bytes.now }
    ensures small { IfSome result (λ x. (x.0 < 10 ^ most) × (x.1 < 10 ^ most) × (x.2 < 10 ^ most)) }
{
    let Ok((first, rest)) = number_at(most, bytes) else {
        return None;
    };
    let Ok(rest) = byte_at(separator, rest) else {
        return None;
    };
    let Ok((second, rest)) = number_at(most, rest) else {
        return None;
    };
    let Ok(rest) = byte_at(separator, rest) else {
        return None;
    };
    let third = number(most, rest)?;
    Some((first, second, third))
}
