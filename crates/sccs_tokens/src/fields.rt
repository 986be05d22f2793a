//! The fields of a line.
ghost use Rattle.std.specs.Prelude.{◌≡◌, ◌+◌, ◌<◌, ◌^◌, ◌≤◌, List, ◌∷◌, Some, length, map, option_map, IfOk, IfSome};
ghost use Rattle.sccs_base.specs.Cut.{HasNoLf};
ghost use Rattle.sccs_sid.specs.Words.{words};
ghost use Rattle.sccs_tokens.specs.Tokens.{drop_zeros, is_removed, is_set_off, listed, padded_serial, serial_field};
ghost use Rattle.sccs_tokens.specs.Tokens.{plain_serial, predecessor, serial, serials, text};

use sccs_base::{Line, Memory};
use sccs_history::Serials;
use sccs_sid::reading::number;
use sccs_sid::words::{begins_blank, ends_blank, first_word, one_word, skip_blanks};
use std::alloc::Global;

/// The value of a digit; of another byte 10 or more.
#[inline(always)]
pub fn digit(byte: u8) -> u32
    ensures value { result < 10 → byte ≡ 48 + result }
    ensures small { result < 256 }
{
    u32::from(byte.wrapping_sub(b'0'))
}

// the bytes without the zeros in front
fn drop_zeros(bytes: &[u8]) -> &[u8]
    ensures { result.now ≡ drop_zeros bytes.now }
{
    for (at, byte) in bytes.iter().enumerate() {
        if *byte != b'0' {
            return &bytes[at..];
        }
    }
    &bytes[bytes.len()..]
}

/// A serial: 1 to 65535, in one to five digits.
#[tactic(auto, unfolding(crate::specs::Tokens::serial))]
pub fn serial(word: &[u8]) -> Option<u16>
    ensures { result ≡ serial word.now }
{
    let n = number(5, word)?;
    if 0 < n && n < 65536 {
        Some(n as u16)
    } else {
        None
    }
}

/// The same or 0.
#[tactic(auto, unfolding(crate::specs::Tokens::predecessor))]
pub fn predecessor(word: &[u8]) -> Option<u16>
    ensures { result ≡ predecessor word.now }
{
    let n = number(5, word)?;
    if n < 65536 { Some(n as u16) } else { None }
}

/// A serial without zeros in front.
pub fn plain_serial(word: &[u8]) -> Option<u16>
    ensures { result ≡ plain_serial word.now }
{
    let (first, _) = word.split_first()?;
    if *first == b'0' { None } else { serial(word) }
}

/// Whether a record is removed: `R`, or `D`.
pub fn removed(word: &[u8]) -> Option<bool>
    ensures { result ≡ is_removed word.now }
{
    match word {
        [b'D'] => Some(false),
        [b'R'] => Some(true),
        _ => None,
    }
}

/// Whether bytes begin with a blank and don't end with one.
pub fn is_set_off(bytes: &[u8]) -> bool
    ensures { result ≡ is_set_off bytes.now }
{
    begins_blank(bytes) && !ends_blank(bytes)
}

// a serial as it is written, behind one blank and without zeros in front
#[tactic(auto, using(crate::proofs::SerialFieldLaws::written_serial_field))]
fn behind_blank(word: &[u8]) -> Option<u16>
    ensures { IfSome result (λ n. Some n ≡ serial_field (32 ∷ word.now)) }
{
    plain_serial(word)
}

// the one serial behind blanks, with any zeros in front
#[inline(never)]
#[tactic(auto, unfolding(crate::specs::Tokens::serial_field))]
fn any_place(bytes: &[u8]) -> Option<u16>
    ensures { result ≡ serial_field bytes.now }
{
    if !is_set_off(bytes) {
        return None;
    }
    let word = one_word(bytes)?;
    serial(drop_zeros(word))
}

/// The one serial behind blanks, with any zeros in front.
pub fn serial_field(bytes: &[u8]) -> Option<u16>
    ensures { result ≡ serial_field bytes.now }
{
    if let [b' ', word @ ..] = bytes {
        if let Some(serial) = behind_blank(word) {
            return Some(serial);
        }
    }
    any_place(bytes)
}

/// The words of bytes, all of them serials without zeros in front.
#[tactic(auto, unfolding(crate::specs::Tokens::serials))]
fn serials(alloc: Global, bytes: &[u8]) -> Result<Option<Serials>, Memory>
    ensures { IfOk result (λ o. o ≡ serials (words bytes.now)) }
{
    let mut found = Serials::empty(alloc);
    let mut rest = bytes;
    'words: while let Some((word, behind)) = first_word(rest) {
        let Some(n) = plain_serial(word) else {
            return Ok(None);
        };
        found.push(n)?;
        rest = behind;
    }
    Ok(Some(found))
}

/// What stands on the line of a list: serials, each behind blanks, or blanks or nothing.
#[tactic(auto, unfolding(crate::specs::Tokens::listed))]
pub fn listed(alloc: Global, bytes: &[u8]) -> Result<Option<Serials>, Memory>
    ensures { IfOk result (λ o. o ≡ listed bytes.now) }
{
    if skip_blanks(bytes).is_empty() {
        return Ok(Some(Serials::empty(alloc)));
    }
    if is_set_off(bytes) {
        serials(alloc, bytes)
    } else {
        Ok(None)
    }
}

/// A line of bytes that have no LF.
pub fn line_of(alloc: Global, bytes: &[u8]) -> Result<Line, Memory>
    requires { HasNoLf bytes.now }
    ensures { IfOk result (λ line. line ≡ bytes.now) }
{
    match Line::new(alloc, bytes) {
        Ok(line) => Ok(line),
        Err(_) => Err(Memory),
    }
}

/// A text behind one blank, or no text.
pub fn text(alloc: Global, bytes: &[u8]) -> Result<Option<Line>, Memory>
    requires { HasNoLf bytes.now }
    ensures { IfOk result (λ o. o ≡ text bytes.now) }
{
    match bytes {
        [] => Ok(Some(line_of(alloc, bytes)?)),
        [b' ', rest @ ..] => Ok(Some(line_of(alloc, rest)?)),
        _ => Ok(None),
    }
}
