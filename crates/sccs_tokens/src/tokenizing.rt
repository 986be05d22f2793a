//! What one line says.
ghost use Rattle.std.specs.Prelude.{◌≡◌, ◌≢◌, ◌||◌, ◌<◌, [], ◌∷◌, ◌++◌, IsTrue, None, Some, option_map, if◌then◌else◌};
ghost use Rattle.std.specs.Prelude.{IfOk, IfSome, MatchOption};
ghost use Rattle.sccs_base.specs.Cut.{HasNoLf};
ghost use Rattle.sccs_history.specs.Numbers.{is_empty};
ghost use Rattle.sccs_sid.specs.Reading.{only};
ghost use Rattle.sccs_sid.specs.Words.{begins_blank, drop_blanks, skip_blanks, words};
ghost use Rattle.sccs_tokens.specs.Written.{five};
ghost use Rattle.sccs_tokens.specs.Tokens.{behind_soh, body_control, control, count_token, delta_token, delta_of};
ghost use Rattle.sccs_tokens.specs.Tokens.{exactly_seven, flag, listed, part_control, token, text};

use crate::boxed_records::BoxedRecord;
use crate::fields::{
    digit, is_set_off, line_of, listed, predecessor, removed, serial, serial_field, text,
};
use crate::line_tokens::{LineToken, ListKind};
use sccs_base::{BLANK, Line, Login, Memory, Text};
use sccs_history::{Flag, Record, Serials};
use sccs_sid::words::{begins_blank, drop_blanks, first_word, one_word, skip_blanks, three};
use sccs_sid::{Moment, Sid};
use std::alloc::Global;

// the words of a delta line
#[derive(Clone, Copy)]
struct DeltaWords<'a> {
    kind: &'a [u8],
    sid: &'a [u8],
    date: &'a [u8],
    time: &'a [u8],
    login: &'a [u8],
    serial: &'a [u8],
    predecessor: &'a [u8],
}

// whether none is a blank
#[inline(always)]
fn are_no_blanks(a: u8, b: u8, c: u8, d: u8) -> bool
    ensures { IsTrue result → (a ≢ 32) × (b ≢ 32) × (c ≢ 32) × (d ≢ 32) }
{
    (a != BLANK) & (b != BLANK) & (c != BLANK) & (d != BLANK)
}

// the first word, where that has eight bytes, stands in front and has a blank behind it, and the bytes
// behind that
#[inline(always)]
fn eight_bytes(bytes: &[u8]) -> Option<(&[u8], &[u8])>
    ensures { IfSome result (λ x. words bytes.now ≡ x.0.now ∷ words x.1.now) }
{
    let [a, b, c, d, e, f, g, h, last, ..] = bytes else {
        return None;
    };
    let first = are_no_blanks(*a, *b, *c, *d);
    let second = are_no_blanks(*e, *f, *g, *h);
    if first & second & (*last == BLANK) {
        Some((&bytes[..8], &bytes[9..]))
    } else {
        None
    }
}

// the first word, and the bytes behind it; a date and a time have eight bytes
#[inline(always)]
fn date_word(bytes: &[u8]) -> Option<(&[u8], &[u8])>
    ensures { MatchOption result (words bytes.now ≡ [])
        (λ x. words bytes.now ≡ x.0.now ∷ words x.1.now) }
{
    if let Some(found) = eight_bytes(bytes) {
        return Some(found);
    }
    first_word(bytes)
}

// exactly seven words
fn delta_words(bytes: &[u8]) -> Option<DeltaWords<'_>>
    ensures { option_map (λ w. w.kind.now ∷ w.sid.now ∷ w.date.now ∷ w.time.now ∷ w.login.now ∷ w.serial.now
        ∷ w.predecessor.now ∷ []) result
        ≡ exactly_seven (words bytes.now) }
{
    let (kind, rest) = first_word(bytes)?;
    let (sid, rest) = first_word(rest)?;
    let (date, rest) = date_word(rest)?;
    let (time, rest) = date_word(rest)?;
    let (login, rest) = first_word(rest)?;
    let (serial, rest) = first_word(rest)?;
    let predecessor = one_word(rest)?;
    Some(DeltaWords {
        kind,
        sid,
        date,
        time,
        login,
        serial,
        predecessor,
    })
}

// a record without lists, MRs, comments and counts
#[tactic(auto, unfolding(crate::specs::Tokens::delta_of))]
fn record_of(alloc: Global, words: &DeltaWords<'_>) -> Option<Record>
    ensures { option_map LineToken.Delta result ≡ delta_of words.now.kind.now words.now.sid.now words.now.date.now
        words.now.time.now
        words.now.login.now words.now.serial.now words.now.predecessor.now }
{
    let removed = removed(words.kind)?;
    let Ok(sid) = Sid::read(words.sid) else {
        return None;
    };
    let Ok(moment) = Moment::read(words.date, words.time) else {
        return None;
    };
    let login = Login::read(words.login)?;
    let serial = serial(words.serial)?;
    let predecessor = predecessor(words.predecessor)?;
    Some(Record {
        serial,
        removed,
        sid,
        moment,
        login,
        predecessor,
        include: Serials::empty(alloc),
        exclude: Serials::empty(alloc),
        ignore: Serials::empty(alloc),
        mrs: Text::empty(alloc),
        comments: Text::empty(alloc),
        inserted: 0,
        deleted: 0,
        unchanged: 0,
    })
}

// what a delta line says behind its letter
fn delta(alloc: Global, bytes: &[u8]) -> Result<Option<LineToken>, Memory>
    ensures { IfOk result (λ o. o ≡ delta_token (words bytes.now)) }
{
    let Some(words) = delta_words(bytes) else {
        return Ok(None);
    };
    let Some(record) = record_of(alloc, &words) else {
        return Ok(None);
    };
    let row = BoxedRecord::new(alloc, record)?;
    Ok(Some(LineToken::Delta(row)))
}

// lines inserted, deleted and unchanged

#[tactic(auto, unfolding(crate::specs::Tokens::count_token))]
fn counts(bytes: &[u8]) -> Option<LineToken>
    ensures { result ≡ count_token (words bytes.now) }
{
    let word = one_word(bytes)?;
    let (inserted, deleted, unchanged) = three(5, b'/', word)?;
    Some(LineToken::Counts(inserted, deleted, unchanged))
}

// whether bytes end or go on with a blank
fn ends_or_blank(bytes: &[u8]) -> bool
    ensures { result ≡ (is_empty bytes.now || begins_blank bytes.now) }
{
    bytes.is_empty() || begins_blank(bytes)
}

// a text without the blanks around it
fn trimmed(alloc: Global, bytes: &[u8]) -> Result<Line, Memory>
    requires { HasNoLf bytes.now }
    ensures { IfOk result (λ line. line ≡ drop_blanks (skip_blanks bytes.now)) }
{
    line_of(alloc, drop_blanks(skip_blanks(bytes)))
}

// a flag's letter, and behind blanks its text without blanks at the end
fn flag(alloc: Global, bytes: &[u8]) -> Result<Option<LineToken>, Memory>
    requires { HasNoLf bytes.now }
    ensures { IfOk result (λ o. o ≡ flag bytes.now) }
{
    let [letter, rest @ ..] = bytes else {
        return Ok(None);
    };
    if !ends_or_blank(rest) {
        return Ok(None);
    }
    let text = trimmed(alloc, rest)?;
    Ok(Some(LineToken::FlagIs(Flag {
        letter: *letter,
        text,
    })))
}

// a list of one kind
#[inline(never)]
fn list(alloc: Global, which: ListKind, bytes: &[u8]) -> Result<Option<LineToken>, Memory>
    ensures { IfOk result (λ o. o ≡ option_map (LineToken.Listed which) (listed bytes.now)) }
{
    match listed(alloc, bytes)? {
        Some(serials) => Ok(Some(LineToken::Listed(which, serials))),
        None => Ok(None),
    }
}

// an MR or a comment
#[inline(never)]
fn mr(alloc: Global, bytes: &[u8]) -> Result<Option<LineToken>, Memory>
    requires { HasNoLf bytes.now }
    ensures { IfOk result (λ o. o ≡ option_map LineToken.Mr (text bytes.now)) }
{
    match text(alloc, bytes)? {
        Some(line) => Ok(Some(LineToken::Mr(line))),
        None => Ok(None),
    }
}

#[inline(never)]
fn comment(alloc: Global, bytes: &[u8]) -> Result<Option<LineToken>, Memory>
    requires { HasNoLf bytes.now }
    ensures { IfOk result (λ o. o ≡ option_map LineToken.Comment (text bytes.now)) }
{
    match text(alloc, bytes)? {
        Some(line) => Ok(Some(LineToken::Comment(line))),
        None => Ok(None),
    }
}

// a line that begins or ends a part
fn alone(bytes: &[u8], token: LineToken) -> Option<LineToken>
    ensures { result ≡ only (is_empty bytes.now) token }
{
    if bytes.is_empty() { Some(token) } else { None }
}

// whether all are values of digits
#[inline(always)]
fn are_digits(a: u32, b: u32, c: u32, d: u32, e: u32) -> bool
    ensures { IsTrue result → (a < 10) × (b < 10) × (c < 10) × (d < 10) × (e < 10) }
{
    (a < 10) & (b < 10) & (c < 10) & (d < 10) & (e < 10)
}

// the number of five digits, and the bytes behind them
#[inline(always)]
fn five_digits(bytes: &[u8]) -> Option<(u32, &[u8])>
    ensures { IfSome result (λ x. (x.0 < 100000) × (bytes.now ≡ five x.0 ++ x.1.now)) }
{
    let [a, b, c, d, e, rest @ ..] = bytes else {
        return None;
    };
    let (a, b, c, d, e) = (digit(*a), digit(*b), digit(*c), digit(*d), digit(*e));
    if are_digits(a, b, c, d, e) {
        Some((a * 10000 + b * 1000 + c * 100 + d * 10 + e, rest))
    } else {
        None
    }
}

// the bytes behind this one
#[inline(always)]
fn behind(wanted: u8, bytes: &[u8]) -> Option<&[u8]>
    ensures { IfSome result (λ rest. bytes.now ≡ wanted ∷ rest.now) }
{
    match bytes {
        [first, rest @ ..] if *first == wanted => Some(rest),
        _ => None,
    }
}

// the numbers of a statistics line as it is written, with five digits each
fn written_counts(bytes: &[u8]) -> Option<LineToken>
    ensures { IfSome result (λ token. Some token ≡ control 115 bytes.now) }
{
    let word = behind(b' ', bytes)?;
    let (inserted, rest) = five_digits(word)?;
    let (deleted, rest) = five_digits(behind(b'/', rest)?)?;
    let (unchanged, rest) = five_digits(behind(b'/', rest)?)?;
    if rest.is_empty() {
        Some(LineToken::Counts(inserted, deleted, unchanged))
    } else {
        None
    }
}

// what a statistics line says behind its letter, however it is spelled
#[inline(never)]
#[tactic(auto, unfolding(crate::specs::Tokens::control))]
fn any_counts(bytes: &[u8]) -> Option<LineToken>
    ensures { result ≡ control 115 bytes.now }
{
    if is_set_off(bytes) {
        counts(bytes)
    } else {
        None
    }
}

// what a statistics line says behind its letter; mostly it is as it is written
#[inline(never)]
fn counts_line(bytes: &[u8]) -> Option<LineToken>
    ensures { result ≡ control 115 bytes.now }
{
    if let Some(token) = written_counts(bytes) {
        return Some(token);
    }
    any_counts(bytes)
}

// what a delta line says
#[inline(never)]
#[tactic(auto, unfolding(crate::specs::Tokens::control))]
fn delta_line(alloc: Global, bytes: &[u8]) -> Result<Option<LineToken>, Memory>
    ensures { IfOk result (λ o. o ≡ control 100 bytes.now) }
{
    if begins_blank(bytes) {
        delta(alloc, bytes)
    } else {
        Ok(None)
    }
}

// what the line of a flag says
fn flag_line(alloc: Global, bytes: &[u8]) -> Result<Option<LineToken>, Memory>
    requires { HasNoLf bytes.now }
    ensures { IfOk result (λ o. o ≡ (if begins_blank bytes.now then flag (skip_blanks bytes.now) else None)) }
{
    if begins_blank(bytes) {
        flag(alloc, skip_blanks(bytes))
    } else {
        Ok(None)
    }
}

// what a control line of a body says
#[inline(never)]
fn body_line(letter: u8, bytes: &[u8]) -> Option<LineToken>
    ensures { result ≡ body_control letter bytes.now }
{
    match letter {
        b'I' => {
            let serial = serial_field(bytes)?;
            Some(LineToken::Insert(serial))
        }
        b'D' => {
            let serial = serial_field(bytes)?;
            Some(LineToken::Delete(serial))
        }
        b'E' => {
            let serial = serial_field(bytes)?;
            Some(LineToken::End(serial))
        }
        _ => None,
    }
}

// what a control line behind the delta table says
#[inline(never)]
fn part_line(alloc: Global, letter: u8, bytes: &[u8]) -> Result<Option<LineToken>, Memory>
    requires { HasNoLf bytes.now }
    ensures { IfOk result (λ o. o ≡ part_control letter bytes.now) }
{
    match letter {
        b'u' => Ok(alone(bytes, LineToken::Users)),
        b'U' => Ok(alone(bytes, LineToken::EndUsers)),
        b'f' => flag_line(alloc, bytes),
        b't' => Ok(alone(bytes, LineToken::Description)),
        b'T' => Ok(alone(bytes, LineToken::EndDescription)),
        _ => Ok(body_line(letter, bytes)),
    }
}

// what follows SOH and a letter
#[tactic(auto, unfolding(crate::specs::Tokens::control))]
fn control(alloc: Global, letter: u8, bytes: &[u8]) -> Result<Option<LineToken>, Memory>
    requires { HasNoLf bytes.now }
    ensures { IfOk result (λ o. o ≡ control letter bytes.now) }
{
    match letter {
        b's' => Ok(counts_line(bytes)),
        b'd' => delta_line(alloc, bytes),
        b'i' => list(alloc, ListKind::Included, bytes),
        b'x' => list(alloc, ListKind::Excluded, bytes),
        b'g' => list(alloc, ListKind::Ignored, bytes),
        b'm' => mr(alloc, bytes),
        b'c' => comment(alloc, bytes),
        b'e' => Ok(alone(bytes, LineToken::EndEntry)),
        _ => part_line(alloc, letter, bytes),
    }
}

// what a line that begins with SOH says
fn behind_soh(alloc: Global, bytes: &[u8]) -> Result<Option<LineToken>, Memory>
    requires { HasNoLf bytes.now }
    ensures { IfOk result (λ o. o ≡ behind_soh bytes.now) }
{
    match bytes {
        [letter, rest @ ..] => control(alloc, *letter, rest),
        [] => Ok(None),
    }
}

/// What a line says by itself; None where it has no spelling anywhere.
#[inline(never)]
#[tactic(auto, unfolding(crate::specs::Tokens::token))]
pub fn tokenize_line(alloc: Global, line: &[u8]) -> Result<Option<LineToken>, Memory>
    requires { HasNoLf line.now }
    ensures { IfOk result (λ o. o ≡ token line.now) }
{
    if let [1, rest @ ..] = line {
        return behind_soh(alloc, rest);
    }
    let text = line_of(alloc, line)?;
    Ok(Some(LineToken::Plain(text)))
}
