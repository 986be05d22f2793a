ghost use Rattle.std.specs.Prelude.{◌≡◌, ◌≤◌, ◌<◌, ◌+◌, ◌∷◌, length, IfOk};
ghost use Rattle.sccs_prs.specs.DataKeywords.{behind_backslash, behind_colon, found_part, keyed, of_two, data_parts};
ghost use Rattle.sccs_prs.specs.DataKeywords.{plain_byte};

use crate::keywords::{Part, keyword_of};
use sccs_base::{ListOf, Memory};
use std::alloc::Global;

/// The parts of a data specification.
pub type Parts = ListOf<Part>;

/// A part at the front of bytes, and how many of its bytes stand behind its first.
#[derive(Clone, Copy)]
pub struct FoundPart {
    pub part: Part,
    pub behind: usize,
}

// a byte that stands for itself
fn plain(byte: u8) -> FoundPart
    ensures { result ≡ plain_byte byte }
{
    FoundPart {
        part: Part::Plain(byte),
        behind: 0,
    }
}

// what a keyword stands for, or the colon itself
fn keyed(keyword: Option<Part>, behind: usize) -> FoundPart
    ensures value { result ≡ keyed keyword behind }
    ensures fits { result.behind ≤ behind }
{
    match keyword {
        Some(part) => FoundPart { part, behind },
        None => plain(b':'),
    }
}

// what two bytes behind a colon are the name of, where a colon ends it
fn of_two(first: u8, second: u8, bytes: &[u8]) -> FoundPart
    ensures value { result ≡ of_two first second bytes.now }
    ensures fits { result.behind ≤ length bytes.now + 2 }
{
    match bytes {
        [b':', ..] => keyed(keyword_of(first, second), 3),
        _ => plain(b':'),
    }
}

// what stands behind a colon
fn behind_colon(bytes: &[u8]) -> FoundPart
    ensures value { result ≡ behind_colon bytes.now }
    ensures fits { result.behind ≤ length bytes.now }
{
    match bytes {
        [first, b':', ..] => keyed(keyword_of(*first, b':'), 2),
        [first, second, rest @ ..] => of_two(*first, *second, rest),
        _ => plain(b':'),
    }
}

// what stands behind a backslash
fn behind_backslash(bytes: &[u8]) -> FoundPart
    ensures value { result ≡ behind_backslash bytes.now }
    ensures fits { result.behind ≤ length bytes.now }
{
    match bytes {
        [b't', ..] => FoundPart {
            part: Part::Plain(b'\t'),
            behind: 1,
        },
        [b'n', ..] => FoundPart {
            part: Part::Plain(b'\n'),
            behind: 1,
        },
        _ => plain(b'\\'),
    }
}

// the part that begins with a byte
fn found_part(byte: u8, bytes: &[u8]) -> FoundPart
    ensures value { result ≡ found_part byte bytes.now }
    ensures fits { result.behind ≤ length bytes.now }
{
    if byte == b':' {
        behind_colon(bytes)
    } else if byte == b'\\' {
        behind_backslash(bytes)
    } else {
        plain(byte)
    }
}

/// The parts of a data specification: POSIX prs, -d. What is no keyword stands for itself, but for `\t` and
/// `\n`, which are tab and LF.
pub fn read_parts(alloc: Global, spec: &[u8]) -> Result<Parts, Memory>
    ensures { IfOk result (λ read. read ≡ data_parts spec.now) }
{
    let mut read = Vec::new(alloc);
    let mut from = 0;
    'parts: while from < spec.len() {
        let found = found_part(spec[from], &spec[from + 1..]);
        read.push(found.part)?;
        from += 1 + found.behind;
    }
    Ok(ListOf::from_vec(read))
}
