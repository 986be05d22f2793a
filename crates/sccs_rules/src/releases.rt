ghost use Rattle.std.specs.Prelude.{◌≡◌, [], ◌∷◌, ◌++◌, IfOk, OnOk, drop, flat_map};
ghost use Rattle.std.specs.List.{list_any};
ghost use Rattle.sccs_rules.specs.Unlocked.{behind_comma, is_among, left_of, release_in, releases_in, releases_of};
ghost use Rattle.sccs_rules.specs.Unlocked.{without_releases};

use itoa::Buffer;
use sccs_base::{Line, Memory};
use sccs_sid::reading::{cut_at, number};
use sccs_sid::words::first_word;
use std::alloc::Global;

// the number that a word is
fn release_in(word: &[u8]) -> u32
    ensures { result ≡ release_in word.now }
{
    match number(4, word) {
        Some(number) => number,
        None => 0,
    }
}

// puts the numbers of the words of a piece behind others
fn push_releases(releases: &mut Vec<u32>, piece: &[u8]) -> Result<(), Memory>
    ensures { OnOk result (releases.new.items ≡ releases.old.items ++ releases_in piece.now) }
{
    let mut rest = piece;
    'words: while let Some((word, behind)) = first_word(rest) {
        releases.push(release_in(word))?;
        rest = behind;
    }
    Ok(())
}

// the releases of a text
fn releases_of(alloc: Global, text: &[u8]) -> Result<Vec<u32>, Memory>
    ensures { IfOk result (λ releases. releases.items ≡ releases_of text.now) }
{
    let mut releases = Vec::new(alloc);
    let mut rest = text;
    'pieces: loop {
        let (piece, behind) = cut_at(b',', rest);
        push_releases(&mut releases, piece)?;
        match behind {
            Some(more) => rest = more,
            None => return Ok(releases),
        }
    }
}

// whether a release is one of these
fn is_among(releases: &[u32], release: u32) -> bool
    ensures { result ≡ is_among releases.now release }
{
    releases.iter().any(|other| *other == release)
}

// whether some of these releases are among others
fn share(releases: &[u32], others: &[u32]) -> bool
    ensures { result ≡ list_any (is_among others.now) releases.now }
{
    releases.iter().any(|release| is_among(others, *release))
}

// puts a release with a comma before it behind a text
fn push_behind_comma(text: &mut Vec<u8>, release: u32) -> Result<(), Memory>
    ensures { OnOk result (text.new.items ≡ text.old.items ++ behind_comma release) }
{
    let mut digits = Buffer::new();
    text.push(b',')?;
    text.extend_from_slice(digits.format(release).as_bytes())?;
    Ok(())
}

// puts a release behind a text, unless it is among others
fn push_unless_among(text: &mut Vec<u8>, others: &[u32], release: u32) -> Result<(), Memory>
    ensures { OnOk result (text.new.items ≡ text.old.items ++ flat_map behind_comma
        (left_of others.now (release ∷ []))) }
{
    if is_among(others, release) {
        return Ok(());
    }
    push_behind_comma(text, release)
}

// the releases that are not among others, each with a comma before it
fn left_text(alloc: Global, others: &[u32], releases: &[u32]) -> Result<Vec<u8>, Memory>
    ensures { IfOk result (λ text. text.items ≡ flat_map behind_comma (left_of others.now releases.now)) }
{
    let mut text = Vec::new(alloc);
    for release in releases {
        push_unless_among(&mut text, others, *release)?;
    }
    Ok(text)
}

// a text without its first byte
fn without_first(text: &[u8]) -> &[u8]
    ensures { result.now ≡ drop 1 text.now }
{
    match text {
        [] => text,
        [_, rest @ ..] => rest,
    }
}

// a line of bytes
fn line_of(alloc: Global, bytes: &[u8]) -> Result<Line, Memory>
    ensures { IfOk result (λ line. line ≡ bytes.now) }
{
    match Line::new(alloc, bytes) {
        Ok(line) => Ok(line),
        Err(_) => Err(Memory),
    }
}

/// The text of flag l without the releases of another text: where it has none of them as it is, else the
/// others with a comma between two.
pub fn unlocked(alloc: Global, others: &[u8], text: &[u8]) -> Result<Line, Memory>
    ensures { IfOk result (λ line. line ≡ without_releases others.now text.now) }
{
    let releases = releases_of(alloc, text)?;
    let others = releases_of(alloc, others)?;
    if !share(releases.as_slice(), others.as_slice()) {
        return line_of(alloc, text);
    }
    let left = left_text(alloc, others.as_slice(), releases.as_slice())?;
    line_of(alloc, without_first(left.as_slice()))
}
