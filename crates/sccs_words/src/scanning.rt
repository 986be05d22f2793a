ghost use Rattle.std.specs.Prelude.{◌≡◌, ℕ, ◌+◌, ◌^◌, ◌<◌, ◌≤◌, List, [], None, length, drop, IfOk};
ghost use Rattle.sccs_words.specs.Synopsis.{find_option as find_option_spec};
ghost use Rattle.sccs_words.specs.Scan.{turn as turn_spec, letters as letters_spec, scanned, word_kind};
ghost use Rattle.sccs_words.specs.Scan.{in_word as in_word_spec, in_next as in_next_spec};
ghost use Rattle.sccs_words.specs.Scanned.{kind_view, line_view};

use crate::tables::OptionSpec;
use sccs_base::{Bytes, Memory};
use std::alloc::Global;

/// The argument of an option: no letter of this utility, no value, no value though it needs one, or the
/// value and the number of its word.
#[derive(Drop)]
pub enum OptionArgument {
    Unknown,
    Bare,
    Missing,
    Value(Bytes, u64),
}

/// A use of an option: its letter, the number of the word in which the letter stands, and its
/// argument.
#[derive(Drop)]
pub struct Use {
    pub letter: u8,
    pub word: u64,
    pub argument: OptionArgument,
}

/// What a letter was: an option after which the word goes on, the word's last, or one whose value
/// is the next word.
#[derive(Drop)]
pub enum Turn {
    On(Use),
    Last(Use),
    Wants(u8),
}

/// What a word is, where an option may stand.
pub enum WordKind<'a> {
    Letters(&'a [u8]),
    Ends,
    Operand,
}

/// The uses of options, and how many words stand before the operands.
#[derive(Drop)]
pub struct Scanned {
    pub uses: Vec<Use>,
    pub before: usize,
}

/// The option of a letter.
#[tactic(auto, unfolding(crate::specs::Synopsis::find_option))]
pub fn find_option(options: &[OptionSpec], letter: u8) -> Option<OptionSpec>
    ensures { result ≡ find_option_spec options.now letter }
{
    for option in options {
        let found = match option {
            OptionSpec::Plain(own) => *own,
            OptionSpec::Joined(own, _) => *own,
            OptionSpec::Valued(own, _) => *own,
            OptionSpec::Repeated(own, _) => *own,
        };
        if found == letter {
            return Some(*option);
        }
    }
    None
}

// a value in the rest of the word, or none
fn in_word(alloc: Global, number: u64, rest: &[u8]) -> Result<OptionArgument, Memory>
    ensures { IfOk result (λ argument. argument ≡ in_word_spec number rest.now) }
{
    if rest.is_empty() {
        return Ok(OptionArgument::Bare);
    }
    Ok(OptionArgument::Value(Bytes::new(alloc, rest)?, number))
}

// a value in the rest of the word, or in the next word
fn in_next(alloc: Global, letter: u8, number: u64, rest: &[u8]) -> Result<Turn, Memory>
    ensures { IfOk result (λ turn. turn ≡ in_next_spec letter number rest.now) }
{
    if rest.is_empty() {
        return Ok(Turn::Wants(letter));
    }
    let argument = OptionArgument::Value(Bytes::new(alloc, rest)?, number);
    Ok(Turn::Last(Use {
        letter,
        word: number,
        argument,
    }))
}

// what a letter of a word is, with the bytes after it
#[tactic(auto, unfolding(crate::specs::Scan::turn))]
fn turn_of(
    alloc: Global,
    options: &[OptionSpec],
    number: u64,
    letter: u8,
    rest: &[u8],
) -> Result<Turn, Memory>
    ensures { IfOk result (λ turn. turn ≡ turn_spec options.now number letter rest.now) }
{
    match find_option(options, letter) {
        None => Ok(Turn::On(Use {
            letter,
            word: number,
            argument: OptionArgument::Unknown,
        })),
        Some(OptionSpec::Plain(_)) => Ok(Turn::On(Use {
            letter,
            word: number,
            argument: OptionArgument::Bare,
        })),
        Some(OptionSpec::Joined(_, _)) => {
            let argument = in_word(alloc, number, rest)?;
            Ok(Turn::Last(Use {
                letter,
                word: number,
                argument,
            }))
        }
        Some(OptionSpec::Valued(_, _)) => in_next(alloc, letter, number, rest),
        Some(OptionSpec::Repeated(_, _)) => in_next(alloc, letter, number, rest),
    }
}

// the letters of a word; the last may wait for its value
#[tactic(auto, unfolding(crate::specs::Scan::letters))]
fn letters(
    alloc: Global,
    options: &[OptionSpec],
    number: u64,
    bytes: &[u8],
    uses: &mut Vec<Use>,
) -> Result<Option<u8>, Memory>
    ensures { IfOk result (λ wants.
        (uses.new.items, wants) ≡ letters_spec options.now number uses.old.items bytes.now) }
{
    let mut rest = bytes;
    'word: while let [letter, after @ ..] = rest {
        match turn_of(alloc, options, number, *letter, after)? {
            Turn::On(one) => uses.push(one)?,
            Turn::Last(one) => {
                uses.push(one)?;
                return Ok(None);
            }
            Turn::Wants(letter) => return Ok(Some(letter)),
        }
        rest = after;
    }
    Ok(None)
}

// what a word is, where an option may stand
fn word_kind(word: &[u8]) -> WordKind<'_>
    ensures { kind_view result ≡ word_kind word.now }
{
    match word {
        [b'-'] => WordKind::Operand,
        [b'-', b'-'] => WordKind::Ends,
        [b'-', bytes @ ..] => WordKind::Letters(bytes),
        _ => WordKind::Operand,
    }
}

/// Reads options and finds the operands: the words from a number on.
pub fn scan_words(
    alloc: Global,
    options: &[OptionSpec],
    number: u64,
    words: &[Bytes],
) -> Result<Scanned, Memory>
    requires low { 0 < number }
    requires high { number + length words.now < 2 ^ 63 }
    ensures within { IfOk result (λ s. s.before ≤ length words.now) }
    ensures value { IfOk result (λ s.
        line_view number words.now s ≡ scanned options.now number [] None words.now) }
{
    let mut uses = Vec::new(alloc);
    let mut waits = None;
    let mut i = 0;
    'words: while i < words.len() {
        let word = words[i].bytes();
        let here = number + i as u64;
        match waits {
            Some(letter) => {
                let value = Bytes::new(alloc, word)?;
                uses.push(Use {
                    letter,
                    word: here - 1,
                    argument: OptionArgument::Value(value, here),
                })?;
                waits = None;
            }
            None => match word_kind(word) {
                WordKind::Letters(bytes) => {
                    waits = letters(alloc, options, here, bytes, &mut uses)?;
                }
                WordKind::Ends => return Ok(Scanned {
                    uses,
                    before: i + 1,
                }),
                WordKind::Operand => return Ok(Scanned { uses, before: i }),
            },
        }
        i += 1;
    }
    match waits {
        None => {}
        Some(letter) => uses.push(Use {
            letter,
            word: number + i as u64 - 1,
            argument: OptionArgument::Missing,
        })?,
    }
    Ok(Scanned { uses, before: i })
}
