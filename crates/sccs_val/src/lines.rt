ghost use Rattle.std.specs.Prelude.{◌≡◌, ◌∷◌, ◌++◌, codes, IfOk, OnOk};
ghost use Rattle.sccs_sid.specs.Words.{words};
ghost use Rattle.sccs_val.specs.Reports.{line_words};

use sccs_base::{Bytes, Memory, Words};
use sccs_sid::words::first_word;
use sccs_words::{Command, ValWords, read_words};
use std::alloc::Global;

// adds the words of a line to others
fn add_words(alloc: Global, line: &[u8], all: &mut Words) -> Result<(), Memory>
    ensures { OnOk result (all.new ≡ all.old ++ words line.now) }
{
    let mut rest = line;
    'words: while let Some((word, behind)) = first_word(rest) {
        all.push(Bytes::new(alloc, word)?)?;
        rest = behind;
    }
    Ok(())
}

// the words of a line, behind that of the utility
fn command_words(alloc: Global, line: &[u8]) -> Result<Words, Memory>
    ensures { IfOk result (λ all. all ≡ codes "val" ∷ words line.now) }
{
    let mut all = Words::new(alloc);
    all.push(Bytes::new(alloc, b"val")?)?;
    add_words(alloc, line, &mut all)?;
    Ok(all)
}

/// The words of val that a line of the input is.
pub fn line_words(alloc: Global, line: &[u8]) -> Result<ValWords, Memory>
    ensures { IfOk result (λ w. w ≡ line_words line.now) }
{
    let all = command_words(alloc, line)?;
    match read_words(alloc, &all) {
        Ok(Command::Val(words)) => Ok(words),
        _ => Err(Memory),
    }
}
