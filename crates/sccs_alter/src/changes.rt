ghost use Rattle.std.specs.Prelude.{◌≡◌, [], ◌∷◌, ◌++◌, IfOk, OnOk};
ghost use Rattle.sccs_history.specs.History.{AreLines};

use sccs_base::{Bytes, Line, Memory, Text};
use std::alloc::Global;

/// What is changed of a delta: words on MRs, `!` before one that is taken away, and the lines of a comment that come
/// before the old ones, none where no comment is given.
#[derive(Drop)]
pub struct TextChanges {
    pub mrs: Text,
    pub comment: Text,
}

/// Puts a line of these bytes at the end of a text.
pub fn push_line(alloc: Global, text: &mut Text, bytes: &[u8]) -> Result<(), Memory>
    ensures { OnOk result (text.new ≡ text.old ++ bytes.now ∷ []) }
{
    let Ok(line) = Line::new(alloc, bytes) else {
        return Err(Memory);
    };
    text.push(line)
}

/// Words, each a line.
pub fn word_lines(alloc: Global, words: &[Bytes]) -> Result<Text, Memory>
    ensures value { IfOk result (λ text. text ≡ words.now) }
    ensures lines { IfOk result AreLines }
{
    let mut text = Text::empty(alloc);
    for word in words {
        let Ok(line) = Line::new(alloc, word.bytes()) else {
            return Err(Memory);
        };
        text.push(line)?;
    }
    Ok(text)
}
