ghost use Rattle.std.specs.Prelude.{◌≡◌, IfOk};
ghost use Rattle.sccs_history.specs.History.{AreLines};
ghost use Rattle.sccs_records.specs.Texts.{some_lines};

use sccs_base::{Line, Memory, Text};
use std::alloc::Global;

/// A copy of lines.
pub fn copy_lines(alloc: Global, lines: &[Line]) -> Result<Text, Memory>
    ensures value { IfOk result (λ copy. copy ≡ lines.now) }
    ensures lines { IfOk result AreLines }
{
    let mut copy = Text::empty(alloc);
    for line in lines {
        let Ok(line) = Line::new(alloc, line.bytes()) else {
            return Err(Memory);
        };
        copy.push(line)?;
    }
    Ok(copy)
}

/// A copy of the lines of a comment, of which there is one at least.
pub fn some_lines(alloc: Global, lines: &[Line]) -> Result<Text, Memory>
    ensures value { IfOk result (λ text. text ≡ some_lines lines.now) }
    ensures lines { IfOk result AreLines }
{
    let mut copy = copy_lines(alloc, lines)?;
    if lines.is_empty() {
        let Ok(line) = Line::new(alloc, b"") else {
            return Err(Memory);
        };
        copy.push(line)?;
    }
    Ok(copy)
}
