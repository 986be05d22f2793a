ghost use Rattle.std.specs.Prelude.{◌≡◌, [], ◌∷◌, ◌++◌, IfOk, OnOk};

use sccs_base::{Line, ListOf, Memory, Text};
use std::alloc::Global;

/// A copy of a line.
pub fn copy_line(alloc: Global, line: &Line) -> Result<Line, Memory>
    ensures { IfOk result (λ copy. copy ≡ line.now) }
{
    let Ok(copy) = Line::new(alloc, line.bytes()) else {
        return Err(Memory);
    };
    Ok(copy)
}

// a text of one line, with room for it alone
fn one_line(alloc: Global, line: Line) -> Result<Text, Memory>
    ensures { IfOk result (λ text. text ≡ line ∷ []) }
{
    let mut lines = Vec::with_capacity(alloc, 1)?;
    lines.push(line)?;
    Ok(ListOf::from_vec(lines))
}

/// Puts a line behind others. A first one takes no more room than it needs, since most texts of a script are of
/// one line.
pub fn push_line(alloc: Global, lines: &mut Text, line: Line) -> Result<(), Memory>
    ensures { OnOk result (lines.new ≡ lines.old ++ (line ∷ [])) }
{
    if lines.len() == 0 {
        *lines = one_line(alloc, line)?;
        return Ok(());
    }
    lines.push(line)
}

/// Puts a copy of a line behind others.
pub fn push_copy(alloc: Global, lines: &mut Text, line: &Line) -> Result<(), Memory>
    ensures { OnOk result (lines.new ≡ lines.old ++ (line.now ∷ [])) }
{
    let line = copy_line(alloc, line)?;
    push_line(alloc, lines, line)
}
