ghost use Rattle.std.specs.Prelude.{◌≡◌, ◌<◌, ◌≤◌, ◌++◌, Ok, length, map, IfOk, OnOk};
ghost use Rattle.sccs_script_laws.specs.Scripts.{apply};
ghost use Rattle.sccs_script.specs.Checks.{checked_script};
ghost use Rattle.sccs_script.specs.Drafts.{content, expand, IsPiece, IsWithinBase};
ghost use Rattle.sccs_script.specs.declared.pieces.Piece.TheVariants as pieces;

use crate::copies::copy_line;
use crate::drafts::edited;
use crate::pieces::Piece;
use crate::reading::Script;
use sccs_base::{Memory, Text};
use std::alloc::Global;

// copies of the lines of a text from one number to another
fn copy_lines(
    alloc: Global,
    lines: &mut Text,
    text: &Text,
    first: u64,
    last: u64,
) -> Result<(), Memory>
    requires some { 0 < first }
    requires rising { first ≤ last }
    requires there { last ≤ length text.now }
    ensures { OnOk result (lines.new ≡ lines.old ++ map (content text.now) (expand (pieces.Kept first last))) }
{
    for place in first - 1..last {
        let line = copy_line(alloc, text.at(place))?;
        lines.push(line)?;
    }
    Ok(())
}

// the lines of a piece
fn add_piece(alloc: Global, lines: &mut Text, text: &Text, piece: Piece) -> Result<(), Memory>
    requires piece { IsPiece piece }
    requires within { IsWithinBase (length text.now) piece }
    ensures { OnOk result (lines.new ≡ lines.old ++ map (content text.now) (expand piece)) }
{
    match piece {
        Piece::Kept(first, last) => copy_lines(alloc, lines, text, first, last),
        Piece::Fresh(_, line) => lines.push(line),
    }
}

/// What a script that `check` accepts makes of a text: its commands are made in the order written,
/// each on the text that the one before left (POSIX ed).
pub fn apply(alloc: Global, script: &Script, text: &Text) -> Result<Text, Memory>
    requires { checked_script script.now (length text.now) ≡ Ok tt }
    ensures { IfOk result (λ t. t ≡ apply script.now text.now) }
{
    let mut pieces = edited(alloc, script.orders(), text.len())?;
    let mut lines = Text::empty(alloc);
    while let Some(piece) = pieces.pop() {
        add_piece(alloc, &mut lines, text, piece)?;
    }
    Ok(lines)
}
