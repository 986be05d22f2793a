ghost use Rattle.std.specs.Prelude.{◌≡◌, ◌++◌, ◌≤◌, Some, OnOk, IfOk, length};
ghost use Rattle.sccs_trunks.specs.Cells.{cells_of, expand};
ghost use Rattle.sccs_trunks.specs.Changes.{IsShort};
ghost use Rattle.sccs_trunks.specs.Scripts.{cells_from, command_cells, script_cells};

use crate::commands::command_of;
use crate::pieces::{Piece, base};
use crate::revisions::ScriptCommand;
use sccs_base::{Line, Memory};
use std::alloc::Global;

// puts a piece behind others, unless it has no line
#[tactic(auto, using(crate::proofs::PieceCells::cells_push, crate::proofs::PieceCells::cells_none))]
fn put<'a>(pieces: &mut Vec<Piece<'a>>, piece: Piece<'a>) -> Result<(), Memory>
    ensures { OnOk result (cells_of pieces.new.items ≡ cells_of pieces.old.items ++ expand piece.entry) }
{
    if piece.count() == 0 {
        return Ok(());
    }
    pieces.push(piece)?;
    Ok(())
}

// Where a command leaves the reading of a script: the last line of the text that is behind, and the
// lines of the script that are left.
#[derive(Clone, Copy)]
struct Behind<'a> {
    last: u64,
    rest: &'a [Line],
}

// Puts the pieces of a command, and of the lines that it adds, which stand first in the rest of the
// script.
fn put_command<'a>(
    pieces: &mut Vec<Piece<'a>>,
    command: &ScriptCommand,
    serial: u16,
    last: u64,
    rest: &'a [Line],
) -> Result<Behind<'a>, Memory>
    requires { IsShort command.now }
    ensures shorter { IfOk result (λ behind. length behind.rest.now ≤ length rest.now) }
    ensures cells { IfOk result (λ behind. cells_of pieces.new.items ++ cells_from serial behind.last 0 behind.rest.now
        ≡ cells_of pieces.old.items
        ++ command_cells serial last (Some command.now) (λ last taken. cells_from serial last taken rest.now)) }
{
    match *command {
        ScriptCommand::Delete { line, count } => {
            put(pieces, base(0, line.saturating_sub(1).saturating_sub(last)))?;
            put(pieces, base(serial, count))?;
            Ok(Behind {
                last: (line + count).saturating_sub(1),
                rest,
            })
        }
        ScriptCommand::Add { line, count } => {
            put(pieces, base(0, line.saturating_sub(last)))?;
            let (lines, behind) = rest.split_at(rest.len().min(count as usize));
            put(
                pieces,
                Piece::New {
                    deleter: serial,
                    inserter: 0,
                    lines,
                },
            )?;
            Ok(Behind {
                last: line,
                rest: behind,
            })
        }
    }
}

/// The pieces of a serial's script.
pub fn script_pieces<'a>(
    alloc: Global,
    script: &'a [Line],
    serial: u16,
) -> Result<Vec<Piece<'a>>, Memory>
    ensures { IfOk result (λ pieces. cells_of pieces.items ≡ script_cells serial script.now) }
{
    let mut pieces = Vec::new(alloc);
    let mut rest = script;
    let mut last = 0;
    'lines: while let Some((line, behind)) = rest.split_first() {
        rest = behind;
        if let Some(command) = command_of(line.bytes()) {
            let at = put_command(&mut pieces, &command, serial, last, rest)?;
            last = at.last;
            rest = at.rest;
        }
    }
    Ok(pieces)
}
