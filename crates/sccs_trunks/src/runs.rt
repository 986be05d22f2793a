ghost use Rattle.std.specs.Prelude.{◌≡◌, ◌++◌, ◌<◌, List, Ok, IfOk, OnOk, length, map, max, option_map};
ghost use Rattle.sccs_trunks.specs.Cells.{Cell, cells_of, expand, line_by};
ghost use Rattle.sccs_trunks.specs.Runs.{head_laid, left_laid, run_lines};
ghost use Rattle.sccs_trunks.specs.Changes.{Change};
ghost use Rattle.sccs_trunks.specs.TrunkHistories.{head_text, trunk_scripts};
ghost use Rattle.sccs_trunks.specs.Trunks.{trunk_lines};

use crate::joining::join_scripts;
use crate::lefts::Left;
use crate::pieces::Piece;
use crate::revisions::Revision;
use sccs_base::{Line, Memory};
use std::alloc::Global;

/// Lines of a trunk's history that stand together, with one inserter and one deleter, which is 0
/// where none deleted them.
#[derive(Clone, Copy, Drop)]
pub struct LineRun<'a> {
    pub inserter: u16,
    pub deleter: u16,
    pub lines: &'a [Line],
}

// Puts lines behind others, unless there are none. Those that were left open the first revision
// inserted.
#[tactic(auto, using(crate::proofs::RunLines::lines_push, crate::proofs::RunLines::lines_none))]
fn put_lines<'a>(
    runs: &mut Vec<LineRun<'a>>,
    inserter: u16,
    deleter: u16,
    lines: &'a [Line],
) -> Result<(), Memory>
    ensures { OnOk result (run_lines runs.new.items
        ≡ run_lines runs.old.items ++ map (line_by (max inserter 1) deleter) lines.now) }
{
    if lines.is_empty() {
        return Ok(());
    }
    runs.push(LineRun {
        inserter: inserter.max(1),
        deleter,
        lines,
    })?;
    Ok(())
}

// Puts the lines of a piece; what is left of the head behind them, or None where its lines ran out.
fn put_piece<'a>(
    runs: &mut Vec<LineRun<'a>>,
    piece: &Piece<'a>,
    head: &'a [Line],
) -> Result<Option<&'a [Line]>, Memory>
    ensures { IfOk result (λ left. (cells : List Cell)
        → run_lines runs.new.items ++ left_laid cells (option_map (λ l. l.now) left)
        ≡ run_lines runs.old.items ++ head_laid (expand piece.now ++ cells) head.now) }
{
    match *piece {
        Piece::Base { inserter, count } => {
            let (lines, behind) = head.split_at(head.len().min(count as usize));
            put_lines(runs, inserter, 0, lines)?;
            if (lines.len() as u64) < count {
                return Ok(None);
            }
            Ok(Some(behind))
        }
        Piece::New {
            deleter,
            inserter,
            lines,
        } => {
            put_lines(runs, inserter, deleter, lines)?;
            Ok(Some(head))
        }
    }
}

// the runs of pieces over the lines of a head
fn runs_of<'a>(
    alloc: Global,
    pieces: &[Piece<'a>],
    head: &'a [Line],
) -> Result<Vec<LineRun<'a>>, Memory>
    ensures { IfOk result (λ runs. run_lines runs.items ≡ head_laid (cells_of pieces.now) head.now) }
{
    let mut runs = Vec::new(alloc);
    let mut left = Left::new(pieces);
    let mut head = head;
    'pieces: while let Some(piece) = left.next() {
        let Some(behind) = put_piece(&mut runs, &piece, head)? else {
            return Ok(runs);
        };
        head = behind;
    }
    put_lines(&mut runs, 0, 0, head)?;
    Ok(runs)
}

/// The lines of a trunk's history in runs: those of the head and those that scripts add.
pub fn trunk_runs<'a>(alloc: Global, revisions: &'a [Revision]) -> Result<Vec<LineRun<'a>>, Memory>
    requires few { length revisions.now < 65536 }
    ensures { IfOk result (λ runs. (scripts : List (List Change)) → trunk_scripts revisions.now ≡ Ok scripts
        → run_lines runs.items ≡ trunk_lines (head_text revisions.now) scripts) }
{
    let Some((head, others)) = revisions.split_first() else {
        return Ok(Vec::new(alloc));
    };
    let pieces = join_scripts(alloc, others, 0)?;
    let runs = runs_of(alloc, pieces.as_slice(), head.text.items())?;
    Ok(runs)
}
