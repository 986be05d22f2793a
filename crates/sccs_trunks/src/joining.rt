ghost use Rattle.std.specs.Prelude.{◌≡◌, ◌++◌, ◌+◌, ◌≤◌, ◌<◌, suc, None, List, IfOk, OnOk, length, replicate};
ghost use Rattle.sccs_history.specs.Body.{HistoryLine};
ghost use Rattle.sccs_trunks.specs.Cells.{Base, cells_of, expand, inserter_of, joined, laid};
ghost use Rattle.sccs_trunks.specs.Lefts.{left_cells, left_size};
ghost use Rattle.sccs_trunks.specs.Scripts.{laid_scripts, texts_of};

use crate::lefts::Left;
use crate::pieces::{Piece, base};
use crate::reading::script_pieces;
use crate::revisions::Revision;
use sccs_base::Memory;
use std::alloc::Global;

// Puts what a piece of lines that the later script passes makes of an open piece below it, as far as
// both go.
fn put_both<'a>(
    out: &mut Vec<Piece<'a>>,
    first: &mut Left<'_, 'a>,
    later: &mut Left<'_, 'a>,
    below: Piece<'a>,
    inserter: u16,
    count: u64,
) -> Result<(), Memory>
    requires opened { inserter_of below ≡ 0 }
    requires begun { first.old.begun ≡ None }
    requires later_begun { later.old.begun ≡ None }
    ensures joined { OnOk result (cells_of out.new.items ++ joined (left_cells later.new) (left_cells first.new)
        ≡ cells_of out.old.items
        ++ joined (replicate count (Base inserter) ++ left_cells later.old)
        (expand below.entry ++ left_cells first.old)) }
    ensures fewer { OnOk result
        (left_size first.new + left_size later.new ≤ suc (left_size first.old + left_size later.old)) }
{
    let both = below.count().min(count);
    let (front, rest) = below.split(both);
    out.push(front.begun(inserter))?;
    first.put_rest(rest);
    later.put_rest(base(inserter, count - both));
    Ok(())
}

// Puts what a piece of the later script makes of what is below it.
#[tactic(auto, using(crate::proofs::PieceCells::cells_push))]
fn put_next<'a>(
    out: &mut Vec<Piece<'a>>,
    first: &mut Left<'_, 'a>,
    later: &mut Left<'_, 'a>,
    piece: Piece<'a>,
) -> Result<(), Memory>
    requires { later.old.begun ≡ None }
    ensures joined { OnOk result (cells_of out.new.items ++ joined (left_cells later.new) (left_cells first.new)
        ≡ cells_of out.old.items ++ joined (expand piece.entry ++ left_cells later.old) (left_cells first.old)) }
    ensures fewer { OnOk result
        (left_size first.new + left_size later.new ≤ left_size first.old + left_size later.old) }
{
    let Piece::Base { inserter, count } = piece else {
        out.push(piece)?;
        return Ok(());
    };
    if count == 0 {
        return Ok(());
    }
    let Some(below) = first.next() else {
        out.push(piece)?;
        return Ok(());
    };
    if below.inserter() == 0 {
        return put_both(out, first, later, below, inserter, count);
    }
    out.push(below)?;
    later.put_back(piece);
    Ok(())
}

// two scripts in a row as one
fn join<'a>(
    alloc: Global,
    first: &[Piece<'a>],
    later: &[Piece<'a>],
) -> Result<Vec<Piece<'a>>, Memory>
    ensures { IfOk result (λ out. cells_of out.items ≡ joined (cells_of later.now) (cells_of first.now)) }
{
    let mut out = Vec::new(alloc);
    let mut below = Left::new(first);
    let mut above = Left::new(later);
    'pieces: while let Some(piece) = above.next() {
        put_next(&mut out, &mut below, &mut above, piece)?;
    }
    'rest: while let Some(piece) = below.next() {
        out.push(piece)?;
    }
    Ok(out)
}

/// The pieces of the scripts of revisions, made one after the other, where `below` more revisions
/// come after them. Each piece is joined as often as the number of revisions has binary digits.
pub fn join_scripts<'a>(
    alloc: Global,
    revisions: &'a [Revision],
    below: u64,
) -> Result<Vec<Piece<'a>>, Memory>
    requires { below + length revisions.now < 65535 }
    ensures { IfOk result (λ pieces. (lines : List HistoryLine)
        → laid (cells_of pieces.items) lines ≡ laid_scripts below (texts_of revisions.now) lines) }
{
    match revisions {
        [] => Ok(Vec::new(alloc)),
        [revision] => script_pieces(alloc, revision.text.items(), (below + 2) as u16),
        _ => {
            let (newer, older) = revisions.split_at(revisions.len() / 2);
            let first = join_scripts(alloc, newer, below + older.len() as u64)?;
            let later = join_scripts(alloc, older, below)?;
            let pieces = join(alloc, first.as_slice(), later.as_slice())?;
            Ok(pieces)
        }
    }
}
