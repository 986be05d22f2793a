ghost use Rattle.std.specs.Prelude.{◌≡◌, ◌-◌, ◌∷◌, ◌++◌, drop, map, take, IfOk};
ghost use Rattle.std.specs.List.{AllByRecursion};
ghost use Rattle.sccs_script.specs.Drafts.{anchor, draft_base, edit, edited_draft, Fresh, IsPiece, IsWithinBase};
ghost use Rattle.sccs_script.specs.Drafts.{unstacked};

use crate::copies::copy_line;
use crate::pieces::Piece;
use crate::trees::{Halves, Tree, anchor, append, join, split, unload};
use sccs_base::{Line, Memory, Text};
use sccs_script_laws::{Order, OrderKind};
use std::alloc::Global;

// a base of so many lines
fn base(alloc: Global, lines: u64) -> Result<Tree, Memory>
    ensures { IfOk result (λ t. t ≡ draft_base lines) }
{
    if lines == 0 {
        return Ok(Tree::empty());
    }
    join(alloc, Tree::empty(), Piece::Kept(1, lines), Tree::empty())
}

// a new line between two texts, behind a base line
fn put_line(alloc: Global, front: Tree, after: u64, line: &Line, back: Tree) -> Result<Tree, Memory>
    ensures { IfOk result (λ t. t ≡ front ++ (Fresh after line.now ∷ back)) }
{
    let line = copy_line(alloc, line)?;
    join(alloc, front, Piece::Fresh(after, line), back)
}

// with new lines at the end, all of which follow one base line
fn add_lines(alloc: Global, tree: Tree, after: u64, lines: &[Line]) -> Result<Tree, Memory>
    ensures { IfOk result (λ t. t ≡ tree ++ map (Fresh after) lines.now) }
{
    let mut tree = tree;
    for line in lines {
        tree = put_line(alloc, tree, after, line, Tree::empty())?;
    }
    Ok(tree)
}

// new lines between two halves
fn put_between(alloc: Global, halves: Halves, lines: &Text) -> Result<Tree, Memory>
    ensures { IfOk result (λ t. t ≡ halves.front ++ (map (Fresh (anchor halves.front)) lines.now ++ halves.back)) }
{
    let Halves { front, back } = halves;
    let Some((last, others)) = lines.items().split_last() else {
        return append(alloc, front, back);
    };
    let after = anchor(&front, 0);
    let front = add_lines(alloc, front, after, others)?;
    put_line(alloc, front, after, last, back)
}

// the lines behind a place
fn behind(alloc: Global, tree: Tree, place: u64) -> Result<Tree, Memory>
    ensures { IfOk result (λ t. t ≡ drop place tree) }
{
    let Halves { front: _, back } = split(alloc, tree, place)?;
    Ok(back)
}

// the lines before the one with the first number, and those behind the one with the last
fn cut(alloc: Global, tree: Tree, first: u32, last: u32) -> Result<Halves, Memory>
    ensures front { IfOk result (λ h. h.front ≡ take (first - 1) tree) }
    ensures back { IfOk result (λ h. h.back ≡ drop (last - (first - 1)) (drop (first - 1) tree)) }
{
    let before = u64::from(first).saturating_sub(1);
    let Halves { front, back: rest } = split(alloc, tree, before)?;
    let back = behind(alloc, rest, u64::from(last).saturating_sub(before))?;
    Ok(Halves { front, back })
}

// the text behind an order
fn edit(alloc: Global, tree: Tree, order: &Order) -> Result<Tree, Memory>
    ensures { IfOk result (λ t. t ≡ edit order.now.kind order.now.first order.now.last order.now.lines tree) }
{
    match order.kind {
        OrderKind::Append => {
            let halves = split(alloc, tree, u64::from(order.first))?;
            put_between(alloc, halves, &order.lines)
        }
        OrderKind::Delete => {
            let Halves { front, back } = cut(alloc, tree, order.first, order.last)?;
            append(alloc, front, back)
        }
        OrderKind::Change => {
            let halves = cut(alloc, tree, order.first, order.last)?;
            put_between(alloc, halves, &order.lines)
        }
    }
}

/// What stands in a base of so many lines behind orders: a stack of pieces, whose last comes first.
pub fn edited(alloc: Global, orders: &[Order], lines: u64) -> Result<Vec<Piece>, Memory>
    ensures pieces { IfOk result (λ p. AllByRecursion IsPiece p.items) }
    ensures within { IfOk result (λ p. AllByRecursion (IsWithinBase lines) p.items) }
    ensures edited { IfOk result (λ p. unstacked p.items ≡ edited_draft orders.now (draft_base lines)) }
{
    let mut tree = base(alloc, lines)?;
    for order in orders {
        tree = edit(alloc, tree, order)?;
    }
    let mut pieces = Vec::new(alloc);
    unload(tree, &mut pieces)?;
    Ok(pieces)
}
