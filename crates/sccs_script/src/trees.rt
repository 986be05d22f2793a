ghost use Rattle.std.specs.Prelude.{◌≡◌, ◌+◌, ◌<◌, ◌++◌, [], drop, length, take, IfOk, IfSome, MatchOption, OnOk};
ghost use Rattle.std.specs.List.{AllByRecursion};
ghost use Rattle.sccs_script.specs.Drafts.{anchor_from, expand, IsPiece, unstacked};

use crate::pieces::{Piece, count, cut_piece, end};
use sccs_base::Memory;
use std::alloc::Global;
use std::marker::Model;

/// A text in pieces while orders are made on it: a search tree by the numbers of its lines, balanced
/// by the heights of its sides (Adelson-Velsky and Landis). Contracts see its entries in order. A call
/// that joins, cuts or looks up costs about the tree's height, which no contract speaks of.
#[cycle(tree)]
#[derive(Drop)]
pub struct Tree {
    node: Node,
}

#[cycle(tree)]
#[derive(Drop)]
enum Node {
    Leaf,
    Fork(Box<Fork>),
}

// a piece between the two sides of a tree
#[cycle(tree)]
#[derive(Drop)]
struct Fork {
    left: Tree,
    piece: Piece,
    right: Tree,
    // how many lines the tree has
    lines: u64,
    height: u32,
}

impl Model for Tree {
    ghost use Rattle.std.specs.Prelude.{List, length};
    ghost use Rattle.sccs_script.specs.Drafts.{DraftLine};

    ghost Value = { List DraftLine };

    ghost use Rattle.sccs_script.specs.Trees.{tree_lines, IsTree};

    ghost view = { λ t. tree_lines t.node };

    ghost invariant = { λ t. IsTree t.node };

    ghost size = { length };

    ghost use Rattle.sccs_script.specs.TreeFalls.{sides_fall};

    ghost size_decreases = { λ t h. sides_fall t.node h };
}

/// A tree in two.
#[derive(Drop)]
pub struct Halves {
    pub front: Tree,
    pub back: Tree,
}

/// The first piece of a tree, and what stands behind it.
#[derive(Drop)]
pub struct First {
    pub piece: Piece,
    pub rest: Tree,
}

// the sum of three numbers, where it is below 2^64
fn total(a: u64, b: u64, c: u64) -> Option<u64>
    ensures { IfSome result (λ sum. sum ≡ a + b + c) }
{
    a.checked_add(b)?.checked_add(c)
}

// how much higher one side may be than the other
const LEAN: u32 = 2;

// whether one side is too high beside another
fn outgrows(high: u32, low: u32) -> bool {
    high > low.saturating_add(LEAN)
}

impl Tree {
    /// No lines.
    pub fn empty() -> Tree
        ensures { result ≡ [] }
    {
        Tree { node: Node::Leaf }
    }

    fn height(&self) -> u32 {
        match &self.node {
            Node::Leaf => 0,
            Node::Fork(fork) => fork.height,
        }
    }

    /// How many lines there are.
    pub fn lines(&self) -> u64
        ensures { result ≡ length self.now }
    {
        match &self.node {
            Node::Leaf => 0,
            Node::Fork(fork) => fork.lines,
        }
    }
}

// a tree of two sides and the piece between them, as they are. More lines than a number of 64 bits
// counts would not have fit into memory.
fn fork_of(alloc: Global, left: Tree, piece: Piece, right: Tree) -> Result<Tree, Memory>
    requires { IsPiece piece }
    ensures { IfOk result (λ t. t ≡ left ++ (expand piece ++ right)) }
{
    let Some(lines) = total(left.lines(), count(&piece), right.lines()) else {
        return Err(Memory);
    };
    let height = left.height().max(right.height()).saturating_add(1);
    let fork = Box::new(
        alloc,
        Fork {
            left,
            piece,
            right,
            lines,
            height,
        },
    )?;
    Ok(Tree {
        node: Node::Fork(fork),
    })
}

// a tree of three and the pieces between them; the one in the middle is shared out
fn share(
    alloc: Global,
    left: Tree,
    first: Piece,
    middle: Tree,
    last: Piece,
    right: Tree,
) -> Result<Tree, Memory>
    requires { IsPiece first × IsPiece last }
    ensures { IfOk result (λ t. t ≡ left ++ (expand first ++ (middle ++ (expand last ++ right)))) }
{
    match middle.node {
        Node::Leaf => {
            let back = fork_of(alloc, Tree::empty(), last, right)?;
            fork_of(alloc, left, first, back)
        }
        Node::Fork(between) => {
            let Fork {
                left: low,
                piece,
                right: high,
                ..
            } = Box::into_inner(between);
            let front = fork_of(alloc, left, first, low)?;
            let back = fork_of(alloc, high, last, right)?;
            fork_of(alloc, front, piece, back)
        }
    }
}

// a tree of three and the pieces between them, where the outer ones may be too high
fn regroup(
    alloc: Global,
    left: Tree,
    first: Piece,
    middle: Tree,
    last: Piece,
    right: Tree,
) -> Result<Tree, Memory>
    requires { IsPiece first × IsPiece last }
    ensures { IfOk result (λ t. t ≡ left ++ (expand first ++ (middle ++ (expand last ++ right)))) }
{
    if left.height().max(right.height()) < middle.height() {
        share(alloc, left, first, middle, last, right)
    } else if right.height() < left.height() {
        let back = fork_of(alloc, middle, last, right)?;
        fork_of(alloc, left, first, back)
    } else {
        let front = fork_of(alloc, left, first, middle)?;
        fork_of(alloc, front, last, right)
    }
}

// a tree whose left side is too high
fn lean_left(alloc: Global, left: Tree, piece: Piece, right: Tree) -> Result<Tree, Memory>
    requires { IsPiece piece }
    ensures { IfOk result (λ t. t ≡ left ++ (expand piece ++ right)) }
{
    match left.node {
        Node::Leaf => fork_of(alloc, left, piece, right),
        Node::Fork(side) => {
            let side = Box::into_inner(side);
            regroup(alloc, side.left, side.piece, side.right, piece, right)
        }
    }
}

// a tree whose right side is too high
fn lean_right(alloc: Global, left: Tree, piece: Piece, right: Tree) -> Result<Tree, Memory>
    requires { IsPiece piece }
    ensures { IfOk result (λ t. t ≡ left ++ (expand piece ++ right)) }
{
    match right.node {
        Node::Leaf => fork_of(alloc, left, piece, right),
        Node::Fork(side) => {
            let side = Box::into_inner(side);
            regroup(alloc, left, piece, side.left, side.piece, side.right)
        }
    }
}

// a tree of two sides, of which one may be a little too high
fn balance(alloc: Global, left: Tree, piece: Piece, right: Tree) -> Result<Tree, Memory>
    requires { IsPiece piece }
    ensures { IfOk result (λ t. t ≡ left ++ (expand piece ++ right)) }
{
    if outgrows(left.height(), right.height()) {
        lean_left(alloc, left, piece, right)
    } else if outgrows(right.height(), left.height()) {
        lean_right(alloc, left, piece, right)
    } else {
        fork_of(alloc, left, piece, right)
    }
}

// a tree of two sides, of which the left one may be higher: the piece goes down into it
fn join_left(alloc: Global, left: Tree, piece: Piece, right: Tree) -> Result<Tree, Memory>
    requires { IsPiece piece }
    ensures { IfOk result (λ t. t ≡ left ++ (expand piece ++ right)) }
{
    if !outgrows(left.height(), right.height()) {
        return fork_of(alloc, left, piece, right);
    }
    match left.node {
        Node::Leaf => fork_of(alloc, Tree::empty(), piece, right),
        Node::Fork(side) => {
            let Fork {
                left: low,
                piece: first,
                right: high,
                ..
            } = Box::into_inner(side);
            let back = join_left(alloc, high, piece, right)?;
            balance(alloc, low, first, back)
        }
    }
}

// a tree of two sides, of which the right one may be higher: the piece goes down into it
fn join_right(alloc: Global, left: Tree, piece: Piece, right: Tree) -> Result<Tree, Memory>
    requires { IsPiece piece }
    ensures { IfOk result (λ t. t ≡ left ++ (expand piece ++ right)) }
{
    if !outgrows(right.height(), left.height()) {
        return fork_of(alloc, left, piece, right);
    }
    match right.node {
        Node::Leaf => fork_of(alloc, left, piece, Tree::empty()),
        Node::Fork(side) => {
            let Fork {
                left: low,
                piece: last,
                right: high,
                ..
            } = Box::into_inner(side);
            let front = join_right(alloc, left, piece, low)?;
            balance(alloc, front, last, high)
        }
    }
}

/// A tree with a piece between two others.
pub fn join(alloc: Global, left: Tree, piece: Piece, right: Tree) -> Result<Tree, Memory>
    requires { IsPiece piece }
    ensures { IfOk result (λ t. t ≡ left ++ (expand piece ++ right)) }
{
    if left.height() < right.height() {
        join_right(alloc, left, piece, right)
    } else {
        join_left(alloc, left, piece, right)
    }
}

// the first piece, where there is one
fn take_first(alloc: Global, tree: Tree) -> Result<Option<First>, Memory>
    ensures { IfOk result (λ o. MatchOption o (tree ≡ []) (λ f. IsPiece f.piece × (tree ≡ expand f.piece ++ f.rest))) }
{
    match tree.node {
        Node::Leaf => Ok(None),
        Node::Fork(fork) => {
            let Fork {
                left,
                piece,
                right,
                ..
            } = Box::into_inner(fork);
            match take_first(alloc, left)? {
                Some(First { piece: first, rest }) => {
                    let rest = balance(alloc, rest, piece, right)?;
                    Ok(Some(First { piece: first, rest }))
                }
                None => Ok(Some(First { piece, rest: right })),
            }
        }
    }
}

/// A tree behind another.
pub fn append(alloc: Global, left: Tree, right: Tree) -> Result<Tree, Memory>
    ensures { IfOk result (λ t. t ≡ left ++ right) }
{
    match take_first(alloc, right)? {
        Some(First { piece, rest }) => join(alloc, left, piece, rest),
        None => Ok(left),
    }
}

// a piece between two sides in two, behind so many of its lines
fn split_piece(
    alloc: Global,
    left: Tree,
    piece: Piece,
    right: Tree,
    place: u64,
) -> Result<Halves, Memory>
    requires piece { IsPiece piece }
    requires some { 0 < place }
    requires few { place < length (expand piece) }
    ensures front { IfOk result (λ h. h.front ≡ left ++ take place (expand piece)) }
    ensures back { IfOk result (λ h. h.back ≡ drop place (expand piece) ++ right) }
{
    let (first, last) = cut_piece(piece, place);
    let front = join(alloc, left, first, Tree::empty())?;
    let back = join(alloc, Tree::empty(), last, right)?;
    Ok(Halves { front, back })
}

/// The lines before a place and those behind it; past the end all stand before it.
pub fn split(alloc: Global, tree: Tree, place: u64) -> Result<Halves, Memory>
    ensures front { IfOk result (λ h. h.front ≡ take place tree) }
    ensures back { IfOk result (λ h. h.back ≡ drop place tree) }
{
    match tree.node {
        Node::Leaf => Ok(Halves {
            front: Tree::empty(),
            back: Tree::empty(),
        }),
        Node::Fork(fork) => {
            let Fork {
                left,
                piece,
                right,
                ..
            } = Box::into_inner(fork);
            let before = left.lines();
            if place <= before {
                let Halves { front, back } = split(alloc, left, place)?;
                let back = join(alloc, back, piece, right)?;
                return Ok(Halves { front, back });
            }
            let within = place - before;
            let lines = count(&piece);
            if within < lines {
                return split_piece(alloc, left, piece, right, within);
            }
            let Halves { front, back } = split(alloc, right, within - lines)?;
            let front = join(alloc, left, piece, front)?;
            Ok(Halves { front, back })
        }
    }
}

/// The base line that a line behind a tree follows, where it is `before` in front of it.
pub fn anchor(tree: &Tree, before: u64) -> u64
    ensures { result ≡ anchor_from before tree.now }
{
    match &tree.node {
        Node::Leaf => before,
        Node::Fork(fork) => anchor(&fork.right, end(&fork.piece)),
    }
}

/// Puts the pieces on a stack, the first one last.
pub fn unload(tree: Tree, stack: &mut Vec<Piece>) -> Result<(), Memory>
    requires { AllByRecursion IsPiece stack.old.items }
    ensures ok { OnOk result (unstacked stack.new.items ≡ tree ++ unstacked stack.old.items) }
    ensures pieces { AllByRecursion IsPiece stack.new.items }
{
    match tree.node {
        Node::Leaf => Ok(()),
        Node::Fork(fork) => {
            let Fork {
                left,
                piece,
                right,
                ..
            } = Box::into_inner(fork);
            unload(right, stack)?;
            stack.push(piece)?;
            unload(left, stack)
        }
    }
}
