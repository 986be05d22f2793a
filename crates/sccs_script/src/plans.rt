ghost use Rattle.std.specs.Prelude.{◌≡◌, ◌≤◌, ◌++◌, ◌-◌, suc, ℕ, List, Ok, IfOk, OnOk};
ghost use Rattle.std.specs.List.{AllByRecursion};
ghost use Rattle.sccs_script_laws.specs.Plans.{IsInOrder, plan};
ghost use Rattle.sccs_script.specs.Checks.{checked_script};
ghost use Rattle.sccs_script.specs.Drafts.{DraftLine, expand, IsPiece, IsWithinBase, missing, draft_plan, span};
ghost use Rattle.sccs_script.specs.Drafts.{unstacked};

use crate::drafts::edited;
use crate::groups::Groups;
use crate::pieces::Piece;
use crate::reading::Script;
use sccs_base::Memory;
use sccs_script_laws::{Numbers, Plan};
use std::alloc::Global;

// the numbers from one up to another, which isn't among them
fn add_numbers(numbers: &mut Numbers, from: u64, to: u64) -> Result<(), Memory>
    ensures { OnOk result (numbers.new ≡ numbers.old ++ span from (to - from)) }
{
    for number in from..to {
        numbers.push(number)?;
    }
    Ok(())
}

// the numbers that are missing before a piece; all below `next` are done with. It answers the next
// one behind the piece.
fn add_missing(numbers: &mut Numbers, next: u64, piece: &Piece, lines: u64) -> Result<u64, Memory>
    requires piece { IsPiece piece.now }
    requires within { IsWithinBase lines piece.now }
    requires few { lines ≤ 1073741824 }
    ensures { IfOk result (λ n. (rest : List DraftLine) (bound : ℕ)
        → numbers.new ++ missing n rest bound ≡ numbers.old ++ missing next (expand piece.now ++ rest) bound) }
{
    match piece {
        Piece::Kept(first, last) => {
            add_numbers(numbers, next, *first)?;
            Ok(*last + 1)
        }
        Piece::Fresh(_, _) => Ok(next),
    }
}

// the plan of what stands in a text at the end
fn plan_of(alloc: Global, pieces: Vec<Piece>, lines: u64) -> Result<Plan, Memory>
    requires pieces { AllByRecursion IsPiece pieces.items }
    requires within { AllByRecursion (IsWithinBase lines) pieces.items }
    requires few { lines ≤ 1073741824 }
    ensures { IfOk result (λ p. p ≡ draft_plan (unstacked pieces.items) lines) }
{
    let mut pieces = pieces;
    let mut deleted = Numbers::empty(alloc);
    let mut next = 1;
    let mut groups = Groups::new(alloc);
    while let Some(piece) = pieces.pop() {
        next = add_missing(&mut deleted, next, &piece, lines)?;
        groups = groups.add(alloc, piece)?;
    }
    add_numbers(&mut deleted, next, lines + 1)?;
    let groups = groups.end(alloc, 0)?;
    Ok(Plan {
        deleted,
        added: groups.done,
    })
}

/// What a script that `check` accepts does to a base of so many lines, at most 1,073,741,824,
/// whatever the order of its commands: the numbers of the base lines that it deletes, rising, and the
/// new lines that stay, by the base line that they follow. It costs the base's lines, and for each
/// command and each line that is added the height of a balanced tree of the pieces so far.
pub fn plan(alloc: Global, script: &Script, lines: u64) -> Result<Plan, Memory>
    requires fits { checked_script script.now lines ≡ Ok tt }
    requires few { lines ≤ 1073741824 }
    ensures value { IfOk result (λ p. p ≡ plan script.now lines) }
    ensures order { IfOk result IsInOrder }
{
    let pieces = edited(alloc, script.orders(), lines)?;
    plan_of(alloc, pieces, lines)
}
