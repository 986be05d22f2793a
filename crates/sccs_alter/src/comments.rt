ghost use Rattle.std.specs.Prelude.{◌≡◌, [], ◌∷◌, ◌++◌, IfOk, OnOk, map};
ghost use Rattle.sccs_sid.specs.Moment.{IsMoment};
ghost use Rattle.sccs_alter.specs.Changes.{before_old, changed_line, deleted_line};

use crate::changes::push_line;
use sccs_base::{Bytes, Line, Memory, Text};
use sccs_records::copy_lines;
use sccs_sid::Stamp;
use std::alloc::Global;

// two texts of bytes as one line, at the end of a text
fn push_joined(alloc: Global, text: &mut Text, first: &[u8], second: &[u8]) -> Result<(), Memory>
    ensures { OnOk result (text.new ≡ text.old ++ (first.now ++ second.now) ∷ []) }
{
    let mut line = Vec::new(alloc);
    line.extend_from_slice(first)?;
    line.extend_from_slice(second)?;
    push_line(alloc, text, line.as_slice())
}

/// Puts a line for each MR that is gone at the end of a text.
pub fn push_deleted(alloc: Global, text: Text, gone: &[Line]) -> Result<Text, Memory>
    ensures { IfOk result (λ all. all ≡ text ++ map deleted_line gone.now) }
{
    let mut text = text;
    for mr in gone {
        push_joined(alloc, &mut text, b"*** DELETED MR *** ", mr.bytes())?;
    }
    Ok(text)
}

// the line that says when a comment was changed, and by whom
fn changed_line(alloc: Global, stamp: &Stamp) -> Result<Bytes, Memory>
    requires { IsMoment stamp.now.moment }
    ensures { IfOk result (λ line. line ≡ changed_line stamp.now) }
{
    let mut line = Vec::new(alloc);
    line.extend_from_slice(b"*** CHANGED *** ")?;
    line.extend_from_slice(&stamp.moment.text())?;
    line.push(b' ')?;
    line.extend_from_slice(stamp.login.bytes())?;
    Ok(Bytes::from_vec(line))
}

// puts lines at the end of a text
fn push_lines(alloc: Global, text: Text, lines: &[Line]) -> Result<Text, Memory>
    ensures { IfOk result (λ all. all ≡ text ++ lines.now) }
{
    let mut text = text;
    for line in lines {
        push_line(alloc, &mut text, line.bytes())?;
    }
    Ok(text)
}

// lines, a line that says when and by whom, and the old ones
fn with_old(alloc: Global, stamp: &Stamp, new: Text, old: &[Line]) -> Result<Text, Memory>
    requires { IsMoment stamp.now.moment }
    ensures { IfOk result (λ all. all ≡ new ++ changed_line stamp.now ∷ old.now) }
{
    let mut text = new;
    let line = changed_line(alloc, stamp)?;
    push_line(alloc, &mut text, line.bytes())?;
    push_lines(alloc, text, old)
}

/// New lines, a line that says when and by whom, and the old ones; where none is new the old ones alone.
#[tactic(auto, using(crate::proofs::TextLaws::nothing_new, crate::proofs::TextLaws::something_new))]
pub fn before_old(alloc: Global, stamp: &Stamp, new: Text, old: &[Line]) -> Result<Text, Memory>
    requires { IsMoment stamp.now.moment }
    ensures { IfOk result (λ all. all ≡ before_old stamp.now new old.now) }
{
    if new.len() == 0 {
        copy_lines(alloc, old)
    } else {
        with_old(alloc, stamp, new, old)
    }
}
