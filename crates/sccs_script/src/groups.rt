ghost use Rattle.std.specs.Prelude.{◌≡◌, ◌++◌, List, [], ◌∷◌, IfOk};
ghost use Rattle.sccs_script_laws.specs.Plans.{with_added};
ghost use Rattle.sccs_script.specs.Drafts.{DraftLine, expand, Fresh, grouped, IsPiece};

use crate::copies::push_line;
use crate::pieces::Piece;
use sccs_base::{Line, Memory, Text};
use sccs_script_laws::{Added, AddedList};
use std::alloc::Global;

/// New lines by the base lines that they follow, and those that follow one base line so far.
#[derive(Drop)]
pub struct Groups {
    pub done: AddedList,
    pub after: u64,
    pub lines: Text,
}

impl Groups {
    /// None yet.
    pub fn new(alloc: Global) -> Groups
        ensures done { result.done ≡ [] }
        ensures after { result.after ≡ 0 }
        ensures lines { result.lines ≡ [] }
    {
        Groups {
            done: AddedList::empty(alloc),
            after: 0,
            lines: Text::empty(alloc),
        }
    }

    /// The group ends, and one behind another base line begins.
    pub fn end(self, alloc: Global, next: u64) -> Result<Groups, Memory>
        ensures done { IfOk result (λ g. g.done ≡ self.done ++ with_added self.after self.lines []) }
        ensures after { IfOk result (λ g. g.after ≡ next) }
        ensures lines { IfOk result (λ g. g.lines ≡ []) }
    {
        let Groups {
            mut done,
            after,
            lines,
        } = self;
        if 0 < lines.len() {
            done.push(Added { after, lines })?;
        }
        Ok(Groups {
            done,
            after: next,
            lines: Text::empty(alloc),
        })
    }

    // one more line behind a base line
    fn add_line(self, alloc: Global, after: u64, line: Line) -> Result<Groups, Memory>
        ensures { IfOk result (λ g. (rest : List DraftLine)
            → g.done ++ grouped g.after g.lines rest ≡ self.done ++ grouped self.after self.lines
            (Fresh after line ∷ rest)) }
    {
        let mut groups = if after == self.after {
            self
        } else {
            self.end(alloc, after)?
        };
        push_line(alloc, &mut groups.lines, line)?;
        Ok(groups)
    }

    /// One more piece.
    pub fn add(self, alloc: Global, piece: Piece) -> Result<Groups, Memory>
        requires { IsPiece piece }
        ensures { IfOk result (λ g. (rest : List DraftLine)
            → g.done ++ grouped g.after g.lines rest ≡ self.done ++ grouped self.after self.lines
            (expand piece ++ rest)) }
    {
        match piece {
            Piece::Kept(_, last) => self.end(alloc, last),
            Piece::Fresh(after, line) => self.add_line(alloc, after, line),
        }
    }
}
