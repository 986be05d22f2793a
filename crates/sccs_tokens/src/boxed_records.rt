ghost use Rattle.std.specs.Prelude.{◌≡◌, [], ◌∷◌, ◌++◌, IfOk, OnOk};

use sccs_base::{Line, Memory, Text};
use sccs_history::{Record, Serials};
use std::alloc::Global;
use std::marker::Model;

// a text of a line, with no more room than that takes
fn one_line(alloc: Global, line: Line) -> Result<Text, Memory>
    ensures { IfOk result (λ text. text ≡ line ∷ []) }
{
    let lines = vec![in alloc; line]?;
    Ok(Text::from_vec(lines))
}

/// A record in a place of its own, so that what holds it is small and is moved quickly. Contracts see
/// the record.
#[derive(Drop)]
pub struct BoxedRecord {
    boxed: Box<Record>,
}

impl Model for BoxedRecord {
    ghost use Rattle.sccs_history.specs.declared.headers.Record.{Record};

    ghost Value = { Record };

    ghost view = { λ r. r.boxed.value };
}

impl BoxedRecord {
    /// Keeps a record.
    pub fn new(alloc: Global, row: Record) -> Result<BoxedRecord, Memory>
        ensures { IfOk result (λ boxed. boxed ≡ row) }
    {
        let boxed = Box::new(alloc, row)?;
        Ok(BoxedRecord { boxed })
    }

    /// The record.
    pub fn as_record(&self) -> &Record
        ensures { result.now ≡ self.now }
    {
        &self.boxed
    }

    /// The record alone.
    pub fn into_record(self) -> Record
        ensures { result ≡ self }
    {
        let BoxedRecord { boxed } = self;
        Box::into_inner(boxed)
    }

    /// Puts the numbers of lines inserted, deleted and unchanged.
    pub fn count(&mut self, inserted: u32, deleted: u32, unchanged: u32)
        ensures { self.new ≡ record self.old { inserted = inserted; deleted = deleted; unchanged = unchanged } }
    {
        self.boxed.inserted = inserted;
        self.boxed.deleted = deleted;
        self.boxed.unchanged = unchanged;
    }

    /// Puts the list of the serials that are included.
    pub fn include(&mut self, serials: Serials)
        ensures { self.new ≡ record self.old { include = serials } }
    {
        self.boxed.include = serials;
    }

    /// Puts the list of the serials that are excluded.
    pub fn exclude(&mut self, serials: Serials)
        ensures { self.new ≡ record self.old { exclude = serials } }
    {
        self.boxed.exclude = serials;
    }

    /// Puts the list of the serials that are ignored.
    pub fn ignore(&mut self, serials: Serials)
        ensures { self.new ≡ record self.old { ignore = serials } }
    {
        self.boxed.ignore = serials;
    }

    /// Puts an MR behind the others.
    pub fn push_mr(&mut self, line: Line) -> Result<(), Memory>
        ensures { OnOk result (self.new ≡ record self.old { mrs = self.old.mrs ++ line ∷ [] }) }
    {
        self.boxed.mrs.push(line)
    }

    /// Puts a comment behind the others.
    pub fn push_comment(&mut self, alloc: Global, line: Line) -> Result<(), Memory>
        ensures { OnOk result (self.new ≡ record self.old { comments = self.old.comments ++ line ∷ [] }) }
    {
        if self.boxed.comments.items().is_empty() {
            self.boxed.comments = one_line(alloc, line)?;
            return Ok(());
        }
        self.boxed.comments.push(line)
    }
}
