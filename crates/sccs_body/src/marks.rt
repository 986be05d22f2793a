ghost use Rattle.std.specs.Prelude.{◌≡◌, ◌<◌, ◌≤◌, ◌==◌, ℕ, length, replicate, slice_index_or, IfOk, OnErr, OnOk};
ghost use Rattle.std.specs.Prelude.{if◌then◌else◌};
ghost use Rattle.std.specs.List.{list_any};
ghost use Rattle.sccs_body.specs.Kinds.{is_insert_mark, is_open};
ghost use Rattle.sccs_body.specs.declared.marks.Mark.TheVariants as stands;

use sccs_base::Memory;
use std::alloc::Global;
use std::marker::Model;
use std::mem;

/// How a serial stands at a place of a body.
#[derive(Clone, Copy, Debug, PartialEq, Eq)]
pub enum Mark {
    Closed,
    Inserts,
    Deletes,
}

impl Mark {
    /// Whether it is open by Insert.
    pub fn inserts(self) -> bool
        ensures { result ≡ is_insert_mark self }
    {
        matches!(self, Mark::Inserts)
    }

    /// Whether it is open.
    pub fn is_open(self) -> bool
        ensures { result ≡ is_open self }
    {
        !matches!(self, Mark::Closed)
    }
}

/// How each serial stands that has a place, and how many are open; those without one are closed. Contracts see the
/// marks in a list.
#[derive(Drop)]
pub struct Marks {
    inserts: usize,
    marks: Vec<Mark>,
    opens: usize,
}

impl Model for Marks {
    ghost use Rattle.std.specs.Prelude.{List};
    ghost use Rattle.sccs_body.specs.declared.marks.Mark.{Mark};
    ghost use Rattle.sccs_body.specs.Counts.{AreMarksCounted};

    ghost Value = { List Mark };

    ghost view = { λ m. m.marks.items };

    ghost invariant = { λ m. AreMarksCounted m.marks.items m.inserts m.opens };
}

// so many serials are closed
fn all_closed(alloc: Global, count: usize) -> Result<Vec<Mark>, Memory>
    ensures { IfOk result (λ marks. marks.items ≡ replicate count stands.Closed) }
{
    let marks = vec![in alloc; Mark::Closed; count]?;
    Ok(marks)
}

impl Marks {
    /// Every serial is closed, and those below a number have a place.
    pub fn new(alloc: Global, count: usize) -> Result<Marks, Memory>
        requires { count ≤ 65536 }
        ensures { IfOk result (λ marks. (n : ℕ) → slice_index_or marks n stands.Closed ≡ stands.Closed) }
    {
        let marks = all_closed(alloc, count)?;
        Ok(Marks {
            inserts: 0,
            marks,
            opens: 0,
        })
    }

    /// How a serial stands.
    pub fn at(&self, serial: u16) -> Mark
        ensures { result ≡ slice_index_or self.now serial stands.Closed }
    {
        self.marks
            .get(serial as usize)
            .copied()
            .unwrap_or(Mark::Closed)
    }

    // marks a serial that has a place
    fn mark(&mut self, serial: u16, mark: Mark)
        requires { serial < length self.old }
        ensures { (n : ℕ) → slice_index_or self.new n stands.Closed
            ≡ (if serial == n then mark else slice_index_or self.old n stands.Closed) }
    {
        let old = mem::replace(&mut self.marks[serial as usize], mark);
        self.inserts = self.inserts + usize::from(mark.inserts()) - usize::from(old.inserts());
        self.opens = self.opens + usize::from(mark.is_open()) - usize::from(old.is_open());
    }

    /// Marks a serial. One without a place, which no table of these has, is want of memory, and nothing changes.
    pub fn put(&mut self, serial: u16, mark: Mark) -> Result<(), Memory>
        ensures ok { OnOk result ((n : ℕ) → slice_index_or self.new n stands.Closed
            ≡ (if serial == n then mark else slice_index_or self.old n stands.Closed)) }
        ensures err { OnErr result (self.new ≡ self.old) }
    {
        if usize::from(serial) < self.marks.len() {
            self.mark(serial, mark);
            Ok(())
        } else {
            Err(Memory)
        }
    }

    /// Closes a serial; one without a place is closed.
    pub fn close(&mut self, serial: u16)
        ensures { (n : ℕ) → slice_index_or self.new n stands.Closed
            ≡ (if serial == n then stands.Closed else slice_index_or self.old n stands.Closed) }
    {
        if usize::from(serial) < self.marks.len() {
            self.mark(serial, Mark::Closed);
        }
    }

    /// Whether some serial is open by Insert.
    #[tactic(auto, using(crate::proofs::CountLaws::counted_any))]
    pub fn some_inserts(&self) -> bool
        ensures { result ≡ list_any is_insert_mark self.now }
    {
        self.inserts > 0
    }

    /// Whether some serial is open.
    #[tactic(auto, using(crate::proofs::CountLaws::counted_any))]
    pub fn some_open(&self) -> bool
        ensures { result ≡ list_any is_open self.now }
    {
        self.opens > 0
    }
}
