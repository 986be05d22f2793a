ghost use Rattle.std.specs.Prelude.{◌≡◌, ◌+◌, ◌-◌, ◌<◌, ◌≤◌, ◌^◌, Bool, true, false, [], ◌∷◌, length, min, OnOk};
ghost use Rattle.std.specs.Prelude.{IsErrOf};
ghost use Rattle.sccs_base.specs.Stream.{last_count};
ghost use Rattle.sccs_disk.specs.Calls.{IsThere};
ghost use Rattle.sccs_script_laws.specs.Plans.{added_count, IsInOrder};
ghost use Rattle.sccs_history.specs.declared.headers.Item.TheVariants as items;
ghost use Rattle.sccs_writers.specs.Puts.{PutsText};
ghost use Rattle.sccs_writers.specs.Spelled.{spelled};
ghost use Rattle.sccs_splicer.specs.Splices.{new_splice, due_lines, holding, IsControl, marked_items, may_join};
ghost use Rattle.sccs_splicer.specs.Splices.{items_owed, passed, settled_splice, settled_items, Splices};

use crate::parts::{put_block, put_if};
use crate::plan_places::PlanPlace;
use sccs_base::Line;
use sccs_disk::{Disk, DiskRefusal};
use sccs_history::Item;
use sccs_script_laws::{Added, Plan};
use sccs_writers::ItemWriter;
use std::alloc::Global;
use std::marker::Model;

/// Writes the items of a body with those of a new delta: sccsfile(4), "Body". It holds back no text,
/// but the control items behind a deleted line whose region may go on with the next one.
#[derive(Drop)]
pub struct Splicer {
    serial: u16,
    at: PlanPlace,
    opened: bool,
    due: bool,
    held: Vec<Item>,
}

impl Model for Splicer {
    ghost use Rattle.sccs_splicer.specs.Splices.{SplicerState};

    ghost Value = { SplicerState };

    ghost view = { λ s. record {
      serial = s.serial;
      plan = s.at.plan;
      line = s.at.line;
      opened = s.opened;
      due = s.due;
      held = s.held.items;
    } };
}

// how many lines of the base a splicer counts
const LAST: u64 = u64::MAX;

// how many new lines there are
fn count_lines(added: &[Added]) -> u64
    ensures { result ≡ min (added_count added.now) last_count }
{
    let mut count: u64 = 0;
    for list in added {
        count = count.saturating_add(list.lines.len());
    }
    count
}

impl Splicer {
    /// Before all items, with the serial of the new delta and the plan of its script.
    pub fn new(alloc: Global, serial: u16, plan: Plan) -> Splicer
        requires { IsInOrder plan }
        ensures { result ≡ new_splice serial plan }
    {
        Splicer {
            serial,
            at: PlanPlace::new(plan),
            opened: false,
            due: true,
            held: Vec::new(alloc),
        }
    }

    // whether the open region goes on with the next line of the base, where that is the next text item
    fn may_join(&self) -> bool
        ensures { result ≡ may_join self.now }
    {
        self.opened & (self.at.new_lines().is_empty() & self.at.deletes_next())
    }

    // puts the new lines that are due
    fn put_due<D: Disk>(&self, out: &mut ItemWriter, disk: &mut D) -> Result<(), DiskRefusal>
        requires { IsThere out.old.name (D.told disk.old) }
        ensures { PutsText (spelled (due_lines self.now)) out.old out.new (D.told disk.old) (D.told disk.new)
            (D.faults disk.old) (D.faults disk.new) result }
    {
        if self.due {
            put_block(self.serial, self.at.new_lines(), out, disk)
        } else {
            Ok(())
        }
    }

    // puts what stands before the next text item
    fn put_owed<D: Disk>(
        &self,
        goes: bool,
        out: &mut ItemWriter,
        disk: &mut D,
    ) -> Result<(), DiskRefusal>
        requires { IsThere out.old.name (D.told disk.old) }
        ensures { PutsText (spelled (settled_items self.now goes)) out.old out.new (D.told disk.old) (D.told disk.new)
            (D.faults disk.old) (D.faults disk.new) result }
    {
        let end = Item::End(self.serial);
        if let Err(fault) = put_if(self.opened & !goes, &end, out, disk) {
            return Err(fault);
        }
        if let Err(fault) = self.put_due(out, disk) {
            return Err(fault);
        }
        out.put_items(disk, self.held.as_slice())
    }

    // puts what stands before the next text item, and owes it no more
    fn settle<D: Disk>(
        &mut self,
        goes: bool,
        out: &mut ItemWriter,
        disk: &mut D,
    ) -> Result<(), DiskRefusal>
        requires { IsThere out.old.name (D.told disk.old) }
        ensures puts { PutsText (spelled (settled_items self.old goes)) out.old out.new (D.told disk.old)
            (D.told disk.new)
            (D.faults disk.old) (D.faults disk.new) result }
        ensures ok { OnOk result (self.new ≡ settled_splice self.old) }
    {
        if let Err(fault) = self.put_owed(goes, out, disk) {
            return Err(fault);
        }
        self.opened = false;
        self.due = false;
        self.held.clear();
        Ok(())
    }

    // holds an item back
    fn hold(&mut self, item: Item) -> Result<(), DiskRefusal>
        ensures ok { OnOk result (self.new ≡ holding self.old item) }
        ensures memory { ¬ IsErrOf result DiskRefusal.Failed }
    {
        match self.held.push(item) {
            Ok(()) => Ok(()),
            Err(_) => Err(DiskRefusal::Memory),
        }
    }

    // a control item
    fn push_control<D: Disk>(
        &mut self,
        item: Item,
        out: &mut ItemWriter,
        disk: &mut D,
    ) -> Result<(), DiskRefusal>
        requires control { IsControl item }
        requires there { IsThere out.old.name (D.told disk.old) }
        ensures { (visible : Bool) → Splices ((item, visible) ∷ []) self.old self.new out.old out.new
            (D.told disk.old) (D.told disk.new) (D.faults disk.old) (D.faults disk.new) result }
    {
        if self.may_join() {
            return self.hold(item);
        }
        if let Err(fault) = self.settle(false, out, disk) {
            return Err(fault);
        }
        out.put(disk, &item)
    }

    // puts a line of the base, behind the control item of its deletion where a region begins with it
    fn put_marked<D: Disk>(
        &self,
        line: &Line,
        goes: bool,
        out: &mut ItemWriter,
        disk: &mut D,
    ) -> Result<(), DiskRefusal>
        requires { IsThere out.old.name (D.told disk.old) }
        ensures { PutsText (spelled (marked_items self.now goes line.now)) out.old out.new
            (D.told disk.old) (D.told disk.new) (D.faults disk.old) (D.faults disk.new) result }
    {
        let begin = Item::Delete(self.serial);
        if let Err(fault) = put_if(self.at.deletes_next() & !goes, &begin, out, disk) {
            return Err(fault);
        }
        out.put_line(disk, line)
    }

    // a line of the base was put
    fn pass_line(&mut self)
        requires { self.old.line + 1 < 2 ^ 64 }
        ensures { self.new ≡ passed self.old }
    {
        self.opened = self.at.deletes_next();
        self.due = true;
        self.at.advance();
    }

    // a line of the base
    fn push_line<D: Disk>(
        &mut self,
        line: &Line,
        out: &mut ItemWriter,
        disk: &mut D,
    ) -> Result<(), DiskRefusal>
        requires { IsThere out.old.name (D.told disk.old) }
        ensures { Splices ((items.Text line.now, true) ∷ []) self.old self.new out.old out.new
            (D.told disk.old) (D.told disk.new) (D.faults disk.old) (D.faults disk.new) result }
    {
        if self.at.line() == LAST {
            return Err(DiskRefusal::Memory);
        }
        let goes = self.may_join();
        if let Err(fault) = self.settle(goes, out, disk) {
            return Err(fault);
        }
        if let Err(fault) = self.put_marked(line, goes, out, disk) {
            return Err(fault);
        }
        self.pass_line();
        Ok(())
    }

    // a line that isn't one of the base
    fn push_hidden<D: Disk>(
        &mut self,
        line: &Line,
        out: &mut ItemWriter,
        disk: &mut D,
    ) -> Result<(), DiskRefusal>
        requires { IsThere out.old.name (D.told disk.old) }
        ensures { Splices ((items.Text line.now, false) ∷ []) self.old self.new out.old out.new
            (D.told disk.old) (D.told disk.new) (D.faults disk.old) (D.faults disk.new) result }
    {
        if let Err(fault) = self.settle(false, out, disk) {
            return Err(fault);
        }
        out.put_line(disk, line)
    }

    /// Pushes the next item of the body; `visible` says of a line of text whether it is one of the base.
    /// A line that a number of 64 bits no longer counts is answered as want of memory. Where it fails
    /// the splicer is of no more use.
    pub fn push<D: Disk>(
        &mut self,
        item: &Item,
        visible: bool,
        out: &mut ItemWriter,
        disk: &mut D,
    ) -> Result<(), DiskRefusal>
        requires { IsThere out.old.name (D.told disk.old) }
        ensures splices { Splices ((item.now, visible) ∷ []) self.old self.new out.old out.new
            (D.told disk.old) (D.told disk.new) (D.faults disk.old) (D.faults disk.new) result }
        ensures line { OnOk result (self.new.line ≤ self.old.line + 1) }
    {
        match item {
            Item::Text(line) => {
                if visible {
                    self.push_line(line, out, disk)
                } else {
                    self.push_hidden(line, out, disk)
                }
            }
            Item::Insert(serial) => self.push_control(Item::Insert(*serial), out, disk),
            Item::Delete(serial) => self.push_control(Item::Delete(*serial), out, disk),
            Item::End(serial) => self.push_control(Item::End(*serial), out, disk),
        }
    }

    /// Puts what is owed behind the last item. The plan is that of a script for as many lines as items
    /// were pushed as visible, else some of its lines are left out.
    pub fn finish<D: Disk>(&mut self, out: &mut ItemWriter, disk: &mut D) -> Result<(), DiskRefusal>
        requires { IsThere out.old.name (D.told disk.old) }
        ensures puts { PutsText (spelled (items_owed self.old [])) out.old out.new (D.told disk.old) (D.told disk.new)
            (D.faults disk.old) (D.faults disk.new) result }
        ensures same { OnOk result (self.new ≡ settled_splice self.old) }
    {
        self.settle(false, out, disk)
    }

    /// How many lines of the base were pushed.
    pub fn line(&self) -> u64
        ensures { result ≡ self.now.line }
    {
        self.at.line()
    }

    /// How many lines the plan inserts, at most 18,446,744,073,709,551,615.
    pub fn inserted(&self) -> u64
        ensures { result ≡ min (added_count self.now.plan.added) last_count }
    {
        count_lines(self.at.plan().added.items())
    }

    /// How many lines the plan deletes.
    pub fn deleted(&self) -> u64
        ensures { result ≡ length self.now.plan.deleted }
    {
        self.at.plan().deleted.len()
    }

    /// How many of the lines that were pushed as visible the plan leaves.
    pub fn unchanged(&self) -> u64
        ensures { result ≡ self.now.line - length self.now.plan.deleted }
    {
        self.at.line().saturating_sub(self.deleted())
    }
}
