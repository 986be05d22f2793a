ghost use Rattle.std.specs.Prelude.{◌≡◌, ℕ, false, List, [], ◌∷◌, IfOk};
ghost use Rattle.sccs_script_laws.specs.Places.{told_behind};
ghost use Rattle.sccs_script_laws.specs.Plans.{IsInOrder};
ghost use Rattle.sccs_history.specs.Numbers.{has};
ghost use Rattle.sccs_history.specs.declared.headers.Item.{Item};
ghost use Rattle.sccs_splicer.specs.Splices.{new_splice};
ghost use Rattle.sccs_versions.specs.Regions.{Holds};

use crate::filters::BodyFilter;
use sccs_disk::{Disk, DiskRefusal};
use sccs_history::Item;
use sccs_script_laws::Plan;
use sccs_sets::Applied;
use sccs_splicer::Splicer;
use sccs_versions::Weaver;
use sccs_writers::ItemWriter;
use std::alloc::Global;

/// Puts the items of a new delta among those of a body: a splicer that is told of each line whether the set
/// of the base shows it. It refuses a body in which the set shows another number of lines than were counted.
#[derive(Drop)]
pub struct BaseSplicer {
    pub splicer: Splicer,
    pub weaver: Weaver,
    pub set: Applied,
    pub lines: u64,
}

impl BaseSplicer {
    /// Before all items, with the serial of the new delta and the plan of its script for the lines that the
    /// set shows, so many.
    pub fn new(alloc: Global, serial: u16, plan: Plan, set: Applied, lines: u64) -> BaseSplicer
        requires { IsInOrder plan }
        ensures splicer { result.splicer ≡ new_splice serial plan }
        ensures set { result.set ≡ set }
        ensures lines { result.lines ≡ lines }
        ensures begins { has set 0 ≡ false → Holds set [] result.weaver }
    {
        BaseSplicer {
            splicer: Splicer::new(alloc, serial, plan),
            weaver: Weaver::new(alloc),
            set,
            lines,
        }
    }
}

// whether an item that a weaver took last is a line that the set shows
fn is_visible(weaver: &Weaver, item: &Item) -> bool
    ensures { (set : List ℕ) (before rest : List Item) → Holds set (item.now ∷ before) weaver.now
        → told_behind set before (item.now ∷ rest) ≡ (item.now, result) ∷ told_behind set (item.now ∷ before) rest }
{
    match item {
        Item::Text(_) => weaver.keep(),
        Item::Insert(_) => false,
        Item::Delete(_) => false,
        Item::End(_) => false,
    }
}

impl BodyFilter for BaseSplicer {
    ghost use Rattle.sccs_copies.specs.BaseSplicing.{base_splicing};

    ghost filter = { base_splicing };

    fn push<D: Disk>(
        &mut self,
        item: &Item,
        out: &mut ItemWriter,
        disk: &mut D,
    ) -> Result<(), DiskRefusal> {
        if let Err(_) = self.weaver.push_item(item, &self.set) {
            return Err(DiskRefusal::Memory);
        }
        let visible = is_visible(&self.weaver, item);
        self.splicer.push(item, visible, out, disk)
    }

    fn passes_texts(&self) -> Option<bool> {
        None
    }

    fn finish<D: Disk>(&mut self, out: &mut ItemWriter, disk: &mut D) -> Result<bool, DiskRefusal> {
        if self.splicer.line() != self.lines {
            return Ok(false);
        }
        self.splicer.finish(out, disk)?;
        Ok(true)
    }
}
