ghost use Rattle.std.specs.Prelude.{◌≡◌, ℕ, false, List, [], ◌∷◌, OnOk, OnErr};
ghost use Rattle.sccs_history.specs.Body.{inserter, line_at};
ghost use Rattle.sccs_history.specs.Numbers.{has};
ghost use Rattle.sccs_history.specs.Select.{shows};
ghost use Rattle.sccs_versions.specs.Regions.{AreSorted, Holds, OpensRegions};

use crate::regions::{Region, inserter as inserter_of, take_item};
use sccs_base::Memory;
use sccs_history::Item;
use sccs_sets::Applied;
use std::alloc::Global;
use std::marker::Model;

/// Tells of each line of a body whether a set shows it. Contracts see the list of the regions that
/// are open, in which each serial stands at most once, the greatest first.
#[derive(Drop)]
pub struct Weaver {
    // the greatest serial last
    regions: Vec<Region>,
    // what `keep` answers
    keep: bool,
}

impl Model for Weaver {
    ghost use Rattle.std.specs.Prelude.{List, []};
    ghost use Rattle.sccs_versions.specs.declared.regions.Region.{Region};
    ghost use Rattle.sccs_versions.specs.Stacks.{AreAnswered, stacked};

    ghost Value = { List Region };

    ghost view = { λ w. stacked [] w.regions.items };

    ghost invariant = { λ w. AreAnswered w.regions.items w.keep };
}

impl Weaver {
    /// Before all items.
    pub fn new(alloc: Global) -> Weaver
        ensures value { result ≡ [] }
        ensures begins { (set : List ℕ) → has set 0 ≡ false → Holds set [] result }
    {
        Weaver {
            regions: Vec::new(alloc),
            keep: false,
        }
    }

    /// Takes the next item of a body. All items are taken with one set. At want of memory nothing
    /// changes.
    #[inline(always)]
    pub fn push_item(&mut self, item: &Item, applied: &Applied) -> Result<(), Memory>
        ensures ok { OnOk result ((before : List Item) → Holds applied.now before self.old
            → Holds applied.now (item.now ∷ before) self.new) }
        ensures opens { OnOk result ((before : List Item) → OpensRegions before self.old
            → OpensRegions (item.now ∷ before) self.new) }
        ensures err { OnErr result (self.new ≡ self.old) }
        ensures sorted { AreSorted self.new }
    {
        self.keep = take_item(&mut self.regions, self.keep, item, applied)?;
        Ok(())
    }

    /// Whether the set shows a line here: its inserter is applied, and none of its deleters.
    pub fn keep(&self) -> bool
        ensures { (set : List ℕ) (before : List Item) (text : List ℕ) → Holds set before self.now
            → result ≡ shows set (line_at before text) }
    {
        self.keep
    }

    /// The serial that inserted a line here, 0 where none is open by Insert.
    pub fn inserter(&self) -> u16
        ensures { (before : List Item) → OpensRegions before self.now → result ≡ inserter before }
    {
        inserter_of(&self.regions)
    }
}
