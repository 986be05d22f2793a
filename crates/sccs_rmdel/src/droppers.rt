ghost use Rattle.std.specs.Prelude.{◌≡◌, ◌==◌, not, List, [], IfOk};
ghost use Rattle.sccs_disk.specs.Calls.{IsThere};
ghost use Rattle.sccs_history.specs.Numbers.{front_if};
ghost use Rattle.sccs_history.specs.declared.headers.Item.{Item};
ghost use Rattle.sccs_versions.specs.Regions.{OpensRegions};
ghost use Rattle.sccs_writers.specs.Puts.{PutsText};
ghost use Rattle.sccs_writers.specs.Spelled.{spelled};
ghost use Rattle.sccs_rmdel.specs.Dropping.{stays};

use sccs_copies::BodyFilter;
use sccs_disk::{Disk, DiskRefusal};
use sccs_history::Item;
use sccs_sets::Applied;
use sccs_versions::Weaver;
use sccs_writers::ItemWriter;

/// Leaves the items of a delta out of a body: its control items, and the lines that it inserted. It holds
/// nothing back. sccsfile(4), "Body"; POSIX, Shell and Utilities, rmdel.
#[derive(Drop)]
pub struct Dropper {
    pub serial: u16,
    /// Tells of each place by whom it was inserted.
    pub weaver: Weaver,
    /// The set that the weaver is asked for; what it shows doesn't matter here.
    pub set: Applied,
}

// whether an item stays
fn stays(dropper: &Dropper, item: &Item) -> bool
    ensures { (before : List Item) → OpensRegions before dropper.now.weaver
        → result ≡ stays dropper.now.serial before item.now }
{
    match item {
        Item::Text(_) => dropper.weaver.inserter() != dropper.serial,
        Item::Insert(serial) => *serial != dropper.serial,
        Item::Delete(serial) => *serial != dropper.serial,
        Item::End(serial) => *serial != dropper.serial,
    }
}

// puts an item where it is wanted
fn put_if<D: Disk>(
    wanted: bool,
    item: &Item,
    out: &mut ItemWriter,
    disk: &mut D,
) -> Result<(), DiskRefusal>
    requires { IsThere out.old.name (D.told disk.old) }
    ensures { PutsText (spelled (front_if wanted item.now [])) out.old out.new (D.told disk.old) (D.told disk.new)
        (D.faults disk.old) (D.faults disk.new) result }
{
    if wanted { out.put(disk, item) } else { Ok(()) }
}

impl BodyFilter for Dropper {
    ghost use Rattle.sccs_rmdel.specs.Dropping.{dropping};

    ghost filter = { dropping };

    fn push<D: Disk>(
        &mut self,
        item: &Item,
        out: &mut ItemWriter,
        disk: &mut D,
    ) -> Result<(), DiskRefusal> {
        let wanted = stays(self, item);
        if let Err(_) = self.weaver.push_item(item, &self.set) {
            return Err(DiskRefusal::Memory);
        }
        put_if(wanted, item, out, disk)
    }

    fn passes_texts(&self) -> Option<bool> {
        Some(self.weaver.inserter() != self.serial)
    }

    fn finish<D: Disk>(
        &mut self,
        _out: &mut ItemWriter,
        _disk: &mut D,
    ) -> Result<bool, DiskRefusal> {
        Ok(true)
    }
}
