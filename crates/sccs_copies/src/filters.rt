ghost use Rattle.std.specs.Prelude.{Some, IfSome};
ghost use Rattle.sccs_disk.specs.Calls.{IsThere};
ghost use Rattle.sccs_copies.specs.Filters.{Filter, Finishes, PassesTexts, TakesItem};

use sccs_disk::{Disk, DiskRefusal};
use sccs_history::Item;
use sccs_writers::ItemWriter;

/// What is made of the items of a body, on their way from a reader to a writer.
pub trait BodyFilter {
    /// What the filter took, and what it makes of the items to come.
    ghost filter: { Filter Self };

    /// Takes the next item of the body, and puts what is settled with it. Where it fails the filter is of no
    /// more use.
    fn push<D: Disk>(
        &mut self,
        item: &Item,
        out: &mut ItemWriter,
        disk: &mut D,
    ) -> Result<(), DiskRefusal>
        requires { IsThere out.old.name (D.told disk.old) }
        ensures { TakesItem filter item.now self.old self.new out.old out.new (D.told disk.old) (D.told disk.new)
            (D.faults disk.old) (D.faults disk.new) result };

    /// What becomes of text lines that stand together and come next: all are put, or none; None where each is
    /// asked about by itself.
    fn passes_texts(&self) -> Option<bool>
        ensures { IfSome result (PassesTexts filter self.now) };

    /// Puts what is left behind the last item; false where the body isn't the one that was asked for.
    fn finish<D: Disk>(&mut self, out: &mut ItemWriter, disk: &mut D) -> Result<bool, DiskRefusal>
        requires { IsThere out.old.name (D.told disk.old) }
        ensures { Finishes filter self.old out.old out.new (D.told disk.old) (D.told disk.new)
            (D.faults disk.old) (D.faults disk.new) result };
}

/// The filter that leaves a body as it is.
#[derive(Drop)]
pub struct Identity;

impl BodyFilter for Identity {
    ghost use Rattle.sccs_copies.specs.Filters.{identity};

    ghost filter = { identity };

    fn push<D: Disk>(
        &mut self,
        item: &Item,
        out: &mut ItemWriter,
        disk: &mut D,
    ) -> Result<(), DiskRefusal> {
        out.put(disk, item)
    }

    fn passes_texts(&self) -> Option<bool> {
        Some(true)
    }

    fn finish<D: Disk>(
        &mut self,
        _out: &mut ItemWriter,
        _disk: &mut D,
    ) -> Result<bool, DiskRefusal> {
        Ok(true)
    }
}
