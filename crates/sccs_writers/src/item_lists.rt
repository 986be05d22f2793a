ghost use Rattle.std.specs.Prelude.{◌≡◌};
ghost use Rattle.sccs_disk.specs.Calls.{IsThere};
ghost use Rattle.sccs_tokens.specs.Written.{bytes_of};
ghost use Rattle.sccs_writers.specs.Puts.{PutsText};
ghost use Rattle.sccs_writers.specs.Spelled.{spelled};

use crate::item_writers::ItemWriter;
use sccs_base::Line;
use sccs_disk::{Disk, DiskRefusal};
use sccs_history::Item;

impl ItemWriter {
    /// Puts lines of text, in their order.
    pub fn put_lines<D: Disk>(&mut self, disk: &mut D, lines: &[Line]) -> Result<(), DiskRefusal>
        requires { IsThere self.old.name (D.told disk.old) }
        ensures { PutsText (bytes_of lines.now) self.old self.new (D.told disk.old) (D.told disk.new)
            (D.faults disk.old) (D.faults disk.new) result }
    {
        for line in lines {
            if let Err(fault) = self.put_line(disk, line) {
                return Err(fault);
            }
        }
        Ok(())
    }

    /// Puts the lines of items, in their order.
    pub fn put_items<D: Disk>(&mut self, disk: &mut D, items: &[Item]) -> Result<(), DiskRefusal>
        requires { IsThere self.old.name (D.told disk.old) }
        ensures { PutsText (spelled items.now) self.old self.new (D.told disk.old) (D.told disk.new)
            (D.faults disk.old) (D.faults disk.new) result }
    {
        for item in items {
            if let Err(fault) = self.put(disk, item) {
                return Err(fault);
            }
        }
        Ok(())
    }
}
