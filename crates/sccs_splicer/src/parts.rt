ghost use Rattle.std.specs.Prelude.{◌≡◌, []};
ghost use Rattle.sccs_disk.specs.Calls.{IsThere};
ghost use Rattle.sccs_script_laws.specs.Places.{block};
ghost use Rattle.sccs_history.specs.Numbers.{front_if};
ghost use Rattle.sccs_writers.specs.Puts.{PutsText};
ghost use Rattle.sccs_writers.specs.Spelled.{spelled};

use sccs_base::Line;
use sccs_disk::{Disk, DiskRefusal};
use sccs_history::Item;
use sccs_writers::ItemWriter;

/// Puts an item where it is wanted.
pub fn put_if<D: Disk>(
    wanted: bool,
    item: &Item,
    out: &mut ItemWriter,
    disk: &mut D,
) -> Result<(), DiskRefusal>
    requires { IsThere out.old.name (D.told disk.old) }
    ensures { PutsText (spelled (front_if wanted item.now [])) out.old out.new (D.told disk.old) (D.told disk.new)
        (D.faults disk.old) (D.faults disk.new) result }
{
    if wanted { out.put(disk, item) } else { Ok(()) }
}

/// Puts new lines between their control items, and nothing where there are none.
pub fn put_block<D: Disk>(
    serial: u16,
    lines: &[Line],
    out: &mut ItemWriter,
    disk: &mut D,
) -> Result<(), DiskRefusal>
    requires { IsThere out.old.name (D.told disk.old) }
    ensures { PutsText (spelled (block serial lines.now)) out.old out.new (D.told disk.old) (D.told disk.new)
        (D.faults disk.old) (D.faults disk.new) result }
{
    if lines.is_empty() {
        return Ok(());
    }
    if let Err(fault) = out.put(disk, &Item::Insert(serial)) {
        return Err(fault);
    }
    if let Err(fault) = out.put_lines(disk, lines) {
        return Err(fault);
    }
    out.put(disk, &Item::End(serial))
}
