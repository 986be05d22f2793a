ghost use Rattle.std.specs.Prelude.{List};
ghost use Rattle.sccs_disk.specs.Calls.{IsThere};
ghost use Rattle.sccs_history.specs.declared.headers.Item.{Item};
ghost use Rattle.sccs_writers.specs.Puts.{PutsText};
ghost use Rattle.sccs_new_files.specs.Writing.{body_bytes};

use sccs_disk::{Disk, DiskRefusal};
use sccs_writers::ItemWriter;

/// The body of a new s-file.
pub trait NewBody {
    /// Its items.
    ghost items: { Self → List Item };

    /// Puts their lines, in their order.
    fn put<D: Disk>(&self, out: &mut ItemWriter, disk: &mut D) -> Result<(), DiskRefusal>
        requires { IsThere out.old.name (D.told disk.old) }
        ensures { PutsText (body_bytes (items self.now)) out.old out.new (D.told disk.old) (D.told disk.new)
            (D.faults disk.old) (D.faults disk.new) result };
}
