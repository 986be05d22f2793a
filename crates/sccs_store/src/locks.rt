ghost use Rattle.std.specs.Prelude.{◌≡◌, None, IfSome, IsSome, IsErrOf, OnErr, OnOk};
ghost use Rattle.std.specs.Str.{bytes_eq};
ghost use Rattle.sccs_base.specs.Name.{IsSFileName, z_file};
ghost use Rattle.sccs_disk.specs.Files.{View};
ghost use Rattle.sccs_disk.specs.Told.{seen};
ghost use Rattle.sccs_name_files.specs.StepFiles.{Moves};
ghost use Rattle.sccs_name_files.specs.Touches.{TouchesOnly};
ghost use Rattle.sccs_crash_points.specs.Unlocked.{KeepsHeldIn};
ghost use Rattle.sccs_store.specs.Commits.{Becomes, locked};
ghost use Rattle.sccs_store.specs.Stops.{KeepsHeld};
ghost use Rattle.sccs_disk.specs.Causes.{DiskCauses};

use sccs_base::Name;
use sccs_disk::{Creation, Disk, DiskRefusal};

/// Why a name wasn't locked.
#[derive(Clone, Copy, Debug, PartialEq, Eq)]
pub enum LockFault {
    /// Its z-file was there.
    Locked,
    Failed,
    Memory,
}

/// Makes the z-file of an s-file's name, empty. Locked comes exactly where it was there.
pub fn lock<D: Disk>(disk: &mut D, name: &Name) -> Result<(), LockFault>
    requires { IsSFileName name.now }
    ensures view { OnOk result (Becomes (locked name.now) (seen (D.told disk.old)) (seen (D.told disk.new))) }
    ensures free { OnOk result (IfSome (seen (D.told disk.old)) (λ (v : View). v (z_file name.now) ≡ None)) }
    ensures locked { IsErrOf result LockFault.Locked
        → IfSome (seen (D.told disk.old)) (λ (v : View). IsSome (v (z_file name.now))) }
    ensures same { IsErrOf result LockFault.Locked → D.told disk.new ≡ D.told disk.old }
    ensures memory { IsErrOf result LockFault.Memory → D.told disk.new ≡ D.told disk.old }
    ensures view_err { OnErr result (Moves (bytes_eq (z_file name.now)) (λ v. v) (seen (D.told disk.old))
        (seen (D.told disk.new))) }
    ensures touches { TouchesOnly (bytes_eq (z_file name.now)) (D.told disk.old) (D.told disk.new) }
    ensures held { IsErrOf result LockFault.Failed → KeepsHeld name.now (D.told disk.old) (D.told disk.new) }
    ensures stays { IsErrOf result LockFault.Failed → KeepsHeldIn name.now (D.told disk.old) (D.told disk.new) }
    ensures causes { DiskCauses (IsErrOf result LockFault.Failed) (D.faults disk.old) (D.faults disk.new) }
{
    match disk.create(&name.sibling(b'z')) {
        Ok(Creation::Created) => Ok(()),
        Ok(Creation::Exists) => Err(LockFault::Locked),
        Err(DiskRefusal::Failed) => Err(LockFault::Failed),
        Err(DiskRefusal::Memory) => Err(LockFault::Memory),
    }
}
