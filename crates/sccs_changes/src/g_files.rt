ghost use Rattle.std.specs.Prelude.{[], IfOk};
ghost use Rattle.sccs_base.specs.Name.{IsSFileName};
ghost use Rattle.sccs_steps.specs.Actions.{RefusesWithin};
ghost use Rattle.sccs_changes.specs.NewEntries.{LeavesG, OnlyGoes};
ghost use Rattle.sccs_changes.specs.PFiles.{OnlyReads};

use sccs_base::Name;
use sccs_disk::Disk;
use sccs_sid::StepFault;
use sccs_store::NewG;

/// What a commit makes of the g-file of an s-file's name that is to go unless it is kept: it is removed where it
/// is there. POSIX, delta and unget, -n.
pub fn remove_g<D: Disk>(keep: bool, disk: &mut D, name: &Name) -> Result<NewG, StepFault>
    requires { IsSFileName name.now }
    ensures leaves { IfOk result (λ new. LeavesG name.now keep new (D.told disk.old)) }
    ensures goes { IfOk result (λ new. OnlyGoes new) }
    ensures checks { RefusesWithin [] result }
    ensures frame { OnlyReads D.told D.faults disk.old disk.new result }
{
    if keep {
        return Ok(NewG::Keep);
    }
    match disk.size(&name.module()) {
        Ok(Some(_)) => Ok(NewG::Remove),
        Ok(None) => Ok(NewG::Keep),
        Err(_) => Err(StepFault::DiskFault),
    }
}
