ghost use Rattle.std.specs.Prelude.{◌≡◌, Err};
ghost use Rattle.sccs_disk.specs.Causes.{DiskCauses};
ghost use Rattle.sccs_steps.specs.declared.faults.Fault.TheVariants as ends;
ghost use Rattle.sccs_recovery.specs.FinishingEnds.{FinishEnds, FinishOthers};

use sccs_disk::Disk;
use sccs_group::{clear, plan_name};
use sccs_steps::Fault;

/// Where memory is wanting a plan goes all the same, and nothing else.
pub fn lose_plan<D: Disk>(disk: &mut D) -> Fault
    ensures ends { FinishEnds (Err result) (D.told disk.old) (D.told disk.new) }
    ensures others { FinishOthers (D.told disk.old) (D.told disk.new) }
    ensures causes { DiskCauses (result ≡ ends.DiskFault) (D.faults disk.old) (D.faults disk.new) }
{
    match clear(disk, &plan_name()) {
        Ok(()) => Fault::Memory,
        Err(_) => Fault::DiskFault,
    }
}
