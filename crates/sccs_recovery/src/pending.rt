ghost use Rattle.std.specs.Prelude.{◌≡◌, ◌≢◌, ◌↔◌, None, IfOk, IfSome, IsErrOf, IsSome};
ghost use Rattle.sccs_base.specs.Name.{IsSFileName, z_file};
ghost use Rattle.sccs_disk.specs.Causes.{DiskCauses};
ghost use Rattle.sccs_disk.specs.Files.{View};
ghost use Rattle.sccs_disk.specs.Told.{seen};
ghost use Rattle.sccs_intents.specs.Intents.{intent_file, intent_of};
ghost use Rattle.sccs_sid.specs.declared.refusals.StepFault.TheVariants as step;
ghost use Rattle.sccs_recovery.specs.Checks.{IsWithin, PassesChecks, RefusesIntent, free_checked, none_pending};
ghost use Rattle.sccs_recovery.specs.Ends.{RecoversName};

use crate::recoveries::{Recovered, recover};
use sccs_base::Name;
use sccs_disk::Disk;
use sccs_group::intent_name;
use sccs_intents::{IntentFault, read_intent};
use sccs_name_files::{WholeFault, read_whole};
use sccs_sid::{Refusal, StepFault};
use std::alloc::Global;

// why nothing is recovered while an intent of these bytes is there
fn intent_fault(alloc: Global, bytes: &[u8]) -> StepFault
    ensures refuses { RefusesIntent (intent_of bytes.now) result }
    ensures works { result ≢ step.DiskFault }
    ensures read { result ≢ step.ReadFault }
    ensures write { result ≢ step.WriteFault }
{
    match read_intent(alloc, bytes) {
        Ok(_) => StepFault::Refused(Refusal::GroupPending),
        Err(IntentFault::BadIntent(line)) => StepFault::Refused(Refusal::BadIntent(line)),
        Err(IntentFault::Memory) => StepFault::Memory,
    }
}

// no intent is there
fn check_intent<D: Disk>(alloc: Global, disk: &mut D) -> Result<(), StepFault>
    ensures checks { IfSome (seen (D.told disk.old)) (λ (v : View). PassesChecks (none_pending (v intent_file))
        result) }
    ensures same { D.told disk.new ≡ D.told disk.old }
    ensures causes { DiskCauses (IsErrOf result StepFault.DiskFault) (D.faults disk.old) (D.faults disk.new) }
    ensures within { IsWithin result }
{
    match read_whole(alloc, disk, &intent_name()) {
        Ok(bytes) => Err(intent_fault(alloc, bytes.bytes())),
        Err(WholeFault::Missing) => Ok(()),
        Err(WholeFault::TooLong) => Err(StepFault::Refused(Refusal::BadIntent(1))),
        Err(WholeFault::Failed) => Err(StepFault::DiskFault),
        Err(WholeFault::Memory) => Err(StepFault::Memory),
    }
}

/// Recovers a name where no intent is there. An intent that is there refuses it, and the disk stays as it is.
pub fn recover_free<D: Disk>(
    alloc: Global,
    disk: &mut D,
    name: &Name,
) -> Result<Recovered, StepFault>
    requires { IsSFileName name.now }
    ensures clean { IfOk result (λ answer. IfSome (seen (D.told disk.old)) (λ (v : View). (answer ≡ Recovered.Clean)
        ↔ (v (z_file name.now) ≡ None))) }
    ensures checks { IfSome (seen (D.told disk.old)) (λ (v : View). PassesChecks (free_checked name.now v) result) }
    ensures pending { IfSome (seen (D.told disk.old)) (λ (v : View). IsSome (v intent_file)
        → D.told disk.new ≡ D.told disk.old) }
    ensures ends { RecoversName name.now (D.told disk.old) (D.told disk.new) (D.faults disk.old) (D.faults disk.new)
        result }
{
    check_intent(alloc, disk)?;
    recover(alloc, disk, name)
}
