ghost use Rattle.std.specs.Prelude.{◌≡◌, ℕ, List, Option, Err, true, false, IfOk};
ghost use Rattle.sccs_base.specs.Name.{IsSFileName, z_file};
ghost use Rattle.sccs_disk.specs.Calls.{IsThere};
ghost use Rattle.sccs_disk.specs.Told.{seen};
ghost use Rattle.sccs_sid.specs.declared.refusals.Refusal.TheVariants.{Locked};
ghost use Rattle.sccs_sid.specs.declared.refusals.StepFault.TheVariants as step;
ghost use Rattle.sccs_steps.specs.Calls.{world};
ghost use Rattle.sccs_steps.specs.Causes.{Ignores, StepCauses, counts};
ghost use Rattle.sccs_changes.specs.Stops.{IsFirmPrepared, SettlesEntries};
ghost use Rattle.sccs_changes.specs.Changes.{Changing, CouldPrepare, Drafts, IsQuiet, IsReady, PreparesChange};

use crate::prepared::Prepared;
use sccs_base::{Name, Sink, Source};
use sccs_disk::Disk;
use sccs_sid::StepFault;
use std::alloc::Global;

/// What a utility makes of the files of a name.
pub trait Change {
    /// What is made of them.
    ghost change: { Self → Changing };

    /// A locked name may be refused.
    ghost locked: { (utility : Self) → (change utility).could (Err Locked) ≡ true };

    /// Whether it takes the input.
    fn takes_input(&self) -> bool
        ensures { result ≡ (change self.now).takes };

    /// Makes the checks behind the lock, and the new files as working files.
    fn prepare<I: Source, O: Sink, D: Disk>(
        &self,
        alloc: Global,
        name: &Name,
        input: &mut I,
        out: &mut O,
        disk: &mut D,
    ) -> Result<Prepared, StepFault>
        requires sfile { IsSFileName name.now }
        requires locked { IsThere (z_file name.now) (D.told disk.old) }
        ensures prepares { (err : Option (List ℕ)) → PreparesChange (change self.now) result name.now (I.left input.old)
            (world (seen (D.told disk.old)) (O.given out.old) err) (world (seen (D.told disk.new))
            (O.given out.new) err) }
        ensures needs { IfOk result (λ p. IsReady name.now p (D.told disk.new)) }
        ensures touches { Drafts (change self.now).early name.now (D.told disk.old) (D.told disk.new) }
        ensures firm { IfOk result (λ p. IsFirmPrepared name.now p (D.told disk.old) (D.told disk.new)) }
        ensures entries { IfOk result (λ p. SettlesEntries name.now p (D.told disk.new)) }
        ensures speaks { CouldPrepare (change self.now).could result }
        ensures silent { (change self.now).silent ≡ true → (O.given out.new ≡ O.given out.old) × IsQuiet result }
        ensures ignores { (change self.now).takes ≡ false
            → Ignores step.ReadFault (I.left input.old) (I.left input.new) (I.faults input.old) (I.faults input.new)
            result }
        ensures causes { (err : ℕ) → StepCauses result
            (counts (I.faults input.old) (O.faults out.old) err (D.faults disk.old))
            (counts (I.faults input.new) (O.faults out.new) err (D.faults disk.new)) };
}
