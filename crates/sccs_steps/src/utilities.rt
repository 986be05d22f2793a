ghost use Rattle.std.specs.Prelude.{◌≡◌, ℕ, true, false, IfOk, IfSome, is_some};
ghost use Rattle.sccs_disk.specs.Told.{Told};
ghost use Rattle.sccs_sid.specs.declared.refusals.StepFault.TheVariants as step;
ghost use Rattle.sccs_steps.specs.Actions.{Action, KeepsFiles, SpeaksBy, SpeaksByAs, Stepped, SteppedAs};
ghost use Rattle.sccs_steps.specs.Calls.{scene};
ghost use Rattle.sccs_steps.specs.Causes.{Ignores, StepCauses, counts};
ghost use Rattle.sccs_steps.specs.Recovering.{StepRecovers};
ghost use Rattle.sccs_steps.specs.StepStops.{StepCrashPoints, StepCrashPointsAs};
ghost use Rattle.sccs_steps.specs.Unlocked.{StepOthers, StepUnlocked};

use crate::statuses::StatusRule;
use sccs_base::{Name, Sink, Source};
use sccs_disk::Disk;
use sccs_sid::StepFault;
use std::alloc::Global;

/// What is done with each operand of a command, where the status of a step that is made is 0 (`Ordinary` makes a
/// utility with a status of it).
pub trait Utility {
    /// What is done with an operand.
    ghost action: { Self → Action };

    /// A utility that only reads changes no file, and one that changes files takes s-files' names alone.
    ghost keeps: { (utility : Self) → KeepsFiles (action utility) };

    /// The name that an operand is; None where the utility takes no such operand.
    fn name(&self, operand: &[u8]) -> Option<Name>
        ensures found { IfSome result (λ name. name ≡ operand.now) }
        ensures exact { is_some result ≡ (action self.now).fits operand.now };

    /// Whether its step takes the input; then each operand is the name of a file.
    fn takes_input(&self) -> bool
        ensures { result ≡ (action self.now).takes };

    /// Makes the step of one file. Where it begins on a calm disk and the name is safe, a stop at any
    /// moment leaves what recovers as before the step or as after it; and it ends on a calm disk, unless
    /// the disk failed. One that doesn't lock its name may begin on any disk whose s-files and p-files are
    /// firm: a stop leaves what recovers as something that one could leave at its start, they are firm at
    /// its end, and at Ok the disk is calm.
    fn step<I: Source, O: Sink, E: Sink, D: Disk>(
        &self,
        alloc: Global,
        name: &Name,
        input: &mut I,
        out: &mut O,
        err: &mut E,
        disk: &mut D,
    ) -> Result<(), StepFault>
        requires { (action self.now).fits name.now ≡ true }
        ensures step { Stepped (action self.now) result name.now (I.left input.old)
            (scene (D.told disk.old) (O.given out.old) (E.given err.old))
            (scene (D.told disk.new) (O.given out.new) (E.given err.new)) }
        ensures crash_points { StepCrashPoints (action self.now) result name.now (I.left input.old)
            (scene (D.told disk.old) (O.given out.old) (E.given err.old))
            (scene (D.told disk.new) (O.given out.new) (E.given err.new)) }
        ensures unlocked { StepUnlocked (action self.now) name.now (D.told disk.old) (D.told disk.new) }
        ensures others { StepOthers (action self.now) name.now (D.told disk.old) (D.told disk.new) }
        ensures recovers { StepRecovers (action self.now) result (D.told disk.old) (D.told disk.new) }
        ensures speaks { SpeaksBy (action self.now).could result name.now (E.given err.old) (E.given err.new) }
        ensures reads { (action self.now).reads ≡ true → D.told disk.new ≡ D.told disk.old }
        ensures silent { (action self.now).silent ≡ true → O.given out.new ≡ O.given out.old }
        ensures ignores { (action self.now).takes ≡ false
            → Ignores step.ReadFault (I.left input.old) (I.left input.new) (I.faults input.old) (I.faults input.new)
            result }
        ensures causes { StepCauses result
            (counts (I.faults input.old) (O.faults out.old) (E.faults err.old) (D.faults disk.old))
            (counts (I.faults input.new) (O.faults out.new) (E.faults err.new) (D.faults disk.new)) };
}

/// What is done with each operand of a command, where a step that is made ends with a status of its own.
pub trait UtilityWithStatus {
    /// What is done with an operand.
    ghost action: { Self → Action };

    /// A utility that only reads changes no file, and one that changes files takes s-files' names alone.
    ghost keeps: { (utility : Self) → KeepsFiles (action utility) };

    /// The name that an operand is; None where the utility takes no such operand.
    fn name(&self, operand: &[u8]) -> Option<Name>
        ensures found { IfSome result (λ name. name ≡ operand.now) }
        ensures exact { is_some result ≡ (action self.now).fits operand.now };

    /// Whether its step takes the input; then each operand is the name of a file.
    fn takes_input(&self) -> bool
        ensures { result ≡ (action self.now).takes };

    /// How the statuses of its steps become one.
    fn rule(&self) -> StatusRule
        ensures { result ≡ (action self.now).rule };

    /// Makes the step of one file, and answers its status: 0 where files are changed. Where it begins on a calm disk
    /// and the name is safe, a stop at any moment leaves what recovers as before the step or as after it; and it ends
    /// on a calm disk, unless the disk failed. One that doesn't lock its name may begin on any disk whose s-files and
    /// p-files are firm: a stop leaves what recovers as something that one could leave at its start, they are firm at
    /// its end, and at Ok the disk is calm.
    fn step<I: Source, O: Sink, E: Sink, D: Disk>(
        &self,
        alloc: Global,
        name: &Name,
        input: &mut I,
        out: &mut O,
        err: &mut E,
        disk: &mut D,
    ) -> Result<u8, StepFault>
        requires { (action self.now).fits name.now ≡ true }
        ensures step { SteppedAs (λ (status : ℕ). status) (action self.now) result name.now (I.left input.old)
            (scene (D.told disk.old) (O.given out.old) (E.given err.old))
            (scene (D.told disk.new) (O.given out.new) (E.given err.new)) }
        ensures crash_points { StepCrashPointsAs (λ (status : ℕ). status) (action self.now) result name.now
            (I.left input.old)
            (scene (D.told disk.old) (O.given out.old) (E.given err.old))
            (scene (D.told disk.new) (O.given out.new) (E.given err.new)) }
        ensures unlocked { StepUnlocked (action self.now) name.now (D.told disk.old) (D.told disk.new) }
        ensures others { StepOthers (action self.now) name.now (D.told disk.old) (D.told disk.new) }
        ensures recovers { StepRecovers (action self.now) result (D.told disk.old) (D.told disk.new) }
        ensures speaks { SpeaksByAs (λ (status : ℕ). status) (action self.now).could result name.now (E.given err.old)
            (E.given err.new) }
        ensures status { (action self.now).reads ≡ false → IfOk result (λ (status : ℕ). status ≡ 0) }
        ensures reads { (action self.now).reads ≡ true → D.told disk.new ≡ D.told disk.old }
        ensures silent { (action self.now).silent ≡ true → O.given out.new ≡ O.given out.old }
        ensures ignores { (action self.now).takes ≡ false
            → Ignores step.ReadFault (I.left input.old) (I.left input.new) (I.faults input.old) (I.faults input.new)
            result }
        ensures causes { StepCauses result
            (counts (I.faults input.old) (O.faults out.old) (E.faults err.old) (D.faults disk.old))
            (counts (I.faults input.new) (O.faults out.new) (E.faults err.new) (D.faults disk.new)) };
}
