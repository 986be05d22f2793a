ghost use Rattle.std.specs.Prelude.{◌≡◌, ℕ, Option, []};
ghost use Rattle.sccs_base.specs.Causes.{GivesText};
ghost use Rattle.sccs_disk.specs.Files.{View};
ghost use Rattle.sccs_steps.specs.Calls.{world};
ghost use Rattle.sccs_steps.specs.Causes.{StepCauses, counts};
ghost use Rattle.sccs_changes.specs.Ends.{Reports};

use crate::prepared::Prepared;
use sccs_base::{Failed, Sink};
use sccs_sid::StepFault;

/// Gives bytes, where there are any.
pub fn give_any<S: Sink>(bytes: &[u8], out: &mut S) -> Result<(), Failed>
    ensures text { GivesText bytes.now (S.given out.old) (S.given out.new) (S.faults out.old)
        (S.faults out.new) result }
    ensures none { bytes.now ≡ [] → S.given out.new ≡ S.given out.old }
{
    if bytes.is_empty() {
        return Ok(());
    }
    out.give(bytes)
}

/// Gives a report and a message that were made before: those of a change after its commit, or of a step that
/// only reads.
pub fn report<O: Sink, E: Sink>(
    prepared: &Prepared,
    out: &mut O,
    err: &mut E,
) -> Result<(), StepFault>
    ensures reports { (view : Option View) → Reports result prepared.now
        (world view (O.given out.old) (E.given err.old)) (world view (O.given out.new) (E.given err.new)) }
    ensures none { prepared.now.report ≡ [] → O.given out.new ≡ O.given out.old }
    ensures causes { (input disk : ℕ) → StepCauses result
        (counts input (O.faults out.old) (E.faults err.old) disk) (counts input (O.faults out.new)
        (E.faults err.new) disk) }
{
    let Ok(()) = give_any(prepared.report.bytes(), out) else {
        return Err(StepFault::WriteFault);
    };
    let Ok(()) = give_any(prepared.message.bytes(), err) else {
        return Err(StepFault::WriteFault);
    };
    Ok(())
}
