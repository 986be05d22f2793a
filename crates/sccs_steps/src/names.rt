ghost use Rattle.std.specs.Prelude.{◌≡◌, ◌≤◌, ◌⊎◌, ℕ, Err, false};
ghost use Rattle.sccs_base.specs.Stream.{Rose};
ghost use Rattle.sccs_steps.specs.Messages.{Concludes, SaysRefusal};
ghost use Rattle.sccs_steps.specs.Running.{RunsName, RunsNames};
ghost use Rattle.sccs_steps.specs.Settings.{SameLoans, setting};
ghost use Rattle.sccs_steps.specs.Statuses.{idle_status, joined_status};
ghost use Rattle.sccs_steps.specs.declared.faults.Fault.TheVariants as end;
ghost use Rattle.sccs_sid.specs.declared.refusals.StepFault.TheVariants as fault;

use crate::faults::Fault;
use crate::streams::Streams;
use crate::utilities::UtilityWithStatus;
use sccs_base::{Bytes, Sink, Source};
use sccs_disk::Disk;
use sccs_sid::{Refusal, StepFault, write_refusal};
use std::alloc::Global;

/// Says why a step was refused; its status is 1.
pub fn refuse<E: Sink>(operand: &[u8], refusal: &Refusal, err: &mut E) -> Result<u8, Fault>
    ensures says { SaysRefusal operand.now refusal.now result (E.given err.old) (E.given err.new) }
    ensures later { E.faults err.old ≤ E.faults err.new }
    ensures cause { result ≡ Err end.WriteFault → Rose (E.faults err.old) (E.faults err.new) }
{
    match write_refusal(operand, refusal, err) {
        Ok(()) => Ok(1),
        Err(_) => Err(Fault::WriteFault),
    }
}

/// How an operand ends whose step ended so: a refusal is said.
pub fn conclude<E: Sink>(
    operand: &[u8],
    made: Result<u8, StepFault>,
    err: &mut E,
) -> Result<u8, Fault>
    ensures concludes { Concludes made operand.now result (E.given err.old) (E.given err.new) }
    ensures later { E.faults err.old ≤ E.faults err.new }
    ensures cause { result ≡ Err end.WriteFault → (made ≡ Err fault.WriteFault) × (E.faults err.new ≡ E.faults err.old)
        ⊎ Rose (E.faults err.old) (E.faults err.new) }
    ensures read { result ≡ Err end.ReadFault → made ≡ Err fault.ReadFault }
    ensures broke { result ≡ Err end.DiskFault → made ≡ Err fault.DiskFault }
{
    match made {
        Ok(status) => Ok(status),
        Err(StepFault::Refused(refusal)) => refuse(operand, &refusal, err),
        Err(StepFault::Memory) => Err(Fault::Memory),
        Err(StepFault::ReadFault) => Err(Fault::ReadFault),
        Err(StepFault::WriteFault) => Err(Fault::WriteFault),
        Err(StepFault::DiskFault) => Err(Fault::DiskFault),
    }
}

/// The status of no step.
pub fn idle_status<U: UtilityWithStatus>(utility: &U) -> u8
    ensures { result ≡ idle_status (U.action utility.now).rule }
{
    utility.rule().idle()
}

/// The status of steps and of those behind them.
pub fn joined_status<U: UtilityWithStatus>(utility: &U, a: u8, b: u8) -> u8
    ensures { result ≡ joined_status (U.action utility.now).rule a b }
{
    utility.rule().joined(a, b)
}

/// Makes the step of one file, says why it was refused, and answers the status.
pub fn run_name<U: UtilityWithStatus, I: Source, O: Sink, E: Sink, D: Disk>(
    alloc: Global,
    utility: &U,
    name: &[u8],
    streams: &mut Streams<I, O, E, D>,
) -> Result<u8, Fault>
    ensures loans { SameLoans streams.old streams.new }
    ensures run { RunsName (U.action utility.now) name.now result (setting I.Source O.Sink E.Sink D.Disk streams.old)
        (setting I.Source O.Sink E.Sink D.Disk streams.new) }
{
    let Some(file) = utility.name(name) else {
        return conclude(name, Err(StepFault::Refused(Refusal::BadName)), streams.err);
    };
    let made = utility.step(
        alloc,
        &file,
        streams.input,
        streams.out,
        streams.err,
        streams.disk,
    );
    conclude(name, made, streams.err)
}

/// Makes the step of each file in turn, and answers their status by the utility's rule.
pub fn run_names<U: UtilityWithStatus, I: Source, O: Sink, E: Sink, D: Disk>(
    alloc: Global,
    utility: &U,
    names: &[Bytes],
    streams: &mut Streams<I, O, E, D>,
) -> Result<u8, Fault>
    requires { (U.action utility.now).takes ≡ false }
    ensures loans { SameLoans streams.old streams.new }
    ensures run { RunsNames (U.action utility.now) names.now result (setting I.Source O.Sink E.Sink D.Disk streams.old)
        (setting I.Source O.Sink E.Sink D.Disk streams.new) }
{
    let mut status = idle_status(utility);
    for name in names {
        let one = run_name(alloc, utility, name.bytes(), streams)?;
        status = joined_status(utility, status, one);
    }
    Ok(status)
}
