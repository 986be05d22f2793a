ghost use Rattle.std.specs.Prelude.{◌≡◌, [], OnOk};
ghost use Rattle.sccs_disk.specs.Calls.{IsThere};
ghost use Rattle.sccs_tokens.specs.Written.{ended};
ghost use Rattle.sccs_printing.specs.Targets.{CanTake, GivesTo, UsesTarget, file_of, target_bytes, held_back};
ghost use Rattle.sccs_printing.specs.Targets.{writing_fault};

use sccs_base::{OutputBuffer, Sink};
use sccs_disk::{Disk, DiskRefusal};
use sccs_sid::StepFault;
use sccs_writers::PieceWriter;

/// Where a text goes, and what is held back of it.
#[derive(Drop)]
pub enum Target {
    ToSink(OutputBuffer),
    ToFile(PieceWriter),
}

/// How a step ends where a file isn't written.
pub fn step_fault(refusal: DiskRefusal) -> StepFault
    ensures { result ≡ writing_fault refusal }
{
    match refusal {
        DiskRefusal::Failed => StepFault::DiskFault,
        DiskRefusal::Memory => StepFault::Memory,
    }
}

/// Gives a text to a target: to the sink, or into the file.
#[inline(always)]
pub fn put<O: Sink, D: Disk>(
    target: &mut Target,
    text: &[u8],
    out: &mut O,
    disk: &mut D,
) -> Result<(), StepFault>
    requires { CanTake (file_of target.old) (D.told disk.old) }
    ensures frame { UsesTarget (file_of target.old) O.given O.faults D.told D.faults out.old out.new disk.old disk.new
        result }
    ensures gives { GivesTo (file_of target.old) text.now result (held_back target.old) (held_back target.new)
        (target_bytes (file_of target.old) (O.given out.old) (D.told disk.old)) (target_bytes (file_of target.old)
        (O.given out.new) (D.told disk.new)) }
    ensures file { file_of target.new ≡ file_of target.old }
{
    match target {
        Target::ToSink(buffer) => match buffer.give(out, text) {
            Ok(()) => Ok(()),
            Err(_) => Err(StepFault::WriteFault),
        },
        Target::ToFile(writer) => match writer.put(text, disk) {
            Ok(()) => Ok(()),
            Err(refusal) => Err(step_fault(refusal)),
        },
    }
}

/// Gives a line and its LF to a target, without a copy of it.
pub fn put_line<O: Sink, D: Disk>(
    target: &mut Target,
    line: &[u8],
    out: &mut O,
    disk: &mut D,
) -> Result<(), StepFault>
    requires { CanTake (file_of target.old) (D.told disk.old) }
    ensures frame { UsesTarget (file_of target.old) O.given O.faults D.told D.faults out.old out.new disk.old disk.new
        result }
    ensures gives { GivesTo (file_of target.old) (ended line.now) result (held_back target.old) (held_back target.new)
        (target_bytes (file_of target.old) (O.given out.old) (D.told disk.old)) (target_bytes (file_of target.old)
        (O.given out.new) (D.told disk.new)) }
    ensures file { file_of target.new ≡ file_of target.old }
{
    put(target, line, out, disk)?;
    put(target, b"\n", out, disk)
}

/// Gives what is held back.
pub fn flush<O: Sink, D: Disk>(
    target: &mut Target,
    out: &mut O,
    disk: &mut D,
) -> Result<(), StepFault>
    requires { CanTake (file_of target.old) (D.told disk.old) }
    ensures frame { UsesTarget (file_of target.old) O.given O.faults D.told D.faults out.old out.new disk.old disk.new
        result }
    ensures gives { GivesTo (file_of target.old) [] result (held_back target.old) (held_back target.new)
        (target_bytes (file_of target.old) (O.given out.old) (D.told disk.old)) (target_bytes (file_of target.old)
        (O.given out.new) (D.told disk.new)) }
    ensures empty { OnOk result (held_back target.new ≡ []) }
    ensures file { file_of target.new ≡ file_of target.old }
{
    match target {
        Target::ToSink(buffer) => match buffer.flush(out) {
            Ok(()) => Ok(()),
            Err(_) => Err(StepFault::WriteFault),
        },
        Target::ToFile(writer) => match writer.flush(disk) {
            Ok(()) => Ok(()),
            Err(refusal) => Err(step_fault(refusal)),
        },
    }
}
