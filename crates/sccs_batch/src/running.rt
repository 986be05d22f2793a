ghost use Rattle.std.specs.Prelude.{◌≡◌, ◌≤◌, true, length, IfOk, IfSome};
ghost use Rattle.sccs_sid.specs.Moment.{IsMoment};
ghost use Rattle.sccs_steps.specs.Settings.{setting_of};
ghost use Rattle.sccs_step_lists.specs.QuietSettings.{quiet};
ghost use Rattle.sccs_batch.specs.BatchText.{batch_of, is_single};
ghost use Rattle.sccs_batch.specs.Batches.{RunsBatch, RunsEntries, RunsEntry, RunsNext, RefusesInput};

use crate::commands::Commands;
use crate::entries::BatchEntry;
use crate::messages::{write_bad, write_status};
use crate::reading::read_entry;
use sccs_base::{FILE_LIMIT, Line, Sink, Source, TakeFault};
use sccs_disk::Disk;
use sccs_operands::read_names;
use sccs_sid::{Refusal, write_refusal};
use sccs_steps::Fault;
use std::alloc::Global;

// runs the command of an entry, and writes its status
fn run_entry<C: Commands, O: Sink, E: Sink, D: Disk>(
    alloc: Global,
    commands: &C,
    entry: &BatchEntry,
    out: &mut O,
    err: &mut E,
    disk: &mut D,
) -> Result<u8, Fault>
    requires moment { IsMoment entry.now.stamp.moment }
    requires single { is_single entry.now.words ≡ true }
    ensures { RunsEntry (C.command commands.now entry.now) (C.fits commands.now entry.now)
        (C.whole commands.now entry.now) (C.begun commands.now entry.now) result
        (quiet O.Sink E.Sink D.Disk out.old err.old disk.old) (quiet O.Sink E.Sink D.Disk out.new err.new disk.new) }
{
    let status = commands.run(alloc, entry, out, err, disk)?;
    match write_status(status, out) {
        Ok(()) => Ok(status),
        Err(_) => Err(Fault::WriteFault),
    }
}

// runs the entry of a line, and answers how many lines behind it are its own; None where it is none, which is said
fn run_next<C: Commands, O: Sink, E: Sink, D: Disk>(
    alloc: Global,
    commands: &C,
    line: &[u8],
    tail: &[Line],
    number: u64,
    out: &mut O,
    err: &mut E,
    disk: &mut D,
) -> Result<Option<u32>, Fault>
    ensures within { IfOk result (λ next. IfSome next (λ own. own ≤ length tail.now)) }
    ensures run { RunsNext (C.command commands.now) (C.fits commands.now) (C.whole commands.now) (C.begun commands.now)
        number line.now tail.now result
        (quiet O.Sink E.Sink D.Disk out.old err.old disk.old) (quiet O.Sink E.Sink D.Disk out.new err.new disk.new) }
{
    let Ok(found) = read_entry(alloc, line, tail) else {
        return Err(Fault::Memory);
    };
    let Some(found) = found else {
        return match write_bad(number, err) {
            Ok(()) => Ok(None),
            Err(_) => Err(Fault::WriteFault),
        };
    };
    run_entry(alloc, commands, &found.entry, out, err, disk)?;
    Ok(Some(found.lines))
}

// runs the entries of lines in turn, up to the first that is none
fn run_entries<C: Commands, O: Sink, E: Sink, D: Disk>(
    alloc: Global,
    commands: &C,
    lines: &[Line],
    out: &mut O,
    err: &mut E,
    disk: &mut D,
) -> Result<u8, Fault>
    ensures { RunsEntries (C.command commands.now) (C.fits commands.now) (C.whole commands.now) (C.begun commands.now)
        (batch_of lines.now) result
        (quiet O.Sink E.Sink D.Disk out.old err.old disk.old) (quiet O.Sink E.Sink D.Disk out.new err.new disk.new) }
{
    let mut at = 0;
    'entries: while at < lines.len() {
        let line = lines[at].bytes();
        let number = at as u64 + 1;
        match run_next(
            alloc,
            commands,
            line,
            &lines[at + 1..],
            number,
            out,
            err,
            disk,
        )? {
            Some(own) => at += 1 + own as usize,
            None => return Ok(1),
        }
    }
    Ok(0)
}

/// Refuses an input that is past the limit.
pub fn refuse_input<E: Sink>(err: &mut E) -> Result<u8, Fault>
    ensures { RefusesInput result (E.given err.old) (E.given err.new) (E.faults err.old) (E.faults err.new) }
{
    match write_refusal(b"-", &Refusal::TooLong, err) {
        Ok(()) => Ok(1),
        Err(_) => Err(Fault::WriteFault),
    }
}

/// Runs the entries that the input is, in their order, each with its own stamp, words and input. Behind the output of
/// each stands its status, as `= STATUS`. At the first entry that is none the line of its `@` is said, and the status
/// is 1; where the input was read to its end it is 0. Of an input past the limit nothing is run.
pub fn run_batch<C: Commands, I: Source, O: Sink, E: Sink, D: Disk>(
    alloc: Global,
    commands: &C,
    input: &mut I,
    out: &mut O,
    err: &mut E,
    disk: &mut D,
) -> Result<u8, Fault>
    ensures { RunsBatch (C.command commands.now) (C.fits commands.now) (C.whole commands.now) (C.begun commands.now)
        result
        (setting_of I.Source O.Sink E.Sink D.Disk input.old out.old err.old disk.old)
        (setting_of I.Source O.Sink E.Sink D.Disk input.new out.new err.new disk.new) }
{
    match read_names(alloc, input, FILE_LIMIT) {
        Ok(lines) => run_entries(alloc, commands, lines.items(), out, err, disk),
        Err(TakeFault::TooLong) => refuse_input(err),
        Err(TakeFault::Failed) => Err(Fault::ReadFault),
        Err(TakeFault::Memory) => Err(Fault::Memory),
    }
}
