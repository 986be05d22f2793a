ghost use Rattle.std.specs.Prelude.{◌≡◌, ◌≤◌, IfOk, true};
ghost use Rattle.sccs_sid.specs.Moment.{IsMoment};
ghost use Rattle.sccs_steps.specs.Settings.{SameLoans, setting, setting_of};
ghost use Rattle.sccs_step_lists.specs.Following.{RunsStepList};
ghost use Rattle.sccs_step_lists.specs.QuietSettings.{quiet};
ghost use Rattle.sccs_step_lists.specs.WhileFine.{RunsWhileFine};
ghost use Rattle.sccs_batch.specs.BatchText.{is_single};
ghost use Rattle.sccs_batch.specs.declared.entries.BatchEntry.{BatchEntry};
ghost use Rattle.sccs_soak.specs.Commands.{rounds_from};
ghost use Rattle.sccs_soak.specs.Runs.{RunsRound, RunsSoak, RunsSoaked};
ghost use Rattle.sccs_soak.specs.Soak.{BegunSummary, WholeSummary, soaking};
ghost use Rattle.sccs_soak.specs.Summaries.{summary_step_list};

use crate::commands::{SOAK_FILE, delta_command, edit_command, first_command};
use crate::draws::Draws;
use crate::summaries::Summary;
use crate::turns::Turn;
use sccs_base::{Memory, Sink, Source, SteadySource};
use sccs_batch::{BatchEntry, Commands};
use sccs_disk::Disk;
use sccs_steps::{Fault, Ordinary, Streams, run_operand};
use std::alloc::Global;

// does a command that was made
fn run_made<C: Commands, O: Sink, E: Sink, D: Disk>(
    alloc: Global,
    commands: &C,
    made: Result<BatchEntry, Memory>,
    out: &mut O,
    err: &mut E,
    disk: &mut D,
) -> Result<u8, Fault>
    requires moment { IfOk made (λ entry. IsMoment entry.stamp.moment) }
    requires single { IfOk made (λ entry. is_single entry.words ≡ true) }
    ensures { (entry : BatchEntry) → IfOk made (λ e. e ≡ entry)
        → RunsSoaked (C.command commands.now entry) (C.fits commands.now entry) (C.whole commands.now entry)
        (C.begun commands.now entry) result
        (quiet O.Sink E.Sink D.Disk out.old err.old disk.old) (quiet O.Sink E.Sink D.Disk out.new err.new disk.new) }
{
    match made {
        Ok(entry) => commands.run(alloc, &entry, out, err, disk),
        Err(_) => Err(Fault::Memory),
    }
}

// does the commands of a round
fn run_round<C: Commands, O: Sink, E: Sink, D: Disk>(
    alloc: Global,
    commands: &C,
    round: u64,
    turn: Turn,
    out: &mut O,
    err: &mut E,
    disk: &mut D,
) -> Result<u8, Fault>
    requires { round ≤ 2000 }
    ensures { RunsRound (C.command commands.now) (C.fits commands.now) (C.whole commands.now) (C.begun commands.now)
        round turn result
        (quiet O.Sink E.Sink D.Disk out.old err.old disk.old) (quiet O.Sink E.Sink D.Disk out.new err.new disk.new) }
{
    let edit = edit_command(alloc, round, turn);
    let status = run_made(alloc, commands, edit, out, err, disk)?;
    if status != 0 {
        return Ok(status);
    }
    let delta = delta_command(alloc, round, turn);
    run_made(alloc, commands, delta, out, err, disk)
}

// prints what the commands made
fn print_streams<I: Source, O: Sink, E: Sink, D: Disk>(
    alloc: Global,
    number: u64,
    streams: &mut Streams<I, O, E, D>,
) -> Result<u8, Fault>
    ensures loans { SameLoans streams.old streams.new }
    ensures run { RunsStepList (summary_step_list number) (λ i. Unit {0}) (WholeSummary number) (BegunSummary number)
        result
        (setting I.Source O.Sink E.Sink D.Disk streams.old) (setting I.Source O.Sink E.Sink D.Disk streams.new) }
{
    let utility = Ordinary {
        utility: Summary { rounds: number },
    };
    run_operand(alloc, &utility, SOAK_FILE, streams)
}

// the same over streams that are lent one by one
fn print_made<I: Source, O: Sink, E: Sink, D: Disk>(
    alloc: Global,
    number: u64,
    input: &mut I,
    out: &mut O,
    err: &mut E,
    disk: &mut D,
) -> Result<u8, Fault>
    ensures { RunsStepList (summary_step_list number) (λ i. Unit {0}) (WholeSummary number) (BegunSummary number) result
        (setting_of I.Source O.Sink E.Sink D.Disk input.old out.old err.old disk.old)
        (setting_of I.Source O.Sink E.Sink D.Disk input.new out.new err.new disk.new) }
{
    let mut streams = Streams {
        input,
        out,
        err,
        disk,
    };
    print_streams(alloc, number, &mut streams)
}

// prints what the commands made
fn run_summary<O: Sink, E: Sink, D: Disk>(
    alloc: Global,
    number: u64,
    out: &mut O,
    err: &mut E,
    disk: &mut D,
) -> Result<u8, Fault>
    ensures { RunsStepList (summary_step_list number) (λ i. Unit {0}) (WholeSummary number) (BegunSummary number) result
        (quiet O.Sink E.Sink D.Disk out.old err.old disk.old) (quiet O.Sink E.Sink D.Disk out.new err.new disk.new) }
{
    match SteadySource::new(alloc, b"") {
        Ok(mut input) => print_made(alloc, number, &mut input, out, err, disk),
        Err(_) => Err(Fault::Memory),
    }
}

// does the rounds, and prints what they made
fn run_rounds<C: Commands, O: Sink, E: Sink, D: Disk>(
    alloc: Global,
    commands: &C,
    number: u64,
    out: &mut O,
    err: &mut E,
    disk: &mut D,
) -> Result<u8, Fault>
    requires { number ≤ 2000 }
    ensures { RunsWhileFine (soaking (C.command commands.now) (C.fits commands.now) (C.whole commands.now)
        (C.begun commands.now) number) (rounds_from number 1 number 0) result
        (quiet O.Sink E.Sink D.Disk out.old err.old disk.old) (quiet O.Sink E.Sink D.Disk out.new err.new disk.new) }
{
    let mut draws = Draws { state: number };
    let mut lines = 0;
    let mut round = 1;
    'rounds: while round <= number {
        let choice = draws.draw();
        let place = draws.draw();
        let turn = Turn::of(choice, place, lines);
        let status = run_round(alloc, commands, round, turn, out, err, disk)?;
        if status != 0 {
            return Ok(status);
        }
        lines = turn.lines_after(lines);
        round += 1;
    }
    run_summary(alloc, number, out, err, disk)
}

/// Does a soak: the commands that a number makes, at most 2,000, on `s.soak`, and then prints what they made of it. At
/// the first command that is refused, or where the file can't be read, its message is said, and nothing more is done
/// or printed.
pub fn run_soak<C: Commands, O: Sink, E: Sink, D: Disk>(
    alloc: Global,
    commands: &C,
    number: u64,
    out: &mut O,
    err: &mut E,
    disk: &mut D,
) -> Result<u8, Fault>
    requires { number ≤ 2000 }
    ensures { RunsSoak (C.command commands.now) (C.fits commands.now) (C.whole commands.now) (C.begun commands.now)
        number result
        (quiet O.Sink E.Sink D.Disk out.old err.old disk.old) (quiet O.Sink E.Sink D.Disk out.new err.new disk.new) }
{
    let first = first_command(alloc);
    let status = run_made(alloc, commands, first, out, err, disk)?;
    if status != 0 {
        return Ok(status);
    }
    run_rounds(alloc, commands, number, out, err, disk)
}
