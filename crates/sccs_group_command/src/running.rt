ghost use Rattle.std.specs.Prelude.{◌≡◌, ◌≤◌, Err};
ghost use Rattle.sccs_base.specs.Causes.{GivesText};
ghost use Rattle.sccs_base.specs.Stream.{Rose};
ghost use Rattle.sccs_step_lists.specs.QuietSettings.{quiet};
ghost use Rattle.sccs_group_command.specs.GroupStepLists.{RunsEntries, RunsGroup, RunsLines, SaysBad, bad_line};
ghost use Rattle.sccs_group_command.specs.Preparing.{AreGrouped};
ghost use Rattle.sccs_group_command.specs.GroupText.{group_of};
ghost use Rattle.sccs_sid.specs.Moment.{IsMoment};
ghost use Rattle.sccs_steps.specs.Settings.{setting_of};
ghost use Rattle.sccs_steps.specs.declared.faults.Fault.TheVariants as ends;

use crate::entries::{GroupEntry, GroupFault};
use crate::groups::make_group;
use crate::reading::read_group;
use itoa::Buffer;
use sccs_base::{FILE_LIMIT, Failed, Line, Sink, Source, TakeFault, give_parts};
use sccs_batch::refuse_input;
use sccs_disk::Disk;
use sccs_operands::read_names;
use sccs_sid::Stamp;
use sccs_steps::{Fault, conclude};
use std::alloc::Global;

// makes a group of entries, and says why it is refused
fn run_entries<O: Sink, E: Sink, D: Disk>(
    alloc: Global,
    stamp: &Stamp,
    entries: &[GroupEntry],
    out: &mut O,
    err: &mut E,
    disk: &mut D,
) -> Result<u8, Fault>
    requires moment { IsMoment stamp.now.moment }
    requires entries { AreGrouped entries.now }
    ensures { RunsEntries stamp.now entries.now result (quiet O.Sink E.Sink D.Disk out.old err.old disk.old)
        (quiet O.Sink E.Sink D.Disk out.new err.new disk.new) }
{
    match make_group(alloc, stamp, entries, out, err, disk) {
        Ok(()) => Ok(0),
        Err(stop) => conclude(stop.name.bytes(), Err(stop.fault), err),
    }
}

// writes the number of the line at which an entry begins that is none
fn write_bad<S: Sink>(number: u64, err: &mut S) -> Result<(), Failed>
    ensures { GivesText (bad_line number) (S.given err.old) (S.given err.new) (S.faults err.old)
        (S.faults err.new) result }
{
    let mut buffer = Buffer::new();
    let digits = buffer.format(number).as_bytes();
    give_parts(err, &[b"GROUP: line ", digits, b"\n"])
}

// says why lines are no group
fn refuse_lines<E: Sink>(fault: GroupFault, err: &mut E) -> Result<u8, Fault>
    ensures says { SaysBad fault result (E.given err.old) (E.given err.new) }
    ensures later { E.faults err.old ≤ E.faults err.new }
    ensures cause { result ≡ Err ends.WriteFault → Rose (E.faults err.old) (E.faults err.new) }
{
    match fault {
        GroupFault::BadEntry(number) => match write_bad(number, err) {
            Ok(()) => Ok(1),
            Err(_) => Err(Fault::WriteFault),
        },
        GroupFault::Memory => Err(Fault::Memory),
    }
}

// makes the group that lines are, or says at which line an entry begins that is none
fn run_lines<O: Sink, E: Sink, D: Disk>(
    alloc: Global,
    stamp: &Stamp,
    lines: &[Line],
    out: &mut O,
    err: &mut E,
    disk: &mut D,
) -> Result<u8, Fault>
    requires { IsMoment stamp.now.moment }
    ensures { RunsLines stamp.now (group_of lines.now) result (quiet O.Sink E.Sink D.Disk out.old err.old disk.old)
        (quiet O.Sink E.Sink D.Disk out.new err.new disk.new) }
{
    match read_group(alloc, lines) {
        Ok(entries) => run_entries(alloc, stamp, entries.items(), out, err, disk),
        Err(fault) => refuse_lines(fault, err),
    }
}

/// Makes the deltas of the entries that the input is, whole or not at all: their reports and warnings are written
/// behind the commit. The input is refused past the limit; of one that is no group the line is said at which an entry
/// begins that is none. A refusal of an entry, or of the group while another one is pending, is said with its name;
/// then nothing has changed. The status is 1 where the group isn't made.
pub fn run_group<I: Source, O: Sink, E: Sink, D: Disk>(
    alloc: Global,
    stamp: &Stamp,
    input: &mut I,
    out: &mut O,
    err: &mut E,
    disk: &mut D,
) -> Result<u8, Fault>
    requires { IsMoment stamp.now.moment }
    ensures { RunsGroup stamp.now result (setting_of I.Source O.Sink E.Sink D.Disk input.old out.old err.old disk.old)
        (setting_of I.Source O.Sink E.Sink D.Disk input.new out.new err.new disk.new) }
{
    match read_names(alloc, input, FILE_LIMIT) {
        Ok(lines) => run_lines(alloc, stamp, lines.items(), out, err, disk),
        Err(TakeFault::TooLong) => refuse_input(err),
        Err(TakeFault::Failed) => Err(Fault::ReadFault),
        Err(TakeFault::Memory) => Err(Fault::Memory),
    }
}
