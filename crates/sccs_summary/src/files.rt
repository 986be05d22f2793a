ghost use Rattle.std.specs.Prelude.{IsErrOf, OnErr, OnOk, Some};
ghost use Rattle.std.specs.List.{AllByRecursion};
ghost use Rattle.std.specs.Str.{bytes_eq};
ghost use Rattle.sccs_base.specs.Name.{IsSFileName, y_file};
ghost use Rattle.sccs_disk.specs.Calls.{IsThere};
ghost use Rattle.sccs_disk.specs.Causes.{DiskCauses};
ghost use Rattle.sccs_disk.specs.Effects.{altered, appended};
ghost use Rattle.sccs_disk.specs.Files.{put};
ghost use Rattle.sccs_disk.specs.Told.{seen};
ghost use Rattle.sccs_name_files.specs.StepFiles.{Moves};
ghost use Rattle.sccs_store.specs.Placing.{HasMade};
ghost use Rattle.sccs_history.specs.History.{HasSpelling};
ghost use Rattle.sccs_name_files.specs.Touches.{TouchesOnly};
ghost use Rattle.sccs_crash_points.specs.Unlocked.{KeepsOthers};
ghost use Rattle.sccs_store.specs.Commits.{Becomes};
ghost use Rattle.sccs_writers.specs.OneFile.{OnlyWrites};
ghost use Rattle.sccs_writers.specs.Puts.{Appends, PutsText};
ghost use Rattle.sccs_summary.specs.Summaries.{choice_of, live_text, summary_text};
ghost use Rattle.sccs_summary.specs.SummaryFiles.{FileCauses, LosesNothing, MakesPartly, is_summary, l_made};
ghost use Rattle.sccs_summary.specs.SummaryFiles.{summary_file};

use crate::choices::Choices;
use crate::entries::entry_of;
use sccs_base::Name;
use sccs_disk::{Disk, DiskRefusal};
use sccs_history::Record;
use sccs_sid::StepFault;
use sccs_store::{Mode, finish_y, place_l, start};
use sccs_table::Sum;
use sccs_writers::PieceWriter;
use std::alloc::Global;

// puts what a summary has of a delta
fn put_entry<D: Disk>(
    alloc: Global,
    choices: Choices<'_>,
    delta: &Record,
    to: &mut PieceWriter,
    disk: &mut D,
) -> Result<(), DiskRefusal>
    requires there { IsThere to.old.name (D.told disk.old) }
    requires spelled { HasSpelling delta.now }
    ensures { PutsText (live_text (choice_of choices.entry) delta.now) to.old to.new (D.told disk.old) (D.told disk.new)
        (D.faults disk.old) (D.faults disk.new) result }
{
    let Ok(text) = entry_of(alloc, choices, delta) else {
        return Err(DiskRefusal::Memory);
    };
    to.put(text.bytes(), disk)
}

// puts the summary of a table, delta by delta
fn put_entries<D: Disk>(
    alloc: Global,
    choices: Choices<'_>,
    records: &[Record],
    to: &mut PieceWriter,
    disk: &mut D,
) -> Result<(), DiskRefusal>
    requires there { IsThere to.old.name (D.told disk.old) }
    requires spelled { AllByRecursion HasSpelling records.now }
    ensures { PutsText (summary_text (choice_of choices.entry) records.now) to.old to.new (D.told disk.old)
        (D.told disk.new)
        (D.faults disk.old) (D.faults disk.new) result }
{
    for delta in records {
        if let Err(fault) = put_entry(alloc, choices, delta, to, disk) {
            return Err(fault);
        }
    }
    Ok(())
}

// appends the summary to a file; it holds back at most 4,096 bytes
fn append_summary<D: Disk>(
    alloc: Global,
    choices: Choices<'_>,
    records: &[Record],
    to: &Name,
    disk: &mut D,
) -> Result<(), DiskRefusal>
    requires there { IsThere to.now (D.told disk.old) }
    requires spelled { AllByRecursion HasSpelling records.now }
    ensures file { OnOk result (Appends to.now (summary_text (choice_of choices.entry) records.now) (D.told disk.old)
        (D.told disk.new)) }
    ensures only { OnlyWrites to.now (D.told disk.old) (D.told disk.new) }
    ensures causes { DiskCauses (IsErrOf result DiskRefusal.Failed) (D.faults disk.old) (D.faults disk.new) }
{
    let mut writer = PieceWriter::new(to, Sum::new());
    if let Err(fault) = put_entries(alloc, choices, records, &mut writer, disk) {
        return Err(fault);
    }
    writer.flush(disk)
}

// appends the summary to the y-file
fn append_y<D: Disk>(
    alloc: Global,
    choices: Choices<'_>,
    records: &[Record],
    name: &Name,
    disk: &mut D,
) -> Result<(), DiskRefusal>
    requires sfile { IsSFileName name.now }
    requires there { IsThere (y_file name.now) (D.told disk.old) }
    requires spelled { AllByRecursion HasSpelling records.now }
    ensures view { OnOk result
        (Becomes (altered (y_file name.now) (appended (summary_text (choice_of choices.entry) records.now)))
        (seen (D.told disk.old)) (seen (D.told disk.new))) }
    ensures only { OnlyWrites (y_file name.now) (D.told disk.old) (D.told disk.new) }
    ensures causes { DiskCauses (IsErrOf result DiskRefusal.Failed) (D.faults disk.old) (D.faults disk.new) }
{
    append_summary(alloc, choices, records, &name.sibling(b'y'), disk)
}

// makes the y-file with the summary, which may be written
fn make_y<D: Disk>(
    alloc: Global,
    choices: Choices<'_>,
    records: &[Record],
    name: &Name,
    disk: &mut D,
) -> Result<(), DiskRefusal>
    requires sfile { IsSFileName name.now }
    requires spelled { AllByRecursion HasSpelling records.now }
    ensures view { OnOk result
        (Becomes (λ v. put v (y_file name.now)
        (Some (summary_file (summary_text (choice_of choices.entry) records.now)))) (seen (D.told disk.old))
        (seen (D.told disk.new))) }
    ensures moves { Moves (bytes_eq (y_file name.now)) (λ v. v) (seen (D.told disk.old)) (seen (D.told disk.new)) }
    ensures touches { TouchesOnly (bytes_eq (y_file name.now)) (D.told disk.old) (D.told disk.new) }
    ensures made { OnOk result (HasMade name.now (D.told disk.old) (D.told disk.new)) }
    ensures causes { DiskCauses (IsErrOf result DiskRefusal.Failed) (D.faults disk.old) (D.faults disk.new) }
{
    start(disk, name, b'y')?;
    append_y(alloc, choices, records, name, disk)?;
    match finish_y(disk, name, Mode::Writable) {
        Ok(()) => Ok(()),
        Err(_) => Err(DiskRefusal::Failed),
    }
}

/// Makes the l-file of an s-file's name the summary of a table, through the y-file: it is the old one or the new
/// one, wherever this stops, and no s-file and no p-file is another.
pub fn make_l<D: Disk>(
    alloc: Global,
    choices: Choices<'_>,
    records: &[Record],
    name: &Name,
    disk: &mut D,
) -> Result<(), StepFault>
    requires sfile { IsSFileName name.now }
    requires spelled { AllByRecursion HasSpelling records.now }
    ensures view { OnOk result (Becomes (l_made name.now (summary_text (choice_of choices.entry) records.now))
        (seen (D.told disk.old)) (seen (D.told disk.new))) }
    ensures halfway { OnErr result (MakesPartly name.now (summary_text (choice_of choices.entry) records.now)
        (seen (D.told disk.old)) (seen (D.told disk.new))) }
    ensures stops { LosesNothing (D.told disk.old) (D.told disk.new) }
    ensures others { KeepsOthers (is_summary name.now) (D.told disk.old) (D.told disk.new) }
    ensures causes { FileCauses (D.faults disk.old) (D.faults disk.new) result }
{
    match make_y(alloc, choices, records, name, disk) {
        Ok(()) => {}
        Err(DiskRefusal::Failed) => return Err(StepFault::DiskFault),
        Err(DiskRefusal::Memory) => return Err(StepFault::Memory),
    }
    match place_l(disk, name) {
        Ok(()) => Ok(()),
        Err(_) => Err(StepFault::DiskFault),
    }
}
