ghost use Rattle.std.specs.Prelude.{◌≡◌, ◌<◌, ◌≤◌, All, Err, IfOk, length};
ghost use Rattle.sccs_base.specs.Name.{IsSFileName, q_file};
ghost use Rattle.sccs_disk.specs.Calls.{IsThere};
ghost use Rattle.sccs_disk.specs.Told.{seen};
ghost use Rattle.sccs_pfile.specs.Entries.{IsEdit};
ghost use Rattle.sccs_steps.specs.Actions.{RefusesWithin};
ghost use Rattle.std.specs.Str.{bytes_eq};
ghost use Rattle.sccs_name_files.specs.Touches.{TouchesOnly};
ghost use Rattle.sccs_changes.specs.Stops.{IsFirmPrepared};
ghost use Rattle.sccs_edit.specs.Checks.{unget_locked};
ghost use Rattle.sccs_edit.specs.UngetStep.{unget_change, unget_checks, unget_report, without_entry};
ghost use Rattle.sccs_changes.specs.NewEntries.{PreparesDecided};
ghost use Rattle.sccs_changes.specs.PFiles.{ChangesDisk};

use sccs_base::{Bytes, Memory, Name, Sink, Source};
use sccs_changes::{Change, Prepared, chosen, heading, prepare_entries, read_pending, remove_g};
use sccs_disk::{Disk, DiskRefusal};
use sccs_pfile::{Edits, release};
use sccs_sid::{DETAIL_ROOM, Stamp, StepFault};
use sccs_words::UngetWords;
use std::alloc::Global;

/// unget on a name: a pending edit of the login is dropped, and the g-file removed unless it is kept. It refuses a
/// name that is locked, files that can't be read or don't agree, a login without a pending edit, and one with
/// several where `-r` doesn't say which. POSIX, Shell and Utilities, unget.
#[derive(Clone, Copy)]
pub struct Unget<'a> {
    pub words: &'a UngetWords,
    pub stamp: &'a Stamp,
    /// Whether a heading stands before the report.
    pub heading: bool,
}

// the SID that the entry of a number was to make, unless nothing is to be said
fn report_of(
    alloc: Global,
    unget: &Unget<'_>,
    name: &Name,
    edits: &Edits,
    number: u64,
) -> Result<Bytes, Memory>
    requires edits { All IsEdit edits.now }
    requires some { 0 < number }
    requires there { number ≤ length edits.now }
    ensures { IfOk result (λ report. report ≡ unget_report unget.now.words.now unget.now.heading name.now edits.now
        number) }
{
    let mut report = Vec::new(alloc);
    if !unget.words.silent {
        let mut row = [0; DETAIL_ROOM];
        heading(unget.heading, name, &mut report)?;
        report.extend_from_slice(edits.at(number - 1).made.text(&mut row))?;
        report.push(b'\n')?;
    }
    Ok(Bytes::from_vec(report))
}

// prepares the p-file without the entry of a number
fn drop_entry<D: Disk>(
    alloc: Global,
    unget: &Unget<'_>,
    name: &Name,
    edits: Edits,
    number: u64,
    disk: &mut D,
) -> Result<Prepared, StepFault>
    requires sfile { IsSFileName name.now }
    requires edits { All IsEdit edits }
    requires some { 0 < number }
    requires there { number ≤ length edits }
    ensures drops { PreparesDecided result name.now (without_entry unget.now.words.now unget.now.heading name.now edits
        number) (D.told disk.old) (D.told disk.new) }
    ensures touches { TouchesOnly (bytes_eq (q_file name.now)) (D.told disk.old) (D.told disk.new) }
    ensures firm { IfOk result (λ p. IsFirmPrepared name.now p (D.told disk.old) (D.told disk.new)) }
    ensures checks { RefusesWithin unget_checks result }
    ensures causes { ChangesDisk D.faults disk.old disk.new result }
{
    let Ok(report) = report_of(alloc, unget, name, &edits, number) else {
        return Err(StepFault::Memory);
    };
    let new_g = remove_g(unget.words.keep, disk, name)?;
    let mut edits = edits;
    release(&mut edits, number);
    match prepare_entries(&edits, disk, name) {
        Ok(new_p) => Ok(Prepared {
            new_s: false,
            new_p,
            new_g,
            report,
            message: Bytes::empty(alloc),
        }),
        Err(DiskRefusal::Failed) => Err(StepFault::DiskFault),
        Err(DiskRefusal::Memory) => Err(StepFault::Memory),
    }
}

impl Change for Unget<'_> {
    ghost change = { λ u. unget_change u.words.now u.stamp.now u.heading };

    ghost locked = { λ u. unget_locked u.words.now u.stamp.now u.heading };

    fn takes_input(&self) -> bool {
        false
    }

    fn prepare<I: Source, O: Sink, D: Disk>(
        &self,
        alloc: Global,
        name: &Name,
        _input: &mut I,
        _out: &mut O,
        disk: &mut D,
    ) -> Result<Prepared, StepFault> {
        let found = read_pending(alloc, disk, name)?;
        let number = chosen(
            &found.edits,
            &self.stamp.login,
            self.words.sid.as_ref(),
            false,
        )?;
        drop_entry(alloc, self, name, found.edits, number, disk)
    }
}
