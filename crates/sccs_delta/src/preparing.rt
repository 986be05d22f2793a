ghost use Rattle.std.specs.Prelude.{◌≡◌, ◌<◌, ◌≤◌, ◌-◌, ◌^◌, ℕ, Bool, List, [], true, Some, Ok, All, IfOk, IfSome};
ghost use Rattle.std.specs.Prelude.{OnOk, Option, drop, length, remove, slice_get};
ghost use Rattle.std.specs.List.{AllByRecursion, list_any};
ghost use Rattle.std.specs.Str.{bytes_eq};
ghost use Rattle.sccs_base.specs.Constants.{file_limit};
ghost use Rattle.sccs_base.specs.Name.{IsSFileName, p_file, q_file, x_file, z_file};
ghost use Rattle.sccs_disk.specs.Calls.{IsThere};
ghost use Rattle.sccs_disk.specs.Files.{View};
ghost use Rattle.sccs_disk.specs.Images.{IsFirm};
ghost use Rattle.sccs_disk.specs.Told.{seen};
ghost use Rattle.sccs_script_laws.specs.Scripts.{apply};
ghost use Rattle.sccs_name_files.specs.StepFiles.{Moves, is_working, look};
ghost use Rattle.sccs_history.specs.History.{IsSpelled};
ghost use Rattle.sccs_history.specs.declared.headers.Item.{Item};
ghost use Rattle.sccs_name_files.specs.Touches.{Leaves, TouchesOnly};
ghost use Rattle.sccs_body.specs.Reader.{name_read};
ghost use Rattle.sccs_changes.specs.NewEntries.{IsRenewed, PreparesEntries};
ghost use Rattle.sccs_changes.specs.PFiles.{ChangesDisk, is_short};
ghost use Rattle.sccs_pfile.specs.Entries.{IsEdit};
ghost use Rattle.sccs_pfile.specs.declared.entries.Edit.{Edit};
ghost use Rattle.sccs_script.specs.Checks.{checked_script};
ghost use Rattle.sccs_script.specs.Commands.{FitsIn};
ghost use Rattle.sccs_sid.specs.Moment.{IsMoment};
ghost use Rattle.sccs_sid.specs.Sid.{IsSid};
ghost use Rattle.sccs_steps.specs.Actions.{RefusesWithin};
ghost use Rattle.sccs_steps.specs.Calls.{world};
ghost use Rattle.sccs_store.specs.Stops.{OnReplace};
ghost use Rattle.sccs_table.specs.ReaderState.{bytes_in};
ghost use Rattle.sccs_changes.specs.Changes.{CouldPrepare, IsReady, Prepares, unlocked};
ghost use Rattle.sccs_changes.specs.Stops.{IsFirmPrepared, SettlesEntries};
ghost use Rattle.sccs_versions.specs.Coming.{IsBody};
ghost use Rattle.sccs_copies.specs.BaseSplicing.{base_splicing};
ghost use Rattle.sccs_copies.specs.Copies.{CopyComes};
ghost use Rattle.sccs_delta.specs.DeltaStep.{base_lines, could_make, delta_checks, delta_outcome, delta_report};
ghost use Rattle.sccs_delta.specs.DeltaStep.{nulls_of};
ghost use Rattle.sccs_changes.specs.Reports.{warning};
ghost use Rattle.sccs_copies.specs.Examining.{has_keyword};
ghost use Rattle.sccs_delta.specs.Writing.{IsDeltaPlan, MakesDelta, WritesDelta, WritesX, script_checked};

use crate::entries::{Chosen, read_asked};
use crate::new_sfiles::{NewSfile, new_sfile};
use crate::reports::delta_report;
use crate::scripts::fit;
use crate::sizes::check_sizes;
use sccs_base::{Bytes, Memory, Name};
use sccs_changes::{Pending, Prepared, prepare_entries, read_pending, remove_g, warning};
use sccs_copies::{Found, write_sfile};
use sccs_disk::{Disk, DiskRefusal};
use sccs_pfile::{Edits, release};
use sccs_script::Script;
use sccs_sid::{Stamp, StepFault};
use sccs_store::NewP;
use sccs_words::DeltaWords;
use std::alloc::Global;

/// What a delta has to say once it is committed: its report, and the warning.
#[derive(Drop)]
pub struct Said {
    pub report: Bytes,
    pub message: Bytes,
}

// what is said of a new delta
fn said_of(
    alloc: Global,
    words: &DeltaWords,
    name: &Name,
    file: &NewSfile,
    keyword: bool,
) -> Result<Said, Memory>
    requires { IsSid file.now.sid }
    ensures report { IfOk result (λ s. s.report ≡ delta_report words.now.silent file.now.sid file.now.counts) }
    ensures message { IfOk result (λ s. s.message ≡ warning name.now keyword) }
{
    let report = delta_report(alloc, words.silent, &file.sid, &file.counts)?;
    let message = warning(alloc, name, keyword)?;
    Ok(Said { report, message })
}

// writes the x-file of a delta
fn write_x<D: Disk>(
    alloc: Global,
    name: &Name,
    file: NewSfile,
    disk: &mut D,
) -> Result<(), StepFault>
    requires sfile { IsSFileName name.now }
    requires spelled { IsSpelled file.header }
    requires own { name_read file.copying.items ≡ name.now }
    ensures told { (bytes : List ℕ) (items : List Item) → bytes_in (seen (D.told disk.old)) name.now ≡ Some bytes
        → CopyComes base_splicing bytes items file.copying
        → WritesX file.header items (x_file name.now) (seen (D.told disk.old)) (seen (D.told disk.new)) result }
    ensures moves { Moves (bytes_eq (x_file name.now)) (λ v. v) (seen (D.told disk.old)) (seen (D.told disk.new)) }
    ensures there { OnOk result (IsThere (x_file name.now) (D.told disk.new)) }
    ensures touches { TouchesOnly (bytes_eq (x_file name.now)) (D.told disk.old) (D.told disk.new) }
    ensures firm { OnOk result (Leaves (IsFirm (x_file name.now)) (D.told disk.old) (D.told disk.new)) }
    ensures checks { RefusesWithin delta_checks result }
    ensures causes { ChangesDisk D.faults disk.old disk.new result }
{
    let copying = file.copying;
    write_sfile(alloc, &file.header, copying, name, disk)?;
    Ok(())
}

// prepares the p-file without the entry of a number
fn drop_entry<D: Disk>(
    edits: Edits,
    number: u64,
    name: &Name,
    disk: &mut D,
) -> Result<NewP, StepFault>
    requires sfile { IsSFileName name.now }
    requires edits { All IsEdit edits }
    requires some { 0 < number }
    requires there { number ≤ length edits }
    ensures entries { IfOk result (λ new. PreparesEntries name.now (remove edits (number - 1)) new (D.told disk.old)
        (D.told disk.new)) }
    ensures renewed { IfOk result (λ new. IsRenewed new) }
    ensures moves { Moves (bytes_eq (q_file name.now)) (λ v. v) (seen (D.told disk.old)) (seen (D.told disk.new)) }
    ensures touches { TouchesOnly (bytes_eq (q_file name.now)) (D.told disk.old) (D.told disk.new) }
    ensures firm { IfOk result (λ new. OnReplace new (Leaves (IsFirm (q_file name.now)) (D.told disk.old)
        (D.told disk.new))) }
    ensures checks { RefusesWithin [] result }
    ensures causes { ChangesDisk D.faults disk.old disk.new result }
{
    let mut edits = edits;
    release(&mut edits, number);
    match prepare_entries(&edits, disk, name) {
        Ok(new_p) => Ok(new_p),
        Err(DiskRefusal::Failed) => Err(StepFault::DiskFault),
        Err(DiskRefusal::Memory) => Err(StepFault::Memory),
    }
}

// writes the working files of a delta
fn write_files<D: Disk>(
    alloc: Global,
    keep: bool,
    name: &Name,
    file: NewSfile,
    edits: Edits,
    number: u64,
    said: Said,
    disk: &mut D,
) -> Result<Prepared, StepFault>
    requires sfile { IsSFileName name.now }
    requires spelled { IsSpelled file.header }
    requires own { name_read file.copying.items ≡ name.now }
    requires edits { All IsEdit edits }
    requires some { 0 < number }
    requires there { number ≤ length edits }
    ensures told { (bytes : List ℕ) (items : List Item) → bytes_in (seen (D.told disk.old)) name.now ≡ Some bytes
        → CopyComes base_splicing bytes items file.copying
        → WritesDelta name.now file.header items (remove edits (number - 1)) keep said.report said.message
        (D.told disk.old) (D.told disk.new) result }
    ensures moves { Moves (is_working name.now) (λ v. v) (seen (D.told disk.old)) (seen (D.told disk.new)) }
    ensures needs { IsThere (z_file name.now) (D.told disk.old) → IsThere (p_file name.now) (D.told disk.old)
        → IfOk result (λ p. IsReady name.now p (D.told disk.new)) }
    ensures touches { TouchesOnly (is_working name.now) (D.told disk.old) (D.told disk.new) }
    ensures kind { IfOk result (λ p. IsDeltaPlan p) }
    ensures firm { IfOk result (λ p. IsFirmPrepared name.now p (D.told disk.old) (D.told disk.new)) }
    ensures says { IfOk result (λ p. p.message ≡ said.message) }
    ensures checks { RefusesWithin delta_checks result }
    ensures causes { ChangesDisk D.faults disk.old disk.new result }
{
    write_x(alloc, name, file, disk)?;
    let new_g = remove_g(keep, disk, name)?;
    let new_p = drop_entry(edits, number, name, disk)?;
    Ok(Prepared {
        new_s: true,
        new_p,
        new_g,
        report: said.report,
        message: said.message,
    })
}

// writes the files of a delta whose checks are made but for its serial
fn make<D: Disk>(
    alloc: Global,
    words: &DeltaWords,
    stamp: &Stamp,
    name: &Name,
    pending: Pending,
    chosen: Chosen,
    script: &Script,
    found: &Found,
    disk: &mut D,
) -> Result<Prepared, StepFault>
    requires sfile { IsSFileName name.now }
    requires moment { IsMoment stamp.now.moment }
    requires spelled { IsSpelled pending.front.header }
    requires edits { All IsEdit pending.edits }
    requires some { 0 < chosen.number }
    requires there { chosen.number ≤ length pending.edits }
    requires fits { checked_script script.now found.now.lines ≡ Ok tt }
    requires few { found.now.lines ≤ file_limit }
    ensures told { (bytes : List ℕ) (items : List Item) (e : Edit) → bytes_in (seen (D.told disk.old)) name.now
        ≡ Some bytes
        → IsBody (Some bytes) pending.front chosen.base.set bytes items → slice_get pending.edits (chosen.number - 1)
        ≡ Some e
        → found.now.lines ≡ length (base_lines items chosen.base)
        → MakesDelta (nulls_of pending.front.header pending.edits e) words.now stamp.now name.now pending.front.header
        items pending.edits (record { number = chosen.number; edit = e; base = chosen.base })
        script.now found.now.keyword (D.told disk.old) (D.told disk.new) result }
    ensures moves { Moves (is_working name.now) (λ v. v) (seen (D.told disk.old)) (seen (D.told disk.new)) }
    ensures needs { IsThere (z_file name.now) (D.told disk.old) → IsThere (p_file name.now) (D.told disk.old)
        → IfOk result (λ p. IsReady name.now p (D.told disk.new)) }
    ensures touches { TouchesOnly (is_working name.now) (D.told disk.old) (D.told disk.new) }
    ensures kind { IfOk result (λ p. IsDeltaPlan p) }
    ensures firm { IfOk result (λ p. IsFirmPrepared name.now p (D.told disk.old) (D.told disk.new)) }
    ensures speaks { CouldPrepare could_make result }
    ensures causes { ChangesDisk D.faults disk.old disk.new result }
{
    let (number, edits) = (chosen.number, pending.edits);
    let file = new_sfile(
        alloc,
        words,
        stamp,
        name,
        pending.front,
        &edits,
        chosen,
        script,
        found.lines,
    )?;
    let Ok(said) = said_of(alloc, words, name, &file, found.keyword) else {
        return Err(StepFault::Memory);
    };
    write_files(alloc, words.keep, name, file, edits, number, said, disk)
}

// makes the checks of the script, and writes the files
fn prepare_script<D: Disk>(
    alloc: Global,
    words: &DeltaWords,
    stamp: &Stamp,
    name: &Name,
    pending: Pending,
    chosen: Chosen,
    script: &Script,
    disk: &mut D,
) -> Result<Prepared, StepFault>
    requires sfile { IsSFileName name.now }
    requires moment { IsMoment stamp.now.moment }
    requires spelled { IsSpelled pending.front.header }
    requires edits { All IsEdit pending.edits }
    requires some { 0 < chosen.number }
    requires there { chosen.number ≤ length pending.edits }
    requires ordered { AllByRecursion (FitsIn (2 ^ 64)) script.now }
    ensures told { (bytes : List ℕ) (items : List Item) (e : Edit) → bytes_in (seen (D.told disk.old)) name.now
        ≡ Some bytes
        → IsBody (Some bytes) pending.front chosen.base.set bytes items → slice_get pending.edits (chosen.number - 1)
        ≡ Some e
        → IfSome (seen (D.told disk.old)) (λ (v : View). is_short (v (drop 2 name.now)) ≡ true
        → MakesDelta (script_checked words.now pending.front.header items pending.edits
        (record { number = chosen.number; edit = e; base = chosen.base }) script.now (v (drop 2 name.now)))
        words.now stamp.now name.now pending.front.header items pending.edits
        (record { number = chosen.number; edit = e; base = chosen.base })
        script.now (list_any has_keyword (apply script.now (base_lines items chosen.base))) (D.told disk.old)
        (D.told disk.new) result) }
    ensures moves { Moves (is_working name.now) (λ v. v) (seen (D.told disk.old)) (seen (D.told disk.new)) }
    ensures needs { IsThere (z_file name.now) (D.told disk.old) → IsThere (p_file name.now) (D.told disk.old)
        → IfOk result (λ p. IsReady name.now p (D.told disk.new)) }
    ensures touches { TouchesOnly (is_working name.now) (D.told disk.old) (D.told disk.new) }
    ensures kind { IfOk result (λ p. IsDeltaPlan p) }
    ensures firm { IfOk result (λ p. IsFirmPrepared name.now p (D.told disk.old) (D.told disk.new)) }
    ensures speaks { CouldPrepare could_make result }
    ensures causes { ChangesDisk D.faults disk.old disk.new result }
{
    let found = fit(
        alloc,
        name,
        &pending.front,
        &chosen.base.set,
        &words.mrs,
        script,
        disk,
    )?;
    make(
        alloc, words, stamp, name, pending, chosen, script, &found, disk,
    )
}

/// Makes the checks of a delta behind its lock, and writes its new files as working files: the x-file is the
/// s-file with the null deltas and the new one, the q-file the p-file without the entry where any is left. The
/// script is that of standard input, whole. POSIX, Shell and Utilities, delta.
pub fn prepare_delta<D: Disk>(
    alloc: Global,
    words: &DeltaWords,
    name: &Name,
    stamp: &Stamp,
    script: &[u8],
    disk: &mut D,
) -> Result<Prepared, StepFault>
    requires sfile { IsSFileName name.now }
    requires locked { IsThere (z_file name.now) (D.told disk.old) }
    requires moment { IsMoment stamp.now.moment }
    ensures prepares { (out err : Option (List ℕ)) → IfSome (seen (D.told disk.old)) (λ (v : View).
        Prepares result name.now (delta_outcome words.now stamp.now name.now script.now []
        (look (unlocked name.now v) name.now))
        (world (Some v) out err) (world (seen (D.told disk.new)) out err)) }
    ensures needs { IfOk result (λ p. IsReady name.now p (D.told disk.new)) }
    ensures touches { TouchesOnly (is_working name.now) (D.told disk.old) (D.told disk.new) }
    ensures kind { IfOk result (λ p. IsDeltaPlan p) }
    ensures firm { IfOk result (λ p. IsFirmPrepared name.now p (D.told disk.old) (D.told disk.new)) }
    ensures entries { IfOk result (λ p. SettlesEntries name.now p (D.told disk.new)) }
    ensures speaks { CouldPrepare could_make result }
    ensures causes { ChangesDisk D.faults disk.old disk.new result }
{
    check_sizes(disk, name, script)?;
    let pending = read_pending(alloc, disk, name)?;
    let asked = read_asked(alloc, words, stamp, &pending, script)?;
    let (chosen, script) = (asked.chosen, asked.script);
    prepare_script(alloc, words, stamp, name, pending, chosen, &script, disk)
}
