ghost use Rattle.std.specs.Prelude.{◌≡◌, ◌∷◌, ◌++◌, [], ℕ, List, Option, Some, All, Ok, Err, IfOk, IfSome, is_some};
ghost use Rattle.std.specs.Prelude.{true, false};
ghost use Rattle.std.specs.List.{AllByRecursion};
ghost use Rattle.std.specs.Str.{bytes_eq};
ghost use Rattle.sccs_base.specs.Name.{IsSFileName, p_file, q_file, z_file};
ghost use Rattle.sccs_disk.specs.Calls.{IsThere};
ghost use Rattle.sccs_disk.specs.Files.{View};
ghost use Rattle.sccs_disk.specs.Images.{IsFirm};
ghost use Rattle.sccs_disk.specs.Told.{seen};
ghost use Rattle.sccs_name_files.specs.StepFiles.{Moves, is_working, look};
ghost use Rattle.sccs_history.specs.Applied.{serials_of};
ghost use Rattle.sccs_history.specs.History.{HasSpelling, IsHeader, lives};
ghost use Rattle.sccs_history.specs.Numbers.{Falls, has};
ghost use Rattle.sccs_history.specs.declared.headers.Item.{Item};
ghost use Rattle.sccs_name_files.specs.Touches.{Leaves, TouchesOnly};
ghost use Rattle.sccs_keywords.specs.Expansion.{HasMoments};
ghost use Rattle.sccs_changes.specs.NewEntries.{PreparesEntries};
ghost use Rattle.sccs_changes.specs.PFiles.{ChangesDisk, OnlyReads};
ghost use Rattle.sccs_changes.specs.Pending.{AnswersPending};
ghost use Rattle.sccs_pfile.specs.Agreement.{Agrees};
ghost use Rattle.sccs_pfile.specs.Entries.{IsEdit};
ghost use Rattle.sccs_sid.specs.declared.refusals.StepFault.TheVariants as faults;
ghost use Rattle.sccs_steps.specs.Actions.{RefusesWithin};
ghost use Rattle.sccs_steps.specs.Calls.{world};
ghost use Rattle.sccs_steps.specs.Causes.{PrintCauses};
ghost use Rattle.sccs_store.specs.Stops.{OnReplace};
ghost use Rattle.sccs_table.specs.FrontFile.{IsPlaced};
ghost use Rattle.sccs_table.specs.ReaderState.{bytes_in};
ghost use Rattle.sccs_changes.specs.Changes.{IsReady, Prepares, unlocked};
ghost use Rattle.sccs_changes.specs.Stops.{IsFirmPrepared, SettlesEntries};
ghost use Rattle.sccs_versions.specs.Coming.{IsBody};
ghost use Rattle.sccs_get.specs.Edits.{edit_locked};
ghost use Rattle.sccs_get.specs.EditGiving.{AnswersReserved, new_g};
ghost use Rattle.sccs_get.specs.EditStep.{edit_change, edit_effect};
ghost use Rattle.sccs_get.specs.NewEntry.{AreEditValues, edit_checks};
ghost use Rattle.sccs_get.specs.VersionStep.{found_version, lines_got, says_well};
ghost use Rattle.sccs_get.specs.Reports.{replaces_keywords};
ghost use Rattle.sccs_get.specs.Whole.{GivesFound};

use crate::checks::{is_in_the_way, writes_g};
use crate::found::{Found, find_version};
use crate::giving::give_version;
use crate::new_entries::new_entry;
use crate::reports::said;
use crate::summaries::give_summary;
use sccs_base::{Line, Name, Sink, Source};
use sccs_changes::{Change, Pending, Prepared, prepare_entries, read_pending};
use sccs_disk::{Disk, DiskRefusal};
use sccs_pfile::{Edit, Edits, reserve};
use sccs_sid::{Stamp, StepFault};
use sccs_store::{NewG, NewP};
use sccs_words::GetWords;
use std::alloc::Global;

/// get on a name with -e: an edit of a version is reserved for the login, and its text goes to standard output
/// with -p, nowhere with -g, and else into the g-file, which may be written. It refuses a name that is locked,
/// files that can't be read or don't agree, and what `new_entry` refuses. POSIX, Shell and Utilities, get, -e.
#[derive(Drop)]
pub struct Reserve<'a> {
    pub words: &'a GetWords,
    pub stamp: &'a Stamp,
    /// The folder's path.
    pub place: &'a Line,
    /// Whether a heading stands before the report.
    pub heading: bool,
    ghost valid: { AreEditValues words.now stamp.now },
}

/// What is found for an edit: the file with its entries, the new entry, and the version that is got.
#[derive(Drop)]
pub struct Reserved {
    pub pending: Pending,
    pub edit: Edit,
    pub version: Found,
}

// makes all checks, and finds the entry and the version
fn find_edit<D: Disk>(
    alloc: Global,
    get: &Reserve<'_>,
    name: &Name,
    disk: &mut D,
) -> Result<Reserved, StepFault>
    requires { IsSFileName name.now }
    ensures told { IfSome (seen (D.told disk.old)) (λ (v : View). AnswersReserved get.now.words.now get.now.stamp.now
        get.now.place.now name.now (look v name.now) result) }
    ensures pending { IfOk result (λ r. IfSome (seen (D.told disk.old)) (λ (v : View). AnswersPending (v name.now)
        (v (p_file name.now)) (Ok r.pending))) }
    ensures placed { IfOk result (λ r. IsPlaced r.pending.front) }
    ensures table { IfOk result (λ r. Falls 65536 (serials_of r.pending.front.header.records)) }
    ensures spelled { IfOk result (λ r. AllByRecursion HasSpelling r.pending.front.header.records) }
    ensures edits { IfOk result (λ r. All IsEdit r.pending.edits) }
    ensures agrees { IfOk result (λ r. Agrees r.pending.front.header.records r.pending.edits) }
    ensures edit { IfOk result (λ r. IsEdit r.edit) }
    ensures free { IfOk result (λ r. lives r.pending.front.header.records r.edit.made ≡ false) }
    ensures no_zero { IfOk result (λ r. has r.version.set 0 ≡ false) }
    ensures facts { IfOk result (λ r. IfSome r.version.facts HasMoments) }
    ensures replaced { IfOk result (λ r. is_some r.version.facts ≡ replaces_keywords get.now.words.now) }
    ensures rules { IfOk result (λ r. IsHeader r.pending.front.header) }
    ensures found { IfOk result (λ r. found_version get.now.words.now get.now.stamp.now get.now.place.now name.now
        r.pending.front.header ≡ Ok r.version) }
    ensures checks { RefusesWithin edit_checks result }
    ensures frame { OnlyReads D.told D.faults disk.old disk.new result }
{
    let pending = read_pending(alloc, disk, name)?;
    let in_the_way = is_in_the_way(get.words, name, disk)?;
    let header = &pending.front.header;
    let edit = new_entry(
        alloc,
        header,
        &pending.edits,
        get.words,
        get.stamp,
        in_the_way,
    )?;
    let version = find_version(alloc, get.words, get.stamp, get.place, name, header)?;
    Ok(Reserved {
        pending,
        edit,
        version,
    })
}

// prepares the p-file with an entry more
fn add_entry<D: Disk>(
    name: &Name,
    edits: Edits,
    edit: Edit,
    disk: &mut D,
) -> Result<NewP, StepFault>
    requires sfile { IsSFileName name.now }
    requires edits { All IsEdit edits }
    requires edit { IsEdit edit }
    ensures entries { IfOk result (λ new. PreparesEntries name.now (edits ++ edit ∷ []) new (D.told disk.old)
        (D.told disk.new)) }
    ensures moves { Moves (bytes_eq (q_file name.now)) (λ v. v) (seen (D.told disk.old)) (seen (D.told disk.new)) }
    ensures touches { TouchesOnly (bytes_eq (q_file name.now)) (D.told disk.old) (D.told disk.new) }
    ensures firm { IfOk result (λ new. OnReplace new (Leaves (IsFirm (q_file name.now)) (D.told disk.old)
        (D.told disk.new))) }
    ensures checks { RefusesWithin [] result }
    ensures causes { ChangesDisk D.faults disk.old disk.new result }
{
    let mut edits = edits;
    let Ok(()) = reserve(&mut edits, edit) else {
        return Err(StepFault::Memory);
    };
    match prepare_entries(&edits, disk, name) {
        Ok(new_p) => Ok(new_p),
        Err(DiskRefusal::Failed) => Err(StepFault::DiskFault),
        Err(DiskRefusal::Memory) => Err(StepFault::Memory),
    }
}

// what becomes of the g-file
fn new_g(words: &GetWords) -> NewG
    ensures { result ≡ new_g words.now }
{
    if writes_g(words) {
        NewG::Replace
    } else {
        NewG::Keep
    }
}

// makes the working files of an edit, and gives its text
fn give_edit<O: Sink, D: Disk>(
    alloc: Global,
    get: &Reserve<'_>,
    name: &Name,
    reserved: Reserved,
    out: &mut O,
    disk: &mut D,
) -> Result<Prepared, StepFault>
    requires sfile { IsSFileName name.now }
    requires edits { All IsEdit reserved.pending.edits }
    requires edit { IsEdit reserved.edit }
    requires facts { IfSome reserved.version.facts HasMoments }
    requires replaced { is_some reserved.version.facts ≡ replaces_keywords get.now.words.now }
    requires table { Falls 65536 (serials_of reserved.pending.front.header.records) }
    ensures prepares { (v : View) (file : List ℕ) (items : List Item) (err : Option (List ℕ))
        → seen (D.told disk.old) ≡ Some v
        → IsBody (bytes_in (Some v) name.now) reserved.pending.front reserved.version.set file items
        → Prepares result name.now
        (Ok (edit_effect get.now.words.now get.now.heading name.now reserved.pending.front.header.records
        (look (unlocked name.now v) name.now) reserved.pending.edits reserved.edit reserved.version
        (lines_got reserved.version items)))
        (world (Some v) (O.given out.old) err) (world (seen (D.told disk.new)) (O.given out.new) err) }
    ensures needs { IsThere (z_file name.now) (D.told disk.old)
        → IfOk result (λ p. IsReady name.now p (D.told disk.new)) }
    ensures touches { TouchesOnly (is_working name.now) (D.told disk.old) (D.told disk.new) }
    ensures firm { IfOk result (λ p. IsFirmPrepared name.now p (D.told disk.old) (D.told disk.new)) }
    ensures entries { Agrees reserved.pending.front.header.records reserved.pending.edits
        → lives reserved.pending.front.header.records reserved.edit.made ≡ false
        → IfSome (seen (D.told disk.old)) (λ (v : View). AnswersPending (v name.now) (v (p_file name.now))
        (Ok reserved.pending))
        → IfOk result (λ p. SettlesEntries name.now p (D.told disk.new)) }
    ensures whole { IfOk result (λ p. get.now.words.now.no_text ≡ false → has reserved.version.set 0 ≡ false
        → GivesFound get.now.words.now get.now.heading name.now reserved.pending.front.header.records reserved.version
        (Some reserved.edit.made) p (O.given out.old) (O.given out.new) (seen (D.told disk.new))) }
    ensures says { IfOk result (λ p. says_well get.now.words.now p.message ≡ true) }
    ensures checks { RefusesWithin edit_checks result }
    ensures causes { PrintCauses result (O.faults out.old) (O.faults out.new) (D.faults disk.old) (D.faults disk.new) }
{
    let Reserved {
        pending,
        edit,
        version,
    } = reserved;
    let Pending { front, edits } = pending;
    let made = edit.made;
    let new_p = add_entry(name, edits, edit, disk)?;
    let shown = give_version(alloc, get.words, name, &front, &version, out, disk)?;
    match said(
        alloc,
        get.words,
        get.heading,
        name,
        &version,
        Some(made),
        shown,
    ) {
        Ok(said) => Ok(Prepared {
            new_s: false,
            new_p,
            new_g: new_g(get.words),
            report: said.out,
            message: said.err,
        }),
        Err(_) => Err(StepFault::Memory),
    }
}

impl Change for Reserve<'_> {
    ghost change = { λ r. edit_change r.words.now r.stamp.now r.place.now r.heading };

    ghost locked = { λ r. edit_locked r.words.now r.stamp.now r.place.now r.heading };

    fn prepare<I: Source, O: Sink, D: Disk>(
        &self,
        alloc: Global,
        name: &Name,
        _input: &mut I,
        out: &mut O,
        disk: &mut D,
    ) -> Result<Prepared, StepFault> {
        let reserved = find_edit(alloc, self, name, disk)?;
        let front = &reserved.pending.front;
        give_summary(alloc, self.words, name, front, &reserved.version, out, disk)?;
        give_edit(alloc, self, name, reserved, out, disk)
    }

    fn takes_input(&self) -> bool {
        false
    }
}
