ghost use Rattle.std.specs.Prelude.{◌≡◌, ◌≢◌, ◌<◌, ◌≤◌, ◌+◌, ◌-◌, ℕ, suc, List, [], Some, Ok, Err, All, IfOk, length};
ghost use Rattle.std.specs.Prelude.{map, slice_get};
ghost use Rattle.std.specs.List.{AllByRecursion};
ghost use Rattle.sccs_base.specs.Constants.{file_limit};
ghost use Rattle.sccs_script_laws.specs.Places.{told_behind};
ghost use Rattle.sccs_script_laws.specs.Plans.{plan};
ghost use Rattle.sccs_history.specs.Applied.{newest};
ghost use Rattle.sccs_history.specs.Body.{lines_of};
ghost use Rattle.sccs_history.specs.History.{IsSpelled};
ghost use Rattle.sccs_history.specs.Select.{select};
ghost use Rattle.sccs_history.specs.declared.headers.Item.{Item};
ghost use Rattle.sccs_body.specs.Reader.{name_read};
ghost use Rattle.sccs_pfile.specs.Entries.{IsEdit};
ghost use Rattle.sccs_pfile.specs.declared.entries.Edit.{Edit};
ghost use Rattle.sccs_script.specs.Checks.{checked_script};
ghost use Rattle.sccs_sid.specs.Moment.{IsMoment};
ghost use Rattle.sccs_sid.specs.Sid.{IsSid};
ghost use Rattle.sccs_sid.specs.declared.refusals.StepFault.TheVariants as faults;
ghost use Rattle.sccs_splicer.specs.Splices.{new_splice, items_owed};
ghost use Rattle.sccs_steps.specs.Actions.{RefusesWithin};
ghost use Rattle.sccs_versions.specs.Coming.{IsBody};
ghost use Rattle.sccs_copies.specs.BaseSplicing.{base_splicing};
ghost use Rattle.sccs_copies.specs.Copies.{CopyComes};
ghost use Rattle.sccs_delta.specs.DeltaStep.{base_lines, counts_of, delta_checks};
ghost use Rattle.sccs_delta.specs.Writing.{IsSfileOf, MakesSfile};

use crate::entries::{Base, Chosen};
use crate::headers::{header_of, nulls_of};
use crate::skipping::Sids;
use sccs_base::{Memory, Name};
use sccs_copies::{BaseSplicer, Copying};
use sccs_history::Header;
use sccs_pfile::{Edit, Edits};
use sccs_records::{Counts, newest};
use sccs_script::{Script, plan};
use sccs_sets::Applied;
use sccs_sid::{Sid, Stamp, StepFault};
use sccs_splicer::Splicer;
use sccs_table::Front;
use sccs_words::DeltaWords;
use std::alloc::Global;

/// The s-file that a delta makes, as it is to be written: its header, its body as it is copied from the old one,
/// and the SID and the counts of the new delta.
#[derive(Drop)]
pub struct NewSfile {
    pub header: Header,
    pub copying: Copying<BaseSplicer>,
    pub sid: Sid,
    pub counts: Counts,
}

// how many lines a plan inserts and deletes, and how many of a base of so many it leaves
fn counts_of(splicer: &Splicer, lines: u64) -> Counts
    ensures { result ≡ counts_of splicer.now.plan lines }
{
    let deleted = splicer.deleted();
    Counts {
        inserted: splicer.inserted(),
        deleted,
        unchanged: lines.saturating_sub(deleted),
    }
}

// a copy of a body with what a script makes of a base of so many lines, as the delta of a serial
fn copying_of(
    alloc: Global,
    name: &Name,
    front: &Front,
    script: &Script,
    set: Applied,
    lines: u64,
    serial: u16,
) -> Result<Copying<BaseSplicer>, Memory>
    requires fits { checked_script script.now lines ≡ Ok tt }
    requires few { lines ≤ file_limit }
    ensures name { IfOk result (λ c. name_read c.items ≡ name.now) }
    ensures splicer { IfOk result (λ c. c.filter.splicer ≡ new_splice serial (plan script.now lines)) }
    ensures set { IfOk result (λ c. c.filter.set ≡ set) }
    ensures told { (file : List ℕ) (items : List Item) → IsBody (Some file) front.now set file items
        → lines ≡ length (select set (lines_of items))
        → IfOk result (λ c. CopyComes base_splicing file (items_owed c.filter.splicer (told_behind set [] items)) c) }
{
    let plan = plan(alloc, script, lines)?;
    let splicer = BaseSplicer::new(alloc, serial, plan, set, lines);
    Copying::new(alloc, name, front, splicer)
}

// the serial of a delta behind null deltas
fn serial_behind(header: &Header, nulls: &Sids) -> u16
    requires { newest header.now.records + length nulls.now < 65535 }
    ensures { result ≡ suc (newest header.now.records + length nulls.now) }
{
    newest(&header.records) + nulls.len() as u16 + 1
}

// the s-file with null deltas of these SIDs and the delta of an entry
fn sfile_with(
    alloc: Global,
    words: &DeltaWords,
    stamp: &Stamp,
    name: &Name,
    front: Front,
    edit: &Edit,
    base: Base,
    nulls: &Sids,
    script: &Script,
    lines: u64,
) -> Result<NewSfile, Memory>
    requires moment { IsMoment stamp.now.moment }
    requires spelled { IsSpelled front.header }
    requires edit { IsEdit edit.now }
    requires sids { AllByRecursion IsSid nulls.now }
    requires room { newest front.header.records + length nulls.now < 65535 }
    requires fits { checked_script script.now lines ≡ Ok tt }
    requires few { lines ≤ file_limit }
    ensures makes { IfOk result (IsSfileOf words.now stamp.now front.header edit.now base script.now lines nulls.now) }
    ensures told { (file : List ℕ) (items : List Item) → IsBody (Some file) front base.set file items
        → lines ≡ length (base_lines items base)
        → IfOk result (λ s. CopyComes base_splicing file (items_owed s.copying.filter.splicer
        (told_behind base.set [] items)) s.copying) }
    ensures name { IfOk result (λ s. name_read s.copying.items ≡ name.now) }
    ensures spelled { IfOk result (λ s. IsSpelled s.header) }
    ensures sid { IfOk result (λ s. IsSid s.sid) }
{
    let serial = serial_behind(&front.header, nulls);
    let copying = copying_of(alloc, name, &front, script, base.set, lines, serial)?;
    let counts = counts_of(&copying.filter.splicer, lines);
    let header = header_of(
        alloc,
        words,
        stamp,
        front.header,
        base.got,
        nulls.items(),
        edit,
        base.include,
        base.exclude,
        counts,
    )?;
    Ok(NewSfile {
        header,
        copying,
        sid: edit.made,
        counts,
    })
}

/// What the delta of an entry makes of an s-file. Full comes exactly where no serial is left.
pub fn new_sfile(
    alloc: Global,
    words: &DeltaWords,
    stamp: &Stamp,
    name: &Name,
    front: Front,
    edits: &Edits,
    chosen: Chosen,
    script: &Script,
    lines: u64,
) -> Result<NewSfile, StepFault>
    requires moment { IsMoment stamp.now.moment }
    requires spelled { IsSpelled front.header }
    requires edits { All IsEdit edits.now }
    requires some { 0 < chosen.number }
    requires there { chosen.number ≤ length edits.now }
    requires fits { checked_script script.now lines ≡ Ok tt }
    requires few { lines ≤ file_limit }
    ensures makes { (e : Edit) → slice_get edits.now (chosen.number - 1) ≡ Some e
        → MakesSfile words.now stamp.now front.header edits.now e chosen.base script.now lines result }
    ensures told { (file : List ℕ) (items : List Item) → IsBody (Some file) front chosen.base.set file items
        → lines ≡ length (base_lines items chosen.base)
        → IfOk result (λ s. CopyComes base_splicing file (items_owed s.copying.filter.splicer
        (told_behind chosen.base.set [] items)) s.copying) }
    ensures name { IfOk result (λ s. name_read s.copying.items ≡ name.now) }
    ensures spelled { IfOk result (λ s. IsSpelled s.header) }
    ensures sid { IfOk result (λ s. IsSid s.sid) }
    ensures checks { RefusesWithin delta_checks result }
    ensures broke { result ≢ Err faults.DiskFault }
    ensures read { result ≢ Err faults.ReadFault }
    ensures write { result ≢ Err faults.WriteFault }
{
    let edit = edits.at(chosen.number - 1);
    let nulls = nulls_of(alloc, &front.header, edits.items(), edit)?;
    match sfile_with(
        alloc,
        words,
        stamp,
        name,
        front,
        edit,
        chosen.base,
        &nulls,
        script,
        lines,
    ) {
        Ok(file) => Ok(file),
        Err(_) => Err(StepFault::Memory),
    }
}
