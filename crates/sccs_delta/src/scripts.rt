ghost use Rattle.std.specs.Prelude.{◌≡◌, ◌≢◌, ◌≤◌, ◌-◌, ◌^◌, ℕ, List, true, Ok, Err, IfOk, IfSome, OnOk, drop, is_some};
ghost use Rattle.std.specs.Prelude.{min, IsErr};
ghost use Rattle.std.specs.List.{AllByRecursion};
ghost use Rattle.sccs_base.specs.Constants.{file_limit};
ghost use Rattle.sccs_base.specs.Name.{IsSFileName};
ghost use Rattle.sccs_disk.specs.Files.{View};
ghost use Rattle.sccs_disk.specs.Told.{seen};
ghost use Rattle.sccs_script_laws.specs.Plans.{IsInOrder, plan};
ghost use Rattle.sccs_history.specs.Body.{lines_of};
ghost use Rattle.sccs_history.specs.Select.{select};
ghost use Rattle.sccs_history.specs.declared.headers.Item.{Item};
ghost use Rattle.sccs_changes.specs.PFiles.{Answers, OnlyReads, PassesCheck, is_short};
ghost use Rattle.sccs_script.specs.Checks.{checked_script};
ghost use Rattle.sccs_script.specs.Commands.{FitsIn, orders_of};
ghost use Rattle.sccs_sid.specs.declared.refusals.StepFault.TheVariants as faults;
ghost use Rattle.sccs_steps.specs.Actions.{RefusesWithin};
ghost use Rattle.sccs_table.specs.ReaderState.{bytes_in};
ghost use Rattle.sccs_versions.specs.Coming.{IsBody};
ghost use Rattle.sccs_delta.specs.DeltaStep.{delta_checks, flag_has_text, mrs_checked, or_script_fault};
ghost use Rattle.sccs_delta.specs.Preparing.{FitsBy, ReadsBase, judged_script, script_fits, script_refusal};
ghost use Rattle.sccs_disk.specs.Causes.{DiskCauses};

use sccs_base::{FILE_LIMIT, Failed, Memory, Name, Words};
use sccs_copies::{Found, examine};
use sccs_disk::Disk;
use sccs_flags::has_flag;
use sccs_history::{Flag, Header};
use sccs_script::{AddedList, Numbers, Plan, Script, ScriptFault, check, plan, read_script};
use sccs_sets::Applied;
use sccs_sid::{Refusal, StepFault};
use sccs_table::Front;
use std::alloc::Global;

// how delta refuses a script
fn script_refusal(fault: ScriptFault) -> StepFault
    ensures { result ≡ script_refusal fault }
{
    match fault {
        ScriptFault::BadScript(line) => StepFault::Refused(Refusal::BadScript(line)),
        ScriptFault::ScriptRange(line, lines) => {
            StepFault::Refused(Refusal::ScriptRange(line, lines))
        }
        ScriptFault::BadText(line) => StepFault::Refused(Refusal::BadText(line)),
        ScriptFault::Memory => StepFault::Memory,
    }
}

/// The orders of a script. BadScript names the line of the first command that is none.
pub fn orders_of(alloc: Global, bytes: &[u8]) -> Result<Script, StepFault>
    ensures value { Answers (or_script_fault (orders_of bytes.now)) result }
    ensures fits { IfOk result (AllByRecursion (FitsIn (2 ^ 64))) }
    ensures checks { RefusesWithin delta_checks result }
    ensures broke { result ≢ Err faults.DiskFault }
{
    match read_script(alloc, bytes) {
        Ok(script) => Ok(script),
        Err(fault) => Err(script_refusal(fault)),
    }
}

// how many lines a base has at most: no body has more lines than bytes
fn most_lines(front: &Front) -> u64
    ensures value { result ≡ min (front.now.size - front.now.body_from) file_limit }
    ensures few { result ≤ file_limit }
{
    front.size.saturating_sub(front.body_from).min(FILE_LIMIT)
}

// the plan of a script that fits the longest base, of so many lines; one that doesn't fit it fits none
fn longest_plan(alloc: Global, script: &Script, lines: u64) -> Result<Plan, Memory>
    requires { lines ≤ file_limit }
    ensures value { checked_script script.now lines ≡ Ok tt → IfOk result (λ p. p ≡ plan script.now lines) }
    ensures order { IfOk result IsInOrder }
{
    if let Ok(()) = check(script, lines) {
        return plan(alloc, script, lines);
    }
    Ok(Plan {
        deleted: Numbers::empty(alloc),
        added: AddedList::empty(alloc),
    })
}

// whether a file is there
fn is_there<D: Disk>(disk: &mut D, file: &Name) -> Result<bool, Failed>
    ensures told { IfSome (seen (D.told disk.old)) (λ (v : View). IfOk result (λ there. there ≡ is_some (v file.now))) }
    ensures same { D.told disk.new ≡ D.told disk.old }
    ensures causes { DiskCauses (IsErr result) (D.faults disk.old) (D.faults disk.new) }
{
    Ok(disk.size(file)?.is_some())
}

// whether a script fits the base that a reading found, and its result is as it should be
#[tactic(auto, unfolding(crate::specs::Preparing::judged_script))]
fn judge(header: &Header, script: &Script, found: &Found) -> Result<(), StepFault>
    requires { found.now.lines ≤ file_limit }
    ensures value { PassesCheck (judged_script header.now.flags script.now found.now) result }
    ensures fits { OnOk result (checked_script script.now found.now.lines ≡ Ok tt) }
    ensures checks { RefusesWithin delta_checks result }
    ensures broke { result ≢ Err faults.DiskFault }
{
    if let Err(fault) = check(script, found.lines) {
        return Err(script_refusal(fault));
    }
    if has_flag(header, b'i') {
        if !found.keyword {
            return Err(StepFault::Refused(Refusal::NoKeywords));
        }
    }
    match found.differs {
        Some(line) => Err(StepFault::Refused(Refusal::GDiffers(line))),
        None => Ok(()),
    }
}

// reads the base of a script once
fn read_base<D: Disk>(
    alloc: Global,
    name: &Name,
    front: &Front,
    set: &Applied,
    script: &Script,
    disk: &mut D,
) -> Result<Found, StepFault>
    requires sfile { IsSFileName name.now }
    requires ordered { AllByRecursion (FitsIn (2 ^ 64)) script.now }
    ensures told { (file : List ℕ) (items : List Item) → IsBody (bytes_in (seen (D.told disk.old)) name.now) front.now
        set.now file items
        → IfSome (seen (D.told disk.old)) (λ (v : View). ReadsBase script.now (select set.now (lines_of items))
        (v (drop 2 name.now)) result) }
    ensures few { IfOk result (λ found. found.lines ≤ file_limit) }
    ensures checks { RefusesWithin delta_checks result }
    ensures frame { OnlyReads D.told D.faults disk.old disk.new result }
{
    let compares = match is_there(disk, &name.module()) {
        Ok(compares) => compares,
        Err(_) => return Err(StepFault::DiskFault),
    };
    let Ok(plan) = longest_plan(alloc, script, most_lines(front)) else {
        return Err(StepFault::Memory);
    };
    Ok(examine(alloc, name, front, set, plan, compares, disk)?)
}

// whether the flag of a letter is there and has a text
fn has_text(flags: &[Flag], letter: u8) -> bool
    ensures { result ≡ flag_has_text flags.now letter }
{
    match flags.iter().find(|flag| flag.letter == letter) {
        Some(flag) => !flag.text.bytes().is_empty(),
        None => false,
    }
}

// Whether the MRs of a delta are as the flag v asks. MrNeeded comes where it is there and none is given,
// MrNotAllowed where it isn't there and some are, Unsupported where v or i has a text, which would name a
// program or a keyword, in this order. sccsfile(4), "Flags".
#[tactic(auto, unfolding(crate::specs::DeltaStep::mrs_checked))]
fn check_mrs(header: &Header, mrs: &Words) -> Result<(), StepFault>
    ensures value { PassesCheck (mrs_checked header.now.flags mrs.now) result }
    ensures checks { RefusesWithin delta_checks result }
    ensures memory { result ≢ Err faults.Memory }
    ensures broke { result ≢ Err faults.DiskFault }
{
    let (wanted, given) = (has_flag(header, b'v'), mrs.len() > 0);
    if wanted && !given {
        return Err(StepFault::Refused(Refusal::MrNeeded));
    }
    if given && !wanted {
        return Err(StepFault::Refused(Refusal::MrNotAllowed));
    }
    if has_text(header.flags.items(), b'v') {
        return Err(StepFault::Refused(Refusal::Unsupported(b'v')));
    }
    if has_text(header.flags.items(), b'i') {
        return Err(StepFault::Refused(Refusal::Unsupported(b'i')));
    }
    Ok(())
}

/// Reads the base of a script once, and judges the script: it fits the base, its result has a keyword where the
/// flag i wants one, and is the text of the g-file where that is there; then the MRs. ScriptRange, BadText,
/// NoKeywords, GDiffers and the refusals of the MRs come in this order. POSIX, delta.
pub fn fit<D: Disk>(
    alloc: Global,
    name: &Name,
    front: &Front,
    set: &Applied,
    mrs: &Words,
    script: &Script,
    disk: &mut D,
) -> Result<Found, StepFault>
    requires sfile { IsSFileName name.now }
    requires ordered { AllByRecursion (FitsIn (2 ^ 64)) script.now }
    ensures told { (file : List ℕ) (items : List Item) → IsBody (bytes_in (seen (D.told disk.old)) name.now) front.now
        set.now file items
        → IfSome (seen (D.told disk.old)) (λ (v : View). is_short (v (drop 2 name.now)) ≡ true
        → FitsBy (script_fits front.now.header.flags mrs.now script.now (select set.now (lines_of items))
        (v (drop 2 name.now))) script.now (select set.now (lines_of items)) result) }
    ensures fits { IfOk result (λ found. checked_script script.now found.lines ≡ Ok tt) }
    ensures few { IfOk result (λ found. found.lines ≤ file_limit) }
    ensures checks { RefusesWithin delta_checks result }
    ensures frame { OnlyReads D.told D.faults disk.old disk.new result }
{
    let found = read_base(alloc, name, front, set, script, disk)?;
    judge(&front.header, script, &found)?;
    check_mrs(&front.header, mrs)?;
    Ok(found)
}
