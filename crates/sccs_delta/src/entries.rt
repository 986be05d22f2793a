ghost use Rattle.std.specs.Prelude.{◌≡◌, ◌≢◌, ◌<◌, ◌≤◌, ◌^◌, false, Err, IfOk, length};
ghost use Rattle.std.specs.List.{AllByRecursion};
ghost use Rattle.sccs_history.specs.History.{IsTable};
ghost use Rattle.sccs_history.specs.Numbers.{has};
ghost use Rattle.sccs_changes.specs.PFiles.{Answers, PassesCheck};
ghost use Rattle.sccs_script.specs.Commands.{FitsIn};
ghost use Rattle.sccs_sid.specs.declared.refusals.StepFault.TheVariants as faults;
ghost use Rattle.sccs_steps.specs.Actions.{RefusesWithin};
ghost use Rattle.sccs_delta.specs.DeltaStep.{entry_base, delta_checks, delta_releases};
ghost use Rattle.sccs_delta.specs.Preparing.{FindsAsked, FindsEntry, list_fault};

use crate::scripts::orders_of;
use sccs_changes::{Pending, chosen};
use sccs_flags::{is_allowed, is_locked, is_within_limits};
use sccs_history::{Header, Serials};
use sccs_pfile::Edit;
use sccs_script::Script;
use sccs_sets::{Applied, NoSid, SetFault, delta_set, retrieve, serials};
use sccs_sid::{Refusal, Spec, Stamp, StepFault};
use sccs_words::DeltaWords;
use std::alloc::Global;

/// What an entry says by serials: the delta got, those of its lists, and the set whose version is the base.
#[derive(Drop)]
pub struct Base {
    pub got: u16,
    pub include: Serials,
    pub exclude: Serials,
    pub set: Applied,
}

/// An entry, by its number from 1, and its base.
#[derive(Drop)]
pub struct Chosen {
    pub number: u64,
    pub base: Base,
}

/// The entry that is asked for, with its base, and the orders of the script.
#[derive(Drop)]
pub struct Asked {
    pub chosen: Chosen,
    pub script: Script,
}

// an entry whose list names no live deltas disagrees with the table
fn list_fault(fault: SetFault, number: u64) -> StepFault
    ensures { result ≡ list_fault number fault }
{
    match fault {
        SetFault::BadList(_) => StepFault::Refused(Refusal::Disagree(number)),
        SetFault::Memory => StepFault::Memory,
    }
}

/// What an entry of a number says by serials. Disagree comes where its SID got is that of no live delta, or a
/// list names a SID that is none or is in both lists; of entries that agree with the table it never comes.
pub fn base_of(alloc: Global, header: &Header, number: u64, edit: &Edit) -> Result<Base, StepFault>
    requires { IsTable header.now.records }
    ensures value { Answers (entry_base header.now.records number edit.now) result }
    ensures no_zero { IfOk result (λ b. has b.set 0 ≡ false) }
    ensures checks { RefusesWithin delta_checks result }
    ensures broke { result ≢ Err faults.DiskFault }
{
    let spec = Spec::Full(edit.got);
    let got = match retrieve(header, Some(&spec), false) {
        Ok(got) => got,
        Err(NoSid) => return Err(StepFault::Refused(Refusal::Disagree(number))),
    };
    let include = match serials(alloc, header, &edit.include) {
        Ok(include) => include,
        Err(fault) => return Err(list_fault(fault, number)),
    };
    let exclude = match serials(alloc, header, &edit.exclude) {
        Ok(exclude) => exclude,
        Err(fault) => return Err(list_fault(fault, number)),
    };
    match delta_set(alloc, header, got, &include, &exclude, None) {
        Ok(set) => Ok(Base {
            got,
            include,
            exclude,
            set,
        }),
        Err(fault) => Err(list_fault(fault, number)),
    }
}

// whether the releases of an entry may be used
#[tactic(auto, unfolding(crate::specs::DeltaStep::delta_releases))]
fn check_releases(header: &Header, edit: &Edit) -> Result<(), StepFault>
    ensures value { PassesCheck (delta_releases header.now.flags edit.now) result }
    ensures checks { RefusesWithin delta_checks result }
    ensures memory { result ≢ Err faults.Memory }
    ensures broke { result ≢ Err faults.DiskFault }
{
    if !is_within_limits(header, edit.got.release) {
        return Err(StepFault::Refused(Refusal::OutsideRelease));
    }
    if !is_within_limits(header, edit.made.release) {
        return Err(StepFault::Refused(Refusal::OutsideRelease));
    }
    if is_locked(header, edit.made.release) {
        return Err(StepFault::Refused(Refusal::LockedRelease));
    }
    Ok(())
}

/// The entry of the login, and of the SID got or to be made where one is given. It refuses a login that isn't let
/// in, one without such an entry or with several, and releases outside floor and ceiling or locked, in this
/// order. POSIX, delta.
pub fn chosen_entry(
    alloc: Global,
    words: &DeltaWords,
    stamp: &Stamp,
    pending: &Pending,
) -> Result<Chosen, StepFault>
    requires { IsTable pending.now.front.header.records }
    ensures value { FindsEntry words.now stamp.now pending.now.front.header pending.now.edits result }
    ensures no_zero { IfOk result (λ c. has c.base.set 0 ≡ false) }
    ensures some { IfOk result (λ c. 0 < c.number) }
    ensures there { IfOk result (λ c. c.number ≤ length pending.now.edits) }
    ensures checks { RefusesWithin delta_checks result }
    ensures broke { result ≢ Err faults.DiskFault }
{
    let header = &pending.front.header;
    if !is_allowed(header, &stamp.login) {
        return Err(StepFault::Refused(Refusal::NotAllowed));
    }
    let number = chosen(&pending.edits, &stamp.login, words.sid.as_ref(), true)?;
    let edit = pending.edits.at(number - 1);
    let base = base_of(alloc, header, number, edit)?;
    check_releases(header, edit)?;
    Ok(Chosen { number, base })
}

/// The entry that is asked for, as `chosen_entry` finds it, and the orders of the script, in this order.
pub fn read_asked(
    alloc: Global,
    words: &DeltaWords,
    stamp: &Stamp,
    pending: &Pending,
    script: &[u8],
) -> Result<Asked, StepFault>
    requires { IsTable pending.now.front.header.records }
    ensures value { FindsAsked words.now stamp.now pending.now.front.header pending.now.edits script.now result }
    ensures no_zero { IfOk result (λ a. has a.chosen.base.set 0 ≡ false) }
    ensures some { IfOk result (λ a. 0 < a.chosen.number) }
    ensures there { IfOk result (λ a. a.chosen.number ≤ length pending.now.edits) }
    ensures fits { IfOk result (λ a. AllByRecursion (FitsIn (2 ^ 64)) a.script) }
    ensures checks { RefusesWithin delta_checks result }
    ensures broke { result ≢ Err faults.DiskFault }
{
    let chosen = chosen_entry(alloc, words, stamp, pending)?;
    let script = orders_of(alloc, script)?;
    Ok(Asked { chosen, script })
}
