ghost use Rattle.std.specs.Prelude.{◌≡◌, ◌≢◌, All, Err, IfOk, IfSome, OnOk, Some, false, true};
ghost use Rattle.std.specs.List.{AllByRecursion};
ghost use Rattle.sccs_sid.specs.Moment.{IsMoment};
ghost use Rattle.sccs_sid.specs.Sid.{IsComponent, IsSid};
ghost use Rattle.sccs_sid.specs.SidLists.{IsRange};
ghost use Rattle.sccs_sid.specs.declared.refusals.StepFault.TheVariants as faults;
ghost use Rattle.sccs_history.specs.Applied.{live_serials, serials_of};
ghost use Rattle.sccs_history.specs.History.{HasSpelling, IsSpelled, IsTable, lives};
ghost use Rattle.sccs_history.specs.Numbers.{Falls, has};
ghost use Rattle.sccs_changes.specs.PFiles.{Answers, PassesCheck};
ghost use Rattle.sccs_pfile.specs.Entries.{IsEdit};
ghost use Rattle.sccs_sets.specs.Made.{to_be_made};
ghost use Rattle.sccs_sets.specs.Sets.{sid_at};
ghost use Rattle.sccs_steps.specs.Actions.{RefusesWithin};
ghost use Rattle.sccs_get.specs.NewEntry.{AreEditValues, edit_checks, free_sid, is_got, new_edit, new_entry};
ghost use Rattle.sccs_get.specs.NewEntry.{release_asked, release_checks, release_made, edit_releases, reserved};
ghost use Rattle.sccs_get.specs.NewEntry.{sid_checks, singles};
ghost use Rattle.sccs_get.specs.AskedVersion.{spec_asked};

use crate::targets::{Asked, asked_of};
use sccs_base::{ListOf, Memory};
use sccs_flags::{has_flag, is_allowed, is_locked, is_within_limits};
use sccs_history::{Header, Record};
use sccs_pfile::{Edit, Edits};
use sccs_sets::{Full, default_of, sid_at, to_make};
use sccs_sid::{Range, Refusal, Sid, SidList, Spec, Stamp, StepFault};
use sccs_words::GetWords;
use std::alloc::Global;

// the release of the SID to be made
fn release_made(got: Sid, made: Option<Sid>) -> u16
    ensures { result ≡ release_made got made }
{
    match made {
        Some(made) => made.release,
        None => got.release,
    }
}

// whether the releases may be got and made
#[tactic(auto, unfolding(crate::specs::NewEntry::edit_releases))]
fn check_releases(header: &Header, got: Sid, made: Option<Sid>) -> Result<(), StepFault>
    ensures value { PassesCheck (edit_releases header.now got made) result }
    ensures checks { RefusesWithin release_checks result }
    ensures memory { result ≢ Err faults.Memory }
    ensures broke { result ≢ Err faults.DiskFault }
{
    let release = release_made(got, made);
    if !is_within_limits(header, got.release) {
        return Err(StepFault::Refused(Refusal::OutsideRelease));
    }
    if !is_within_limits(header, release) {
        return Err(StepFault::Refused(Refusal::OutsideRelease));
    }
    if is_locked(header, release) {
        return Err(StepFault::Refused(Refusal::LockedRelease));
    }
    Ok(())
}

// whether an entry got a SID
fn is_got(edits: &[Edit], got: Sid) -> bool
    ensures { result ≡ is_got edits.now got }
{
    edits.iter().any(|edit| edit.got == got)
}

// the SID to be made, where it may be
#[tactic(auto, unfolding(crate::specs::NewEntry::free_sid))]
fn free_sid(
    header: &Header,
    edits: &Edits,
    in_the_way: bool,
    got: Sid,
    made: Option<Sid>,
) -> Result<Sid, StepFault>
    ensures value { Answers (free_sid header.now edits.now in_the_way got made) result }
    ensures checks { RefusesWithin sid_checks result }
    ensures memory { result ≢ Err faults.Memory }
    ensures broke { result ≢ Err faults.DiskFault }
{
    check_releases(header, got, made)?;
    if !has_flag(header, b'j') {
        if is_got(edits.items(), got) {
            return Err(StepFault::Refused(Refusal::BeingEdited));
        }
    }
    if in_the_way {
        return Err(StepFault::Refused(Refusal::GExists));
    }
    match made {
        Some(made) => Ok(made),
        None => Err(StepFault::Refused(Refusal::Full)),
    }
}

// the SIDs that the entries are to make
fn reserved(alloc: Global, edits: &[Edit]) -> Result<ListOf<Sid>, Memory>
    ensures { IfOk result (λ sids. sids ≡ reserved edits.now) }
{
    let mut sids = ListOf::empty(alloc);
    for edit in edits {
        sids.push(edit.made)?;
    }
    Ok(sids)
}

// the SID of a serial, where it stands at the place that it has in a table from which no delta is gone
fn placed_sid(records: &[Record], serial: u16) -> Option<Sid>
    requires { Falls 65536 (serials_of records.now) }
    ensures { IfSome result (λ sid. sid_at records.now serial ≡ Some sid) }
{
    let newest = records.first()?.serial;
    let place = newest.checked_sub(serial)?;
    let record = records.get(usize::from(place))?;
    if record.serial == serial {
        Some(record.sid)
    } else {
        None
    }
}

// the SID of a serial
fn sid_of(records: &[Record], serial: u16) -> Sid
    requires falls { Falls 65536 (serials_of records.now) }
    requires there { has (serials_of records.now) serial ≡ true }
    ensures { sid_at records.now serial ≡ Some result }
{
    match placed_sid(records, serial) {
        Some(sid) => sid,
        None => sid_at(records, serial),
    }
}

/// The SIDs of live serials, each as a range of its own.
pub fn singles(alloc: Global, records: &[Record], serials: &[u16]) -> Result<SidList, Memory>
    requires falls { Falls 65536 (serials_of records.now) }
    requires live { AllByRecursion (λ n. has (live_serials records.now) n ≡ true) serials.now }
    requires spelled { AllByRecursion HasSpelling records.now }
    ensures value { IfOk result (λ list. list ≡ singles records.now serials.now) }
    ensures valid { IfOk result (All IsRange) }
{
    let mut list = SidList::empty(alloc);
    for serial in serials {
        let sid = sid_of(records, *serial);
        list.insert(
            list.len(),
            Range {
                first: sid,
                last: sid,
            },
        )?;
    }
    Ok(list)
}

// the SID that is asked for
#[tactic(auto, using(crate::proofs::EntrySids::release_of_spec))]
fn spec_of(header: &Header, words: &GetWords) -> Option<Spec>
    requires { IsComponent (release_asked words.now.spec) }
    ensures value { result ≡ spec_asked words.now header.now }
    ensures valid { IsComponent (release_asked result) }
{
    match &words.spec {
        Some(spec) => Some(*spec),
        None => default_of(header.flags.items()),
    }
}

// the SID to be made on the one that is asked for
fn made_of(
    alloc: Global,
    header: &Header,
    edits: &Edits,
    words: &GetWords,
    target: u16,
) -> Result<Option<Sid>, Memory>
    requires live { has (live_serials header.now.records) target ≡ true }
    requires asked { IsComponent (release_asked words.now.spec) }
    ensures value { IfOk result (λ made. made ≡ to_be_made header.now (reserved edits.now) target
        (spec_asked words.now header.now) words.now.branch) }
    ensures valid { OnOk result (IsComponent (release_asked (spec_asked words.now header.now))) }
{
    let sids = reserved(alloc, edits.items())?;
    let spec = spec_of(header, words);
    match to_make(header, target, spec.as_ref(), words.branch, sids.items()) {
        Ok(made) => Ok(Some(made)),
        Err(Full) => Ok(None),
    }
}

// the entry of SIDs and lists
fn entry(
    alloc: Global,
    header: &Header,
    asked: &Asked,
    stamp: &Stamp,
    got: Sid,
    made: Sid,
) -> Result<Edit, Memory>
    requires falls { Falls 65536 (serials_of header.now.records) }
    requires include { AllByRecursion (λ n. has (live_serials header.now.records) n ≡ true) asked.now.include }
    requires exclude { AllByRecursion (λ n. has (live_serials header.now.records) n ≡ true) asked.now.exclude }
    requires spelled { IsSpelled header.now }
    requires moment { IsMoment stamp.now.moment }
    requires got { IsSid got }
    requires made { IsSid made }
    ensures value { IfOk result (λ e. e ≡ new_edit stamp.now header.now.records asked.now got made) }
    ensures valid { IfOk result IsEdit }
{
    let records = header.records.items();
    let include = singles(alloc, records, asked.include.items())?;
    let exclude = singles(alloc, records, asked.exclude.items())?;
    let login = stamp.login;
    let _bytes = login.bytes();
    Ok(Edit {
        got,
        made,
        login,
        moment: stamp.moment,
        include,
        exclude,
    })
}

/// The entry that get -e makes for a login: the SID that is asked for, the one that a delta on it is to have, and
/// the lists, each SID by itself. It refuses a login that isn't let in, a SID or lists that name no live
/// deltas, releases outside floor and ceiling or locked, a SID that is being edited, a g-file that is in the
/// way, and a SID that has no number left, in this order. POSIX, get -e.
pub fn new_entry(
    alloc: Global,
    header: &Header,
    edits: &Edits,
    words: &GetWords,
    stamp: &Stamp,
    in_the_way: bool,
) -> Result<Edit, StepFault>
    requires table { IsTable header.now.records }
    requires spelled { IsSpelled header.now }
    requires valid { AreEditValues words.now stamp.now }
    ensures value { Answers (new_entry words.now stamp.now header.now edits.now in_the_way) result }
    ensures valid { IfOk result IsEdit }
    ensures free { IfOk result (λ e. lives header.now.records e.made ≡ false) }
    ensures checks { RefusesWithin edit_checks result }
    ensures broke { result ≢ Err faults.DiskFault }
{
    if !is_allowed(header, &stamp.login) {
        return Err(StepFault::Refused(Refusal::NotAllowed));
    }
    let asked = asked_of(alloc, header, words)?;
    let got = sid_at(header.records.items(), asked.target);
    let Ok(made) = made_of(alloc, header, edits, words, asked.target) else {
        return Err(StepFault::Memory);
    };
    let made = free_sid(header, edits, in_the_way, got, made)?;
    match entry(alloc, header, &asked, stamp, got, made) {
        Ok(edit) => Ok(edit),
        Err(_) => Err(StepFault::Memory),
    }
}
