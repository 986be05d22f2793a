ghost use Rattle.std.specs.Prelude.{◌≡◌, ◌≢◌, ◌<◌, ◌≤◌, ◌+◌, Err, IfOk, length, map};
ghost use Rattle.std.specs.List.{AllByRecursion};
ghost use Rattle.sccs_history.specs.Applied.{newest};
ghost use Rattle.sccs_history.specs.History.{AreLines, IsSpelled};
ghost use Rattle.sccs_changes.specs.PFiles.{Answers};
ghost use Rattle.sccs_pfile.specs.Entries.{IsEdit};
ghost use Rattle.sccs_records.specs.NewDeltas.{HasSpellings, null_delta};
ghost use Rattle.sccs_sid.specs.Moment.{IsMoment};
ghost use Rattle.sccs_sid.specs.Sid.{IsSid};
ghost use Rattle.sccs_sid.specs.declared.refusals.StepFault.TheVariants as faults;
ghost use Rattle.sccs_steps.specs.Actions.{RefusesWithin};
ghost use Rattle.sccs_delta.specs.DeltaStep.{delta_checks, entry_delta, header_with, nulls_of};

use crate::skipping::{Sids, skipped};
use sccs_base::{Bytes, Line, ListOf, Memory, Text};
use sccs_history::{Header, Serials};
use sccs_pfile::Edit;
use sccs_records::{BasedHeader, Counts, NewDelta, add_delta, add_null_deltas, newest, some_lines};
use sccs_sid::{Refusal, Sid, Stamp, StepFault};
use sccs_words::DeltaWords;
use std::alloc::Global;

// the greatest serial: sccsfile(4)
const SERIAL_LIMIT: u64 = 65_535;

// the SIDs that entries are to make
fn reserved(alloc: Global, edits: &[Edit]) -> Result<ListOf<Sid>, Memory>
    ensures { IfOk result (λ sids. sids ≡ map (λ e. e.made) edits.now) }
{
    let mut sids = ListOf::empty(alloc);
    for edit in edits {
        sids.push(edit.made)?;
    }
    Ok(sids)
}

/// The SIDs of the null deltas that come before the delta of an entry. Full comes exactly where no serial is
/// left for one of them or for the delta. sccsfile(4), "Flags".
#[tactic(auto, unfolding(crate::specs::DeltaStep::nulls_of))]
pub fn nulls_of(
    alloc: Global,
    header: &Header,
    edits: &[Edit],
    edit: &Edit,
) -> Result<Sids, StepFault>
    requires { IsEdit edit.now }
    ensures value { Answers (nulls_of header.now edits.now edit.now) result }
    ensures sids { IfOk result (AllByRecursion IsSid) }
    ensures room { IfOk result (λ sids. newest header.now.records + length sids < 65535) }
    ensures checks { RefusesWithin delta_checks result }
    ensures broke { result ≢ Err faults.DiskFault }
{
    let Ok(reserved) = reserved(alloc, edits) else {
        return Err(StepFault::Memory);
    };
    let Ok(sids) = skipped(alloc, header, edit.got, edit.made, reserved.items()) else {
        return Err(StepFault::Memory);
    };
    if u64::from(newest(&header.records)) + sids.len() >= SERIAL_LIMIT {
        return Err(StepFault::Refused(Refusal::Full));
    }
    Ok(sids)
}

// MRs, each a line
fn mr_lines(alloc: Global, mrs: &[Bytes]) -> Result<Text, Memory>
    ensures value { IfOk result (λ text. text ≡ mrs.now) }
    ensures lines { IfOk result AreLines }
{
    let mut text = Text::empty(alloc);
    for mr in mrs {
        let Ok(line) = Line::new(alloc, mr.bytes()) else {
            return Err(Memory);
        };
        text.push(line)?;
    }
    Ok(text)
}

// the delta of an entry
fn new_delta(
    alloc: Global,
    words: &DeltaWords,
    stamp: &Stamp,
    edit: &Edit,
    include: Serials,
    exclude: Serials,
    counts: Counts,
) -> Result<NewDelta, Memory>
    requires moment { IsMoment stamp.now.moment }
    requires edit { IsEdit edit.now }
    ensures value { IfOk result (λ d. d ≡ entry_delta words.now stamp.now edit.now include exclude counts) }
    ensures spelled { IfOk result HasSpellings }
{
    let mrs = mr_lines(alloc, words.mrs.items())?;
    let comments = some_lines(alloc, words.comment.items())?;
    let stamp = *stamp;
    let _login = stamp.login.bytes();
    Ok(NewDelta {
        sid: edit.made,
        stamp,
        include,
        exclude,
        mrs,
        comments,
        counts,
    })
}

// puts null deltas of these SIDs on the table of a header, the first on the delta of a serial, and a new delta
// on the last of them
fn header_with(
    alloc: Global,
    header: Header,
    on: u16,
    stamp: &Stamp,
    nulls: &[Sid],
    delta: NewDelta,
) -> Result<Header, Memory>
    requires room { newest header.records + length nulls.now < 65535 }
    requires spelled { IsSpelled header }
    requires moment { IsMoment stamp.now.moment }
    requires sids { AllByRecursion IsSid nulls.now }
    requires delta { HasSpellings delta }
    ensures value { IfOk result (λ h. h ≡ header_with header on (map (null_delta stamp.now) nulls.now) delta) }
    ensures spelled { IfOk result IsSpelled }
{
    let based = add_null_deltas(alloc, BasedHeader { header, on }, stamp, nulls)?;
    add_delta(alloc, based.header, based.on, delta)
}

/// Puts null deltas of these SIDs on the table of a header, the first on the delta of a serial, and the delta of
/// an entry on the last of them.
pub fn header_of(
    alloc: Global,
    words: &DeltaWords,
    stamp: &Stamp,
    header: Header,
    on: u16,
    nulls: &[Sid],
    edit: &Edit,
    include: Serials,
    exclude: Serials,
    counts: Counts,
) -> Result<Header, Memory>
    requires room { newest header.records + length nulls.now < 65535 }
    requires spelled { IsSpelled header }
    requires moment { IsMoment stamp.now.moment }
    requires sids { AllByRecursion IsSid nulls.now }
    requires edit { IsEdit edit.now }
    ensures value { IfOk result (λ h. h ≡ header_with header on (map (null_delta stamp.now) nulls.now)
        (entry_delta words.now stamp.now edit.now include exclude counts)) }
    ensures spelled { IfOk result IsSpelled }
{
    let delta = new_delta(alloc, words, stamp, edit, include, exclude, counts)?;
    header_with(alloc, header, on, stamp, nulls, delta)
}
