ghost use Rattle.std.specs.Prelude.{◌≡◌, ◌&&◌, not, true, None, Some, unwrap_or, MatchResult};
ghost use Rattle.std.specs.List.{list_any};
ghost use Rattle.std.specs.Option.{option_copied};
ghost use Rattle.sccs_history.specs.Applied.{live_serials};
ghost use Rattle.sccs_history.specs.Numbers.{has};
ghost use Rattle.sccs_sets.specs.Made.{comes_after, is_beside, is_taken, live_branch, made_on, next, next_level};
ghost use Rattle.sccs_sets.specs.Made.{next_on_line, next_on_trunk, on_new_branch, reserved_branch, to_be_made};

use crate::naming::{not_after, one_line};
use crate::tables::sid_at;
use sccs_flags::has_flag;
use sccs_history::{Header, Record};
use sccs_sid::{Sid, Spec};

/// No number is left: a component of the SID to be made would pass 9999.
#[derive(Clone, Copy, Debug, PartialEq, Eq)]
pub struct Full;

// the last number that a component may be
const LAST: u16 = 9999;

// the next component
fn next(number: u16) -> Option<u16>
    ensures { result ≡ next number }
{
    if number < LAST {
        Some(number + 1)
    } else {
        None
    }
}

// whether a SID comes after another on its line
pub fn comes_after(got: Sid, sid: Sid) -> bool
    ensures { result ≡ comes_after got sid }
{
    one_line(got, sid) && !not_after(sid, got)
}

// whether a SID is of the same release and level as another
fn is_beside(got: Sid, sid: Sid) -> bool
    ensures { result ≡ is_beside got sid }
{
    sid.release == got.release && sid.level == got.level
}

// whether a live SID comes after another on its line
fn live_follows(records: &[Record], got: Sid) -> bool
    ensures { result ≡ list_any (λ r. not r.removed && comes_after got r.sid) records.now }
{
    records
        .iter()
        .any(|record| !record.removed && comes_after(got, record.sid))
}

// whether a reserved SID comes after another on its line
fn reserved_follows(reserved: &[Sid], got: Sid) -> bool
    ensures { result ≡ list_any (comes_after got) reserved.now }
{
    reserved.iter().any(|sid| comes_after(got, *sid))
}

// whether a live or a reserved SID comes after another on its line
fn is_followed(records: &[Record], reserved: &[Sid], got: Sid) -> bool
    ensures { result ≡ is_taken records.now reserved.now (comes_after got) }
{
    live_follows(records, got) || reserved_follows(reserved, got)
}

// the greatest branch of the live deltas of a release and level
fn live_branch(records: &[Record], got: Sid) -> Option<u16>
    ensures { result ≡ live_branch records.now got }
{
    records
        .iter()
        .filter(|record| !record.removed && is_beside(got, record.sid))
        .map(|record| record.sid.branch)
        .max()
}

// the greatest branch of the reserved SIDs of a release and level
fn reserved_branch(reserved: &[Sid], got: Sid) -> Option<u16>
    ensures { result ≡ reserved_branch reserved.now got }
{
    reserved
        .iter()
        .filter(|sid| is_beside(got, **sid))
        .map(|sid| sid.branch)
        .max()
}

// the number, 0 where there is none
fn or_none(number: Option<u16>) -> u16
    ensures { result ≡ unwrap_or number 0 }
{
    match number {
        Some(number) => number,
        None => 0,
    }
}

// the first SID of a new branch
fn on_new_branch(records: &[Record], reserved: &[Sid], got: Sid) -> Option<Sid>
    ensures { result ≡ on_new_branch records.now reserved.now got }
{
    let live = or_none(live_branch(records, got));
    let branch = next(live.max(or_none(reserved_branch(reserved, got))))?;
    Some(Sid {
        release: got.release,
        level: got.level,
        branch,
        sequence: 1,
    })
}

// the next level of a trunk SID
fn next_level(got: Sid) -> Option<Sid>
    ensures { result ≡ next_level got }
{
    let level = next(got.level)?;
    Some(Sid {
        release: got.release,
        level,
        branch: 0,
        sequence: 0,
    })
}

// the next SID of the trunk, in a higher release where one is given
fn next_on_trunk(got: Sid, spec: Option<&Spec>) -> Option<Sid>
    ensures { result ≡ next_on_trunk got (option_copied spec.entry) }
{
    match spec {
        Some(Spec::Release(release)) if got.release < *release => Some(Sid {
            release: *release,
            level: 1,
            branch: 0,
            sequence: 0,
        }),
        _ => next_level(got),
    }
}

// the next SID on the line of another
fn next_on_line(got: Sid, spec: Option<&Spec>) -> Option<Sid>
    ensures { result ≡ next_on_line got (option_copied spec.entry) }
{
    if got.branch == 0 {
        return next_on_trunk(got, spec);
    }
    let sequence = next(got.sequence)?;
    Some(Sid {
        release: got.release,
        level: got.level,
        branch: got.branch,
        sequence,
    })
}

// the SID to be made on another
fn made_on(
    records: &[Record],
    reserved: &[Sid],
    got: Sid,
    spec: Option<&Spec>,
    branch: bool,
) -> Option<Sid>
    ensures { result ≡ made_on records.now reserved.now got (option_copied spec.entry) branch }
{
    if branch || is_followed(records, reserved, got) {
        on_new_branch(records, reserved, got)
    } else {
        next_on_line(got, spec)
    }
}

/// The SID that a delta on the version got is to have, where a SID or a front of one was given or
/// not, and `-b` was given, which counts where the flag b is set: the next one on its line where no
/// branch is asked for and no live or reserved SID comes after it there, in a release above it where
/// one was given; else the first of a new branch. Full exactly where a component would pass 9999.
/// POSIX, get -e.
#[tactic(auto, using(crate::proofs::Lookups::live_there))]
pub fn to_make(
    header: &Header,
    got: u16,
    spec: Option<&Spec>,
    branch: bool,
    reserved: &[Sid],
) -> Result<Sid, Full>
    requires live { has (live_serials header.now.records) got ≡ true }
    ensures { MatchResult result
        (λ sid. to_be_made header.now reserved.now got (option_copied spec.entry) branch ≡ Some sid)
        (λ _. to_be_made header.now reserved.now got (option_copied spec.entry) branch ≡ None) }
{
    let records = header.records.items();
    let on = sid_at(records, got);
    match made_on(
        records,
        reserved,
        on,
        spec,
        branch && has_flag(header, b'b'),
    ) {
        Some(sid) => Ok(sid),
        None => Err(Full),
    }
}
