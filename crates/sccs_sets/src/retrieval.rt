ghost use Rattle.std.specs.Prelude.{◌≡◌, ◌==◌, ◌&&◌, not, nat_le, max, map, true, None, Some, IfOk, MatchResult};
ghost use Rattle.std.specs.List.{reduce};
ghost use Rattle.std.specs.Option.{option_copied};
ghost use Rattle.sccs_history.specs.Applied.{live_serials};
ghost use Rattle.sccs_history.specs.Numbers.{has};
ghost use Rattle.sccs_sets.specs.Retrieved.{branch_sequence, branch_tip, is_within, newest_where, retrieved, serial_of};
ghost use Rattle.sccs_sets.specs.Retrieved.{top_at, top_of, trunk_level, trunk_release, trunk_tip};
ghost use Rattle.sccs_history.specs.History.{same_sid};

use sccs_history::{Header, Record};
use sccs_sid::{Sid, Spec};

/// No live delta is meant.
#[derive(Clone, Copy, Debug, PartialEq, Eq)]
pub struct NoSid;

// the serial of a live SID
fn serial_of(records: &[Record], sid: Sid) -> Option<u16>
    ensures { result ≡ serial_of records.now sid }
{
    let found = records
        .iter()
        .find(|record| !record.removed && record.sid == sid)?;
    Some(found.serial)
}

// the greatest live serial of a release
fn newest_of_release(records: &[Record], release: u16) -> Option<u16>
    ensures { result ≡ newest_where (λ s. s.release == release) records.now }
{
    let found = records
        .iter()
        .find(|record| !record.removed && record.sid.release == release)?;
    Some(found.serial)
}

// the greatest live serial of a release and level
fn newest_of_level(records: &[Record], release: u16, level: u16) -> Option<u16>
    ensures { result ≡ newest_where (λ s. s.release == release && s.level == level) records.now }
{
    let found = records.iter().find(|record| {
        !record.removed && (record.sid.release == release && record.sid.level == level)
    })?;
    Some(found.serial)
}

// whether a release isn't past a limit
fn is_within(limit: Option<u16>, release: u16) -> bool
    ensures { result ≡ is_within limit release }
{
    match limit {
        Some(limit) => release <= limit,
        None => true,
    }
}

// the greatest live release of the trunk that isn't past a limit
fn trunk_release(records: &[Record], limit: Option<u16>) -> Option<u16>
    ensures { result ≡ trunk_release records.now limit }
{
    records
        .iter()
        .filter(|record| {
            !record.removed && (record.sid.branch == 0 && is_within(limit, record.sid.release))
        })
        .map(|record| record.sid.release)
        .max()
}

// the greatest live level of the trunk in a release
fn trunk_level(records: &[Record], release: u16) -> Option<u16>
    ensures { result ≡ trunk_level records.now release }
{
    records
        .iter()
        .filter(|record| {
            !record.removed && (record.sid.branch == 0 && record.sid.release == release)
        })
        .map(|record| record.sid.level)
        .max()
}

// the greatest live sequence of a branch
fn branch_sequence(records: &[Record], release: u16, level: u16, branch: u16) -> Option<u16>
    ensures { result ≡ branch_sequence records.now release level branch }
{
    records
        .iter()
        .filter(|record| {
            let sid = record.sid;
            !record.removed
                && (sid.release == release && (sid.level == level && sid.branch == branch))
        })
        .map(|record| record.sid.sequence)
        .max()
}

// the newest delta of the trunk, in the greatest release that isn't past a limit
fn trunk_tip(records: &[Record], limit: Option<u16>) -> Option<u16>
    ensures { result ≡ trunk_tip records.now limit }
{
    let release = trunk_release(records, limit)?;
    let level = trunk_level(records, release)?;
    serial_of(
        records,
        Sid {
            release,
            level,
            branch: 0,
            sequence: 0,
        },
    )
}

// the newest delta of a branch
fn branch_tip(records: &[Record], release: u16, level: u16, branch: u16) -> Option<u16>
    ensures { result ≡ branch_tip records.now release level branch }
{
    let sequence = branch_sequence(records, release, level, branch)?;
    serial_of(
        records,
        Sid {
            release,
            level,
            branch,
            sequence,
        },
    )
}

// the greatest live serial of the newest release of the trunk
fn newest_top(records: &[Record]) -> Option<u16>
    ensures { result ≡ top_of records.now None }
{
    let release = trunk_release(records, None)?;
    newest_of_release(records, release)
}

// the greatest live serial of a trunk SID's release and level; a branch SID is itself
fn top_at(records: &[Record], sid: Sid) -> Option<u16>
    ensures { result ≡ top_at records.now sid }
{
    if sid.branch == 0 {
        newest_of_level(records, sid.release, sid.level)
    } else {
        serial_of(records, sid)
    }
}

// the serial that is got
fn found(records: &[Record], spec: Option<&Spec>, top: bool) -> Option<u16>
    ensures { result ≡ retrieved records.now (option_copied spec.entry) top }
{
    match (spec, top) {
        (None, false) => trunk_tip(records, None),
        (None, true) => newest_top(records),
        (Some(Spec::Release(release)), false) => trunk_tip(records, Some(*release)),
        (Some(Spec::Release(release)), true) => newest_of_release(records, *release),
        (Some(Spec::Branch(release, level, branch)), _) => {
            branch_tip(records, *release, *level, *branch)
        }
        (Some(Spec::Full(sid)), false) => serial_of(records, *sid),
        (Some(Spec::Full(sid)), true) => top_at(records, *sid),
    }
}

/// The serial of the delta that a get gets: of the newest one of the trunk, or of the SID or the
/// front of one that is given; with `top` the greatest serial of a release, or of a release and
/// level, branches included. NoSid comes exactly where no live delta is meant.
pub fn retrieve(header: &Header, spec: Option<&Spec>, top: bool) -> Result<u16, NoSid>
    ensures value { MatchResult result
        (λ n. retrieved header.now.records (option_copied spec.entry) top ≡ Some n)
        (λ _. retrieved header.now.records (option_copied spec.entry) top ≡ None) }
    ensures live { IfOk result (λ n. has (live_serials header.now.records) n ≡ true) }
{
    match found(header.records.items(), spec, top) {
        Some(serial) => Ok(serial),
        None => Err(NoSid),
    }
}
