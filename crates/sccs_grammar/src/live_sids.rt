//! The SIDs of the live records of a table, so that a look-up mostly doesn't go over all records.
ghost use Rattle.std.specs.Prelude.{◌≡◌, List, [], ◌∷◌, ◌++◌, IfOk};
ghost use Rattle.sccs_history.specs.History.{lives};
ghost use Rattle.sccs_grammar.specs.HeldTable.{HasSids, HoldsSids, AreFrom};
ghost use Rattle.sccs_grammar.specs.SidKeys.{sid_key, sid_number};

use sccs_base::Memory;
use sccs_history::Record;
use sccs_sid::Sid;
use std::alloc::Global;
use std::collections::BTreeSet;

/// The SIDs of the live records of a table. While SIDs fall from record to record only the last
/// one's number is held.
#[derive(Drop)]
pub enum LiveSids {
    /// Each SID so far has at least this number.
    Falling(u64),
    /// The SIDs of the live records.
    Listed(BTreeSet<(u16, u16, u16, u16), Global>),
}

// the four numbers of a SID
fn sid_key(sid: &Sid) -> (u16, u16, u16, u16)
    ensures { result ≡ sid_key sid.now }
{
    (sid.release, sid.level, sid.branch, sid.sequence)
}

// one number for a SID, in the order of its four
fn sid_number(sid: &Sid) -> u64
    ensures { result ≡ sid_number sid.now }
{
    let trunk = u64::from(sid.release) * 65_536 + u64::from(sid.level);
    (trunk * 65_536 + u64::from(sid.branch)) * 65_536 + u64::from(sid.sequence)
}

// whether some live record has the SID, by a look at each
#[inline(never)]
fn is_among(records: &[Record], sid: &Sid) -> bool
    ensures { result ≡ lives records.now sid.now }
{
    records
        .iter()
        .any(|record| !record.removed && record.sid == *sid)
}

// whether some live record has the SID, where each SID has at least a number
fn is_among_falling(last: u64, records: &[Record], sid: &Sid) -> bool
    requires { AreFrom last records.now }
    ensures { result ≡ lives records.now sid.now }
{
    if sid_number(sid) < last {
        return false;
    }
    is_among(records, sid)
}

// with the SID of a record more, where it is live
fn with_listed(
    mut sids: BTreeSet<(u16, u16, u16, u16), Global>,
    row: &Record,
) -> Result<BTreeSet<(u16, u16, u16, u16), Global>, Memory>
    ensures { (table : List Record) → HasSids sids table
        → IfOk result (λ more. HasSids more (table ++ row.now ∷ [])) }
{
    if row.removed {
        return Ok(sids);
    }
    match sids.insert(sid_key(&row.sid)) {
        Ok(_) => Ok(sids),
        Err(_) => Err(Memory),
    }
}

// the SIDs of the live ones of these records
fn list_sids(
    alloc: Global,
    records: &[Record],
) -> Result<BTreeSet<(u16, u16, u16, u16), Global>, Memory>
    ensures { IfOk result (λ sids. HasSids sids records.now) }
{
    let mut sids = BTreeSet::new(alloc);
    for record in records {
        sids = with_listed(sids, record)?;
    }
    Ok(sids)
}

// with the SID of a record more, where each SID so far has at least a number
fn with_falling(
    alloc: Global,
    last: u64,
    records: &[Record],
    row: &Record,
) -> Result<LiveSids, Memory>
    requires { AreFrom last records.now }
    ensures { IfOk result (λ more. HoldsSids more (records.now ++ row.now ∷ [])) }
{
    let number = sid_number(&row.sid);
    if number < last {
        return Ok(LiveSids::Falling(number));
    }
    let sids = list_sids(alloc, records)?;
    Ok(LiveSids::Listed(with_listed(sids, row)?))
}

impl LiveSids {
    /// Of no records.
    pub fn none() -> LiveSids
        ensures { HoldsSids result [] }
    {
        LiveSids::Falling(u64::MAX)
    }

    /// Whether some live record has the SID. All are looked at only where SIDs fell so far and this
    /// one doesn't; with it they are listed.
    pub fn lives(&self, records: &[Record], sid: &Sid) -> bool
        requires { HoldsSids self.now records.now }
        ensures { result ≡ lives records.now sid.now }
    {
        match self {
            LiveSids::Falling(last) => is_among_falling(*last, records, sid),
            LiveSids::Listed(sids) => sids.contains(&sid_key(sid)),
        }
    }
}

/// The SIDs with a record more.
pub fn with_sid(
    alloc: Global,
    sids: LiveSids,
    records: &[Record],
    row: &Record,
) -> Result<LiveSids, Memory>
    requires { HoldsSids sids records.now }
    ensures { IfOk result (λ more. HoldsSids more (records.now ++ row.now ∷ [])) }
{
    match sids {
        LiveSids::Falling(last) => with_falling(alloc, last, records, row),
        LiveSids::Listed(sids) => Ok(LiveSids::Listed(with_listed(sids, row)?)),
    }
}
