//! The SIDs of live records, in an ordered set, so that a look-up doesn't go over all records.
ghost use Rattle.std.specs.Prelude.{◌≡◌, List, [], ◌∷◌, ◌++◌, IfOk};
ghost use Rattle.sccs_history.specs.History.{lives};
ghost use Rattle.sccs_history.specs.declared.headers.Record.{Record};
ghost use Rattle.sccs_pfile.specs.LiveSets.{HasLive};

use crate::makers::sid_key;
use sccs_base::Memory;
use sccs_history::Record;
use sccs_sid::Sid;
use std::alloc::Global;
use std::collections::BTreeSet;

/// The SIDs of live records.
#[derive(Drop)]
pub struct LiveSet {
    sids: BTreeSet<(u16, u16, u16, u16), Global>,
}

// with one record more
fn with_record(found: LiveSet, delta: &Record) -> Result<LiveSet, Memory>
    ensures { (before : List Record) → HasLive found before
        → IfOk result (λ more. HasLive more (before ++ delta.now ∷ [])) }
{
    if delta.removed {
        return Ok(found);
    }
    let LiveSet { mut sids } = found;
    sids.insert(sid_key(delta.sid))?;
    Ok(LiveSet { sids })
}

/// The SIDs of the live ones of records.
pub fn find_live(alloc: Global, records: &[Record]) -> Result<LiveSet, Memory>
    ensures { IfOk result (λ found. HasLive found records.now) }
{
    let mut found = LiveSet {
        sids: BTreeSet::new(alloc),
    };
    for record in records {
        found = with_record(found, record)?;
    }
    Ok(found)
}

/// Whether some live record has a SID.
pub fn has_live(found: &LiveSet, sid: Sid) -> bool
    ensures { (records : List Record) → HasLive found.now records → result ≡ lives records sid }
{
    found.sids.contains(&sid_key(sid))
}
