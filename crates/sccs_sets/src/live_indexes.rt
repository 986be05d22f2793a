//! The live deltas of a table by their SIDs, so that a look-up doesn't go over all records.
ghost use Rattle.std.specs.Prelude.{◌≡◌, List, [], ◌∷◌, ◌++◌, IfOk, IfSome, option_copied};
ghost use Rattle.std.specs.Option.{option_to_list};
ghost use Rattle.sccs_history.specs.History.{lives};
ghost use Rattle.sccs_history.specs.declared.headers.Record.{Record};
ghost use Rattle.sccs_sets.specs.LiveIndexes.{HasDeltas, place_of, single};
ghost use Rattle.sccs_sets.specs.Naming.{range_named};

use crate::naming::Named;
use sccs_base::Memory;
use sccs_history::Record;
use sccs_sid::Sid;
use std::alloc::Global;
use std::collections::BTreeMap;

/// The live deltas of a table, no two of which stand at one place.
#[derive(Drop)]
pub struct LiveIndex {
    deltas: BTreeMap<(u16, u16, u16, u16), Named, Global>,
}

// where a SID stands: on the trunk by release and level, on a branch by all four numbers
fn place_of(sid: Sid) -> (u16, u16, u16, u16)
    ensures { result ≡ place_of sid }
{
    let sequence = if sid.branch == 0 { 0 } else { sid.sequence };
    (sid.release, sid.level, sid.branch, sequence)
}

// with one record more; none where a live one stands at its place
fn with_record(index: LiveIndex, delta: &Record) -> Result<Option<LiveIndex>, Memory>
    ensures { (before : List Record) → HasDeltas index before
        → IfOk result (λ more. IfSome more (λ index. HasDeltas index (before ++ delta.now ∷ []))) }
{
    if delta.removed {
        return Ok(Some(index));
    }
    let LiveIndex { mut deltas } = index;
    let named = Named {
        sid: delta.sid,
        serial: delta.serial,
    };
    match deltas.insert(place_of(delta.sid), named)? {
        Some(_) => Ok(None),
        None => Ok(Some(LiveIndex { deltas })),
    }
}

/// The index of the live ones of records; none where two stand at one place, as in no valid table.
pub fn index_of(alloc: Global, records: &[Record]) -> Result<Option<LiveIndex>, Memory>
    ensures { IfOk result (λ found. IfSome found (λ index. HasDeltas index records.now)) }
{
    let mut index = LiveIndex {
        deltas: BTreeMap::new(alloc),
    };
    for record in records {
        match with_record(index, record)? {
            Some(more) => index = more,
            None => return Ok(None),
        }
    }
    Ok(Some(index))
}

/// The live delta at the place of a SID.
pub fn delta_at(index: &LiveIndex, sid: Sid) -> Option<Named>
    ensures { (records : List Record) → HasDeltas index.now records
        → option_to_list result ≡ range_named records (single sid) }
{
    index.deltas.get(&place_of(sid)).copied()
}

/// Whether some live record has a SID.
pub fn has_live(index: &LiveIndex, sid: Sid) -> bool
    ensures { (records : List Record) → HasDeltas index.now records → result ≡ lives records sid }
{
    match delta_at(index, sid) {
        Some(named) => named.sid == sid,
        None => false,
    }
}
