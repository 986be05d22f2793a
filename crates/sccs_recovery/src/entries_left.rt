ghost use Rattle.std.specs.Prelude.{◌≡◌, All, IfSome};
ghost use Rattle.std.specs.List.{list_any};
ghost use Rattle.sccs_pfile.specs.Entries.{IsEdit};
ghost use Rattle.sccs_pfile.specs.LiveSets.{HasLive};
ghost use Rattle.sccs_pfile.specs.Recovered.{is_done, without_done};
ghost use Rattle.sccs_recovery.specs.Entries.{HasEntries, LeavesEntries};

use sccs_history::Record;
use sccs_pfile::{Edit, Edits, LiveSet, find_live, has_live};
use sccs_sets::lives;
use std::alloc::Global;

/// What recovery makes of a p-file.
#[derive(Drop)]
pub enum PfileLeft {
    /// It stays as it is.
    Same,
    /// It is removed: no entry is left.
    Gone,
    /// These entries are left.
    Others(Edits),
}

/// From so many entries on it pays to have the live SIDs in a set.
const MANY_ENTRIES: u64 = 16;

// whether the delta of an entry is made; where it isn't known which SIDs are live, all records are gone through
fn is_done(records: &[Record], found: Option<&LiveSet>, edit: &Edit) -> bool
    requires { IfSome found (λ f. HasLive f.now records.now) }
    ensures { result ≡ is_done records.now edit.now }
{
    match found {
        Some(found) => has_live(found, edit.made),
        None => lives(records, edit.made),
    }
}

// whether the delta of some entry is made
fn some_done(records: &[Record], found: Option<&LiveSet>, edits: &[Edit]) -> bool
    requires { IfSome found (λ f. HasLive f.now records.now) }
    ensures { result ≡ list_any (is_done records.now) edits.now }
{
    edits.iter().any(|edit| is_done(records, found, edit))
}

// takes out the entries whose delta is made
fn drop_done(records: &[Record], found: Option<&LiveSet>, edits: &mut Edits)
    requires { IfSome found (λ f. HasLive f.now records.now) }
    ensures { edits.new ≡ without_done records.now edits.old }
{
    edits.retain(|edit| !is_done(records, found, edit));
}

// what is left of entries, without those whose delta is made
fn left_by(records: &[Record], found: Option<&LiveSet>, mut edits: Edits) -> PfileLeft
    requires live { IfSome found (λ f. HasLive f.now records.now) }
    requires edits { All IsEdit edits }
    ensures left { LeavesEntries records.now edits result }
    ensures entries { HasEntries result }
{
    if !some_done(records, found, edits.items()) {
        return PfileLeft::Same;
    }
    drop_done(records, found, &mut edits);
    if edits.items().is_empty() {
        PfileLeft::Gone
    } else {
        PfileLeft::Others(edits)
    }
}

/// What is left of entries, without those whose delta is made. Many entries are looked up in a set, where there is
/// memory for it.
pub fn entries_left(alloc: Global, records: &[Record], edits: Edits) -> PfileLeft
    requires { All IsEdit edits }
    ensures left { LeavesEntries records.now edits result }
    ensures entries { HasEntries result }
{
    if edits.len() < MANY_ENTRIES {
        return left_by(records, None, edits);
    }
    match find_live(alloc, records) {
        Ok(found) => left_by(records, Some(&found), edits),
        Err(_) => left_by(records, None, edits),
    }
}
