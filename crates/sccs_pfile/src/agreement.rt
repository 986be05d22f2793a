ghost use Rattle.std.specs.Prelude.{◌≡◌, ◌↔◌, ◌==◌, not, true, false, None, Some, position, IfOk, IfSome, IsOk};
ghost use Rattle.std.specs.Prelude.{MatchResult};
ghost use Rattle.sccs_history.specs.History.{lives, same_sid};
ghost use Rattle.sccs_pfile.specs.LiveSets.{HasLive};
ghost use Rattle.sccs_pfile.specs.Lookups.{HasLookups};
ghost use Rattle.sccs_pfile.specs.MadeSids.{HasMakers};
ghost use Rattle.sccs_pfile.specs.Agreement.{Agrees, agrees, are_ranges, first_disagreeing, has_lists, is_listed};
ghost use Rattle.sccs_pfile.specs.Agreement.{makers, share_sid};

use crate::entries::{Edit, Edits};
use crate::live_sets::{LiveSet, find_live, has_live};
use crate::makers::{Makers, find_makers, has_one_maker};
use sccs_base::Memory;
use sccs_history::{Header, Record};
use sccs_sets::{in_range, lives, range_fault};
use sccs_sid::{Range, Sid};
use std::alloc::Global;

/// From so many entries on it pays to have the SIDs in sets.
const MANY_ENTRIES: usize = 16;

/// The SIDs that the entries make, and those of the live records.
#[derive(Drop)]
pub struct Lookups {
    makers: Makers,
    live: LiveSet,
}

/// The number, from 1, of the first entry that doesn't agree with a delta table.
#[derive(Clone, Copy, Debug, PartialEq, Eq)]
pub struct Disagree {
    pub entry: u64,
}

// whether each range goes over live deltas of one line, in order
fn are_ranges(records: &[Record], ranges: &[Range]) -> bool
    ensures { result ≡ are_ranges records.now ranges.now }
{
    ranges
        .iter()
        .all(|range| range_fault(records, range).is_none())
}

// whether some range of a list goes over a SID
pub fn is_listed(ranges: &[Range], sid: Sid) -> bool
    ensures { result ≡ is_listed ranges.now sid }
{
    ranges.iter().any(|range| in_range(range, sid))
}

// whether some live SID is in both lists
fn share_sid(records: &[Record], include: &[Range], exclude: &[Range]) -> bool
    ensures { result ≡ share_sid records.now include.now exclude.now }
{
    if include.is_empty() {
        return false;
    }
    if exclude.is_empty() {
        return false;
    }
    records.iter().any(|record| {
        !record.removed && (is_listed(include, record.sid) && is_listed(exclude, record.sid))
    })
}

// whether the lists of an entry name live SIDs, and share none
fn has_lists(records: &[Record], edit: &Edit) -> bool
    ensures { result ≡ has_lists records.now edit.now }
{
    let (include, exclude) = (edit.include.items(), edit.exclude.items());
    are_ranges(records, include)
        && (are_ranges(records, exclude) && !share_sid(records, include, exclude))
}

// how many of the entries are to make a SID
fn makers(edits: &[Edit], sid: Sid) -> usize
    ensures { result ≡ makers edits.now sid }
{
    edits.iter().filter(|edit| sid == edit.made).count()
}

// whether an entry alone is to make a SID; where it isn't known which SIDs the entries make, they are
// counted
fn is_made_once(edits: &[Edit], found: Option<&Lookups>, sid: Sid) -> bool
    requires { IfSome found (λ f. HasMakers f.now.makers edits.now) }
    ensures { result ≡ (makers edits.now sid == 1) }
{
    match found {
        Some(found) => has_one_maker(&found.makers, sid),
        None => makers(edits, sid) == 1,
    }
}

// whether some live record has a SID; where it isn't known which SIDs are live, all are gone through
fn is_live(records: &[Record], found: Option<&Lookups>, sid: Sid) -> bool
    requires { IfSome found (λ f. HasLive f.now.live records.now) }
    ensures { result ≡ lives records.now sid }
{
    match found {
        Some(found) => has_live(&found.live, sid),
        None => lives(records, sid),
    }
}

// whether an entry agrees with the records and with the other entries
fn agrees(records: &[Record], edits: &[Edit], found: Option<&Lookups>, edit: &Edit) -> bool
    requires { IfSome found (λ f. HasLookups f.now records.now edits.now) }
    ensures { result ≡ agrees records.now edits.now edit.now }
{
    is_live(records, found, edit.got)
        && (!is_live(records, found, edit.made)
            && (is_made_once(edits, found, edit.made) && has_lists(records, edit)))
}

// the place of the first entry that doesn't agree
fn first_disagreeing(records: &[Record], edits: &[Edit], found: Option<&Lookups>) -> Option<usize>
    requires { IfSome found (λ f. HasLookups f.now records.now edits.now) }
    ensures { result ≡ position (λ e. not (agrees records.now edits.now e)) edits.now }
{
    edits
        .iter()
        .position(|edit| !agrees(records, edits, found, edit))
}

// the SIDs of the entries and of the records
fn find_lookups(alloc: Global, records: &[Record], edits: &[Edit]) -> Result<Lookups, Memory>
    ensures { IfOk result (λ found. HasLookups found records.now edits.now) }
{
    let makers = find_makers(alloc, edits)?;
    let live = find_live(alloc, records)?;
    Ok(Lookups { makers, live })
}

// the same, by these sets where there are many entries and memory for them
fn first_by_sets(alloc: Global, records: &[Record], edits: &[Edit]) -> Option<usize>
    ensures { result ≡ position (λ e. not (agrees records.now edits.now e)) edits.now }
{
    if edits.len() < MANY_ENTRIES {
        return first_disagreeing(records, edits, None);
    }
    match find_lookups(alloc, records, edits) {
        Ok(found) => first_disagreeing(records, edits, Some(&found)),
        Err(_) => first_disagreeing(records, edits, None),
    }
}

/// Whether the entries of a p-file agree with the delta table: the SID got of each is live, its SID
/// to be made is neither live nor that of another entry, and its lists name live SIDs, have the ends
/// of each range on one line in order, and share no SID. Else the first entry, from 1, that doesn't.
/// Many entries are looked up in sets, where there is memory for these.
pub fn agree(alloc: Global, header: &Header, edits: &Edits) -> Result<(), Disagree>
    ensures exact { IsOk result ↔ Agrees header.now.records edits.now }
    ensures first { MatchResult result
        (λ _. first_disagreeing header.now.records edits.now ≡ None)
        (λ fault. first_disagreeing header.now.records edits.now ≡ Some fault.entry) }
{
    match first_by_sets(alloc, header.records.items(), edits.items()) {
        Some(place) => Err(Disagree {
            entry: place as u64 + 1,
        }),
        None => Ok(()),
    }
}
