ghost use Rattle.std.specs.Prelude.{◌≡◌, ◌&&◌, not, true, List, [], length, position, reverse, IfOk, IfSome, OnOk};
ghost use Rattle.std.specs.Prelude.{if◌then◌else◌};
ghost use Rattle.std.specs.List.{AllByRecursion};
ghost use Rattle.sccs_history.specs.Applied.{live_serials};
ghost use Rattle.sccs_history.specs.History.{lives};
ghost use Rattle.sccs_history.specs.Numbers.{has};
ghost use Rattle.sccs_history.specs.declared.headers.Record.{Record};
ghost use Rattle.sccs_sets.specs.LiveIndexes.{HasDeltas, single};
ghost use Rattle.sccs_sets.specs.Naming.{AnswersSerials, AreMarks, add_new, add_range, comes_first, in_range};
ghost use Rattle.sccs_sets.specs.Naming.{sid_named, named_serials, not_after, one_line, put_named, range_fault};
ghost use Rattle.sccs_sets.specs.Naming.{range_named};
ghost use Rattle.sccs_sets.specs.Retrieved.{live_where};

use crate::faults::SetFault;
use crate::live_indexes::{LiveIndex, delta_at, has_live, index_of};
use crate::marks::SERIALS;
use sccs_base::Memory;
use sccs_history::{Header, Record, Serials};
use sccs_sid::{Range, Sid, SidList};
use std::alloc::Global;

// a list of so many ranges goes over the table for each of them
const SHORT_LIST: u64 = 16;

/// A delta by its SID.
#[derive(Clone, Copy, Debug, PartialEq, Eq)]
pub struct Named {
    pub sid: Sid,
    pub serial: u16,
}

/// Whether both SIDs are on the trunk, or on one branch.
pub fn one_line(first: Sid, other: Sid) -> bool
    ensures { result ≡ one_line first other }
{
    if first.branch == 0 {
        other.branch == 0
    } else {
        first.release == other.release
            && (first.level == other.level && first.branch == other.branch)
    }
}

/// Whether a SID doesn't come after another of its line.
pub fn not_after(first: Sid, other: Sid) -> bool
    ensures { result ≡ not_after first other }
{
    if first.branch == 0 {
        first.release < other.release
            || (first.release == other.release && first.level <= other.level)
    } else {
        first.sequence <= other.sequence
    }
}

/// Whether a SID is on the line of a range, from the first end to the last.
pub fn in_range(range: &Range, sid: Sid) -> bool
    ensures { result ≡ in_range range.now sid }
{
    one_line(range.first, sid) && (not_after(range.first, sid) && not_after(sid, range.last))
}

/// Whether some live record has the SID.
pub fn lives(records: &[Record], sid: Sid) -> bool
    ensures { result ≡ lives records.now sid }
{
    records
        .iter()
        .any(|record| !record.removed && record.sid == sid)
}

// whether some live record has the SID, by an index where there is one
fn lives_by(index: &Option<LiveIndex>, records: &[Record], sid: Sid) -> bool
    requires { IfSome index.now (λ index. HasDeltas index records.now) }
    ensures { result ≡ lives records.now sid }
{
    match index {
        Some(index) => has_live(index, sid),
        None => lives(records, sid),
    }
}

// the SID at fault in a range, by an index where there is one
fn range_fault_by(index: &Option<LiveIndex>, records: &[Record], range: &Range) -> Option<Sid>
    requires { IfSome index.now (λ index. HasDeltas index records.now) }
    ensures { result ≡ range_fault records.now range.now }
{
    let (first, last) = (range.first, range.last);
    if !lives_by(index, records, first) {
        Some(first)
    } else if lives_by(index, records, last) && (one_line(first, last) && not_after(first, last)) {
        None
    } else {
        Some(last)
    }
}

/// The SID at fault in a range: the first end that isn't live, or the last where they aren't on one
/// line in order.
pub fn range_fault(records: &[Record], range: &Range) -> Option<Sid>
    ensures { result ≡ range_fault records.now range.now }
{
    range_fault_by(&None, records, range)
}

// the place of the first of those that come after a SID
fn place_after(found: &[Named], sid: Sid) -> Option<usize>
    ensures { result ≡ position (λ a. not (not_after a.sid sid)) found.now }
{
    found.iter().position(|a| !not_after(a.sid, sid))
}

// puts a delta before the first of those that come after it
fn put(found: &mut Vec<Named>, named: Named) -> Result<(), Memory>
    ensures { OnOk result (found.new.items ≡ put_named found.old.items named) }
{
    match place_after(found, named.sid) {
        Some(place) => found.insert(place, named)?,
        None => found.push(named)?,
    }
    Ok(())
}

// puts a record, where it is live and in the range
fn put_record(found: &mut Vec<Named>, delta: &Record, range: &Range) -> Result<(), Memory>
    ensures { OnOk result (found.new.items ≡ (if not delta.now.removed && in_range range.now delta.now.sid
        then put_named found.old.items (sid_named delta.now) else found.old.items)) }
{
    if !delta.removed && in_range(range, delta.sid) {
        let named = Named {
            sid: delta.sid,
            serial: delta.serial,
        };
        put(found, named)
    } else {
        Ok(())
    }
}

// the live deltas of a range, in rising order of their SIDs, in whichever order the table has them
fn range_sorted(alloc: Global, records: &[Record], range: &Range) -> Result<Vec<Named>, Memory>
    ensures { IfOk result (λ found. found.items ≡ range_named records.now range.now) }
{
    let mut found = Vec::new(alloc);
    for record in records {
        put_record(&mut found, record, range)?;
    }
    Ok(found)
}

// whether a SID comes before the last of others
fn comes_first(found: &[Named], sid: Sid) -> bool
    ensures { result ≡ comes_first (reverse found.now) sid }
{
    match found.split_last() {
        Some((last, _)) => !not_after(last.sid, sid),
        None => true,
    }
}

// puts a delta behind others, where it comes before them; whether it does
fn push_falling(found: &mut Vec<Named>, named: Named) -> Result<bool, Memory>
    ensures { IfOk result (λ falls. falls ≡ true → reverse found.new.items ≡ put_named (reverse found.old.items)
        named) }
{
    if !comes_first(found, named.sid) {
        return Ok(false);
    }
    found.push(named)?;
    Ok(true)
}

// puts a record behind others, where it is live and in the range, and comes before them; whether it isn't out of order
fn put_falling(found: &mut Vec<Named>, delta: &Record, range: &Range) -> Result<bool, Memory>
    ensures { IfOk result (λ falls. falls ≡ true → reverse found.new.items ≡ (if not delta.now.removed
        && in_range range.now delta.now.sid
        then put_named (reverse found.old.items) (sid_named delta.now) else reverse found.old.items)) }
{
    if !delta.removed && in_range(range, delta.sid) {
        let named = Named {
            sid: delta.sid,
            serial: delta.serial,
        };
        push_falling(found, named)
    } else {
        Ok(true)
    }
}

// the live deltas of a range, in falling order of their SIDs, where the table has them so, as it mostly does
fn range_falling(
    alloc: Global,
    records: &[Record],
    range: &Range,
) -> Result<Option<Vec<Named>>, Memory>
    ensures { IfOk result (λ found. IfSome found (λ found. reverse found.items ≡ range_named records.now range.now)) }
{
    let mut found = Vec::new(alloc);
    for record in records {
        if !put_falling(&mut found, record, range)? {
            return Ok(None);
        }
    }
    Ok(Some(found))
}

// deltas in the other order
fn reversed(found: Vec<Named>) -> Vec<Named>
    ensures { result.items ≡ reverse found.items }
{
    let mut found = found;
    found.reverse();
    found
}

// the live deltas of a range, in rising order of their SIDs
fn range_named(alloc: Global, records: &[Record], range: &Range) -> Result<Vec<Named>, Memory>
    ensures { IfOk result (λ found. found.items ≡ range_named records.now range.now) }
{
    match range_falling(alloc, records, range)? {
        Some(found) => Ok(reversed(found)),
        None => range_sorted(alloc, records, range),
    }
}

// the one live delta at the place of a SID, or none
fn named_at(alloc: Global, index: &LiveIndex, sid: Sid) -> Result<Vec<Named>, Memory>
    ensures { (records : List Record) → HasDeltas index.now records
        → IfOk result (λ found. found.items ≡ range_named records (single sid)) }
{
    let mut found = Vec::new(alloc);
    if let Some(named) = delta_at(index, sid) {
        found.push(named)?;
    }
    Ok(found)
}

// the live deltas of a range, in rising order of their SIDs, by an index where there is one and the range is of one SID
fn range_named_by(
    alloc: Global,
    index: &Option<LiveIndex>,
    records: &[Record],
    range: &Range,
) -> Result<Vec<Named>, Memory>
    requires { IfSome index.now (λ index. HasDeltas index records.now) }
    ensures { IfOk result (λ found. found.items ≡ range_named records.now range.now) }
{
    match index {
        Some(index) if range.first == range.last => named_at(alloc, index, range.first),
        _ => range_named(alloc, records, range),
    }
}

// adds a number, where it isn't there yet, as the marks say
fn add_new(seen: &mut Serials, marks: &mut [bool], number: u16) -> Result<(), Memory>
    requires size { length marks.old ≡ SERIALS }
    requires marks { AreMarks seen.old marks.old }
    ensures value { OnOk result (seen.new ≡ add_new seen.old number) }
    ensures marks { OnOk result (AreMarks seen.new marks.new) }
    ensures size { length marks.new ≡ SERIALS }
{
    let at = usize::from(number);
    if marks[at] {
        return Ok(());
    }
    marks[at] = true;
    seen.push(number)
}

// adds the serials of a range
fn add_range(
    alloc: Global,
    index: &Option<LiveIndex>,
    records: &[Record],
    seen: &mut Serials,
    marks: &mut [bool],
    range: &Range,
) -> Result<(), Memory>
    requires index { IfSome index.now (λ index. HasDeltas index records.now) }
    requires size { length marks.old ≡ SERIALS }
    requires marks { AreMarks seen.old marks.old }
    ensures value { OnOk result (seen.new ≡ add_range records.now seen.old range.now) }
    ensures marks { OnOk result (AreMarks seen.new marks.new) }
    ensures size { length marks.new ≡ SERIALS }
{
    let found = range_named_by(alloc, index, records, range)?;
    for named in &found {
        add_new(seen, marks, named.serial)?;
    }
    Ok(())
}

// the serials of a list's SIDs, where no number is marked yet
fn serials_by(
    alloc: Global,
    records: &[Record],
    list: &SidList,
    index: &Option<LiveIndex>,
    marks: &mut [bool],
) -> Result<Serials, SetFault>
    requires index { IfSome index.now (λ index. HasDeltas index records.now) }
    requires size { length marks.old ≡ SERIALS }
    requires marks { AreMarks [] marks.old }
    ensures value { AnswersSerials (named_serials records.now [] list.now) result }
    ensures live { IfOk result (AllByRecursion (λ n. has (live_serials records.now) n ≡ true)) }
{
    let mut seen = Serials::empty(alloc);
    for place in 0..list.len() {
        let range = list.at(place);
        if let Some(sid) = range_fault_by(index, records, range) {
            return Err(SetFault::BadList(sid));
        }
        let Ok(()) = add_range(alloc, index, records, &mut seen, marks, range) else {
            return Err(SetFault::Memory);
        };
    }
    Ok(seen)
}

// an index of the live records, where a list is so long that it pays
fn index_for(alloc: Global, records: &[Record], list: &SidList) -> Result<Option<LiveIndex>, Memory>
    ensures { IfOk result (λ index. IfSome index (λ index. HasDeltas index records.now)) }
{
    if list.len() > SHORT_LIST {
        index_of(alloc, records)
    } else {
        Ok(None)
    }
}

/// The serials of a list's SIDs in the order of the list, each once, at its first place. A range
/// goes over the live SIDs of one branch, or of the trunk, from its first end to its last. BadList
/// names the first SID that isn't live, or the last SID of a range whose ends aren't on one line in
/// order, exactly where there is one.
pub fn serials(alloc: Global, header: &Header, list: &SidList) -> Result<Serials, SetFault>
    ensures value { AnswersSerials (named_serials header.now.records [] list.now) result }
    ensures live { IfOk result
        (AllByRecursion (λ n. has (live_serials header.now.records) n ≡ true)) }
{
    if list.len() == 0 {
        return Ok(Serials::empty(alloc));
    }
    let records = header.records.items();
    let Ok(index) = index_for(alloc, records, list) else {
        return Err(SetFault::Memory);
    };
    let Ok(mut marks) = vec![in alloc; false; SERIALS] else {
        return Err(SetFault::Memory);
    };
    serials_by(alloc, records, list, &index, &mut marks)
}
