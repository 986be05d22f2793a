ghost use Rattle.std.specs.Prelude.{◌≡◌, ◌++◌, ◌-◌, ◌&&◌, ◌||◌, ◌==◌, ◌<◌, ℕ, List, false, length, not, replicate};
ghost use Rattle.std.specs.Prelude.{slice_index_or, [], IfOk, OnOk};
ghost use Rattle.std.specs.List.{list_any};
ghost use Rattle.sccs_flags.specs.FlagValues.{has_flag};
ghost use Rattle.sccs_history.specs.FlagText.{flag_n};
ghost use Rattle.sccs_history.specs.Numbers.{front_if};
ghost use Rattle.sccs_history.specs.declared.headers.Record.{Record};
ghost use Rattle.sccs_sid.specs.declared.sids.Sid.{Sid};
ghost use Rattle.sccs_delta.specs.DeltaStep.{first_in_release, is_on_trunk, is_used, skipped, unused_from};

use sccs_base::{ListOf, Memory};
use sccs_flags::has_flag;
use sccs_history::{Header, Record};
use sccs_sid::Sid;
use std::alloc::Global;

/// SIDs in a row.
pub type Sids = ListOf<Sid>;

// the first delta of a release of the trunk
fn first_of(release: u16) -> Sid
    ensures { result ≡ first_in_release release }
{
    Sid {
        release,
        level: 1,
        branch: 0,
        sequence: 0,
    }
}

// whether a SID is of a release of the trunk
fn is_on_trunk(release: u16, sid: Sid) -> bool
    ensures { result ≡ is_on_trunk release sid }
{
    sid.branch == 0 && sid.release == release
}

// marks the release of a SID of the trunk, where it has a mark
fn mark(used: &mut [bool], sid: Sid)
    ensures size { length used.new ≡ length used.old }
    ensures marks { (n : ℕ) → n < length used.old
        → slice_index_or used.new n false ≡ (slice_index_or used.old n false || is_on_trunk n sid) }
{
    let release = usize::from(sid.release);
    if sid.branch == 0 && release < used.len() {
        used[release] = true;
    }
}

// the same of a record, where it is live
fn mark_record(used: &mut [bool], delta: &Record)
    ensures size { length used.new ≡ length used.old }
    ensures marks { (n : ℕ) → n < length used.old → slice_index_or used.new n false
        ≡ (slice_index_or used.old n false || (not delta.now.removed && is_on_trunk n delta.now.sid)) }
{
    if !delta.removed {
        mark(used, delta.sid);
    }
}

// marks the releases of the live deltas of the trunk
fn mark_live(used: &mut [bool], records: &[Record])
    ensures size { length used.new ≡ length used.old }
    ensures marks { (n : ℕ) → n < length used.old → slice_index_or used.new n false
        ≡ (slice_index_or used.old n false || list_any (λ r. not r.removed && is_on_trunk n r.sid) records.now) }
{
    for record in records {
        mark_record(used, record);
    }
}

// marks those of reserved SIDs of the trunk
fn mark_reserved(used: &mut [bool], reserved: &[Sid])
    ensures size { length used.new ≡ length used.old }
    ensures marks { (n : ℕ) → n < length used.old → slice_index_or used.new n false
        ≡ (slice_index_or used.old n false || list_any (is_on_trunk n) reserved.now) }
{
    for sid in reserved {
        mark(used, *sid);
    }
}

// marks the releases of the trunk that have a delta, or are to have one
fn mark_used(used: &mut [bool], records: &[Record], reserved: &[Sid])
    ensures size { length used.new ≡ length used.old }
    ensures marks { (n : ℕ) → n < length used.old → slice_index_or used.new n false
        ≡ (slice_index_or used.old n false || is_used records.now reserved.now n) }
{
    mark_live(used, records);
    mark_reserved(used, reserved);
}

// that many marks, none of them set
fn no_marks(alloc: Global, count: u16) -> Result<Vec<bool>, Memory>
    ensures { IfOk result (λ marks. marks.items ≡ replicate count false) }
{
    let marks = vec![in alloc; false; usize::from(count)]?;
    Ok(marks)
}

// whether a mark is set
fn is_marked(used: &[bool], release: u16) -> bool
    ensures { result ≡ slice_index_or used.now release false }
{
    used.get(usize::from(release)).copied().unwrap_or(false)
}

// adds the first SID of a release, unless it is used
fn push_unused(sids: &mut Sids, used: bool, release: u16) -> Result<(), Memory>
    ensures { OnOk result (sids.new ≡ sids.old ++ front_if (not used) (first_in_release release) []) }
{
    if used {
        return Ok(());
    }
    sids.push(first_of(release))
}

// adds those of the releases without a mark, from one up to another, which isn't among them
fn add_unused(sids: &mut Sids, used: &[bool], from: u16, to: u16) -> Result<(), Memory>
    ensures { (records : List Record) (reserved : List Sid)
        → ((n : ℕ) → n < to → slice_index_or used.now n false ≡ is_used records reserved n)
        → OnOk result (sids.new ≡ sids.old ++ unused_from records reserved from (to - from)) }
{
    for release in from..to {
        push_unused(sids, is_marked(used, release), release)?;
    }
    Ok(())
}

// adds the first SIDs of the unused releases from one up to another, which isn't among them, by marks of which none
// is set yet
fn add_by_marks(
    sids: &mut Sids,
    used: &mut [bool],
    records: &[Record],
    reserved: &[Sid],
    from: u16,
    to: u16,
) -> Result<(), Memory>
    requires { used.old ≡ replicate to false }
    ensures { OnOk result (sids.new ≡ sids.old ++ unused_from records.now reserved.now from (to - from)) }
{
    mark_used(used, records, reserved);
    add_unused(sids, used, from, to)
}

// adds the first SIDs of the unused releases from one up to another, which isn't among them. Records and reserved
// SIDs are gone over once, whatever the number of releases
fn add_skipped(
    alloc: Global,
    sids: &mut Sids,
    records: &[Record],
    reserved: &[Sid],
    from: u16,
    to: u16,
) -> Result<(), Memory>
    ensures { OnOk result (sids.new ≡ sids.old ++ unused_from records.now reserved.now from (to - from)) }
{
    let mut used = no_marks(alloc, to)?;
    add_by_marks(sids, &mut used, records, reserved, from, to)
}

// whether a delta may pass over releases
fn passes_over(header: &Header, got: Sid, made: Sid) -> bool
    ensures { result ≡ (has_flag header.now.flags flag_n && (got.branch == 0 && made.branch == 0)) }
{
    has_flag(header, b'n') && (got.branch == 0 && made.branch == 0)
}

/// The SIDs of the null deltas that a delta adds: with the flag n, the first ones of the releases without a
/// delta between those of the SID got and of the SID to be made, in rising order, where both are on the
/// trunk; none without the flag. A reserved SID counts as a delta. sccsfile(4), "Flags".
pub fn skipped(
    alloc: Global,
    header: &Header,
    got: Sid,
    made: Sid,
    reserved: &[Sid],
) -> Result<Sids, Memory>
    requires { got.release < 65535 }
    ensures { IfOk result (λ sids. sids ≡ skipped header.now got made reserved.now) }
{
    let mut sids = Sids::empty(alloc);
    if !passes_over(header, got, made) {
        return Ok(sids);
    }
    let records = header.records.items();
    add_skipped(
        alloc,
        &mut sids,
        records,
        reserved,
        got.release + 1,
        made.release,
    )?;
    Ok(sids)
}
