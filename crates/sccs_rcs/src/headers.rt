ghost use Rattle.std.specs.Prelude.{◌≡◌, ◌++◌, ◌<◌, ℕ, List, [], ◌∷◌, suc, length, IfOk, OnOk};
ghost use Rattle.std.specs.List.{AllByRecursion};
ghost use Rattle.sccs_history.specs.Body.{HistoryLine};
ghost use Rattle.sccs_history.specs.History.{HasSpelling, IsSpelled};
ghost use Rattle.sccs_trunks.specs.Counts.{counts_at};
ghost use Rattle.sccs_trunks.specs.Runs.{run_lines};
ghost use Rattle.sccs_rcs.specs.Parts.{AreCounts, IsRead};
ghost use Rattle.sccs_trunks.specs.TrunkHistories.{IsRevision, count_of, history_of, record_of, records_of};

use sccs_base::{Memory, Text};
use sccs_history::{Flags, Header, Record, Records, Serials};
use sccs_records::copy_lines;
use sccs_trunks::{LineCounts, LineRun, Rcs, Revision, line_counts};
use std::alloc::Global;

/// The greatest count of a delta table: sccsfile(4).
const COUNT_LIMIT: u64 = 99_999;

// a count as a delta table has it
fn count_of(count: u64) -> u32
    ensures { result ≡ count_of count }
{
    count.min(COUNT_LIMIT) as u32
}

// the record of the revision that so many others follow
fn record_of(
    alloc: Global,
    revision: &Revision,
    below: u16,
    counts: &LineCounts,
) -> Result<Record, Memory>
    requires room { below < 65535 }
    requires is { IsRevision revision.now }
    ensures value { IfOk result (λ r. (lines : List HistoryLine) → counts.now ≡ counts_at (suc below) lines
        → r ≡ record_of lines below revision.now) }
    ensures spelled { IfOk result HasSpelling }
{
    let comments = copy_lines(alloc, revision.log.items())?;
    let mrs = Text::empty(alloc);
    Ok(Record {
        serial: below + 1,
        removed: false,
        sid: revision.sid,
        moment: revision.moment,
        login: revision.login,
        predecessor: below,
        include: Serials::empty(alloc),
        exclude: Serials::empty(alloc),
        ignore: Serials::empty(alloc),
        mrs,
        comments,
        inserted: count_of(counts.inserted),
        deleted: count_of(counts.deleted),
        unchanged: count_of(counts.unchanged),
    })
}

// puts the record of the revision that so many others follow behind others
fn push_record(
    alloc: Global,
    records: &mut Records,
    revision: &Revision,
    below: usize,
    counts: &[LineCounts],
) -> Result<(), Memory>
    requires room { below < length counts.now }
    requires short { below < 65535 }
    requires is { IsRevision revision.now }
    ensures value { OnOk result ((lines : List HistoryLine) → AreCounts lines (length counts.now) counts.now
        → records.new ≡ records.old ++ record_of lines below revision.now ∷ []) }
    ensures spelled { OnOk result (AllByRecursion HasSpelling records.old → AllByRecursion HasSpelling records.new) }
{
    let record = record_of(alloc, revision, below as u16, &counts[below])?;
    records.push(record)?;
    Ok(())
}

// the records of revisions, by the counts of their serials
fn records_of(
    alloc: Global,
    revisions: &[Revision],
    counts: &[LineCounts],
) -> Result<Records, Memory>
    requires few { length revisions.now < 65536 }
    requires each { AllByRecursion IsRevision revisions.now }
    requires counts { length counts.now ≡ length revisions.now }
    ensures value { IfOk result (λ records. (lines : List HistoryLine) → AreCounts lines (length counts.now) counts.now
        → records ≡ records_of lines revisions.now) }
    ensures spelled { IfOk result (AllByRecursion HasSpelling) }
{
    let mut records = Records::empty(alloc);
    let mut rest = revisions;
    'revisions: while let Some((revision, behind)) = rest.split_first() {
        push_record(alloc, &mut records, revision, behind.len(), counts)?;
        rest = behind;
    }
    Ok(records)
}

/// The header of the s-file of a trunk: a delta for each revision, and the description.
pub fn trunk_header(alloc: Global, rcs: &Rcs, runs: &[LineRun]) -> Result<Header, Memory>
    requires read { IsRead rcs.now }
    requires lines { run_lines runs.now ≡ (history_of rcs.now).lines }
    ensures value { IfOk result (λ header. header ≡ (history_of rcs.now).header) }
    ensures spelled { IfOk result IsSpelled }
{
    let revisions = rcs.revisions.items();
    let counts = line_counts(alloc, runs, revisions.len() as u64)?;
    let records = records_of(alloc, revisions, counts.as_slice())?;
    let description = copy_lines(alloc, rcs.description.items())?;
    Ok(Header {
        records,
        users: Text::empty(alloc),
        flags: Flags::empty(alloc),
        description,
    })
}
