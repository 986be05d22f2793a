ghost use Rattle.std.specs.Prelude.{◌≡◌, ◌++◌, ◌∷◌, IfOk, OnOk, decimal};
ghost use Rattle.sccs_sid.specs.Sid.{IsSid, sid_text};
ghost use Rattle.sccs_delta.specs.DeltaStep.{count_line, delta_report};
ghost use Rattle.sccs_records.specs.declared.new_deltas.NewDelta.{NewDelta};

use itoa::Buffer;
use sccs_base::{Bytes, Memory};
use sccs_records::Counts;
use sccs_sid::{DETAIL_ROOM, Sid};
use std::alloc::Global;

// adds a number and a word on a line
fn add_count(count: u64, word: &[u8], report: &mut Vec<u8>) -> Result<(), Memory>
    ensures { OnOk result (report.new.items ≡ report.old.items ++ count_line count word.now) }
{
    let mut digits = Buffer::new();
    report.extend_from_slice(digits.format(count).as_bytes())?;
    report.push(b' ')?;
    report.extend_from_slice(word)?;
    report.push(b'\n')?;
    Ok(())
}

/// The report of a delta: its SID, and how many lines it inserted, deleted and left, each on a line; nothing
/// where it is to be silent. POSIX, delta, STDOUT.
pub fn delta_report(
    alloc: Global,
    silent: bool,
    sid: &Sid,
    counts: &Counts,
) -> Result<Bytes, Memory>
    requires { IsSid sid.now }
    ensures { IfOk result (λ report. report ≡ delta_report silent sid.now counts.now) }
{
    let mut report = Vec::new(alloc);
    if !silent {
        let mut row = [0; DETAIL_ROOM];
        report.extend_from_slice(sid.text(&mut row))?;
        report.push(b'\n')?;
        add_count(counts.inserted, b"inserted", &mut report)?;
        add_count(counts.deleted, b"deleted", &mut report)?;
        add_count(counts.unchanged, b"unchanged", &mut report)?;
    }
    Ok(Bytes::from_vec(report))
}
