ghost use Rattle.std.specs.Prelude.{◌≡◌, ◌<◌};
ghost use Rattle.sccs_sid.specs.SidLists.{begins};
ghost use Rattle.sccs_trunks.specs.TrunkHistories.{first_with_soh};
ghost use Rattle.sccs_rcs_file.specs.TextFaults.{Finds, fault_from, fault_in};

use crate::faults::RcsFault;
use sccs_base::{Line, SOH};
use sccs_trunks::{Revision, check_script};

/// More lines than any file has.
const MOST_LINES: u64 = 1 << 61;

// whether a line begins with SOH
fn begins_soh(line: &[u8]) -> bool
    ensures { result ≡ begins 1 line.now }
{
    match line {
        [first, ..] => *first == SOH,
        [] => false,
    }
}

/// The first line that begins with SOH, from 1.
pub fn first_with_soh(text: &[Line]) -> Option<u64>
    ensures { result ≡ first_with_soh 1 text.now }
{
    let mut rest = text;
    let mut number: u64 = 1;
    'lines: while let Some((line, behind)) = rest.split_first() {
        if begins_soh(line.bytes()) {
            return Some(number);
        }
        number += 1;
        rest = behind;
    }
    None
}

// the scripts of revisions behind a text of so many lines
fn check_scripts(revisions: &[Revision], lines: u64) -> Result<(), RcsFault>
    ensures { Finds result (fault_from 2 lines revisions.now) }
{
    let mut rest = revisions;
    let mut lines = lines;
    let mut number: u64 = 2;
    'scripts: while let Some((revision, behind)) = rest.split_first() {
        let script = revision.text.items();
        if MOST_LINES < lines || MOST_LINES < script.len() as u64 {
            return Err(RcsFault::Memory);
        }
        match check_script(script, lines) {
            Ok(after) => lines = after,
            Err(line) => return Err(RcsFault::RcsScript(number, line)),
        }
        number += 1;
        rest = behind;
    }
    Ok(())
}

/// Whether the texts of a trunk can stand in an s-file, and its scripts fit; RcsScript has the first
/// revision at fault, the head being 1, and the line.
pub fn check_texts(revisions: &[Revision]) -> Result<(), RcsFault>
    ensures { Finds result (fault_in revisions.now) }
{
    let Some((head, others)) = revisions.split_first() else {
        return Ok(());
    };
    if let Some(line) = first_with_soh(head.text.items()) {
        return Err(RcsFault::RcsScript(1, line));
    }
    check_scripts(others, head.text.len())
}
