ghost use Rattle.std.specs.Prelude.{◌≡◌, ◌≤◌, ℕ, List, [], length, Option, IfOk, IfSome};
ghost use Rattle.sccs_disk.specs.Told.{seen};
ghost use Rattle.sccs_history.specs.History.{IsHeader, IsSpelled, KeepsRules};
ghost use Rattle.sccs_table.specs.FrontFile.{IsFirst, IsPlaced, ReadsDisk, ReadsOn};
ghost use Rattle.sccs_table.specs.ReaderState.{StandsIn, Stays, bytes_in, file_in};
ghost use Rattle.sccs_table.specs.FrontFile.{IsOuter};
ghost use Rattle.sccs_table.specs.ReaderState.{behind_sum};
ghost use Rattle.sccs_table.specs.SumOf.{IsPlainSumOf};
ghost use Rattle.sccs_body.specs.AnySum.{AnswersUnsummed};
ghost use Rattle.sccs_body.specs.Behind.{ReadsBehind};
ghost use Rattle.sccs_body.specs.BodyFile.{AnswersFile, ChecksRest};
ghost use Rattle.sccs_body.specs.ItemsRead.{HasBehind};

use crate::body_readers::BodyReader;
use crate::body_states::BodyState;
use sccs_base::Name;
use sccs_disk::Disk;
use sccs_grammar::FileFault;
use sccs_table::{
    Front, LineEnds, LineReader, check_sum, is_encoded, open_file, read_lines, read_sum,
};
use std::alloc::Global;

// reads the items of a body up to its end
fn check_items<D: Disk>(disk: &mut D, body: &mut BodyReader) -> Result<(), FileFault>
    requires { body.old.from ≤ body.old.lines.place }
    ensures frame { ReadsOn D.told D.faults disk.old disk.new body.old.lines body.new.lines result }
    ensures first { IsFirst result }
    ensures stays { Stays (bytes_in (seen (D.told disk.old)) body.old.lines.name) body.old.lines body.new.lines }
    ensures told { (live : List ℕ) → HasBehind live [] body.old
        → ChecksRest (bytes_in (seen (D.told disk.old)) body.old.lines.name) live body.old result }
{
    'items: loop {
        let count = body.texts().len();
        body.pass(count);
        if body.next_control().is_some() {
            continue;
        }
        if body.read_on(disk)? {
            continue;
        }
        match body.next(disk)? {
            Some(_) => {}
            None => return Ok(()),
        }
    }
}

// reads header and items with a reader that stands behind the sum line, and gives it back where it
// stands then; the front's sum is left at 0
fn read_front<D: Disk>(
    alloc: Global,
    disk: &mut D,
    lines: LineReader,
    size: u64,
) -> (Result<Front, FileFault>, LineReader)
    requires size { lines.limit ≡ size }
    requires limit { size ≤ 1073741824 }
    ensures frame { ReadsOn D.told D.faults disk.old disk.new lines result.1 result.0 }
    ensures first { IsFirst result.0 }
    ensures stays { Stays (bytes_in (seen (D.told disk.old)) lines.name) lines result.1 }
    ensures placed { IfOk result.0 IsPlaced }
    ensures rules { IfOk result.0 (λ front. KeepsRules front.header) }
    ensures spelled { IfOk result.0 (λ front. IsSpelled front.header) }
    ensures told { IfSome (bytes_in (seen (D.told disk.old)) lines.name) (λ file. StandsIn lines file
        → size ≡ length file → ReadsBehind file lines result.0) }
{
    let mut lines = lines;
    let (header, body_line) = match read_lines(alloc, disk, &mut lines) {
        Ok(found) => found,
        Err(fault) => return (Err(fault), lines),
    };
    let body_from = lines.place();
    let Ok(state) = BodyState::new(alloc, header.records.items()) else {
        return (Err(FileFault::Memory), lines);
    };
    let mut body = BodyReader::new(alloc, lines, state, body_line, body_from);
    let checked = check_items(disk, &mut body);
    let lines = body.into_lines();
    if let Err(fault) = checked {
        return (Err(fault), lines);
    }
    let front = Front {
        header,
        body_from,
        body_line,
        size,
        sum: 0,
    };
    (Ok(front), lines)
}

/// Reads a whole s-file, header, body and sum: sccsfile(4). The fault is the first that holds in
/// the order of `FileFault`.
pub fn inspect<D: Disk>(alloc: Global, disk: &mut D, name: &Name) -> Result<Front, FileFault>
    ensures frame { ReadsDisk D.told D.faults disk.old disk.new result }
    ensures first { IsFirst result }
    ensures placed { IfOk result IsPlaced }
    ensures rules { IfOk result (λ front. IsHeader front.header) }
    ensures spelled { IfOk result (λ front. IsSpelled front.header) }
    ensures told { IfSome (seen (D.told disk.old)) (λ view. AnswersFile (file_in view name.now) result) }
{
    let size = open_file(disk, name)?;
    let mut lines = LineReader::new(name, 0, size, LineEnds::Unasked);
    let stored = read_sum(alloc, disk, &mut lines)?;
    let (read, mut lines) = read_front(alloc, disk, lines, size);
    let sum = check_sum(disk, &mut lines, stored)?;
    let mut front = read?;
    front.sum = sum;
    if is_encoded(front.header.flags.items()) {
        Err(FileFault::Encoded)
    } else {
        Ok(front)
    }
}

// reads on to the end of a file, and answers the plain sum of all bytes after the sum line, whatever
// the stored one is
fn plain_sum<D: Disk>(disk: &mut D, lines: &mut LineReader, stored: u32) -> Result<u16, FileFault>
    requires { 8 ≤ lines.old.limit }
    ensures frame { ReadsDisk D.told D.faults disk.old disk.new result }
    ensures first { IsFirst result }
    ensures told { (file : List ℕ) → bytes_in (seen (D.told disk.old)) lines.old.name ≡ Some file → 8 ≤ length file
        → StandsIn lines.old file
        → IsOuter result × IfOk result (λ sum. IsPlainSumOf sum (behind_sum file)) }
{
    match check_sum(disk, lines, stored) {
        Ok(sum) | Err(FileFault::BadSum(_, sum)) => Ok(sum),
        Err(fault) => Err(fault),
    }
}

/// Reads a whole s-file as `inspect` does, but for its stored sum, which it passes over: the front has the
/// sum that is right. sccsfile(4); POSIX, Shell and Utilities, admin, -z.
pub fn inspect_any_sum<D: Disk>(
    alloc: Global,
    disk: &mut D,
    name: &Name,
) -> Result<Front, FileFault>
    ensures frame { ReadsDisk D.told D.faults disk.old disk.new result }
    ensures first { IsFirst result }
    ensures placed { IfOk result IsPlaced }
    ensures rules { IfOk result (λ front. IsHeader front.header) }
    ensures spelled { IfOk result (λ front. IsSpelled front.header) }
    ensures told { IfSome (seen (D.told disk.old)) (λ view. AnswersUnsummed (file_in view name.now) result) }
{
    let size = open_file(disk, name)?;
    let mut lines = LineReader::new(name, 0, size, LineEnds::Unasked);
    let stored = read_sum(alloc, disk, &mut lines)?;
    let (read, mut lines) = read_front(alloc, disk, lines, size);
    let sum = plain_sum(disk, &mut lines, stored)?;
    let mut front = read?;
    front.sum = sum;
    if is_encoded(front.header.flags.items()) {
        Err(FileFault::Encoded)
    } else {
        Ok(front)
    }
}
