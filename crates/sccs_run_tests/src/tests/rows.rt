use sccs_disk::MemoryDisk;
use sccs_test_kit::{Answer, CASE, Case, File, Given, answer_to, disk_with, first_wrong};
use std::alloc::Global;
use std::test::Fail;

/// A line of words, its status, and what is given to out and err.
pub type Row<'a> = (&'a [u8], u8, &'a [u8], &'a [u8]);

// a disk with the files s.a and s.b
fn two_files(alloc: Global, a: &[u8], b: &[u8]) -> Result<MemoryDisk, Fail> {
    let files = [
        File {
            name: b"s.a",
            bytes: Some(a),
        },
        File {
            name: b"s.b",
            bytes: Some(b),
        },
    ];
    disk_with(alloc, &[], &files)
}

// the case that a row is
fn case_of<'a>(row: &Row<'a>) -> Case<'a> {
    let (line, status, out, err) = *row;
    Case {
        line,
        status,
        out,
        err,
        ..CASE
    }
}

/// The place of the first row that doesn't end as it should, on the files s.a and s.b.
pub fn wrong_row(alloc: Global, a: &[u8], b: &[u8], rows: &[Row]) -> Result<Option<usize>, Fail> {
    let mut disk = two_files(alloc, a, b)?;
    let mut cases = Vec::new(alloc);
    for row in rows {
        cases.push(case_of(row))?;
    }
    first_wrong(alloc, &mut disk, &cases)
}

/// What a line answers over a disk with these files, if out has nothing.
pub fn silent(
    alloc: Global,
    line: &[u8],
    given: &Given,
    failing_disk: &[u64],
    files: &[File],
) -> Result<Option<Answer>, Fail> {
    let mut disk = disk_with(alloc, failing_disk, files)?;
    let seen = answer_to(alloc, line, given, &mut disk)?;
    Ok(if seen.out.bytes().is_empty() {
        Some(seen.answer)
    } else {
        None
    })
}
