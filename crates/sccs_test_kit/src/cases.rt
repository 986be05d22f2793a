use crate::batches::ends_as_batch;
use crate::runs::{Given, PLAIN, answer_to};
use sccs_disk::{Disk, Fill, MemoryDisk};
use std::alloc::Global;
use std::test::Fail;

/// A line of words, the time of a day, the login and the input, and what the line answers.
#[derive(Clone, Copy)]
pub struct Case<'a> {
    pub line: &'a [u8],
    pub time: &'a [u8],
    pub login: &'a [u8],
    pub input: &'a [u8],
    pub status: u8,
    pub out: &'a [u8],
    pub err: &'a [u8],
}

/// No words, given by ann with no input, which give nothing to out and err and have status 0.
pub const CASE: Case<'static> = Case {
    line: b"",
    time: b"05:06:07",
    login: b"ann",
    input: b"",
    status: 0,
    out: b"",
    err: b"",
};

/// Whether a case ends as it should over a disk.
pub fn ends<D: Disk>(alloc: Global, disk: &mut D, case: &Case) -> Result<bool, Fail> {
    let given = Given {
        input: case.input,
        time: case.time,
        login: case.login,
        ..PLAIN
    };
    let seen = answer_to(alloc, case.line, &given, disk)?;
    Ok(seen.is(case.status, case.out, case.err))
}

/// The place of the first case that doesn't end as it should, each one over the disk that those before it left; their
/// number where each ends so, and one batch of all that have words doesn't.
pub fn first_wrong(
    alloc: Global,
    disk: &mut MemoryDisk,
    cases: &[Case],
) -> Result<Option<usize>, Fail> {
    let mut before = disk.crash(alloc, u64::MAX, u64::MAX, Fill::Written)?;
    for (at, case) in cases.iter().enumerate() {
        if !ends(alloc, disk, case)? {
            return Ok(Some(at));
        }
    }
    Ok(if ends_as_batch(alloc, &mut before, cases)? {
        None
    } else {
        Some(cases.len())
    })
}
