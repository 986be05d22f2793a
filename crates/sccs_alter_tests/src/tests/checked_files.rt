use sccs_disk::{Fill, MemoryDisk};
use sccs_test_kit::samples::TWO_LINES;
use sccs_test_kit::{
    Answer, CASE, Case, File, PLAIN, answer_to, disk_with, first_wrong, has, has_file,
};
use std::alloc::Global;
use std::test::Fail;

// the two lines under a wrong sum
const WRONG_SUM: &[u8] =
    b"\x01h00000\n\x01s 00002/00000/00000\n\x01d D 1.1 21/03/04 05:06:07 ann 1 0\n\
        \x01c date and time created 21/03/04 05:06:07 by ann\n\x01e\n\x01u\n\x01U\n\x01t\n\x01T\n\x01I 1\none\n\
        two %I%\n\x01E 1\n";

// one that is right, one with a wrong sum, and one that is none; the first is locked
const FILES: [File<'static>; 4] = [
    File {
        name: b"s.a",
        bytes: Some(TWO_LINES),
    },
    File {
        name: b"z.a",
        bytes: Some(b""),
    },
    File {
        name: b"s.b",
        bytes: Some(WRONG_SUM),
    },
    File {
        name: b"s.c",
        bytes: Some(b"text\n"),
    },
];

const CHECKED: [Case<'static>; 4] = [
    Case {
        line: b"admin -h s.a",
        ..CASE
    },
    Case {
        line: b"admin -h s.b",
        status: 1,
        err: b"ERROR [s.b]: bad sum: stored 00000, computed 08096 (07)\n",
        ..CASE
    },
    Case {
        line: b"admin -h s.c",
        status: 1,
        err: b"ERROR [s.c]: not an SCCS file (06)\n",
        ..CASE
    },
    Case {
        line: b"admin -h s.d d",
        status: 1,
        err: b"ERROR [s.d]: no such file (03)\nERROR [d]: not a name of an s-file (01)\n",
        ..CASE
    },
];

// whether files are checked so, and stay
fn are_checked(alloc: Global) -> Result<bool, Fail> {
    let mut disk = disk_with(alloc, &[], &FILES)?;
    let wrong = first_wrong(alloc, &mut disk, &CHECKED)?;
    let are_kept = has(&disk, &FILES)?;
    Ok(wrong.is_none() && are_kept)
}

#[test]
fn checks_change_nothing(rt: HostRuntime) -> Result<(), Fail> {
    assert!(rt; are_checked(rt.alloc())?);
    Ok(())
}

// the same as they are mended: the sum is passed over, all else is checked, and other options are taken beside
const MENDED: [Case<'static>; 5] = [
    Case {
        line: b"admin -z s.b",
        ..CASE
    },
    Case {
        line: b"admin -h s.b",
        ..CASE
    },
    Case {
        line: b"admin -z s.c",
        status: 1,
        err: b"ERROR [s.c]: not an SCCS file (06)\n",
        ..CASE
    },
    Case {
        line: b"admin -z s.a",
        status: 1,
        err: b"ERROR [s.a]: locked by z-file (02)\n",
        ..CASE
    },
    Case {
        line: b"admin -z s.d",
        status: 1,
        err: b"ERROR [s.d]: no such file (03)\n",
        ..CASE
    },
];

// the files behind them
const RIGHT: [File<'static>; 4] = [
    File {
        name: b"s.a",
        bytes: Some(TWO_LINES),
    },
    File {
        name: b"z.a",
        bytes: Some(b""),
    },
    File {
        name: b"s.b",
        bytes: Some(TWO_LINES),
    },
    File {
        name: b"s.c",
        bytes: Some(b"text\n"),
    },
];

// whether a wrong sum is mended so, and nothing else changes
fn are_mended(alloc: Global) -> Result<bool, Fail> {
    let mut disk = disk_with(alloc, &[], &FILES)?;
    let wrong = first_wrong(alloc, &mut disk, &MENDED)?;
    let are_right = has(&disk, &RIGHT)?;
    Ok(wrong.is_none() && are_right)
}

#[test]
fn wrong_sums_are_mended(rt: HostRuntime) -> Result<(), Fail> {
    assert!(rt; are_mended(rt.alloc())?);
    Ok(())
}

// with -z the file's other faults are found
const BAD_LINE: &[u8] =
    b"\x01h00000\n\x01s 00002/00000/00000\n\x01d D 1.1 21/03/04 05:06:07 ann 1 0\n\
        \x01c date and time created 21/03/04 05:06:07 by ann\n\x01e\n\x01u\n\x01U\n\x01t\n\x01T\n\x01I 1\none\n\
        two %I%\n\x01E 2\n";

const BAD_FILE: [File<'static>; 1] = [File {
    name: b"s.a",
    bytes: Some(BAD_LINE),
}];

const NOT_MENDED: [Case<'static>; 1] = [Case {
    line: b"admin -z s.a",
    status: 1,
    err: b"ERROR [s.a]: format error at line 13 (08)\n",
    ..CASE
}];

// whether such a file stays as it is
fn is_not_mended(alloc: Global) -> Result<bool, Fail> {
    let mut disk = disk_with(alloc, &[], &BAD_FILE)?;
    let wrong = first_wrong(alloc, &mut disk, &NOT_MENDED)?;
    let is_kept = has(&disk, &BAD_FILE)?;
    Ok(wrong.is_none() && is_kept)
}

#[test]
fn bad_lines_are_not_mended(rt: HostRuntime) -> Result<(), Fail> {
    assert!(rt; is_not_mended(rt.alloc())?);
    Ok(())
}

// more calls than this makes
const CALLS: u64 = 40;

const SPOILED: [File<'static>; 1] = [File {
    name: b"s.a",
    bytes: Some(WRONG_SUM),
}];

// whether the s-file is the old one or the new one
fn is_either(disk: &MemoryDisk) -> Result<bool, Fail> {
    let old = has_file(disk, b"s.a", Some(WRONG_SUM))?;
    let new = has_file(disk, b"s.a", Some(TWO_LINES))?;
    Ok(old || new)
}

// whether it is, and stays so where recover is run, which refuses the old one
fn stays_either(alloc: Global, disk: &mut MemoryDisk) -> Result<bool, Fail> {
    let before = is_either(disk)?;
    answer_to(alloc, b"recover s.a", &PLAIN, disk)?;
    Ok(before && is_either(disk)?)
}

// whether it is in an image that a stop behind so many calls may leave
fn image_is_either(alloc: Global, disk: &MemoryDisk, calls: u64, fill: Fill) -> Result<bool, Fail> {
    stays_either(alloc, &mut disk.crash(alloc, calls, 2, fill)?)
}

// whether a mending that is stopped behind any of its calls leaves the old file or the new one
fn stops_leave_either(alloc: Global) -> Result<bool, Fail> {
    let mut disk = disk_with(alloc, &[], &SPOILED)?;
    let answer = answer_to(alloc, b"admin -z s.a", &PLAIN, &mut disk)?.answer;
    for calls in 0..CALLS {
        let empty = image_is_either(alloc, &disk, calls, Fill::Empty)?;
        let junk = image_is_either(alloc, &disk, calls, Fill::Junk(b'?'))?;
        if !(empty && junk) {
            return Ok(false);
        }
    }
    Ok(answer == Answer::Finished { status: 0 })
}

#[test]
fn stopped_mendings_leave_old_or_new(rt: HostRuntime) -> Result<(), Fail> {
    assert!(rt; stops_leave_either(rt.alloc())?);
    Ok(())
}

// whether one of which a call fails does
fn fault_leaves_either(alloc: Global, call: u64) -> Result<bool, Fail> {
    let mut disk = disk_with(alloc, &[call], &SPOILED)?;
    match answer_to(alloc, b"admin -z s.a", &PLAIN, &mut disk)?.answer {
        Answer::DiskFault => stays_either(alloc, &mut disk),
        Answer::Finished { status: 0 } => has_file(&disk, b"s.a", Some(TWO_LINES)),
        _ => Ok(false),
    }
}

// whether it does whichever call fails
fn faults_leave_either(alloc: Global) -> Result<bool, Fail> {
    for call in 1..CALLS {
        if !fault_leaves_either(alloc, call)? {
            return Ok(false);
        }
    }
    Ok(true)
}

#[test]
fn failed_mendings_leave_old_or_new(rt: HostRuntime) -> Result<(), Fail> {
    assert!(rt; faults_leave_either(rt.alloc())?);
    Ok(())
}
