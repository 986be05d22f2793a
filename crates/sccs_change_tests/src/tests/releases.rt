use crate::tests::samples::{ADDED, Files, disk_of, holds};
use sccs_disk::MemoryDisk;
use sccs_test_kit::samples::SECOND;
use sccs_test_kit::{CASE, Case, first_wrong};
use std::alloc::Global;
use std::test::Fail;

// a delta that passes over releases
const PASSING: [Case<'static>; 2] = [
    Case {
        line: b"get -e -g -r4 s.a",
        time: b"05:09:00",
        out: b"1.2\nnew delta 4.1\n",
        ..CASE
    },
    Case {
        line: b"delta s.a",
        time: b"05:10:00",
        out: b"4.1\n0 inserted\n0 deleted\n3 unchanged\n",
        ..CASE
    },
];

// the flag n is set
const FLAGGED: [Case<'static>; 1] = [Case {
    line: b"admin -fn s.a",
    ..CASE
}];

// one of them, where null deltas stand for them
const PASSED_OVER: [Case<'static>; 2] = [
    Case {
        line: b"get -k -p -s -r2 s.a",
        time: b"05:11:00",
        out: b"one\nmid\ntwo %I%\n",
        ..CASE
    },
    Case {
        line: b"get -e -g -r2 s.a",
        time: b"05:11:00",
        out: b"2.1\nnew delta 2.1.1.1\n",
        ..CASE
    },
];

// and where none do
const LEFT_OUT: [Case<'static>; 1] = [Case {
    line: b"get -e -g -r2 s.a",
    time: b"05:11:00",
    out: b"1.2\nnew delta 1.2.1.1\n",
    ..CASE
}];

// whether a delta that passes over releases on a disk, behind some cases, leaves these texts in the s-file, and other
// cases end as they should
fn passes_on(
    alloc: Global,
    disk: &mut MemoryDisk,
    before: &[Case],
    texts: &[&[u8]],
    cases: &[Case],
) -> Result<bool, Fail> {
    let is_begun = first_wrong(alloc, disk, before)? == None;
    let is_made = is_begun && first_wrong(alloc, disk, &PASSING)? == None;
    let is_then = first_wrong(alloc, disk, cases)? == None;
    let is_there = holds(disk, texts)?;
    Ok(is_made && (is_then && is_there))
}

// whether it does on a disk with two deltas
fn passes(alloc: Global, before: &[Case], texts: &[&[u8]], cases: &[Case]) -> Result<bool, Fail> {
    let files = Files {
        s_file: SECOND,
        ..ADDED
    };
    let mut disk = disk_of(alloc, &files)?;
    passes_on(alloc, &mut disk, before, texts, cases)
}

#[test]
fn releases_are_passed_over(rt: HostRuntime) -> Result<(), Fail> {
    let texts: [&[u8]; 3] = [
        b"\x01s 00000/00000/00000\n\x01d D 3.1 21/03/04 05:10:00 ann 4 3\n\x01c AUTO NULL DELTA\n\x01e\n",
        b"\x01d D 4.1 21/03/04 05:10:00 ann 5 4\n",
        b"\x01d D 2.1 21/03/04 05:10:00 ann 3 2\n",
    ];
    assert!(rt; passes(rt.alloc(), &FLAGGED, &texts, &PASSED_OVER)?);
    Ok(())
}

#[test]
fn releases_are_left_out(rt: HostRuntime) -> Result<(), Fail> {
    let texts: [&[u8]; 1] = [b"\x01d D 4.1 21/03/04 05:10:00 ann 3 2\n"];
    assert!(rt; passes(rt.alloc(), &[], &texts, &LEFT_OUT)?);
    Ok(())
}
