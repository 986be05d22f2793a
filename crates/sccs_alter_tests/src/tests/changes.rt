use sccs_disk::MemoryDisk;
use sccs_test_kit::samples::{BRANCHED, SECOND};
use sccs_test_kit::{CASE, Case, File, disk_with, ends, first_wrong, has};
use std::alloc::Global;
use std::test::Fail;

// SECOND with another comment of the second delta
const THIRD: &[u8] =
    b"\x01h15231\n\x01s 00001/00000/00002\n\x01d D 1.2 21/03/04 05:08:00 ann 2 1\n\x01c third\n\
        \x01c *** CHANGED *** 21/03/04 05:11:00 ann\n\x01c second\n\x01e\n\x01s 00002/00000/00000\n\
        \x01d D 1.1 21/03/04 05:06:07 ann 1 0\n\x01c date and time created 21/03/04 05:06:07 by ann\n\x01e\n\x01u\n\
        \x01U\n\x01t\n\x01T\n\x01I 1\none\n\x01I 2\nmid\n\x01E 2\ntwo %I%\n\x01E 1\n";

// SECOND with two MRs of the second delta
const WITH_MRS: &[u8] =
    b"\x01h13270\n\x01s 00001/00000/00002\n\x01d D 1.2 21/03/04 05:08:00 ann 2 1\n\x01m m1\n\x01m m2\n\x01c second\n\
        \x01e\n\x01s 00002/00000/00000\n\x01d D 1.1 21/03/04 05:06:07 ann 1 0\n\
        \x01c date and time created 21/03/04 05:06:07 by ann\n\x01e\n\x01u\n\x01U\n\x01f v\n\x01t\n\x01T\n\x01I 1\n\
        one\n\x01I 2\nmid\n\x01E 2\ntwo %I%\n\x01E 1\n";

// the same without the first of them, and with another one
const OTHER_MRS: &[u8] =
    b"\x01h16920\n\x01s 00001/00000/00002\n\x01d D 1.2 21/03/04 05:08:00 ann 2 1\n\x01m m2\n\x01m m3\n\x01c \n\
        \x01c *** DELETED MR *** m1\n\x01c *** CHANGED *** 21/03/04 05:11:00 ann\n\x01c second\n\x01e\n\
        \x01s 00002/00000/00000\n\x01d D 1.1 21/03/04 05:06:07 ann 1 0\n\
        \x01c date and time created 21/03/04 05:06:07 by ann\n\x01e\n\x01u\n\x01U\n\x01f v\n\x01t\n\x01T\n\x01I 1\n\
        one\n\x01I 2\nmid\n\x01E 2\ntwo %I%\n\x01E 1\n";

// the same with a third one
const MORE_MRS: &[u8] =
    b"\x01h13582\n\x01s 00001/00000/00002\n\x01d D 1.2 21/03/04 05:08:00 ann 2 1\n\x01m m1\n\x01m m2\n\x01m m3\n\
        \x01c second\n\x01e\n\x01s 00002/00000/00000\n\x01d D 1.1 21/03/04 05:06:07 ann 1 0\n\
        \x01c date and time created 21/03/04 05:06:07 by ann\n\x01e\n\x01u\n\x01U\n\x01f v\n\x01t\n\x01T\n\x01I 1\n\
        one\n\x01I 2\nmid\n\x01E 2\ntwo %I%\n\x01E 1\n";

// BRANCHED with a flag v that names a program
const NAMED: &[u8] =
    b"\x01h13738\n\x01s 00001/00000/00002\n\x01d D 1.1.1.1 99/12/31 23:59:59 bob 3 1\n\x01c\n\x01e\n\
        \x01s 00001/00001/00001\n\x01d D 1.2 75/03/01 00:00:00 ann 2 1\n\x01c two\n\x01e\n\x01s 00002/00000/00000\n\
        \x01d D 1.1 75/02/28 23:59:59 ann 1 0\n\x01c one\n\x01e\n\x01u\nann\nbob\n\x01U\n\x01f e 0\n\x01f v prog\n\
        \x01t\n\x01T\n\x01I 1\na\n\x01D 2\nb\n\x01E 2\n\x01I 2\nB\n\x01E 2\n\x01I 3\nc\n\x01E 3\n\x01E 1\n";

const ENTRY: &[u8] = b"1.2 1.3 ann 21/03/04 05:09:00\n";

// the s-file and the p-file of the name a, of which no other is there
fn files_of(s_file: &[u8]) -> [File<'_>; 5] {
    [
        File {
            name: b"s.a",
            bytes: Some(s_file),
        },
        File {
            name: b"p.a",
            bytes: Some(ENTRY),
        },
        File {
            name: b"x.a",
            bytes: None,
        },
        File {
            name: b"q.a",
            bytes: None,
        },
        File {
            name: b"z.a",
            bytes: None,
        },
    ]
}

// whether a case ends as it should on an s-file, and leaves another one
fn leaves(alloc: Global, case: &Case, old: &[u8], new: &[u8]) -> Result<bool, Fail> {
    let mut disk = disk_with(alloc, &[], &files_of(old))?;
    let ended = ends(alloc, &mut disk, case)?;
    let left = has(&disk, &files_of(new))?;
    Ok(ended && left)
}

// a line at a time
fn changes(line: &[u8]) -> Case<'_> {
    Case {
        line,
        time: b"05:11:00",
        ..CASE
    }
}

#[test]
fn a_comment_comes_before_the_old_one(rt: HostRuntime) -> Result<(), Fail> {
    let mut disk = disk_with(rt.alloc(), &[], &files_of(SECOND))?;
    let cases = [
        changes(b"cdc -r1.2 -ythird s.a"),
        Case {
            line: b"prs -r1.2 -d:C: s.a",
            out: b"third\n*** CHANGED *** 21/03/04 05:11:00 ann\nsecond\n\n",
            ..CASE
        },
        Case {
            line: b"cdc -r1.2 -mm1 s.a",
            status: 1,
            err: b"ERROR [s.a]: MR numbers not allowed (29)\n",
            ..CASE
        },
        Case {
            line: b"get -p -s -k s.a",
            out: b"one\nmid\ntwo %I%\n",
            ..CASE
        },
    ];
    assert!(rt; first_wrong(rt.alloc(), &mut disk, &cases)? == None);
    assert!(rt; has(&disk, &files_of(THIRD))?);
    Ok(())
}

#[test]
fn mrs_are_taken_away_and_added(rt: HostRuntime) -> Result<(), Fail> {
    let both = changes(b"cdc -r1.2 -m!m1\tm3\tm3\t!m9\tm2 -y s.a");
    let added = changes(b"cdc -r1.2 -mm3\tm3 s.a");
    let nothing = changes(b"cdc -r1.2 -mm2\t!m9 s.a");
    assert!(rt; leaves(rt.alloc(), &both, WITH_MRS, OTHER_MRS)?);
    assert!(rt; leaves(rt.alloc(), &added, WITH_MRS, MORE_MRS)?);
    assert!(rt; leaves(rt.alloc(), &nothing, WITH_MRS, WITH_MRS)?);
    Ok(())
}

// whether a line of a login is refused so, and leaves the s-file
fn is_refused<'a>(
    alloc: Global,
    login: &'a [u8],
    line: &'a [u8],
    err: &'a [u8],
    s_file: &'a [u8],
) -> Result<bool, Fail> {
    let case = Case {
        line,
        login,
        status: 1,
        err,
        ..CASE
    };
    leaves(alloc, &case, s_file, s_file)
}

// each check comes before those behind it
const REFUSALS: [(&[u8], &[u8], &[u8], &[u8]); 5] = [
    (
        b"eve",
        b"cdc -r9.9 -mm1 s.a",
        b"ERROR [s.a]: not authorized to make deltas (12)\n",
        BRANCHED,
    ),
    (
        b"bob",
        b"cdc -r9.9 -mm1 s.a",
        b"ERROR [s.a]: no such SID (15)\n",
        BRANCHED,
    ),
    (
        b"bob",
        b"cdc -r1.2 -mm1 s.a",
        b"ERROR [s.a]: MR numbers not allowed (29)\n",
        BRANCHED,
    ),
    (
        b"bob",
        b"cdc -r1.2 -mm1 s.a",
        b"ERROR [s.a]: flag v not supported (30)\n",
        NAMED,
    ),
    (
        b"bob",
        b"cdc -r1.2 -ymine s.a",
        b"ERROR [s.a]: not the owner (32)\n",
        NAMED,
    ),
];

#[test]
fn checks_come_in_their_order(rt: HostRuntime) -> Result<(), Fail> {
    for (login, line, err, s_file) in REFUSALS {
        assert!(rt; is_refused(rt.alloc(), login, line, err, s_file)?);
    }
    Ok(())
}
