use sccs_disk::MemoryDisk;
use sccs_test_kit::samples::{SECOND, TWO_LINES};
use sccs_test_kit::{CASE, Case, File, disk_with, ends, flagged, has};
use std::alloc::Global;
use std::test::Fail;

// the two lines with a user and two flags
const WITH_RULES: &[u8] =
    b"\x01h09382\n\x01s 00002/00000/00000\n\x01d D 1.1 21/03/04 05:06:07 ann 1 0\n\
        \x01c date and time created 21/03/04 05:06:07 by ann\n\x01e\n\x01u\nbob\n\x01U\n\x01f b\n\x01f m prog\n\x01t\n\
        \x01T\n\x01I 1\none\ntwo %I%\n\x01E 1\n";

// with one flag
const BRANCHING: &[u8] =
    b"\x01h08339\n\x01s 00002/00000/00000\n\x01d D 1.1 21/03/04 05:06:07 ann 1 0\n\
        \x01c date and time created 21/03/04 05:06:07 by ann\n\x01e\n\x01u\n\x01U\n\x01f b\n\x01t\n\x01T\n\x01I 1\n\
        one\ntwo %I%\n\x01E 1\n";

// with a description
const DESCRIBED: &[u8] =
    b"\x01h09047\n\x01s 00002/00000/00000\n\x01d D 1.1 21/03/04 05:06:07 ann 1 0\n\
        \x01c date and time created 21/03/04 05:06:07 by ann\n\x01e\n\x01u\n\x01U\n\x01t\nwhat it is\n\x01T\n\x01I 1\n\
        one\ntwo %I%\n\x01E 1\n";

// with releases 1 and 3 locked
const LOCKED: &[u8] =
    b"\x01h08525\n\x01s 00002/00000/00000\n\x01d D 1.1 21/03/04 05:06:07 ann 1 0\n\
        \x01c date and time created 21/03/04 05:06:07 by ann\n\x01e\n\x01u\n\x01U\n\x01f l 1,3\n\x01t\n\x01T\n\x01I 1\n\
        one\ntwo %I%\n\x01E 1\n";

// with all releases locked
const ALL_LOCKED: &[u8] =
    b"\x01h08478\n\x01s 00002/00000/00000\n\x01d D 1.1 21/03/04 05:06:07 ann 1 0\n\
        \x01c date and time created 21/03/04 05:06:07 by ann\n\x01e\n\x01u\n\x01U\n\x01f l a\n\x01t\n\x01T\n\x01I 1\n\
        one\ntwo %I%\n\x01E 1\n";

// words, the message, and the s-file that they leave
#[derive(Clone, Copy)]
struct Row<'a> {
    line: &'a [u8],
    err: &'a [u8],
    file: &'a [u8],
}

// the files of the name a, of which only the s-file is there
fn only(s_file: &[u8]) -> [File<'_>; 3] {
    [
        File {
            name: b"s.a",
            bytes: Some(s_file),
        },
        File {
            name: b"x.a",
            bytes: None,
        },
        File {
            name: b"z.a",
            bytes: None,
        },
    ]
}

// whether a row ends as it should
fn is_right(alloc: Global, disk: &mut MemoryDisk, row: &Row) -> Result<bool, Fail> {
    let case = Case {
        line: row.line,
        status: if row.err.is_empty() { 0 } else { 1 },
        err: row.err,
        ..CASE
    };
    let is_answered = ends(alloc, disk, &case)?;
    let is_left = has(disk, &only(row.file))?;
    Ok(is_answered && is_left)
}

// the place of the first row that doesn't, each over the disk that those before it left
fn wrong_on(alloc: Global, disk: &mut MemoryDisk, rows: &[Row]) -> Result<Option<usize>, Fail> {
    for (at, row) in rows.iter().enumerate() {
        if !is_right(alloc, disk, row)? {
            return Ok(Some(at));
        }
    }
    Ok(None)
}

// the s-file, and two texts
const FILES: [File<'static>; 3] = [
    File {
        name: b"s.a",
        bytes: Some(TWO_LINES),
    },
    File {
        name: b"text",
        bytes: Some(b"what it is"),
    },
    File {
        name: b"bad",
        bytes: Some(b"fine\n\x01E\n"),
    },
];

// the same over a disk with these files
fn first_wrong(alloc: Global, rows: &[Row]) -> Result<Option<usize>, Fail> {
    let mut disk = disk_with(alloc, &[], &FILES)?;
    wrong_on(alloc, &mut disk, rows)
}

const RULES: [Row<'static>; 7] = [
    Row {
        line: b"admin -abob -fb -fmprog s.a",
        err: b"",
        file: WITH_RULES,
    },
    Row {
        line: b"admin -abob -fb s.a",
        err: b"",
        file: WITH_RULES,
    },
    Row {
        line: b"admin -dm -ebob s.a",
        err: b"",
        file: BRANCHING,
    },
    Row {
        line: b"admin s.a",
        err: b"",
        file: BRANCHING,
    },
    Row {
        line: b"admin -db -dq -ecarl s.a",
        err: b"",
        file: TWO_LINES,
    },
    Row {
        line: b"admin -ttext s.a",
        err: b"",
        file: DESCRIBED,
    },
    Row {
        line: b"admin -t s.a",
        err: b"",
        file: TWO_LINES,
    },
];

#[test]
fn users_flags_and_description_change(rt: HostRuntime) -> Result<(), Fail> {
    assert_eq!(rt; first_wrong(rt.alloc(), &RULES)?, None);
    Ok(())
}

const RELEASES: [Row<'static>; 6] = [
    Row {
        line: b"admin -fl1,2,3 -dl2 s.a",
        err: b"",
        file: LOCKED,
    },
    Row {
        line: b"admin -dl4 s.a",
        err: b"",
        file: LOCKED,
    },
    Row {
        line: b"admin -dl1,3 s.a",
        err: b"",
        file: TWO_LINES,
    },
    Row {
        line: b"admin -fla s.a",
        err: b"",
        file: ALL_LOCKED,
    },
    Row {
        line: b"admin -dl1 s.a",
        err: b"ERROR [s.a]: bad flag l (27)\n",
        file: ALL_LOCKED,
    },
    Row {
        line: b"get -e -g s.a",
        err: b"ERROR [s.a]: release is locked (18)\n",
        file: ALL_LOCKED,
    },
];

#[test]
fn releases_are_locked_and_unlocked(rt: HostRuntime) -> Result<(), Fail> {
    assert_eq!(rt; first_wrong(rt.alloc(), &RELEASES)?, None);
    Ok(())
}

const REFUSED: [Row<'static>; 12] = [
    Row {
        line: b"admin -fx s.a",
        err: b"ERROR [s.a]: bad flag x (27)\n",
        file: TWO_LINES,
    },
    Row {
        line: b"admin -fbyes s.a",
        err: b"ERROR [s.a]: bad flag b (27)\n",
        file: TWO_LINES,
    },
    Row {
        line: b"admin -fc0 s.a",
        err: b"ERROR [s.a]: bad flag c (27)\n",
        file: TWO_LINES,
    },
    Row {
        line: b"admin -fd1.x s.a",
        err: b"ERROR [s.a]: bad flag d (27)\n",
        file: TWO_LINES,
    },
    Row {
        line: b"admin -fl1,, s.a",
        err: b"ERROR [s.a]: bad flag l (27)\n",
        file: TWO_LINES,
    },
    Row {
        line: b"admin -fm s.a",
        err: b"ERROR [s.a]: bad flag m (27)\n",
        file: TWO_LINES,
    },
    Row {
        line: b"admin -fe s.a",
        err: b"ERROR [s.a]: bad flag e (27)\n",
        file: TWO_LINES,
    },
    Row {
        line: b"admin -dmprog s.a",
        err: b"ERROR [s.a]: bad flag m (27)\n",
        file: TWO_LINES,
    },
    Row {
        line: b"admin -dx -fy s.a",
        err: b"ERROR [s.a]: bad flag y (27)\n",
        file: TWO_LINES,
    },
    Row {
        line: b"admin -tbad -fx s.a",
        err: b"ERROR [s.a]: line 2 begins with SOH (23)\n",
        file: TWO_LINES,
    },
    Row {
        line: b"admin -tname -fx s.a",
        err: b"ERROR [s.a]: no such file (03)\n",
        file: TWO_LINES,
    },
    Row {
        line: b"admin -tz.a s.a",
        err: b"ERROR [s.a]: no such file (03)\n",
        file: TWO_LINES,
    },
];

#[test]
fn bad_words_change_nothing(rt: HostRuntime) -> Result<(), Fail> {
    assert_eq!(rt; first_wrong(rt.alloc(), &REFUSED)?, None);
    Ok(())
}

// joint edits, where the flag j is set between them
const JOINT: [Case<'static>; 4] = [
    Case {
        line: b"get -e -g s.a",
        time: b"05:09:00",
        out: b"1.2\nnew delta 1.3\n",
        ..CASE
    },
    Case {
        line: b"get -e -g s.a",
        time: b"05:09:00",
        status: 1,
        err: b"ERROR [s.a]: being edited (19)\n",
        ..CASE
    },
    Case {
        line: b"admin -fj s.a",
        ..CASE
    },
    Case {
        line: b"get -e -g s.a",
        time: b"05:10:00",
        out: b"1.2\nnew delta 1.2.1.1\n",
        ..CASE
    },
];

// whether joint edits go so, and the p-file has both
fn are_joined(alloc: Global) -> Result<bool, Fail> {
    let joint = flagged(alloc, SECOND, b"\x01f j\n")?;
    let old = File {
        name: b"s.a",
        bytes: Some(SECOND),
    };
    let mut disk = disk_with(alloc, &[], &[old])?;
    let wrong = sccs_test_kit::first_wrong(alloc, &mut disk, &JOINT)?;
    let files = [
        File {
            name: b"s.a",
            bytes: Some(joint.as_slice()),
        },
        File {
            name: b"p.a",
            bytes: Some(b"1.2 1.3 ann 21/03/04 05:09:00\n1.2 1.2.1.1 ann 21/03/04 05:10:00\n"),
        },
    ];
    Ok(wrong.is_none() && has(&disk, &files)?)
}

#[test]
fn joint_edits_are_let_in(rt: HostRuntime) -> Result<(), Fail> {
    assert!(rt; are_joined(rt.alloc())?);
    Ok(())
}
