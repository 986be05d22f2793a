use sccs_disk::{Fill, MemoryDisk};
use sccs_test_kit::samples::{BRANCHED, SECOND, TWO_LINES};
use sccs_test_kit::{
    Answer, CASE, Case, File, Given, PLAIN, answer_to, disk_with, ends, flagged, has, has_file,
};
use std::alloc::Global;
use std::test::Fail;

// more than the calls of an edit that is reserved or dropped
const CALLS: u64 = 30;

const ENTRY: &[u8] = b"1.2 1.3 ann 21/03/04 05:09:00\n";

// a case, and the p-file that it leaves
#[derive(Clone, Copy)]
struct Row<'a> {
    case: Case<'a>,
    p_file: Option<&'a [u8]>,
}

// the s-file and the p-file of the name a, of which no lock and no q-file is there
fn files_of<'a>(s_file: &'a [u8], p_file: Option<&'a [u8]>) -> [File<'a>; 4] {
    [
        File {
            name: b"s.a",
            bytes: Some(s_file),
        },
        File {
            name: b"p.a",
            bytes: p_file,
        },
        File {
            name: b"q.a",
            bytes: None,
        },
        File {
            name: b"z.a",
            bytes: None,
        },
    ]
}

// a disk with these two files
fn disk_of(
    alloc: Global,
    failing: &[u64],
    s_file: &[u8],
    p_file: Option<&[u8]>,
) -> Result<MemoryDisk, Fail> {
    disk_with(alloc, failing, &files_of(s_file, p_file))
}

// whether these two files are there, and no lock or q-file
fn is_left(disk: &MemoryDisk, s_file: &[u8], p_file: Option<&[u8]>) -> Result<bool, Fail> {
    has(disk, &files_of(s_file, p_file))
}

// whether each row ends as it should, over what those before it left, and leaves the s-file
fn all_end(
    alloc: Global,
    disk: &mut MemoryDisk,
    s_file: &[u8],
    rows: &[Row],
) -> Result<bool, Fail> {
    for row in rows {
        let is_answer = ends(alloc, disk, &row.case)?;
        let is_left = is_left(disk, s_file, row.p_file)?;
        if !is_answer || !is_left {
            return Ok(false);
        }
    }
    Ok(true)
}

// whether each row ends as it should on an s-file without edits
fn all_end_on(alloc: Global, s_file: &[u8], rows: &[Row]) -> Result<bool, Fail> {
    let mut disk = disk_of(alloc, &[], s_file, None)?;
    all_end(alloc, &mut disk, s_file, rows)
}

const LISTED: [Row<'static>; 2] = [
    Row {
        case: Case {
            line: b"get -e -g -i1.1.1.1 s.a",
            time: b"05:11:00",
            login: b"eve",
            status: 1,
            err: b"ERROR [s.a]: not authorized to make deltas (12)\n",
            ..CASE
        },
        p_file: None,
    },
    Row {
        case: Case {
            line: b"get -e -g -i1.1.1.1 s.a",
            time: b"05:11:00",
            login: b"bob",
            out: b"Included:\n1.1.1.1\n1.2\nnew delta 1.3\n",
            ..CASE
        },
        p_file: Some(b"1.2 1.3 bob 21/03/04 05:11:00 -i1.1.1.1\n"),
    },
];

#[test]
fn edits_are_reserved(rt: HostRuntime) -> Result<(), Fail> {
    assert!(rt; all_end_on(rt.alloc(), BRANCHED, &LISTED)?);
    Ok(())
}

const RESERVED: Row<'static> = Row {
    case: Case {
        line: b"get -e -g s.a",
        time: b"05:09:00",
        out: b"1.2\nnew delta 1.3\n",
        ..CASE
    },
    p_file: Some(ENTRY),
};

const ONCE: [Row<'static>; 2] = [
    RESERVED,
    Row {
        case: Case {
            line: b"get -e -g s.a",
            time: b"05:10:00",
            status: 1,
            err: b"ERROR [s.a]: being edited (19)\n",
            ..CASE
        },
        p_file: Some(ENTRY),
    },
];

#[test]
fn a_sid_is_edited_once(rt: HostRuntime) -> Result<(), Fail> {
    assert!(rt; all_end_on(rt.alloc(), SECOND, &ONCE)?);
    Ok(())
}

const BOTH: &[u8] = b"1.2 1.3 ann 21/03/04 05:09:00\n1.2 1.2.1.1 ann 21/03/04 05:10:00\n";

// a case of ann, one minute later
const LATER: Case<'static> = Case {
    time: b"05:10:00",
    ..CASE
};

// after one edit, with the flag j: another, both shown, and none dropped
const JOINT: [Row<'static>; 4] = [
    Row {
        case: Case {
            line: b"get -e -g s.a",
            out: b"1.2\nnew delta 1.2.1.1\n",
            ..LATER
        },
        p_file: Some(BOTH),
    },
    Row {
        case: Case {
            line: b"sact s.a",
            out: BOTH,
            ..LATER
        },
        p_file: Some(BOTH),
    },
    Row {
        case: Case {
            line: b"unget s.a",
            status: 1,
            err: b"ERROR [s.a]: SID must be specified (14)\n",
            ..LATER
        },
        p_file: Some(BOTH),
    },
    Row {
        case: Case {
            line: b"unget -r1.2.1.1 s.a",
            login: b"bob",
            status: 1,
            err: b"ERROR [s.a]: no edit is pending (13)\n",
            ..LATER
        },
        p_file: Some(BOTH),
    },
];

// both dropped
const DROPPED: [Row<'static>; 2] = [
    Row {
        case: Case {
            line: b"unget -r1.2.1.1 s.a",
            out: b"1.2.1.1\n",
            ..LATER
        },
        p_file: Some(ENTRY),
    },
    Row {
        case: Case {
            line: b"unget -s -n s.a",
            ..LATER
        },
        p_file: None,
    },
];

const MINE: File<'static> = File {
    name: b"a",
    bytes: Some(b"mine"),
};

// a disk with an s-file, one edit and its g-file
fn edited(alloc: Global, s_file: &[u8]) -> Result<MemoryDisk, Fail> {
    let s_file = File {
        name: b"s.a",
        bytes: Some(s_file),
    };
    let p_file = File {
        name: b"p.a",
        bytes: Some(ENTRY),
    };
    disk_with(alloc, &[], &[s_file, p_file, MINE])
}

// whether edits are made on a disk and dropped, and the g-file with the last of them
fn drops_one_by_one(alloc: Global, disk: &mut MemoryDisk, s_file: &[u8]) -> Result<bool, Fail> {
    let is_joint = all_end(alloc, disk, s_file, &JOINT)?;
    let is_kept = has_file(disk, MINE.name, MINE.bytes)?;
    let is_dropped = all_end(alloc, disk, s_file, &DROPPED)?;
    let is_gone = has_file(disk, MINE.name, None)?;
    Ok(is_joint && (is_kept && (is_dropped && is_gone)))
}

// whether they are with this s-file
fn drops_one_by_one_in(alloc: Global, s_file: &[u8]) -> Result<bool, Fail> {
    let mut disk = edited(alloc, s_file)?;
    drops_one_by_one(alloc, &mut disk, s_file)
}

#[test]
fn joint_edits_are_dropped_one_by_one(rt: HostRuntime) -> Result<(), Fail> {
    let joint = flagged(rt.alloc(), SECOND, b"\x01f j\n")?;
    assert!(rt; drops_one_by_one_in(rt.alloc(), &joint)?);
    Ok(())
}

const TWO: [File<'static>; 3] = [
    File {
        name: b"s.a",
        bytes: Some(SECOND),
    },
    File {
        name: b"s.c",
        bytes: Some(TWO_LINES),
    },
    File {
        name: b"p.a",
        bytes: Some(ENTRY),
    },
];

const HEADED: [Row<'static>; 1] = [Row {
    case: Case {
        line: b"sact s.a s.c s.d",
        status: 1,
        out: b"\ns.a:\n1.2 1.3 ann 21/03/04 05:09:00\n\ns.c:\n",
        err: b"No outstanding deltas for: s.c\nERROR [s.d]: no such file (03)\n",
        ..LATER
    },
    p_file: Some(ENTRY),
}];

#[test]
fn operands_have_headings(rt: HostRuntime) -> Result<(), Fail> {
    let mut disk = disk_with(rt.alloc(), &[], &TWO)?;
    assert!(rt; all_end(rt.alloc(), &mut disk, SECOND, &HEADED)?);
    Ok(())
}

// a line that shows the entry of s.a or none, and leaves it
fn shown<'a>(line: &'a [u8], status: u8, out: &'a [u8], err: &'a [u8]) -> Row<'a> {
    Row {
        case: Case {
            line,
            status,
            out,
            err,
            ..LATER
        },
        p_file: Some(ENTRY),
    }
}

// tell and check, of names with an entry and with none
fn told_and_checked() -> [Row<'static>; 6] {
    [
        shown(b"tell s.a", 0, b"a\n", b""),
        shown(b"check s.a", 1, ENTRY, b""),
        shown(b"tell s.c", 0, b"", b""),
        shown(b"check s.c", 0, b"", b""),
        shown(b"tell s.c s.a s.d", 1, b"a\n", NO_FILE),
        shown(b"check s.c a", 1, b"", NO_NAME),
    ]
}

const NO_FILE: &[u8] = b"ERROR [s.d]: no such file (03)\n";

const NO_NAME: &[u8] = b"ERROR [a]: not a name of an s-file (01)\n";

#[test]
fn entries_are_told_and_checked(rt: HostRuntime) -> Result<(), Fail> {
    let mut disk = disk_with(rt.alloc(), &[], &TWO)?;
    assert!(rt; all_end(rt.alloc(), &mut disk, SECOND, &told_and_checked())?);
    Ok(())
}

// whether a row ends as it should where the s-file has these flags
fn ends_flagged(alloc: Global, s_file: &[u8], flags: &[u8], row: Row) -> Result<bool, Fail> {
    let file = flagged(alloc, s_file, flags)?;
    all_end_on(alloc, &file, &[row])
}

// a line of words that is refused, and leaves no p-file
fn refused<'a>(line: &'a [u8], err: &'a [u8]) -> Row<'a> {
    Row {
        case: Case {
            line,
            time: b"05:09:00",
            status: 1,
            err,
            ..CASE
        },
        p_file: None,
    }
}

const CLOSED: [(&[u8], &[u8], &[u8]); 6] = [
    (
        b"\x01f f 2\n",
        b"get -e -g s.a",
        b"ERROR [s.a]: release outside floor and ceiling (17)\n",
    ),
    (
        b"\x01f c 1\n",
        b"get -e -g -r2 s.a",
        b"ERROR [s.a]: release outside floor and ceiling (17)\n",
    ),
    (
        b"\x01f l 1\n",
        b"get -e -g s.a",
        b"ERROR [s.a]: release is locked (18)\n",
    ),
    (
        b"\x01f l a\n",
        b"get -e -g -r2 s.a",
        b"ERROR [s.a]: release is locked (18)\n",
    ),
    (
        b"",
        b"get -e -g -r9.9 s.a",
        b"ERROR [s.a]: no such SID (15)\n",
    ),
    (
        b"",
        b"get -e -g -i1.2 -x1.2 s.a",
        b"ERROR [s.a]: bad list at 1.2 (16)\n",
    ),
];

#[test]
fn releases_may_be_closed(rt: HostRuntime) -> Result<(), Fail> {
    for (flags, line, err) in CLOSED {
        assert!(rt; ends_flagged(rt.alloc(), SECOND, flags, refused(line, err))?);
    }
    let open = b"\x01f c 1\n\x01f f 1\n\x01f l 2,3\n";
    assert!(rt; ends_flagged(rt.alloc(), SECOND, open, RESERVED)?);
    Ok(())
}

// one delta, 1.9999
const LAST: &[u8] =
    b"\x01h00000\n\x01s 00000/00000/00000\n\x01d D 1.9999 21/03/04 05:06:07 ann 1 0\n\x01c\n\x01e\n\x01u\n\x01U\n\
        \x01t\n\x01T\n\x01I 1\n\x01E 1\n";

#[test]
fn numbers_end(rt: HostRuntime) -> Result<(), Fail> {
    let row = refused(b"get -e -g s.a", b"ERROR [s.a]: no number is left (33)\n");
    assert!(rt; ends_flagged(rt.alloc(), LAST, b"", row)?);
    Ok(())
}

// whether unget refuses a p-file, and leaves it
fn refuses_entries<'a>(alloc: Global, p_file: &'a [u8], err: &'a [u8]) -> Result<bool, Fail> {
    let mut disk = disk_of(alloc, &[], BRANCHED, Some(p_file))?;
    let row = Row {
        case: Case {
            line: b"unget s.a",
            time: b"05:12:00",
            login: b"bob",
            status: 1,
            err,
            ..CASE
        },
        p_file: Some(p_file),
    };
    all_end(alloc, &mut disk, BRANCHED, &[row])
}

const HOSTILE: [(&[u8], &[u8]); 5] = [
    (
        b"1.2 1.3 bob 21/03/04\n",
        b"ERROR [s.a]: format error in p-file at line 1 (10)\n",
    ),
    (
        b"1.2 1.1 bob 21/03/04 05:11:00\n",
        b"ERROR [s.a]: p-file entry 1 disagrees (11)\n",
    ),
    (
        b"1.2 1.3 bob 21/03/04 05:11:00\n1.2 1.3 bob 21/03/04 05:11:00\n",
        b"ERROR [s.a]: p-file entry 1 disagrees (11)\n",
    ),
    (
        b"1.2 1.3 bob 21/03/04 05:11:00 -i1.9\n",
        b"ERROR [s.a]: p-file entry 1 disagrees (11)\n",
    ),
    (
        b"1.2 1.3 ann 21/03/04 05:11:00\n",
        b"ERROR [s.a]: no edit is pending (13)\n",
    ),
];

#[test]
fn hostile_entries_are_refused(rt: HostRuntime) -> Result<(), Fail> {
    for (p_file, err) in HOSTILE {
        assert!(rt; refuses_entries(rt.alloc(), p_file, err)?);
    }
    Ok(())
}

// a line of words that changes the p-file, and the p-file before and after it
#[derive(Clone, Copy)]
struct Change<'a> {
    line: &'a [u8],
    old: Option<&'a [u8]>,
    new: Option<&'a [u8]>,
}

const GIVEN: Given<'static> = Given {
    time: b"05:09:00",
    ..PLAIN
};

// whether a disk has the s-file, and one of the two p-files
fn has_either(disk: &MemoryDisk, change: &Change) -> Result<bool, Fail> {
    let is_old = has_file(disk, b"p.a", change.old)?;
    let is_new = has_file(disk, b"p.a", change.new)?;
    let is_kept = has_file(disk, b"s.a", Some(SECOND))?;
    Ok(is_kept && (is_old || is_new))
}

// whether a change on a disk leaves the new p-file, or the old one and a fault
fn harms_none_on(alloc: Global, disk: &mut MemoryDisk, change: &Change) -> Result<bool, Fail> {
    let answer = answer_to(alloc, change.line, &GIVEN, disk)?.answer;
    let is_new = has_file(disk, b"p.a", change.new)?;
    let is_either = has_either(disk, change)?;
    Ok(is_either && (is_new || answer == Answer::DiskFault))
}

// whether it does where one call fails
fn harms_none(alloc: Global, change: &Change, call: u64) -> Result<bool, Fail> {
    let mut disk = disk_of(alloc, &[call], SECOND, change.old)?;
    harms_none_on(alloc, &mut disk, change)
}

// what a stop may leave
const IMAGES: [(u64, Fill); 4] = [
    (0, Fill::Empty),
    (1, Fill::Junk(b'?')),
    (2, Fill::Written),
    (9, Fill::Junk(b'?')),
];

// whether a stop behind so many calls, with so many names, leaves the s-file, and one of two p-files
fn leaves_one(
    alloc: Global,
    change: &Change,
    disk: &MemoryDisk,
    calls: u64,
    names: u64,
    fill: Fill,
) -> Result<bool, Fail> {
    has_either(&disk.crash(alloc, calls, names, fill)?, change)
}

// whether each stop behind so many calls does
fn leaves_either(
    alloc: Global,
    change: &Change,
    disk: &MemoryDisk,
    calls: u64,
) -> Result<bool, Fail> {
    for (names, fill) in IMAGES {
        if !leaves_one(alloc, change, disk, calls, names, fill)? {
            return Ok(false);
        }
    }
    Ok(true)
}

// whether each stop of a change on a disk, and each failing call, leaves one of two p-files
fn is_old_or_new_on(alloc: Global, disk: &mut MemoryDisk, change: &Change) -> Result<bool, Fail> {
    let answer = answer_to(alloc, change.line, &GIVEN, disk)?.answer;
    for calls in 0..CALLS {
        let is_stopped = leaves_either(alloc, change, disk, calls)?;
        let is_failed = calls == 0 || harms_none(alloc, change, calls)?;
        if !is_stopped || !is_failed {
            return Ok(false);
        }
    }
    Ok(answer == Answer::Finished { status: 0 })
}

// whether they do on the s-file
fn is_old_or_new(alloc: Global, change: &Change) -> Result<bool, Fail> {
    let mut disk = disk_of(alloc, &[], SECOND, change.old)?;
    is_old_or_new_on(alloc, &mut disk, change)
}

#[test]
fn pending_edits_are_old_or_new(rt: HostRuntime) -> Result<(), Fail> {
    let reserved = Change {
        line: b"get -e -g s.a",
        old: None,
        new: Some(ENTRY),
    };
    let dropped = Change {
        line: b"unget s.a",
        old: Some(ENTRY),
        new: None,
    };
    assert!(rt; is_old_or_new(rt.alloc(), &reserved)?);
    assert!(rt; is_old_or_new(rt.alloc(), &dropped)?);
    Ok(())
}
