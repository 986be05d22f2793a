use sccs_disk::MemoryDisk;
use sccs_test_kit::samples::{BRANCHED, REMOVED, SECOND};
use sccs_test_kit::{CASE, Case, File, disk_with, ends, first_wrong, has};
use std::alloc::Global;
use std::test::Fail;

// BRANCHED without the second delta, which deleted a line
const UNDONE: &[u8] =
    b"\x01h12322\n\x01s 00001/00000/00002\n\x01d D 1.1.1.1 99/12/31 23:59:59 bob 3 1\n\x01c \n\x01e\n\
        \x01s 00001/00001/00001\n\x01d R 1.2 75/03/01 00:00:00 ann 2 1\n\x01c two\n\x01e\n\x01s 00002/00000/00000\n\
        \x01d D 1.1 75/02/28 23:59:59 ann 1 0\n\x01c one\n\x01e\n\x01u\nann\nbob\n\x01U\n\x01f e 0\n\x01t\n\x01T\n\
        \x01I 1\na\nb\n\x01I 3\nc\n\x01E 3\n\x01E 1\n";

// the s-file and the p-file of the name a, of which no other is there
fn files_of<'a>(s_file: &'a [u8], p_file: Option<&'a [u8]>) -> [File<'a>; 5] {
    [
        File {
            name: b"s.a",
            bytes: Some(s_file),
        },
        File {
            name: b"p.a",
            bytes: p_file,
        },
        File {
            name: b"x.a",
            bytes: None,
        },
        File {
            name: b"q.a",
            bytes: None,
        },
        File {
            name: b"z.a",
            bytes: None,
        },
    ]
}

// a disk with these two files
fn disk_of(alloc: Global, s_file: &[u8], p_file: Option<&[u8]>) -> Result<MemoryDisk, Fail> {
    disk_with(alloc, &[], &files_of(s_file, p_file))
}

// whether a case ends as it should on a disk, and leaves these files
fn leaves(
    alloc: Global,
    disk: &mut MemoryDisk,
    case: &Case,
    s_file: &[u8],
    p_file: Option<&[u8]>,
) -> Result<bool, Fail> {
    let ended = ends(alloc, disk, case)?;
    let left = has(disk, &files_of(s_file, p_file))?;
    Ok(ended && left)
}

const REMOVES: Case<'static> = Case {
    line: b"rmdel -r1.2 s.a",
    ..CASE
};

const RESERVED: Case<'static> = Case {
    line: b"get -e -g s.a",
    time: b"05:09:00",
    out: b"1.1\nnew delta 1.2\n",
    ..CASE
};

#[test]
fn a_delta_is_removed(rt: HostRuntime) -> Result<(), Fail> {
    let mut disk = disk_of(rt.alloc(), SECOND, None)?;
    assert!(rt; leaves(rt.alloc(), &mut disk, &REMOVES, REMOVED, None)?);
    assert!(rt; ends(rt.alloc(), &mut disk, &RESERVED)?);
    Ok(())
}

// whether the versions that are left are those that were
fn versions_stay(alloc: Global, disk: &mut MemoryDisk) -> Result<bool, Fail> {
    let cases = [
        Case {
            line: b"get -p -s -r1.1 s.a",
            out: b"a\nb\n",
            err: b"WARNING [s.a]: no id keywords\n",
            ..CASE
        },
        Case {
            line: b"get -p -s -r1.1.1.1 s.a",
            out: b"a\nb\nc\n",
            err: b"WARNING [s.a]: no id keywords\n",
            ..CASE
        },
    ];
    Ok(first_wrong(alloc, disk, &cases)?.is_none())
}

#[test]
fn a_deleted_line_comes_back(rt: HostRuntime) -> Result<(), Fail> {
    let mut disk = disk_of(rt.alloc(), BRANCHED, None)?;
    assert!(rt; versions_stay(rt.alloc(), &mut disk)?);
    assert!(rt; leaves(rt.alloc(), &mut disk, &REMOVES, UNDONE, None)?);
    assert!(rt; versions_stay(rt.alloc(), &mut disk)?);
    Ok(())
}

const ENTRY: &[u8] = b"1.2 1.3 ann 21/03/04 05:09:00\n";

// a login, a line, and the refusal of it
fn refused<'a>(login: &'a [u8], line: &'a [u8], err: &'a [u8]) -> Case<'a> {
    Case {
        line,
        login,
        status: 1,
        err,
        ..CASE
    }
}

// whether a case is refused on these files and leaves them
fn is_refused(
    alloc: Global,
    case: &Case,
    s_file: &[u8],
    p_file: Option<&[u8]>,
) -> Result<bool, Fail> {
    let mut disk = disk_of(alloc, s_file, p_file)?;
    leaves(alloc, &mut disk, case, s_file, p_file)
}

// each check comes before those behind it
fn refusals() -> [Case<'static>; 5] {
    [
        refused(
            b"eve",
            b"rmdel -r9.9 s.a",
            b"ERROR [s.a]: not authorized to make deltas (12)\n",
        ),
        refused(
            b"bob",
            b"rmdel -r9.9 s.a",
            b"ERROR [s.a]: no such SID (15)\n",
        ),
        refused(
            b"bob",
            b"rmdel -r1.2 s.a",
            b"ERROR [s.a]: being edited (19)\n",
        ),
        refused(
            b"bob",
            b"rmdel -r1.1 s.a",
            b"ERROR [s.a]: not the newest delta of its branch (31)\n",
        ),
        refused(
            b"bob",
            b"rmdel -r1.2 s.a",
            b"ERROR [s.a]: not the owner (32)\n",
        ),
    ]
}

#[test]
fn checks_come_in_their_order(rt: HostRuntime) -> Result<(), Fail> {
    let [denied, unknown, edited, base, foreign] = refusals();
    assert!(rt; is_refused(rt.alloc(), &denied, BRANCHED, Some(ENTRY))?);
    assert!(rt; is_refused(rt.alloc(), &unknown, BRANCHED, Some(ENTRY))?);
    assert!(rt; is_refused(rt.alloc(), &edited, BRANCHED, Some(ENTRY))?);
    assert!(rt; is_refused(rt.alloc(), &base, BRANCHED, Some(ENTRY))?);
    assert!(rt; is_refused(rt.alloc(), &foreign, BRANCHED, None)?);
    Ok(())
}

const LOCK: File<'static> = File {
    name: b"z.a",
    bytes: Some(b""),
};

const SECOND_FILE: File<'static> = File {
    name: b"s.a",
    bytes: Some(SECOND),
};

#[test]
fn a_locked_name_is_left(rt: HostRuntime) -> Result<(), Fail> {
    let mut disk = disk_with(rt.alloc(), &[], &[SECOND_FILE, LOCK])?;
    let cases = [
        refused(
            b"ann",
            b"rmdel -r1.2 s.a",
            b"ERROR [s.a]: locked by z-file (02)\n",
        ),
        Case {
            line: b"recover s.a",
            out: b"s.a: recovered\n",
            ..CASE
        },
    ];
    assert!(rt; first_wrong(rt.alloc(), &mut disk, &cases)? == None);
    assert!(rt; has(&disk, &[SECOND_FILE])?);
    Ok(())
}
