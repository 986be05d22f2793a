use sccs_disk::{Fill, MemoryDisk};
use sccs_test_kit::samples::{BRANCHED, SECOND, TWO_LINES};
use sccs_test_kit::{
    Answer, CASE, Case, File, PLAIN, answer_to, disk_with, first_wrong, flagged, has_file,
};
use std::alloc::Global;
use std::test::Fail;

// more calls than a get makes
const CALLS: u64 = 20;

fn files<'a>(second: &'a [u8]) -> [File<'a>; 2] {
    [
        File {
            name: b"s.a",
            bytes: Some(TWO_LINES),
        },
        File {
            name: b"s.b",
            bytes: Some(second),
        },
    ]
}

const MADE: [Case<'static>; 5] = [
    Case {
        line: b"get s.a",
        out: b"1.1\n2 lines\n",
        ..CASE
    },
    // a g-file that may not be written is written over
    Case {
        line: b"get -s s.a",
        ..CASE
    },
    Case {
        line: b"get s.a s.b",
        out: b"\ns.a:\n1.1\n2 lines\n\ns.b:\n1.2\n2 lines\n",
        err: b"WARNING [s.b]: no id keywords\n",
        ..CASE
    },
    Case {
        line: b"get -k -r1.1.1.1 s.b",
        out: b"1.1.1.1\n3 lines\n",
        ..CASE
    },
    // one that may be written is not
    Case {
        line: b"get s.a s.b",
        status: 1,
        out: b"\ns.a:\n1.1\n2 lines\n",
        err: b"ERROR [s.b]: writable file exists (25)\n",
        ..CASE
    },
];

// whether the g-files are those that the cases make
fn are_made(disk: &MemoryDisk) -> Result<bool, Fail> {
    let first = has_file(disk, b"a", Some(b"one\ntwo 1.1\n"))?;
    let second = has_file(disk, b"b", Some(b"a\nb\nc\n"))?;
    let cleared = has_file(disk, b"y.a", None)?;
    Ok(first && (second && cleared))
}

#[test]
fn g_files_are_made(rt: HostRuntime) -> Result<(), Fail> {
    let mut disk = disk_with(rt.alloc(), &[], &files(BRANCHED))?;
    assert_eq!(rt; first_wrong(rt.alloc(), &mut disk, &MADE)?, None);
    assert!(rt; are_made(&disk)?);
    Ok(())
}

const PRINTED: [Case<'static>; 6] = [
    Case {
        line: b"get -p s.a",
        out: b"one\ntwo 1.1\n",
        err: b"1.1\n2 lines\n",
        ..CASE
    },
    Case {
        line: b"get -p -s -m -n s.a",
        out: b"a\t1.1\tone\na\t1.1\ttwo 1.1\n",
        ..CASE
    },
    Case {
        line: b"get -p -x1.2 s.b",
        out: b"a\nb\n",
        err: b"Excluded:\n1.2\n1.2\n2 lines\nWARNING [s.b]: no id keywords\n",
        ..CASE
    },
    Case {
        line: b"get -p -k -i1.1.1.1 s.b",
        out: b"a\nB\nc\n",
        err: b"Included:\n1.1.1.1\n1.2\n3 lines\n",
        ..CASE
    },
    Case {
        line: b"get -g -r1.1.1.1 s.b",
        out: b"1.1.1.1\n",
        ..CASE
    },
    Case {
        line: b"get -p -r1.2 s.a",
        status: 1,
        err: b"ERROR [s.a]: no such SID (15)\n",
        ..CASE
    },
];

#[test]
fn versions_are_printed_in_any_form(rt: HostRuntime) -> Result<(), Fail> {
    let mut disk = disk_with(rt.alloc(), &[], &files(BRANCHED))?;
    assert_eq!(rt; first_wrong(rt.alloc(), &mut disk, &PRINTED)?, None);
    Ok(())
}

// s-files of two deltas and of a branch, and one that is made here
const SEVERAL: [Case<'static>; 7] = [
    Case {
        line: b"admin -n s.c",
        ..CASE
    },
    Case {
        line: b"get -p s.c",
        err: b"1.1\n0 lines\nWARNING [s.c]: no id keywords\n",
        ..CASE
    },
    Case {
        line: b"get -p s.a",
        out: b"one\nmid\ntwo 1.2\n",
        err: b"1.2\n3 lines\n",
        ..CASE
    },
    Case {
        line: b"get -p -m -n -s s.a",
        out: b"a\t1.1\tone\na\t1.2\tmid\na\t1.1\ttwo 1.2\n",
        ..CASE
    },
    Case {
        line: b"get s.a s.b",
        out: b"\ns.a:\n1.2\n3 lines\n\ns.b:\n1.2\n2 lines\n",
        err: b"WARNING [s.b]: no id keywords\n",
        ..CASE
    },
    Case {
        line: b"get -g .",
        out: b"\ns.a:\n1.2\n\ns.b:\n1.2\n\ns.c:\n1.1\n",
        ..CASE
    },
    Case {
        line: b"get -s s.zz d/s.a s.a",
        status: 1,
        err: b"ERROR [s.zz]: no such file (03)\nERROR [d/s.a]: not a name of an s-file (01)\n",
        ..CASE
    },
];

// two s-files, the first of two deltas
const TWO_DELTAS: [File<'static>; 2] = [
    File {
        name: b"s.a",
        bytes: Some(SECOND),
    },
    File {
        name: b"s.b",
        bytes: Some(BRANCHED),
    },
];

// whether both g-files are there and whole
fn are_both_made(disk: &MemoryDisk) -> Result<bool, Fail> {
    let first = has_file(disk, b"a", Some(b"one\nmid\ntwo 1.2\n"))?;
    let second = has_file(disk, b"b", Some(b"a\nB\n"))?;
    Ok(first && second)
}

#[test]
fn gets_of_several_files(rt: HostRuntime) -> Result<(), Fail> {
    let mut disk = disk_with(rt.alloc(), &[], &TWO_DELTAS)?;
    assert_eq!(rt; first_wrong(rt.alloc(), &mut disk, &SEVERAL)?, None);
    assert!(rt; are_both_made(&disk)?);
    Ok(())
}

// whether the files are those that the edit makes
fn is_edited(disk: &MemoryDisk) -> Result<bool, Fail> {
    let text = has_file(disk, b"a", Some(b"one\ntwo %I%\n"))?;
    let entry = has_file(disk, b"p.a", Some(b"1.1 1.2 ann 21/03/04 05:06:07\n"))?;
    let none = has_file(disk, b"p.b", None)?;
    Ok(text && (entry && none))
}

const EDITED: [Case<'static>; 5] = [
    Case {
        line: b"get -e s.a",
        out: b"1.1\nnew delta 1.2\n2 lines\n",
        ..CASE
    },
    Case {
        line: b"get -e s.a",
        status: 1,
        err: b"ERROR [s.a]: being edited (19)\n",
        ..CASE
    },
    // the g-file may be written now
    Case {
        line: b"get s.a",
        status: 1,
        err: b"ERROR [s.a]: writable file exists (25)\n",
        ..CASE
    },
    Case {
        line: b"get -k -s s.b",
        ..CASE
    },
    Case {
        line: b"get -e s.b",
        status: 1,
        err: b"ERROR [s.b]: writable file exists (25)\n",
        ..CASE
    },
];

const EDITED_ON_OUT: [Case<'static>; 2] = [
    Case {
        line: b"get -e -p -r1.1.1.1 s.b",
        out: b"a\nb\nc\n",
        err: b"1.1.1.1\nnew delta 1.1.1.2\n3 lines\n",
        ..CASE
    },
    Case {
        line: b"sact s.b",
        out: b"1.1.1.1 1.1.1.2 ann 21/03/04 05:06:07\n",
        ..CASE
    },
];

#[test]
fn edits_give_their_text(rt: HostRuntime) -> Result<(), Fail> {
    let mut disk = disk_with(rt.alloc(), &[], &files(BRANCHED))?;
    assert_eq!(rt; first_wrong(rt.alloc(), &mut disk, &EDITED)?, None);
    assert!(rt; is_edited(&disk)?);
    Ok(())
}

#[test]
fn edits_are_printed(rt: HostRuntime) -> Result<(), Fail> {
    let mut disk = disk_with(rt.alloc(), &[], &files(BRANCHED))?;
    assert_eq!(rt; first_wrong(rt.alloc(), &mut disk, &EDITED_ON_OUT)?, None);
    Ok(())
}

const NEEDED: [Case<'static>; 3] = [
    Case {
        line: b"get s.b",
        status: 1,
        err: b"ERROR [s.b]: no id keywords (24)\n",
        ..CASE
    },
    Case {
        line: b"get -s -p s.a",
        out: b"one\ntwo 1.1\n",
        ..CASE
    },
    Case {
        line: b"get -k -p -s s.b",
        out: b"a\nB\n",
        ..CASE
    },
];

#[test]
fn keywords_are_needed_with_the_flag_i(rt: HostRuntime) -> Result<(), Fail> {
    let needing = flagged(rt.alloc(), BRANCHED, b"\x01f i\n")?;
    let mut disk = disk_with(rt.alloc(), &[], &files(&needing))?;
    assert_eq!(rt; first_wrong(rt.alloc(), &mut disk, &NEEDED)?, None);
    Ok(())
}

// whether the s-file is as it was, and the g-file isn't there or whole
fn is_whole_or_none(disk: &MemoryDisk) -> Result<bool, Fail> {
    let same = has_file(disk, b"s.a", Some(TWO_LINES))?;
    let whole = has_file(disk, b"a", Some(b"one\ntwo 1.1\n"))?;
    let none = has_file(disk, b"a", None)?;
    Ok(same && (whole || none))
}

// whether it is so after a get of which one call fails, and the file is there where it ended well
fn failed_is_whole_or_none(alloc: Global, call: u64) -> Result<bool, Fail> {
    let mut disk = disk_with(alloc, &[call], &files(BRANCHED))?;
    let answer = answer_to(alloc, b"get s.a", &PLAIN, &mut disk)?.answer;
    let left = is_whole_or_none(&disk)?;
    Ok(match answer {
        Answer::Finished { status: 0 } => left && !has_file(&disk, b"a", None)?,
        Answer::DiskFault => left,
        _ => false,
    })
}

#[test]
fn failed_gets_leave_a_whole_g_file_or_none(rt: HostRuntime) -> Result<(), Fail> {
    for call in 1..CALLS {
        assert!(rt; failed_is_whole_or_none(rt.alloc(), call)?);
    }
    Ok(())
}

// whether several of the images that a stop behind so many calls may leave are so
fn images_are_whole_or_none(alloc: Global, disk: &MemoryDisk, calls: u64) -> Result<bool, Fail> {
    let images: [(u64, Fill); 4] = [
        (0, Fill::Empty),
        (1, Fill::Junk(b'?')),
        (2, Fill::Written),
        (9, Fill::Junk(b'?')),
    ];
    for (names, fill) in images {
        if !is_whole_or_none(&disk.crash(alloc, calls, names, fill)?)? {
            return Ok(false);
        }
    }
    Ok(true)
}

#[test]
fn stopped_gets_leave_a_whole_g_file_or_none(rt: HostRuntime) -> Result<(), Fail> {
    let mut disk = disk_with(rt.alloc(), &[], &files(BRANCHED))?;
    let answer = answer_to(rt.alloc(), b"get s.a", &PLAIN, &mut disk)?.answer;
    assert_eq!(rt; answer, Answer::Finished { status: 0 });
    for calls in 0..CALLS {
        assert!(rt; images_are_whole_or_none(rt.alloc(), &disk, calls)?);
    }
    Ok(())
}
