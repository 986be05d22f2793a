use sccs_disk::{Fill, MemoryDisk};
use sccs_test_kit::samples::{BRANCHED, TWO_LINES};
use sccs_test_kit::{Answer, CASE, Case, File, PLAIN, answer_to, disk_with, first_wrong, has_file};
use std::alloc::Global;
use std::test::Fail;

// more calls than a get with a summary makes
const CALLS: u64 = 40;

const FILES: [File<'static>; 2] = [
    File {
        name: b"s.a",
        bytes: Some(TWO_LINES),
    },
    File {
        name: b"s.b",
        bytes: Some(BRANCHED),
    },
];

const TAKEN_IN: &[u8] = b"  I 1.1.1.1\t99/12/31 23:59:59 bob\n\
        \t\n\n    1.2\t75/03/01 00:00:00 ann\n\ttwo\n\n    1.1\t75/02/28 23:59:59 ann\n\
        \tone\n\n";

const LEFT_OUT: &[u8] = b"**  1.1.1.1\t99/12/31 23:59:59 bob\n\
        \t\n\n**X 1.2\t75/03/01 00:00:00 ann\n\ttwo\n\n    1.1\t75/02/28 23:59:59 ann\n\
        \tone\n\n";

const LATE: &[u8] = b"**C 1.1.1.1\t99/12/31 23:59:59 bob\n\
        \t\n\n    1.2\t75/03/01 00:00:00 ann\n\ttwo\n\n    1.1\t75/02/28 23:59:59 ann\n\
        \tone\n\n";

const NEWEST: &[u8] = b"**  1.1.1.1\t99/12/31 23:59:59 bob\n\
        \t\n\n    1.2\t75/03/01 00:00:00 ann\n\ttwo\n\n    1.1\t75/02/28 23:59:59 ann\n\
        \tone\n\n";

const FIRST: &[u8] =
    b"    1.1\t21/03/04 05:06:07 ann\n\tdate and time created 21/03/04 05:06:07 by ann\n\n";

const PRINTED: [Case<'static>; 4] = [
    Case {
        line: b"get -g -L -s -r1.2 -i1.1.1.1 s.b",
        out: TAKEN_IN,
        ..CASE
    },
    // the report goes to standard error
    Case {
        line: b"get -g -L -c75 s.b",
        out: LATE,
        err: b"1.2\n",
        ..CASE
    },
    Case {
        line: b"get -L s.b",
        out: NEWEST,
        err: b"1.2\n2 lines\nWARNING [s.b]: no id keywords\n",
        ..CASE
    },
    Case {
        line: b"get -e -L s.b",
        out: NEWEST,
        err: b"1.2\nnew delta 1.3\n2 lines\n",
        ..CASE
    },
];

const MADE: [Case<'static>; 3] = [
    Case {
        line: b"get -g -l -s -x1.2 s.b",
        ..CASE
    },
    Case {
        line: b"get -l -p -s s.a",
        out: b"one\ntwo 1.1\n",
        ..CASE
    },
    Case {
        line: b"get -e -l s.a",
        out: b"1.1\nnew delta 1.2\n2 lines\n",
        ..CASE
    },
];

const USAGES: [Case<'static>; 3] = [
    Case {
        line: b"get -l -L s.a",
        status: 2,
        err: b"USAGE: options exclude each other (word 3)\n",
        ..CASE
    },
    Case {
        line: b"get -L -p s.a",
        status: 2,
        err: b"USAGE: options exclude each other (word 3)\n",
        ..CASE
    },
    Case {
        line: b"get -l -r9.9 s.a",
        status: 1,
        err: b"ERROR [s.a]: no such SID (15)\n",
        ..CASE
    },
];

#[test]
fn summaries_are_printed(rt: HostRuntime) -> Result<(), Fail> {
    let mut disk = disk_with(rt.alloc(), &[], &FILES)?;
    assert_eq!(rt; first_wrong(rt.alloc(), &mut disk, &PRINTED)?, None);
    assert!(rt; has_file(&disk, b"l.b", None)?);
    Ok(())
}

#[test]
fn summaries_are_l_files(rt: HostRuntime) -> Result<(), Fail> {
    let mut disk = disk_with(rt.alloc(), &[], &FILES)?;
    assert_eq!(rt; first_wrong(rt.alloc(), &mut disk, &MADE)?, None);
    let second = has_file(&disk, b"l.b", Some(LEFT_OUT))?;
    let first = has_file(&disk, b"l.a", Some(FIRST))?;
    assert!(rt; second & first & has_file(&disk, b"y.a", None)?);
    Ok(())
}

#[test]
fn refused_gets_have_no_summary(rt: HostRuntime) -> Result<(), Fail> {
    let mut disk = disk_with(rt.alloc(), &[], &FILES)?;
    assert_eq!(rt; first_wrong(rt.alloc(), &mut disk, &USAGES)?, None);
    assert!(rt; has_file(&disk, b"l.a", None)?);
    Ok(())
}

// whether the s-file is as it was, and the l-file isn't there or whole
fn is_whole_or_none(disk: &MemoryDisk) -> Result<bool, Fail> {
    let same = has_file(disk, b"s.a", Some(TWO_LINES))?;
    let whole = has_file(disk, b"l.a", Some(FIRST))?;
    let none = has_file(disk, b"l.a", None)?;
    Ok(same && (whole || none))
}

// whether it is so after a get of which one call fails, and the file is there where it ended well
fn failed_is_whole_or_none(alloc: Global, line: &[u8], call: u64) -> Result<bool, Fail> {
    let mut disk = disk_with(alloc, &[call], &FILES)?;
    let answer = answer_to(alloc, line, &PLAIN, &mut disk)?.answer;
    let left = is_whole_or_none(&disk)?;
    Ok(match answer {
        Answer::Finished { status: 0 } => left && !has_file(&disk, b"l.a", None)?,
        Answer::DiskFault => left,
        _ => false,
    })
}

// whether the l-file is there, or neither an entry nor the g-file is
fn is_first(disk: &MemoryDisk) -> Result<bool, Fail> {
    let made = has_file(disk, b"l.a", Some(FIRST))?;
    let no_entry = has_file(disk, b"p.a", None)?;
    let no_text = has_file(disk, b"a", None)?;
    Ok(made || (no_entry && no_text))
}

// whether several of the images that a stop behind so many calls may leave are so
fn images_are_so(alloc: Global, disk: &MemoryDisk, calls: u64) -> Result<bool, Fail> {
    let images: [(u64, Fill); 3] = [(0, Fill::Empty), (2, Fill::Written), (9, Fill::Junk(b'?'))];
    for (names, fill) in images {
        let image = disk.crash(alloc, calls, names, fill)?;
        if !(is_whole_or_none(&image)? & is_first(&image)?) {
            return Ok(false);
        }
    }
    Ok(true)
}

#[test]
fn failed_gets_leave_a_whole_l_file_or_none(rt: HostRuntime) -> Result<(), Fail> {
    for call in 1..CALLS {
        assert!(rt; failed_is_whole_or_none(rt.alloc(), b"get -l s.a", call)?);
        assert!(rt; failed_is_whole_or_none(rt.alloc(), b"get -e -l s.a", call)?);
    }
    Ok(())
}

#[test]
fn stopped_gets_have_their_l_file_first(rt: HostRuntime) -> Result<(), Fail> {
    let mut disk = disk_with(rt.alloc(), &[], &FILES)?;
    let answer = answer_to(rt.alloc(), b"get -e -l s.a", &PLAIN, &mut disk)?.answer;
    assert_eq!(rt; answer, Answer::Finished { status: 0 });
    for calls in 0..CALLS {
        assert!(rt; images_are_so(rt.alloc(), &disk, calls)?);
    }
    Ok(())
}
