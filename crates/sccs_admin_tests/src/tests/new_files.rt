use sccs_disk::{Fill, MemoryDisk};
use sccs_test_kit::samples::{EMPTY, TWO_LINES};
use sccs_test_kit::{
    Answer, CASE, Case, File, Given, PLAIN, answer_to, disk_with, ends, has, has_file, name,
};
use std::alloc::Global;
use std::test::Fail;

// two lines, the last without an LF
const TEXT: &[u8] = b"one\ntwo %I%";

// more than the calls of a new file
const CALLS: u64 = 24;

const TEXT_FILE: File<'static> = File {
    name: b"text",
    bytes: Some(TEXT),
};

const GOOD: Answer = Answer::Finished { status: 0 };

const GIVEN: Given<'static> = Given {
    input: TEXT,
    ..PLAIN
};

// the files of the name a, of which only the s-file is there
fn only<'a>(s_file: &'a [u8]) -> [File<'a>; 3] {
    [
        File {
            name: b"s.a",
            bytes: Some(s_file),
        },
        File {
            name: b"x.a",
            bytes: None,
        },
        File {
            name: b"z.a",
            bytes: None,
        },
    ]
}

// whether this s-file is there, and no working file or lock
fn is_left(disk: &MemoryDisk, s_file: &[u8]) -> Result<bool, Fail> {
    has(disk, &only(s_file))
}

// whether a line of words makes this s-file, which the same line then refuses to make again
fn makes_on<'a>(
    alloc: Global,
    disk: &mut MemoryDisk,
    line: &'a [u8],
    file: &[u8],
) -> Result<bool, Fail> {
    let made = Case {
        line,
        input: TEXT,
        ..CASE
    };
    let again = Case {
        status: 1,
        err: b"ERROR [s.a]: already exists (04)\n",
        ..made
    };
    let is_made = ends(alloc, disk, &made)?;
    let is_there = is_left(disk, file)?;
    let is_refused = ends(alloc, disk, &again)?;
    let is_kept = is_left(disk, file)?;
    let is_read = answer_to(alloc, b"get -k -p -s s.a", &PLAIN, disk)?.answer == GOOD;
    Ok(is_made && (is_there && (is_refused && (is_kept && is_read))))
}

// whether it does, where a text is there
fn makes(alloc: Global, line: &[u8], file: &[u8]) -> Result<bool, Fail> {
    let mut disk = disk_with(alloc, &[], &[TEXT_FILE])?;
    makes_on(alloc, &mut disk, line, file)
}

#[test]
fn new_files_are_written(rt: HostRuntime) -> Result<(), Fail> {
    assert!(rt; makes(rt.alloc(), b"admin -n s.a", EMPTY)?);
    assert!(rt; makes(rt.alloc(), b"admin -i s.a", TWO_LINES)?);
    assert!(rt; makes(rt.alloc(), b"admin -itext s.a", TWO_LINES)?);
    Ok(())
}

// s.b is locked, and nothing else is there
const LOCKED: [File<'static>; 6] = [
    File {
        name: b"z.b",
        bytes: Some(b""),
    },
    File {
        name: b"s.a",
        bytes: None,
    },
    File {
        name: b"s.b",
        bytes: None,
    },
    File {
        name: b"x.a",
        bytes: None,
    },
    File {
        name: b"x.b",
        bytes: None,
    },
    File {
        name: b"z.a",
        bytes: None,
    },
];

// whether a line of words is refused, and makes no file
fn refuses<'a>(alloc: Global, line: &'a [u8], err: &'a [u8]) -> Result<bool, Fail> {
    let case = Case {
        line,
        input: b"one\n\x01two\n",
        status: 1,
        err,
        ..CASE
    };
    let mut disk = disk_with(alloc, &[], &LOCKED)?;
    refuses_on(alloc, &mut disk, &case)
}

// whether a case ends as it should, and makes no file
fn refuses_on(alloc: Global, disk: &mut MemoryDisk, case: &Case) -> Result<bool, Fail> {
    let is_answer = ends(alloc, disk, case)?;
    let is_kept = has(disk, &LOCKED)?;
    Ok(is_answer && is_kept)
}

#[test]
fn refused_files_are_not_made(rt: HostRuntime) -> Result<(), Fail> {
    let rows: [(&[u8], &[u8]); 4] = [
        (
            b"admin -i s.a",
            b"ERROR [s.a]: line 2 begins with SOH (23)\n",
        ),
        (b"admin -i s.b", b"ERROR [s.b]: locked by z-file (02)\n"),
        (b"admin -iname s.a", b"ERROR [s.a]: no such file (03)\n"),
        (b"admin -iz.a s.a", b"ERROR [s.a]: no such file (03)\n"),
    ];
    for (line, err) in rows {
        assert!(rt; refuses(rt.alloc(), line, err)?);
    }
    Ok(())
}

// whether a new file whose input can't be read is a fault of reading, and makes no file
fn makes_none(alloc: Global, disk: &mut MemoryDisk) -> Result<bool, Fail> {
    let broken = Given {
        failing_input: &[1],
        ..GIVEN
    };
    let answer = answer_to(alloc, b"admin -i s.a", &broken, disk)?.answer;
    let is_kept = has(disk, &LOCKED)?;
    Ok(is_kept && answer == Answer::ReadFault)
}

#[test]
fn unread_input_makes_no_file(rt: HostRuntime) -> Result<(), Fail> {
    let mut disk = disk_with(rt.alloc(), &[], &LOCKED)?;
    assert!(rt; makes_none(rt.alloc(), &mut disk)?);
    Ok(())
}

// whether a new file on a disk leaves the whole s-file, or none and a fault
fn harms_none_on(alloc: Global, disk: &mut MemoryDisk) -> Result<bool, Fail> {
    let answer = answer_to(alloc, b"admin -i s.a", &GIVEN, disk)?.answer;
    let is_none = has_file(disk, b"s.a", None)?;
    let is_whole = has_file(disk, b"s.a", Some(TWO_LINES))?;
    Ok(is_whole || (is_none && answer == Answer::DiskFault))
}

// whether it does where one call fails
fn harms_none(alloc: Global, call: u64) -> Result<bool, Fail> {
    let mut disk = disk_with(alloc, &[call], &[])?;
    harms_none_on(alloc, &mut disk)
}

#[test]
fn failing_calls_harm_no_file(rt: HostRuntime) -> Result<(), Fail> {
    for call in 1..CALLS {
        assert!(rt; harms_none(rt.alloc(), call)?);
    }
    Ok(())
}

// a disk on which a line of words made the new file, if it did
fn made(alloc: Global, line: &[u8]) -> Result<Option<MemoryDisk>, Fail> {
    let mut disk = disk_with(alloc, &[], &[])?;
    let answer = answer_to(alloc, line, &GIVEN, &mut disk)?.answer;
    Ok((answer == GOOD).then_some(disk))
}

// whether a disk has the whole s-file, or none
fn has_whole_or_none(disk: &MemoryDisk) -> Result<bool, Fail> {
    let is_none = has_file(disk, b"s.a", None)?;
    let is_whole = has_file(disk, b"s.a", Some(TWO_LINES))?;
    Ok(is_none || is_whole)
}

// what a stop may leave
const IMAGES: [(u64, Fill); 6] = [
    (0, Fill::Empty),
    (1, Fill::Empty),
    (2, Fill::Junk(b'?')),
    (3, Fill::Written),
    (9, Fill::Empty),
    (9, Fill::Junk(b'?')),
];

// whether a stop behind so many calls, with so many names, leaves no s-file or the whole one
fn leaves_one(
    alloc: Global,
    disk: &MemoryDisk,
    calls: u64,
    names: u64,
    fill: Fill,
) -> Result<bool, Fail> {
    has_whole_or_none(&disk.crash(alloc, calls, names, fill)?)
}

// whether each stop behind so many calls does, whatever else it leaves
fn leaves_whole_or_none(alloc: Global, disk: &MemoryDisk, calls: u64) -> Result<bool, Fail> {
    for (names, fill) in IMAGES {
        if !leaves_one(alloc, disk, calls, names, fill)? {
            return Ok(false);
        }
    }
    Ok(true)
}

// whether a stop behind any call does
fn always_leaves_whole_or_none(alloc: Global, disk: &MemoryDisk) -> Result<bool, Fail> {
    for calls in 0..CALLS {
        if !leaves_whole_or_none(alloc, disk, calls)? {
            return Ok(false);
        }
    }
    Ok(true)
}

#[test]
fn stopped_runs_leave_whole_files(rt: HostRuntime) -> Result<(), Fail> {
    let disk = made(rt.alloc(), b"admin -i s.a")?.ok_or("a new file")?;
    assert!(rt; always_leaves_whole_or_none(rt.alloc(), &disk)?);
    Ok(())
}

// whether a stop behind all calls leaves the whole s-file
fn keeps_whole(alloc: Global, disk: &MemoryDisk, fill: Fill) -> Result<bool, Fail> {
    has_file(&disk.crash(alloc, CALLS, 0, fill)?, b"s.a", Some(TWO_LINES))
}

#[test]
fn acknowledged_files_stay(rt: HostRuntime) -> Result<(), Fail> {
    let disk = made(rt.alloc(), b"admin -i s.a")?.ok_or("a new file")?;
    let is_kept = keeps_whole(rt.alloc(), &disk, Fill::Empty)?;
    let is_kept_in_junk = keeps_whole(rt.alloc(), &disk, Fill::Junk(b'?'))?;
    assert!(rt; is_kept && is_kept_in_junk);
    Ok(())
}

// how long the s-file, the x-file and the z-file are
type Lengths = [Option<usize>; 3];

// the length of a file
fn length_of(disk: &MemoryDisk, file: &[u8]) -> Result<Option<usize>, Fail> {
    Ok(disk.bytes(&name(file)?).map(|bytes| bytes.len()))
}

// how long the files on a disk are
fn lengths_of(disk: &MemoryDisk) -> Result<Lengths, Fail> {
    let s_file = length_of(disk, b"s.a")?;
    let x_file = length_of(disk, b"x.a")?;
    let z_file = length_of(disk, b"z.a")?;
    Ok([s_file, x_file, z_file])
}

// what a stop leaves behind so many calls, with so many names
type Left = (u64, u64, Fill, Lengths);

// whether a stop leaves this
fn leaves(alloc: Global, disk: &MemoryDisk, left: &Left) -> Result<bool, Fail> {
    let (calls, names, fill, lengths) = *left;
    Ok(lengths_of(&disk.crash(alloc, calls, names, fill)?)? == lengths)
}

// What a stop leaves behind the calls: the lock, two that look for the s-file and an x-file, the x-file,
// its sum line, its header, its body, the sum, the mark, the x-file synced, its new name, the lock's end,
// the names synced.
const IN_ORDER: [Left; 13] = [
    (0, 9, Fill::Written, [None, None, None]),
    (1, 9, Fill::Written, [None, None, Some(0)]),
    (4, 9, Fill::Written, [None, Some(0), Some(0)]),
    (5, 9, Fill::Written, [None, Some(8), Some(0)]),
    (6, 9, Fill::Written, [None, Some(129), Some(0)]),
    (7, 9, Fill::Written, [None, Some(139), Some(0)]),
    (9, 9, Fill::Empty, [None, Some(0), Some(0)]),
    (10, 9, Fill::Empty, [None, Some(139), Some(0)]),
    (11, 9, Fill::Empty, [Some(139), None, Some(0)]),
    (11, 0, Fill::Empty, [None, None, None]),
    (12, 9, Fill::Empty, [Some(139), None, None]),
    (12, 0, Fill::Empty, [None, None, None]),
    (13, 0, Fill::Empty, [Some(139), None, None]),
];

// the place of the first of them that a stop doesn't leave
fn first_other(alloc: Global, disk: &MemoryDisk) -> Result<Option<usize>, Fail> {
    for (at, left) in IN_ORDER.iter().enumerate() {
        if !leaves(alloc, disk, left)? {
            return Ok(Some(at));
        }
    }
    Ok(None)
}

#[test]
fn calls_come_in_order(rt: HostRuntime) -> Result<(), Fail> {
    let disk = made(rt.alloc(), b"admin -n s.a")?.ok_or("a new file")?;
    assert_eq!(rt; first_other(rt.alloc(), &disk)?, None);
    Ok(())
}
