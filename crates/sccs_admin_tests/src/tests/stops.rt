use sccs_disk::{Fill, MemoryDisk};
use sccs_test_kit::samples::{IMPORTED, RCS_FILE, REMOVED, SECOND, TWO_LINES};
use sccs_test_kit::{
    Answer, CASE, Case, File, Given, PLAIN, Seen, answer_to, disk_with, ends, has, has_file,
};
use std::alloc::Global;
use std::test::Fail;

// more calls than any of these commands makes
const CALLS: u64 = 60;

const ENTRY: &[u8] = b"1.2 1.3 ann 21/03/04 05:09:00\n";

/// An s-file and its p-file, where they are there.
#[derive(Clone, Copy)]
struct Pair<'a> {
    s_file: Option<&'a [u8]>,
    p_file: Option<&'a [u8]>,
}

/// A command that may be stopped, with the files before and after it.
#[derive(Clone, Copy)]
struct Stop<'a> {
    line: &'a [u8],
    time: &'a [u8],
    input: &'a [u8],
    old: Pair<'a>,
    new: Pair<'a>,
    /// The g-file that it leaves, where there is one.
    g_file: Option<&'a [u8]>,
    /// Whether a step was stopped before it.
    locked: bool,
}

// two entries, of which the first has its delta
const DONE: &[u8] = b"1.1 1.2 ann 21/03/04 05:07:08\n1.2 1.3 ann 21/03/04 05:09:00\n";

// an entry that a removal leaves
const LEFT: &[u8] = b"1.1 1.1.1.1 ann 21/03/04 05:09:00\n";

// the two deltas with a user and a flag
const WITH_USER: &[u8] =
    b"\x01h12946\n\x01s 00001/00000/00002\n\x01d D 1.2 21/03/04 05:08:00 ann 2 1\n\x01c second\n\x01e\n\
        \x01s 00002/00000/00000\n\x01d D 1.1 21/03/04 05:06:07 ann 1 0\n\
        \x01c date and time created 21/03/04 05:06:07 by ann\n\x01e\n\x01u\nbob\n\x01U\n\x01f b\n\x01t\n\x01T\n\
        \x01I 1\none\n\x01I 2\nmid\n\x01E 2\ntwo %I%\n\x01E 1\n";

// the two deltas with a description
const DESCRIBED: &[u8] =
    b"\x01h12849\n\x01s 00001/00000/00002\n\x01d D 1.2 21/03/04 05:08:00 ann 2 1\n\x01c second\n\x01e\n\
        \x01s 00002/00000/00000\n\x01d D 1.1 21/03/04 05:06:07 ann 1 0\n\
        \x01c date and time created 21/03/04 05:06:07 by ann\n\x01e\n\x01u\n\x01U\n\x01t\ntext\n\x01T\n\x01I 1\none\n\
        \x01I 2\nmid\n\x01E 2\ntwo %I%\n\x01E 1\n";

// a new file with a user, two flags and an MR
const WITH_ALL: &[u8] =
    b"\x01h09126\n\x01s 00002/00000/00000\n\x01d D 1.1 21/03/04 05:06:07 ann 1 0\n\x01m 7\n\
        \x01c date and time created 21/03/04 05:06:07 by ann\n\x01e\n\x01u\nbob\n\x01U\n\x01f b\n\x01f v\n\x01t\n\
        \x01T\n\x01I 1\none\ntwo %I%\n\x01E 1\n";

// the two deltas with another comment of the second
const THIRD: &[u8] =
    b"\x01h15231\n\x01s 00001/00000/00002\n\x01d D 1.2 21/03/04 05:08:00 ann 2 1\n\x01c third\n\
        \x01c *** CHANGED *** 21/03/04 05:11:00 ann\n\x01c second\n\x01e\n\x01s 00002/00000/00000\n\
        \x01d D 1.1 21/03/04 05:06:07 ann 1 0\n\x01c date and time created 21/03/04 05:06:07 by ann\n\x01e\n\x01u\n\
        \x01U\n\x01t\n\x01T\n\x01I 1\none\n\x01I 2\nmid\n\x01E 2\ntwo %I%\n\x01E 1\n";

const STOPS: [Stop<'static>; 12] = [
    Stop {
        line: b"admin -i s.a",
        time: b"05:06:07",
        input: b"one\ntwo %I%",
        old: Pair {
            s_file: None,
            p_file: None,
        },
        new: Pair {
            s_file: Some(TWO_LINES),
            p_file: None,
        },
        g_file: None,
        locked: false,
    },
    Stop {
        line: b"admin -i -abob -fb -fv -m7 s.a",
        time: b"05:06:07",
        input: b"one\ntwo %I%",
        old: Pair {
            s_file: None,
            p_file: None,
        },
        new: Pair {
            s_file: Some(WITH_ALL),
            p_file: None,
        },
        g_file: None,
        locked: false,
    },
    Stop {
        line: b"get -e -g s.a",
        time: b"05:09:00",
        input: b"",
        old: Pair {
            s_file: Some(SECOND),
            p_file: None,
        },
        new: Pair {
            s_file: Some(SECOND),
            p_file: Some(ENTRY),
        },
        g_file: None,
        locked: false,
    },
    Stop {
        line: b"get -e s.a",
        time: b"05:09:00",
        input: b"",
        old: Pair {
            s_file: Some(SECOND),
            p_file: None,
        },
        new: Pair {
            s_file: Some(SECOND),
            p_file: Some(ENTRY),
        },
        g_file: Some(b"one\nmid\ntwo %I%\n"),
        locked: false,
    },
    Stop {
        line: b"unget s.a",
        time: b"05:09:00",
        input: b"",
        old: Pair {
            s_file: Some(SECOND),
            p_file: Some(ENTRY),
        },
        new: Pair {
            s_file: Some(SECOND),
            p_file: None,
        },
        g_file: None,
        locked: false,
    },
    Stop {
        line: b"delta -ysecond s.a",
        time: b"05:08:00",
        input: b"1a\nmid\n.\n",
        old: Pair {
            s_file: Some(TWO_LINES),
            p_file: Some(b"1.1 1.2 ann 21/03/04 05:07:00\n"),
        },
        new: Pair {
            s_file: Some(SECOND),
            p_file: None,
        },
        g_file: None,
        locked: false,
    },
    Stop {
        line: b"rmdel -r1.2 s.a",
        time: b"05:09:00",
        input: b"",
        old: Pair {
            s_file: Some(SECOND),
            p_file: Some(LEFT),
        },
        new: Pair {
            s_file: Some(REMOVED),
            p_file: Some(LEFT),
        },
        g_file: None,
        locked: false,
    },
    Stop {
        line: b"admin -abob -fb s.a",
        time: b"05:09:00",
        input: b"",
        old: Pair {
            s_file: Some(SECOND),
            p_file: Some(ENTRY),
        },
        new: Pair {
            s_file: Some(WITH_USER),
            p_file: Some(ENTRY),
        },
        g_file: None,
        locked: false,
    },
    Stop {
        line: b"admin -tdescription s.a",
        time: b"05:09:00",
        input: b"",
        old: Pair {
            s_file: Some(SECOND),
            p_file: Some(ENTRY),
        },
        new: Pair {
            s_file: Some(DESCRIBED),
            p_file: Some(ENTRY),
        },
        g_file: None,
        locked: false,
    },
    Stop {
        line: b"recover s.a",
        time: b"05:09:00",
        input: b"",
        old: Pair {
            s_file: Some(SECOND),
            p_file: Some(DONE),
        },
        new: Pair {
            s_file: Some(SECOND),
            p_file: Some(ENTRY),
        },
        g_file: None,
        locked: true,
    },
    Stop {
        line: b"import s.a",
        time: b"05:09:00",
        input: b"",
        old: Pair {
            s_file: None,
            p_file: None,
        },
        new: Pair {
            s_file: Some(IMPORTED),
            p_file: None,
        },
        g_file: None,
        locked: false,
    },
    Stop {
        line: b"cdc -r1.2 -ythird s.a",
        time: b"05:11:00",
        input: b"",
        old: Pair {
            s_file: Some(SECOND),
            p_file: Some(ENTRY),
        },
        new: Pair {
            s_file: Some(THIRD),
            p_file: Some(ENTRY),
        },
        g_file: None,
        locked: false,
    },
];

// the files of the name a, of which only these are there
fn all<'a>(pair: &Pair<'a>) -> [File<'a>; 6] {
    [
        File {
            name: b"s.a",
            bytes: pair.s_file,
        },
        File {
            name: b"p.a",
            bytes: pair.p_file,
        },
        File {
            name: b"x.a",
            bytes: None,
        },
        File {
            name: b"q.a",
            bytes: None,
        },
        File {
            name: b"y.a",
            bytes: None,
        },
        File {
            name: b"z.a",
            bytes: None,
        },
    ]
}

// an x-file that was begun
const HALF: File<'static> = File {
    name: b"x.a",
    bytes: Some(b"half"),
};

const LOCK: File<'static> = File {
    name: b"z.a",
    bytes: Some(b""),
};

// the text that -t names
const DESCRIPTION: File<'static> = File {
    name: b"description",
    bytes: Some(b"text\n"),
};

// what import reads
const TRUNK: File<'static> = File {
    name: b"a,v",
    bytes: Some(RCS_FILE),
};

// the disk before a command, of which so many calls fail
fn disk_before(alloc: Global, stop: &Stop, failing: &[u64]) -> Result<MemoryDisk, Fail> {
    let [s_file, p_file, no_x_file, _, _, no_lock] = all(&stop.old);
    let x_file = if stop.locked { HALF } else { no_x_file };
    let lock = if stop.locked { LOCK } else { no_lock };
    disk_with(
        alloc,
        failing,
        &[s_file, p_file, x_file, lock, DESCRIPTION, TRUNK],
    )
}

// whether these files are there, and no working file or lock
fn is_left(disk: &MemoryDisk, pair: &Pair) -> Result<bool, Fail> {
    has(disk, &all(pair))
}

// whether the g-file is whole, where it is there
fn is_g_whole(disk: &MemoryDisk, stop: &Stop) -> Result<bool, Fail> {
    let none = has_file(disk, b"a", None)?;
    let whole = has_file(disk, b"a", stop.g_file)?;
    Ok(none || whole)
}

// makes the command
fn answer(alloc: Global, stop: &Stop, disk: &mut MemoryDisk) -> Result<Answer, Fail> {
    let given = Given {
        input: stop.input,
        time: stop.time,
        ..PLAIN
    };
    Ok(answer_to(alloc, stop.line, &given, disk)?.answer)
}

// recover on a name that is clean
const CLEAN: Case<'static> = Case {
    line: b"recover s.a",
    out: b"s.a: clean\n",
    ..CASE
};

// whether this says that the name was clean or is recovered
fn is_either(seen: &Seen) -> bool {
    seen.is(0, CLEAN.out, b"") || seen.is(0, b"s.a: recovered\n", b"")
}

// whether recover says so
fn says_either(alloc: Global, disk: &mut MemoryDisk) -> Result<bool, Fail> {
    Ok(is_either(&answer_to(alloc, CLEAN.line, &PLAIN, disk)?))
}

// whether recovery leaves the files as before or after the command; a recovery that was stopped goes on
fn recovers(alloc: Global, stop: &Stop, disk: &mut MemoryDisk) -> Result<bool, Fail> {
    let said = says_either(alloc, disk)?;
    let again = ends(alloc, disk, &CLEAN)?;
    let new = is_left(disk, &stop.new)?;
    let old = is_left(disk, &stop.old)?;
    let whole = is_g_whole(disk, stop)?;
    Ok(said && (again && (whole && (new || (old && !stop.locked)))))
}

// whether an image that a stop behind so many calls may leave recovers so
fn image_recovers(
    alloc: Global,
    stop: &Stop,
    disk: &MemoryDisk,
    calls: u64,
    names: u64,
    fill: Fill,
) -> Result<bool, Fail> {
    recovers(alloc, stop, &mut disk.crash(alloc, calls, names, fill)?)
}

// whether several of the images that a stop behind so many calls may leave recover so
fn images_recover(alloc: Global, stop: &Stop, disk: &MemoryDisk, calls: u64) -> Result<bool, Fail> {
    let images: [(u64, Fill); 6] = [
        (0, Fill::Empty),
        (1, Fill::Junk(b'?')),
        (2, Fill::Written),
        (3, Fill::Empty),
        (9, Fill::Written),
        (9, Fill::Junk(b'?')),
    ];
    for (names, fill) in images {
        if !image_recovers(alloc, stop, disk, calls, names, fill)? {
            return Ok(false);
        }
    }
    Ok(true)
}

// whether a stop behind any call of a command on a disk recovers so
fn stops_recover_on(alloc: Global, stop: &Stop, disk: &mut MemoryDisk) -> Result<bool, Fail> {
    let answer = answer(alloc, stop, disk)?;
    for calls in 0..CALLS {
        if !images_recover(alloc, stop, disk, calls)? {
            return Ok(false);
        }
    }
    Ok(answer == Answer::Finished { status: 0 })
}

// whether a stop behind any call of a command recovers so
fn stops_recover(alloc: Global, stop: &Stop) -> Result<bool, Fail> {
    let mut disk = disk_before(alloc, stop, &[])?;
    stops_recover_on(alloc, stop, &mut disk)
}

// whether a command left its files
fn is_made(disk: &MemoryDisk, stop: &Stop) -> Result<bool, Fail> {
    let left = is_left(disk, &stop.new)?;
    let g_file = has_file(disk, b"a", stop.g_file)?;
    Ok(left && g_file)
}

// whether a command on a disk ends well, or with a fault behind which the disk recovers so
fn fault_recovers_on(alloc: Global, stop: &Stop, disk: &mut MemoryDisk) -> Result<bool, Fail> {
    match answer(alloc, stop, disk)? {
        Answer::DiskFault => recovers(alloc, stop, disk),
        Answer::Finished { status: 0 } => is_made(disk, stop),
        _ => Ok(false),
    }
}

// whether it does where one call fails
fn fault_recovers(alloc: Global, stop: &Stop, call: u64) -> Result<bool, Fail> {
    let mut disk = disk_before(alloc, stop, &[call])?;
    fault_recovers_on(alloc, stop, &mut disk)
}

// stopped behind each of its calls each of these commands recovers
fn all_stops_recover(alloc: Global, stops: &[Stop]) -> Result<bool, Fail> {
    for stop in stops {
        if !stops_recover(alloc, stop)? {
            return Ok(false);
        }
    }
    Ok(true)
}

#[test]
fn stopped_edits_recover(rt: HostRuntime) -> Result<(), Fail> {
    assert!(rt; all_stops_recover(rt.alloc(), &STOPS[..4])?);
    Ok(())
}

#[test]
fn stopped_changes_recover(rt: HostRuntime) -> Result<(), Fail> {
    assert!(rt; all_stops_recover(rt.alloc(), &STOPS[4..7])?);
    Ok(())
}

#[test]
fn stopped_rules_recover(rt: HostRuntime) -> Result<(), Fail> {
    assert!(rt; all_stops_recover(rt.alloc(), &STOPS[7..10])?);
    Ok(())
}

#[test]
fn stopped_imports_and_comments_recover(rt: HostRuntime) -> Result<(), Fail> {
    assert!(rt; all_stops_recover(rt.alloc(), &STOPS[10..])?);
    Ok(())
}

// each of its calls failing each of these commands recovers
fn all_faults_recover(alloc: Global, stops: &[Stop]) -> Result<bool, Fail> {
    for stop in stops {
        for call in 1..CALLS {
            if !fault_recovers(alloc, stop, call)? {
                return Ok(false);
            }
        }
    }
    Ok(true)
}

#[test]
fn failed_edits_recover(rt: HostRuntime) -> Result<(), Fail> {
    assert!(rt; all_faults_recover(rt.alloc(), &STOPS[..4])?);
    Ok(())
}

#[test]
fn failed_changes_recover(rt: HostRuntime) -> Result<(), Fail> {
    assert!(rt; all_faults_recover(rt.alloc(), &STOPS[4..7])?);
    Ok(())
}

#[test]
fn failed_rules_recover(rt: HostRuntime) -> Result<(), Fail> {
    assert!(rt; all_faults_recover(rt.alloc(), &STOPS[7..10])?);
    Ok(())
}

#[test]
fn failed_imports_and_comments_recover(rt: HostRuntime) -> Result<(), Fail> {
    assert!(rt; all_faults_recover(rt.alloc(), &STOPS[10..])?);
    Ok(())
}

const REFUSED: Case<'static> = Case {
    line: b"unget s.a",
    status: 1,
    err: b"ERROR [s.a]: locked by z-file (02)\n",
    ..CASE
};

const RECOVERED: Case<'static> = Case {
    out: b"s.a: recovered\n",
    ..CLEAN
};

const ALONE: Pair<'static> = Pair {
    s_file: Some(TWO_LINES),
    p_file: None,
};

const ALONE_FILE: File<'static> = File {
    name: b"s.a",
    bytes: Some(TWO_LINES),
};

// whether a locked name is refused, its lock stays, and recover takes it away
fn is_unlocked(alloc: Global, disk: &mut MemoryDisk) -> Result<bool, Fail> {
    let refused = ends(alloc, disk, &REFUSED)?;
    let locked = has_file(disk, LOCK.name, LOCK.bytes)?;
    let recovered = ends(alloc, disk, &RECOVERED)?;
    let clean = ends(alloc, disk, &CLEAN)?;
    let left = is_left(disk, &ALONE)?;
    Ok(refused && (locked && (recovered && (clean && left))))
}

#[test]
fn locked_names_are_unlocked(rt: HostRuntime) -> Result<(), Fail> {
    let mut disk = disk_with(rt.alloc(), &[], &[ALONE_FILE, LOCK])?;
    assert!(rt; is_unlocked(rt.alloc(), &mut disk)?);
    Ok(())
}
