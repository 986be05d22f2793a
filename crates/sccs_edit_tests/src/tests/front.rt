use sccs_disk::{Fill, MemoryDisk};
use sccs_test_kit::samples::{SECOND, TWO_LINES};
use sccs_test_kit::{
    Answer, CASE, Case, File, Given, PLAIN, answer_to, disk_with, ends, has, has_file,
};
use std::alloc::Global;
use std::test::Fail;

// more than the calls of a delta and a get
const CALLS: u64 = 90;

const EDIT: &[u8] = b"1.1 1.2 ann 21/03/04 05:07:00\n";

const NEXT_EDIT: &[u8] = b"1.2 1.3 ann 21/03/04 05:08:00\n";

// the s-file, the p-file and the g-file of the name a, whose lock isn't there
#[derive(Clone, Copy)]
struct Left<'a> {
    s_file: &'a [u8],
    p_file: Option<&'a [u8]>,
    g_file: Option<&'a [u8]>,
}

// an edit of 1.1 whose g-file isn't there
const EDITED: Left<'static> = Left {
    s_file: TWO_LINES,
    p_file: Some(EDIT),
    g_file: None,
};

// the version 1.2 with its keywords replaced
const GOT: Left<'static> = Left {
    s_file: SECOND,
    p_file: None,
    g_file: Some(b"one\nmid\ntwo 1.2\n"),
};

// an edit of 1.2
const EDITED_AGAIN: Left<'static> = Left {
    s_file: SECOND,
    p_file: Some(NEXT_EDIT),
    g_file: Some(b"one\nmid\ntwo %I%\n"),
};

// the s-file, the p-file, and the lock, which isn't there
fn pair_of<'a>(left: &Left<'a>) -> [File<'a>; 3] {
    [
        File {
            name: b"s.a",
            bytes: Some(left.s_file),
        },
        File {
            name: b"p.a",
            bytes: left.p_file,
        },
        File {
            name: b"z.a",
            bytes: None,
        },
    ]
}

fn disk_of(alloc: Global, failing: &[u64], left: &Left) -> Result<MemoryDisk, Fail> {
    let [s_file, p_file, lock] = pair_of(left);
    let g_file = File {
        name: b"a",
        bytes: left.g_file,
    };
    disk_with(alloc, failing, &[s_file, p_file, lock, g_file])
}

// whether the pair is left so, and the g-file too
fn is_left(disk: &MemoryDisk, left: &Left) -> Result<bool, Fail> {
    let pair = has(disk, &pair_of(left))?;
    let g_file = has_file(disk, b"a", left.g_file)?;
    Ok(pair && g_file)
}

// whether a case ends as it should, and leaves these files, over a disk
fn goes(alloc: Global, disk: &mut MemoryDisk, case: &Case, left: &Left) -> Result<bool, Fail> {
    let is_answer = ends(alloc, disk, case)?;
    let is_left = is_left(disk, left)?;
    Ok(is_answer && is_left)
}

// the same over an edit of 1.1, and then of a case that leaves them too
fn both_go(alloc: Global, case: &Case, left: &Left, next: &Case) -> Result<bool, Fail> {
    let mut disk = disk_of(alloc, &[], &EDITED)?;
    let first = goes(alloc, &mut disk, case, left)?;
    let second = goes(alloc, &mut disk, next, left)?;
    Ok(first && second)
}

// the same of one case over files that it leaves
fn stays(alloc: Global, case: &Case, left: &Left) -> Result<bool, Fail> {
    let mut disk = disk_of(alloc, &[], left)?;
    goes(alloc, &mut disk, case, left)
}

const DELGET: Case<'static> = Case {
    line: b"delget -ysecond s.a",
    time: b"05:08:00",
    input: b"1a\nmid\n.\n",
    out: b"1.2\n1 inserted\n0 deleted\n2 unchanged\n1.2\n3 lines\n",
    ..CASE
};

const DELEDIT: Case<'static> = Case {
    line: b"deledit -ysecond s.a",
    out: b"1.2\n1 inserted\n0 deleted\n2 unchanged\n1.2\nnew delta 1.3\n3 lines\n",
    ..DELGET
};

// a get, which a writable g-file refuses
const GET: Case<'static> = Case {
    line: b"get s.a",
    time: b"05:09:00",
    out: b"1.2\n3 lines\n",
    ..CASE
};

const REFUSED_GET: Case<'static> = Case {
    line: b"get s.a",
    status: 1,
    err: b"ERROR [s.a]: writable file exists (25)\n",
    ..CASE
};

#[test]
fn a_delta_is_got(rt: HostRuntime) -> Result<(), Fail> {
    assert!(rt; both_go(rt.alloc(), &DELGET, &GOT, &GET)?);
    Ok(())
}

#[test]
fn a_delta_is_edited(rt: HostRuntime) -> Result<(), Fail> {
    assert!(rt; both_go(rt.alloc(), &DELEDIT, &EDITED_AGAIN, &REFUSED_GET)?);
    Ok(())
}

// behind a delta that is refused nothing is got
#[test]
fn a_refused_delta_is_not_got(rt: HostRuntime) -> Result<(), Fail> {
    let refused = Case {
        login: b"bob",
        status: 1,
        out: b"",
        err: b"ERROR [s.a]: no edit is pending (13)\n",
        ..DELGET
    };
    let again = Case {
        line: b"deledit -ysecond s.a",
        ..refused
    };
    assert!(rt; stays(rt.alloc(), &refused, &EDITED)?);
    assert!(rt; stays(rt.alloc(), &again, &EDITED)?);
    Ok(())
}

const EDITING: Case<'static> = Case {
    line: b"edit s.a",
    time: b"05:08:00",
    out: b"1.2\nnew delta 1.3\n3 lines\n",
    ..CASE
};

const DROPPING: Case<'static> = Case {
    line: b"unedit s.a",
    out: b"1.3\n",
    ..EDITING
};

#[test]
fn edits_begin_and_are_dropped(rt: HostRuntime) -> Result<(), Fail> {
    let without = Left {
        p_file: None,
        g_file: None,
        ..EDITED_AGAIN
    };
    let mut disk = disk_of(rt.alloc(), &[], &without)?;
    let begun = goes(rt.alloc(), &mut disk, &EDITING, &EDITED_AGAIN)?;
    let dropped = goes(rt.alloc(), &mut disk, &DROPPING, &without)?;
    assert!(rt; begun & dropped);
    Ok(())
}

// a line of words, and its usage fault
#[derive(Clone, Copy)]
struct Fault<'a> {
    line: &'a [u8],
    err: &'a [u8],
}

const FAULTS: [Fault<'static>; 10] = [
    Fault {
        line: b"edit -w s.a",
        err: b"USAGE: unknown option (word 2)\n",
    },
    Fault {
        line: b"edit -c99 s.a",
        err: b"USAGE: options exclude each other (word 2)\n",
    },
    Fault {
        line: b"edit -e s.a",
        err: b"USAGE: option given twice (word 2)\n",
    },
    Fault {
        line: b"edit",
        err: b"USAGE: no operand (word 2)\n",
    },
    Fault {
        line: b"unedit -r1.2",
        err: b"USAGE: no operand (word 3)\n",
    },
    Fault {
        line: b"unedit -w s.a",
        err: b"USAGE: unknown option (word 2)\n",
    },
    Fault {
        line: b"delget -y",
        err: b"USAGE: no operand (word 3)\n",
    },
    Fault {
        line: b"delget -ysecond -- -x",
        err: b"USAGE: malformed value (word 4)\n",
    },
    Fault {
        line: b"deledit -ysecond -",
        err: b"USAGE: malformed value (word 3)\n",
    },
    Fault {
        line: b"deledit s.a s.b",
        err: b"USAGE: too many operands (word 4)\n",
    },
];

// whether a line is that usage fault, and changes nothing
fn is_fault(alloc: Global, fault: &Fault) -> Result<bool, Fail> {
    let case = Case {
        line: fault.line,
        status: 2,
        err: fault.err,
        ..CASE
    };
    stays(alloc, &case, &EDITED)
}

#[test]
fn faults_count_the_words_as_typed(rt: HostRuntime) -> Result<(), Fail> {
    for fault in &FAULTS {
        assert!(rt; is_fault(rt.alloc(), fault)?);
    }
    Ok(())
}

// in a batch these are no utilities
#[test]
fn a_batch_has_none(rt: HostRuntime) -> Result<(), Fail> {
    let batch = Case {
        line: b"batch",
        input: b"@ 21/03/04 05:08:00 ann 3 3\ndelget\n-ysecond\ns.a\n1a\nmid\n.\n",
        out: b"= 2\n",
        err: b"USAGE: unknown utility (word 1)\n",
        ..CASE
    };
    assert!(rt; stays(rt.alloc(), &batch, &EDITED)?);
    Ok(())
}

// the pair behind a delta
const DONE: Left<'static> = Left {
    s_file: SECOND,
    p_file: None,
    g_file: None,
};

// makes a case, and answers how it ended
fn answer(alloc: Global, case: &Case, disk: &mut MemoryDisk) -> Result<Answer, Fail> {
    let given = Given {
        input: case.input,
        time: case.time,
        ..PLAIN
    };
    Ok(answer_to(alloc, case.line, &given, disk)?.answer)
}

// whether recovery leaves the pair as before both commands, between them, or behind them
fn recovers(alloc: Global, left: &Left, disk: &mut MemoryDisk) -> Result<bool, Fail> {
    let end = answer_to(alloc, b"recover s.a", &PLAIN, disk)?.answer;
    let old = has(disk, &pair_of(&EDITED))?;
    let between = has(disk, &pair_of(&DONE))?;
    let new = has(disk, &pair_of(left))?;
    Ok(end == Answer::Finished { status: 0 } && (old || (between || new)))
}

// whether an image that a stop behind so many calls may leave recovers so
fn image_recovers(
    alloc: Global,
    left: &Left,
    disk: &MemoryDisk,
    calls: u64,
    names: u64,
    fill: Fill,
) -> Result<bool, Fail> {
    recovers(alloc, left, &mut disk.crash(alloc, calls, names, fill)?)
}

// whether a case that is stopped behind any call recovers so
fn all_stops_recover(alloc: Global, case: &Case, left: &Left) -> Result<bool, Fail> {
    let mut disk = disk_of(alloc, &[], &EDITED)?;
    let whole = goes(alloc, &mut disk, case, left)?;
    for calls in 0..CALLS {
        let early = image_recovers(alloc, left, &disk, calls, 0, Fill::Empty)?;
        let late = image_recovers(alloc, left, &disk, calls, 9, Fill::Junk(b'?'))?;
        if !(early && late) {
            return Ok(false);
        }
    }
    Ok(whole)
}

// whether a case during which a call of the disk fails recovers so
fn fails_well(alloc: Global, case: &Case, left: &Left, call: u64) -> Result<bool, Fail> {
    let mut disk = disk_of(alloc, &[call], &EDITED)?;
    let end = answer(alloc, case, &mut disk)?;
    let known = end == Answer::DiskFault || end == Answer::Finished { status: 0 };
    let mut left_over = disk.crash(alloc, u64::MAX, u64::MAX, Fill::Written)?;
    Ok(recovers(alloc, left, &mut left_over)? && known)
}

fn all_fail_well(alloc: Global, case: &Case, left: &Left) -> Result<bool, Fail> {
    for call in 1..CALLS {
        if !fails_well(alloc, case, left, call)? {
            return Ok(false);
        }
    }
    Ok(true)
}

#[test]
fn two_commands_are_stopped(rt: HostRuntime) -> Result<(), Fail> {
    assert!(rt; all_stops_recover(rt.alloc(), &DELGET, &GOT)?);
    assert!(rt; all_stops_recover(rt.alloc(), &DELEDIT, &EDITED_AGAIN)?);
    Ok(())
}

#[test]
fn calls_of_two_commands_fail(rt: HostRuntime) -> Result<(), Fail> {
    assert!(rt; all_fail_well(rt.alloc(), &DELGET, &GOT)?);
    assert!(rt; all_fail_well(rt.alloc(), &DELEDIT, &EDITED_AGAIN)?);
    Ok(())
}
