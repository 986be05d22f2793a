use crate::tests::samples::{ADDED, EDITED, Files, MID, SECOND_DELTA, changes, disk_of, is_left};
use sccs_disk::{FickleDisk, Fill, MemoryDisk};
use sccs_test_kit::samples::TWO_LINES;
use sccs_test_kit::{Answer, CASE, Case, Given, PLAIN, answer_to, ends, name};
use std::alloc::Global;
use std::test::Fail;

// an edit of 1.1 whose g-file has the line that the delta adds
const WRITTEN: Files<'static> = Files {
    g_file: Some(b"one\nmid\ntwo %I%\n"),
    ..EDITED
};

#[test]
fn deltas_are_added(rt: HostRuntime) -> Result<(), Fail> {
    let kept = Case {
        line: b"delta -ysecond -n -r1.1 s.a",
        ..SECOND_DELTA
    };
    let beside = Files {
        g_file: WRITTEN.g_file,
        ..ADDED
    };
    let silent = Case {
        line: b"delta -s -r1.2 -ysecond s.a",
        out: b"",
        ..SECOND_DELTA
    };
    assert!(rt; changes(rt.alloc(), &SECOND_DELTA, &EDITED, &ADDED)?);
    assert!(rt; changes(rt.alloc(), &SECOND_DELTA, &WRITTEN, &ADDED)?);
    assert!(rt; changes(rt.alloc(), &kept, &WRITTEN, &beside)?);
    assert!(rt; changes(rt.alloc(), &silent, &EDITED, &ADDED)?);
    Ok(())
}

// the first line of the text is another when the file is read for its copy
#[test]
fn a_file_changes_before_its_copy(rt: HostRuntime) -> Result<(), Fail> {
    let disk = disk_of(rt.alloc(), &EDITED)?;
    let line = TWO_LINES.len() - b"one\ntwo %I%\n\x01E 1\n".len();
    let mut disk = FickleDisk::new(disk, name(b"s.a")?, line as u64);
    let refused = Case {
        status: 1,
        out: b"",
        err: b"ERROR [s.a]: file changed while read (34)\n",
        ..SECOND_DELTA
    };
    assert!(rt; ends(rt.alloc(), &mut disk, &refused)?);
    Ok(())
}

// whether a delta whose script can't be read is a fault of reading, and changes nothing
fn adds_nothing(alloc: Global, disk: &mut MemoryDisk) -> Result<bool, Fail> {
    let given = Given {
        input: MID,
        failing_input: &[1],
        ..PLAIN
    };
    let answer = answer_to(alloc, b"delta s.a", &given, disk)?.answer;
    let is_kept = is_left(disk, &EDITED)?;
    Ok(is_kept && answer == Answer::ReadFault)
}

#[test]
fn unread_input_adds_nothing(rt: HostRuntime) -> Result<(), Fail> {
    let mut disk = disk_of(rt.alloc(), &EDITED)?;
    assert!(rt; adds_nothing(rt.alloc(), &mut disk)?);
    Ok(())
}

const CLEAN: Case<'static> = Case {
    line: b"recover s.a",
    out: b"s.a: clean\n",
    ..CASE
};

// whether the second delta gives out a byte on a disk
fn is_reported(alloc: Global, disk: &mut MemoryDisk) -> Result<bool, Fail> {
    let given = Given {
        input: MID,
        time: b"05:08:00",
        ..PLAIN
    };
    let seen = answer_to(alloc, SECOND_DELTA.line, &given, disk)?;
    Ok(!seen.out.bytes().is_empty())
}

// whether recovery leaves a delta made whole or not at all, and made where it was reported
fn recovers(alloc: Global, left: &mut MemoryDisk, is_reported: bool) -> Result<bool, Fail> {
    let answer = answer_to(alloc, CLEAN.line, &PLAIN, left)?.answer;
    let is_clean = ends(alloc, left, &CLEAN)?;
    let is_unmade = is_left(left, &EDITED)?;
    let is_made = is_left(left, &ADDED)?;
    let is_whole = is_made || (is_unmade && !is_reported);
    Ok(is_whole && (is_clean && answer == Answer::Finished { status: 0 }))
}

// whether a delta on a disk that was stopped behind so many calls is made whole or not at all
fn is_whole_on(
    alloc: Global,
    disk: &mut MemoryDisk,
    calls: u64,
    names: u64,
    fill: Fill,
) -> Result<bool, Fail> {
    let is_reported = is_reported(alloc, disk)?;
    recovers(
        alloc,
        &mut disk.crash(alloc, calls, names, fill)?,
        is_reported,
    )
}

// whether the second delta is
fn is_whole(alloc: Global, calls: u64, names: u64, fill: Fill) -> Result<bool, Fail> {
    let mut disk = disk_of(alloc, &EDITED)?;
    disk.stop_after(calls);
    is_whole_on(alloc, &mut disk, calls, names, fill)
}

#[test]
fn reported_deltas_stay(rt: HostRuntime) -> Result<(), Fail> {
    for calls in 0..60 {
        let is_whole_without = is_whole(rt.alloc(), calls, 0, Fill::Empty)?;
        let is_whole_with = is_whole(rt.alloc(), calls, 9, Fill::Written)?;
        assert!(rt; is_whole_without && is_whole_with, "behind {calls} calls");
    }
    Ok(())
}
