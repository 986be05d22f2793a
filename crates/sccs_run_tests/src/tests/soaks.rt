use sccs_disk::{Fill, MemoryDisk};
use sccs_test_kit::{
    Answer, CASE, Case, File, Given, PLAIN, answer_to, disk_with, ends, has, has_file,
};
use std::alloc::Global;
use std::test::Fail;

const ONE: Case<'static> = Case {
    line: b"soak 1",
    out: b"1 steps\n2 deltas\n1 lines\nsum 11880\n",
    ..CASE
};

const REFUSED: Case<'static> = Case {
    line: b"soak 1",
    status: 1,
    err: b"ERROR [s.soak]: already exists (04)\n",
    ..CASE
};

// whether a soak in a folder without files ends so, and a second one is refused and changes nothing
fn is_refused_again(alloc: Global) -> Result<bool, Fail> {
    let mut disk = disk_with(alloc, &[], &[])?;
    let first = ends(alloc, &mut disk, &ONE)?;
    let second = ends(alloc, &mut disk, &REFUSED)?;
    let no_entry = has_file(&disk, b"p.soak", None)?;
    Ok(first && (second && no_entry))
}

#[test]
fn a_second_soak_is_refused(rt: HostRuntime) -> Result<(), Fail> {
    assert!(rt; is_refused_again(rt.alloc())?);
    Ok(())
}

const LONE_ENTRY: [File<'static>; 2] = [
    File {
        name: b"p.soak",
        bytes: Some(b"x\n"),
    },
    File {
        name: b"s.soak",
        bytes: None,
    },
];

const BAD_ENTRY: Case<'static> = Case {
    line: b"soak 1",
    status: 1,
    err: b"ERROR [s.soak]: format error in p-file at line 1 (10)\n",
    ..CASE
};

// whether a p-file that is there refuses it
fn is_refused_beside(alloc: Global) -> Result<bool, Fail> {
    let mut disk = disk_with(alloc, &[], &LONE_ENTRY[..1])?;
    let refused = ends(alloc, &mut disk, &BAD_ENTRY)?;
    let no_lock = has_file(&disk, b"z.soak", None)?;
    Ok(refused && no_lock)
}

#[test]
fn a_bad_entry_refuses_a_soak(rt: HostRuntime) -> Result<(), Fail> {
    assert!(rt; is_refused_beside(rt.alloc())?);
    Ok(())
}

// whether two soaks of the same number, each in a folder of its own, end and print the same
fn are_the_same(alloc: Global, line: &[u8]) -> Result<bool, Fail> {
    let mut one = disk_with(alloc, &[], &[])?;
    let mut two = disk_with(alloc, &[], &[])?;
    let first = answer_to(alloc, line, &PLAIN, &mut one)?;
    let second = answer_to(alloc, line, &PLAIN, &mut two)?;
    Ok(
        first.answer == Answer::Finished { status: 0 }
            && second.is(0, first.out.bytes(), first.err.bytes()),
    )
}

#[test]
fn soaks_are_the_same_each_time(rt: HostRuntime) -> Result<(), Fail> {
    assert!(rt; are_the_same(rt.alloc(), b"soak 40")?);
    Ok(())
}

const CLEAN: Case<'static> = Case {
    line: b"recover s.soak",
    out: b"s.soak: clean\n",
    ..CASE
};

const WORKING: [File<'static>; 4] = [
    File {
        name: b"x.soak",
        bytes: None,
    },
    File {
        name: b"q.soak",
        bytes: None,
    },
    File {
        name: b"y.soak",
        bytes: None,
    },
    File {
        name: b"z.soak",
        bytes: None,
    },
];

// whether recovery leaves a clean name
fn recovers(alloc: Global, disk: &mut MemoryDisk) -> Result<bool, Fail> {
    answer_to(alloc, CLEAN.line, &PLAIN, disk)?;
    let clean = ends(alloc, disk, &CLEAN)?;
    let left = has(disk, &WORKING)?;
    Ok(clean && left)
}

// whether an image that a stop of a soak behind so many calls may leave recovers so
fn image_recovers(alloc: Global, disk: &MemoryDisk, calls: u64, fill: Fill) -> Result<bool, Fail> {
    recovers(alloc, &mut disk.crash(alloc, calls, 3, fill)?)
}

// more calls than a soak of two rounds makes
const CALLS: u64 = 120;

// whether a soak that is stopped behind any of its calls recovers
fn stops_recover(alloc: Global) -> Result<bool, Fail> {
    let mut disk = disk_with(alloc, &[], &[])?;
    let answer = answer_to(alloc, b"soak 2", &PLAIN, &mut disk)?.answer;
    for calls in 0..CALLS {
        if !image_recovers(alloc, &disk, calls, Fill::Junk(b'?'))? {
            return Ok(false);
        }
    }
    Ok(answer == Answer::Finished { status: 0 })
}

#[test]
fn stopped_soaks_recover(rt: HostRuntime) -> Result<(), Fail> {
    assert!(rt; stops_recover(rt.alloc())?);
    Ok(())
}

// whether a soak of which a call of the disk fails ends with that fault, or well, and recovers
fn fault_recovers(alloc: Global, call: u64) -> Result<bool, Fail> {
    let mut disk = disk_with(alloc, &[call], &[])?;
    match answer_to(alloc, b"soak 1", &PLAIN, &mut disk)?.answer {
        Answer::DiskFault => recovers(alloc, &mut disk),
        Answer::Finished { status: 0 } => Ok(true),
        _ => Ok(false),
    }
}

// whether it does whichever of its calls fails
fn faults_recover(alloc: Global) -> Result<bool, Fail> {
    for call in 1..50 {
        if !fault_recovers(alloc, call)? {
            return Ok(false);
        }
    }
    Ok(true)
}

#[test]
fn failed_soaks_recover(rt: HostRuntime) -> Result<(), Fail> {
    assert!(rt; faults_recover(rt.alloc())?);
    Ok(())
}

// the output that fails is a write fault
fn fails_to_print(alloc: Global) -> Result<bool, Fail> {
    let given = Given {
        failing_out: &[1],
        ..PLAIN
    };
    let mut disk = disk_with(alloc, &[], &[])?;
    let answer = answer_to(alloc, b"soak 1", &given, &mut disk)?.answer;
    Ok(answer == Answer::WriteFault)
}

#[test]
fn a_summary_may_fail(rt: HostRuntime) -> Result<(), Fail> {
    assert!(rt; fails_to_print(rt.alloc())?);
    Ok(())
}
