use crate::tests::names::{CALLS, GROUP, are_free, are_new, are_old, edited};
use sccs_disk::{Fill, MemoryDisk};
use sccs_test_kit::{Answer, Given, PLAIN, answer_to, name};
use std::alloc::Global;
use std::test::Fail;

const GOOD: Answer = Answer::Finished { status: 0 };

// what the group is given
fn given() -> Given<'static> {
    Given {
        input: GROUP.input,
        time: GROUP.time,
        ..PLAIN
    }
}

// how many name operations a crash makes, and what becomes of bytes that weren't synced
const IMAGES: [(u64, Fill); 7] = [
    (0, Fill::Empty),
    (1, Fill::Junk(b'?')),
    (2, Fill::Written),
    (4, Fill::Junk(b'?')),
    (6, Fill::Empty),
    (9, Fill::Written),
    (50, Fill::Junk(b'?')),
];

// each so many calls of the group a recovery is itself stopped
const STEP: u64 = 8;

// more calls of the disk than a recovery makes
const RECOVERY_CALLS: u64 = 60;

// recovery of one of the names, another one in turn
fn line_of(turn: u64) -> &'static [u8] {
    match turn % 3 {
        0 => b"recover s.a",
        1 => b"recover s.b",
        _ => b"recover s.c",
    }
}

// whether all names are as before the group, or all as after it, and then free once all are recovered
fn are_whole(alloc: Global, disk: &mut MemoryDisk) -> Result<bool, Fail> {
    let old = are_old(disk)?;
    let new = are_new(disk)?;
    let all = answer_to(alloc, b"recover .", &PLAIN, disk)?.answer;
    let stay = if new { are_new(disk)? } else { are_old(disk)? };
    Ok((old || new) && (all == GOOD && (stay && are_free(disk)?)))
}

// whether recovery of one name leaves them so
fn recovers(alloc: Global, disk: &mut MemoryDisk, turn: u64) -> Result<bool, Fail> {
    let answer = answer_to(alloc, line_of(turn), &PLAIN, disk)?.answer;
    Ok(answer == GOOD && are_whole(alloc, disk)?)
}

// whether images that a stop behind so many calls may leave recover so
fn images_recover(alloc: Global, disk: &MemoryDisk, calls: u64) -> Result<bool, Fail> {
    for (names, fill) in IMAGES {
        let mut image = disk.crash(alloc, calls, names, fill)?;
        if !recovers(alloc, &mut image, calls)? {
            return Ok(false);
        }
    }
    Ok(true)
}

#[test]
fn a_stopped_group_is_whole_or_not_there(rt: HostRuntime) -> Result<(), Fail> {
    let alloc = rt.alloc();
    let mut disk = edited(alloc, &[])?;
    assert!(rt; answer_to(alloc, GROUP.line, &given(), &mut disk)?.answer == GOOD);
    for calls in 0..CALLS {
        assert!(rt; images_recover(alloc, &disk, calls)?, "after {calls} calls");
    }
    Ok(())
}

// whether recovery that was itself stopped behind each of its calls recovers so
fn again(alloc: Global, image: &mut MemoryDisk, turn: u64) -> Result<bool, Fail> {
    image.stop_after(RECOVERY_CALLS);
    let answer = answer_to(alloc, line_of(turn), &PLAIN, image)?.answer;
    for calls in 0..=RECOVERY_CALLS {
        for (names, fill) in [IMAGES[0], IMAGES[3], IMAGES[5]] {
            let mut left = image.crash(alloc, calls, names, fill)?;
            if !recovers(alloc, &mut left, calls)? {
                return Ok(false);
            }
        }
    }
    Ok(answer == GOOD)
}

#[test]
fn a_stopped_recovery_goes_on(rt: HostRuntime) -> Result<(), Fail> {
    let alloc = rt.alloc();
    let mut disk = edited(alloc, &[])?;
    assert!(rt; answer_to(alloc, GROUP.line, &given(), &mut disk)?.answer == GOOD);
    for part in 0..CALLS / STEP {
        let calls = part * STEP;
        let mut image = disk.crash(alloc, calls, 50, Fill::Written)?;
        assert!(rt; again(alloc, &mut image, calls)?, "after {calls} calls");
    }
    Ok(())
}

// whether a group of which one call fails is whole or not there
fn fails_whole(alloc: Global, call: u64) -> Result<bool, Fail> {
    let mut disk = edited(alloc, &[call])?;
    match answer_to(alloc, GROUP.line, &given(), &mut disk)?.answer {
        Answer::DiskFault => recovers(alloc, &mut disk, call),
        Answer::Finished { status: 0 } => are_new(&disk),
        _ => Ok(false),
    }
}

#[test]
fn a_failing_group_is_whole_or_not_there(rt: HostRuntime) -> Result<(), Fail> {
    for call in 1..CALLS {
        assert!(rt; fails_whole(rt.alloc(), call)?, "call {call}");
    }
    Ok(())
}

// what is said of the names of a group that was finished, and of another one
const ALL: &[u8] = b"recover s.a s.d s.c s.b";

const TOLD: &[u8] = b"s.a: recovered\ns.d: clean\ns.c: recovered\ns.b: recovered\n";

// whether an intent is there, and whether recovery tells of its names
fn tells(alloc: Global, image: &mut MemoryDisk) -> Result<(bool, bool), Fail> {
    let there = image.bytes(&name(b"sccs.intent")?).is_some();
    let seen = answer_to(alloc, ALL, &PLAIN, image)?;
    Ok((there, seen.is(0, TOLD, b"")))
}

#[test]
fn names_of_a_finished_group_are_recovered(rt: HostRuntime) -> Result<(), Fail> {
    let alloc = rt.alloc();
    let mut disk = edited(alloc, &[])?;
    assert!(rt; answer_to(alloc, GROUP.line, &given(), &mut disk)?.answer == GOOD);
    let mut found = false;
    for calls in 0..CALLS {
        let mut image = disk.crash(alloc, calls, 50, Fill::Written)?;
        let (there, told) = tells(alloc, &mut image)?;
        assert!(rt; !there || told, "after {calls} calls");
        found = found || there;
    }
    assert!(rt; found);
    Ok(())
}
