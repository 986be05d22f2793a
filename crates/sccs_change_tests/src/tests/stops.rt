use sccs_disk::{Fill, MemoryDisk};
use sccs_test_kit::samples::EMPTY;
use sccs_test_kit::{Answer, Given, PLAIN, answer_to, disk_with, has_file};
use std::alloc::Global;
use std::test::Fail;

// two new files, and an edit of the second
const ENTRIES: Given<'static> = Given {
    input: b"@ 21/03/04 05:06:07 ann 3 0\nadmin\n-n\ns.a\n@ 21/03/04 05:06:07 ann 3 0\nadmin\n-n\ns.b\n\
@ 21/03/04 05:07:00 ann 4 0\nget\n-e\n-g\ns.b\n",
    ..PLAIN
};

const ENTRY: &[u8] = b"1.1 1.2 ann 21/03/04 05:07:00\n";

// more calls of the disk than these entries make
const CALLS: u64 = 60;

// how many of the entries a disk stands behind, if it stands behind a first part of them
fn entries_made(disk: &MemoryDisk) -> Result<Option<u64>, Fail> {
    let first = has_file(disk, b"s.a", Some(EMPTY))?;
    let second = has_file(disk, b"s.b", Some(EMPTY))?;
    let third = has_file(disk, b"p.b", Some(ENTRY))?;
    let none = has_file(disk, b"s.a", None)?;
    let not_second = has_file(disk, b"s.b", None)?;
    let not_third = has_file(disk, b"p.b", None)?;
    if first && (second && third) {
        return Ok(Some(3));
    }
    if first && (second && not_third) {
        return Ok(Some(2));
    }
    if first && (not_second && not_third) {
        return Ok(Some(1));
    }
    if none && (not_second && not_third) {
        return Ok(Some(0));
    }
    Ok(None)
}

// whether no name is locked
fn is_unlocked(disk: &MemoryDisk) -> Result<bool, Fail> {
    Ok(has_file(disk, b"z.a", None)? && has_file(disk, b"z.b", None)?)
}

// whether an image that a stop behind so many calls may leave is a first part of the entries once both names are
// recovered
fn image_recovers(
    alloc: Global,
    disk: &MemoryDisk,
    calls: u64,
    names: u64,
    fill: Fill,
) -> Result<bool, Fail> {
    let mut image = disk.crash(alloc, calls, names, fill)?;
    let answer = answer_to(alloc, b"recover s.a s.b", &PLAIN, &mut image)?.answer;
    let unlocked = is_unlocked(&image)?;
    let made = entries_made(&image)?;
    Ok(answer == Answer::Finished { status: 0 } && (unlocked && made.is_some()))
}

// whether several images behind so many calls are
fn images_recover(alloc: Global, disk: &MemoryDisk, calls: u64) -> Result<bool, Fail> {
    let images: [(u64, Fill); 4] = [
        (0, Fill::Empty),
        (1, Fill::Junk(b'?')),
        (2, Fill::Written),
        (9, Fill::Written),
    ];
    for (names, fill) in images {
        if !image_recovers(alloc, disk, calls, names, fill)? {
            return Ok(false);
        }
    }
    Ok(true)
}

// whether all are
fn stops_recover(alloc: Global, disk: &MemoryDisk) -> Result<bool, Fail> {
    for calls in 0..CALLS {
        if !images_recover(alloc, disk, calls)? {
            return Ok(false);
        }
    }
    Ok(true)
}

#[test]
fn stopped_batches_recover(rt: HostRuntime) -> Result<(), Fail> {
    let mut disk = disk_with(rt.alloc(), &[], &[])?;
    let answer = answer_to(rt.alloc(), b"batch", &ENTRIES, &mut disk)?.answer;
    assert!(rt; answer == Answer::Finished { status: 0 });
    assert!(rt; entries_made(&disk)? == Some(3));
    assert!(rt; stops_recover(rt.alloc(), &disk)?);
    Ok(())
}
