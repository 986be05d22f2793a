use crate::tests::samples::{EDITED, Files, disk_of, holds};
use sccs_disk::MemoryDisk;
use sccs_test_kit::samples::TWO_LINES;
use sccs_test_kit::{CASE, Case, Given, PLAIN, answer_to, ends, name, sum_of, summed};
use std::alloc::Global;
use std::test::Fail;

// one delta of so many lines
fn many_lines(alloc: Global, count: usize) -> Result<Vec<u8>, Fail> {
    let mut rest = TWO_LINES[8..TWO_LINES.len() - b"one\ntwo %I%\n\x01E 1\n".len()].to_vec(alloc)?;
    for _ in 0..count {
        rest.extend_from_slice(b"%I%\n")?;
    }
    rest.extend_from_slice(b"\x01E 1\n")?;
    summed(alloc, sum_of(&rest), &rest)
}

// an edit of 1.1 of such a file
fn many_edited(alloc: Global, s_file: &[u8]) -> Result<MemoryDisk, Fail> {
    disk_of(alloc, &Files { s_file, ..EDITED })
}

#[test]
fn counts_stop(rt: HostRuntime) -> Result<(), Fail> {
    let file = many_lines(rt.alloc(), 100_000)?;
    let mut disk = many_edited(rt.alloc(), &file)?;
    let case = Case {
        line: b"delta s.a",
        time: b"05:08:00",
        out: b"1.2\n0 inserted\n0 deleted\n100000 unchanged\n",
        ..CASE
    };
    let texts: [&[u8]; 1] = [b"\n\x01s 00000/00000/99999\n"];
    let is_answer = ends(rt.alloc(), &mut disk, &case)?;
    assert!(rt; is_answer && holds(&disk, &texts)?);
    Ok(())
}

// the length of the x-file behind a delta on a disk
fn copied_on(alloc: Global, disk: &mut MemoryDisk) -> Result<usize, Fail> {
    let given = Given {
        input: b"8000a\nx\n.\n",
        ..PLAIN
    };
    let _answer = answer_to(alloc, b"delta -s s.a", &given, disk)?.answer;
    match disk.bytes(&name(b"x.a")?) {
        Some(bytes) => Ok(bytes.len()),
        None => Ok(0),
    }
}

// its length where a delta is stopped behind so many calls
fn copied(alloc: Global, file: &[u8], calls: u64) -> Result<usize, Fail> {
    let mut disk = many_edited(alloc, file)?;
    disk.stop_after(calls);
    copied_on(alloc, &mut disk)
}

// at how many of these stops as much was written as at the one before, where pieces were
fn pauses(alloc: Global, file: &[u8]) -> Result<u64, Fail> {
    let (mut before, mut pauses) = (0, 0_u64);
    for calls in 40..80 {
        let length = copied(alloc, file, calls)?;
        if length >= 16_384 && length == before {
            pauses = pauses.wrapping_add(1);
        }
        before = length;
    }
    Ok(pauses)
}

// pieces are written while others are still to be read
#[test]
fn bodies_are_copied_in_pieces(rt: HostRuntime) -> Result<(), Fail> {
    let file = many_lines(rt.alloc(), 8000)?;
    assert!(rt; pauses(rt.alloc(), &file)? >= 2);
    Ok(())
}
