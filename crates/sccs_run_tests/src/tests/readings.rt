use sccs_disk::FickleDisk;
use sccs_test_kit::samples::{SECOND, TWO_LINES};
use sccs_test_kit::{Answer, File, PLAIN, Seen, answer_to, disk_with, name, sum_of, summed};
use std::alloc::Global;
use std::test::Fail;

const CHANGED: &[u8] = b"ERROR [s.a]: file changed while read (34)\n";

// what a line of words answers where the line that the second delta inserted is another at the second reading
fn seen_changed(alloc: Global, line: &[u8]) -> Result<Seen, Fail> {
    let file = File {
        name: b"s.a",
        bytes: Some(SECOND),
    };
    let disk = disk_with(alloc, &[], &[file])?;
    let mid = SECOND.len() - b"mid\n\x01E 2\ntwo %I%\n\x01E 1\n".len();
    let mut disk = FickleDisk::new(disk, name(b"s.a")?, mid as u64);
    answer_to(alloc, line, &PLAIN, &mut disk)
}

#[test]
fn a_file_changes_between_two_readings(rt: HostRuntime) -> Result<(), Fail> {
    let seen = seen_changed(rt.alloc(), b"get -k -p -s s.a")?;
    assert!(rt; seen.is(1, b"one\nnid\ntwo %I%\n", CHANGED));
    Ok(())
}

// whether prs refuses it: it reads the body again
fn prs_sees(alloc: Global, line: &[u8]) -> Result<bool, Fail> {
    let seen = seen_changed(alloc, line)?;
    Ok(seen.answer == Answer::Finished { status: 1 } && seen.err.bytes() == CHANGED)
}

#[test]
fn a_body_changes_before_it_is_printed(rt: HostRuntime) -> Result<(), Fail> {
    assert!(rt; prs_sees(rt.alloc(), b"prs -r1.2 -d:BD: s.a")?);
    assert!(rt; prs_sees(rt.alloc(), b"prs -r1.2 -d:GB: s.a")?);
    Ok(())
}

const LINES: usize = 8000;

const LINE: &[u8] = b"0123456\n";

// one delta of 8,000 lines
fn many_lines(alloc: Global) -> Result<Vec<u8>, Fail> {
    let mut rest = TWO_LINES[8..TWO_LINES.len() - b"one\ntwo %I%\n\x01E 1\n".len()].to_vec(alloc)?;
    for _ in 0..LINES {
        rest.extend_from_slice(LINE)?;
    }
    rest.extend_from_slice(b"\x01E 1\n")?;
    summed(alloc, sum_of(&rest), &rest)
}

// what get answers over a file of which one call fails
fn get_failing(alloc: Global, bytes: &[u8], call: u64) -> Result<Seen, Fail> {
    let file = File {
        name: b"s.a",
        bytes: Some(bytes),
    };
    let mut disk = disk_with(alloc, &[call], &[file])?;
    answer_to(alloc, b"get -k -p -s s.a", &PLAIN, &mut disk)
}

// whether bytes are a front of the text
fn is_front(bytes: &[u8]) -> bool {
    bytes
        .iter()
        .enumerate()
        .all(|(at, byte)| *byte == LINE[at % LINE.len()])
}

/// How much of the text a run gave.
#[derive(Clone, Copy, PartialEq, Eq)]
enum Extent {
    Whole,
    Part,
    Nothing,
    Wrong,
}

// how much of the text a run gave
fn extent_of(seen: &Seen) -> Extent {
    let length = seen.out.bytes().len();
    if !is_front(seen.out.bytes()) {
        return Extent::Wrong;
    }
    if length == LINES * LINE.len() {
        return Extent::Whole;
    }
    if 0 < length {
        Extent::Part
    } else {
        Extent::Nothing
    }
}

// whether each failing call is a fault, up to the first run without one, and some call left a part of the text
fn is_given_in_parts(alloc: Global, file: &[u8]) -> Result<bool, Fail> {
    let mut in_parts = false;
    for call in 1..1000 {
        let seen = get_failing(alloc, file, call)?;
        let extent = extent_of(&seen);
        if seen.answer == (Answer::Finished { status: 0 }) {
            return Ok(in_parts && extent == Extent::Whole);
        }
        if seen.answer != Answer::DiskFault || extent == Extent::Wrong {
            return Ok(false);
        }
        in_parts = in_parts || extent == Extent::Part;
    }
    Ok(false)
}

// text is given while the file is read: some failing call leaves a part of it
#[test]
fn a_text_is_given_while_its_file_is_read(rt: HostRuntime) -> Result<(), Fail> {
    let file = many_lines(rt.alloc())?;
    assert!(rt; is_given_in_parts(rt.alloc(), &file)?);
    Ok(())
}
