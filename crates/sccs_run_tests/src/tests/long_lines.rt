use crate::tests::rows::wrong_row;
use sccs_test_kit::samples::{BRANCHED, SECOND};
use sccs_test_kit::{sum_of, summed};
use std::alloc::Global;
use std::test::Fail;

// a line that no piece of a file holds whole
fn push_line(bytes: &mut Vec<u8>, byte: u8) -> Result<(), Fail> {
    for _ in 0..5000 {
        bytes.push(byte)?;
    }
    bytes.push(b'\n')?;
    Ok(())
}

// a file whose second delta inserted a long line behind another
fn long_file(alloc: Global) -> Result<Vec<u8>, Fail> {
    let mut bytes = SECOND[8..SECOND.len() - 36].to_vec(alloc)?;
    bytes.extend_from_slice(b"\x01I 1\n")?;
    push_line(&mut bytes, b'x')?;
    bytes.extend_from_slice(b"\x01I 2\n")?;
    push_line(&mut bytes, b'y')?;
    bytes.extend_from_slice(b"\x01E 2\nend\n\x01E 1\n")?;
    summed(alloc, sum_of(&bytes), &bytes)
}

// the text of its first delta, or of both
fn long_text(alloc: Global, is_second: bool) -> Result<Vec<u8>, Fail> {
    let mut text = Vec::new(alloc);
    push_line(&mut text, b'x')?;
    if is_second {
        push_line(&mut text, b'y')?;
    }
    text.extend_from_slice(b"end\n")?;
    Ok(text)
}

// whether a line of words gives one of these texts
fn prints(alloc: Global, line: &[u8], is_second: bool) -> Result<bool, Fail> {
    let file = long_file(alloc)?;
    let text = long_text(alloc, is_second)?;
    let row: (&[u8], u8, &[u8], &[u8]) = (line, 0, &text, b"");
    Ok(wrong_row(alloc, &file, BRANCHED, &[row])? == None)
}

#[test]
fn long_lines_are_shown_or_not(rt: HostRuntime) -> Result<(), Fail> {
    assert!(rt; prints(rt.alloc(), b"get -k -p -s -r1.1 s.a", false)?);
    assert!(rt; prints(rt.alloc(), b"get -k -p -s s.a", true)?);
    Ok(())
}
