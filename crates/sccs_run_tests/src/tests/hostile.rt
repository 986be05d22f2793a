use crate::tests::rows::{Row, wrong_row};
use sccs_test_kit::samples::{BRANCHED, TWO_LINES};
use sccs_test_kit::{sum_of, summed};
use std::alloc::Global;
use std::test::Fail;

// all lines of the branched file behind its sum line, that of one number changed to a text
fn changed(alloc: Global, number: u64, text: &[u8]) -> Result<Vec<u8>, Fail> {
    let mut bytes = Vec::new(alloc);
    let mut before = number.wrapping_sub(2);
    for line in BRANCHED[8..].split(|byte| *byte == b'\n') {
        if before == 0 {
            bytes.extend_from_slice(text)?;
        } else if !line.is_empty() {
            bytes.extend_from_slice(line)?;
            bytes.push(b'\n')?;
        }
        before = before.wrapping_sub(1);
    }
    Ok(bytes)
}

// whether get prints a file s.b so, in which val finds nothing
fn prints(alloc: Global, file: &[u8], out: &[u8]) -> Result<bool, Fail> {
    let rows: [Row; 2] = [
        (b"get -k -p -s s.b", 0, out, b""),
        (b"val s.b", 0, b"", b""),
    ];
    Ok(wrong_row(alloc, TWO_LINES, file, &rows)? == None)
}

// what val says of a file that get refuses so: it is no s-file that can be read, or it is damaged
fn judged(err: &[u8]) -> Row<'static> {
    if err.ends_with(b"(06)\n") || err.ends_with(b"(09)\n") {
        return (
            b"val s.b",
            16,
            b"s.b: cannot open file or file not SCCS\n",
            b"",
        );
    }
    (b"val s.b", 32, b"s.b: corrupted SCCS file\n", b"")
}

// whether get refuses a file s.b so, and val judges it as it should
fn refuses(alloc: Global, file: &[u8], err: &[u8]) -> Result<bool, Fail> {
    let rows: [Row; 2] = [(b"get -k -p -s s.b", 1, b"", err), judged(err)];
    Ok(wrong_row(alloc, TWO_LINES, file, &rows)? == None)
}

// one line is changed, and the sum line made right
fn refuses_changed(alloc: Global, number: u64, text: &[u8], err: &[u8]) -> Result<bool, Fail> {
    let bytes = changed(alloc, number, text)?;
    let file = summed(alloc, sum_of(&bytes), &bytes)?;
    refuses(alloc, &file, err)
}

const CHANGED: [(u64, &[u8], &[u8]); 9] = [
    (
        7,
        b"\x01d D 1.2 75/03/01 00:00:00 ann 2 2\n",
        b"ERROR [s.b]: format error at line 7 (08)\n",
    ),
    (
        11,
        b"\x01d D 1.1 75/02/29 23:59:59 ann 1 0\n",
        b"ERROR [s.b]: format error at line 11 (08)\n",
    ),
    (17, b"", b"ERROR [s.b]: format error at line 17 (08)\n"),
    (
        18,
        b"\x01f e 0\n\x01f e 0\n",
        b"ERROR [s.b]: format error at line 19 (08)\n",
    ),
    (18, b"\x01f e 1\n", b"ERROR [s.b]: encoded body (09)\n"),
    (21, b"", b"ERROR [s.b]: format error at line 21 (08)\n"),
    (
        29,
        b"\x01I 4\n",
        b"ERROR [s.b]: format error at line 29 (08)\n",
    ),
    (
        31,
        b"\x01E 2\n",
        b"ERROR [s.b]: format error at line 31 (08)\n",
    ),
    (
        32,
        b"\x01E 1",
        b"ERROR [s.b]: format error at line 32 (08)\n",
    ),
];

#[test]
fn changed_lines_are_refused(rt: HostRuntime) -> Result<(), Fail> {
    for (number, text, err) in CHANGED {
        assert!(rt; refuses_changed(rt.alloc(), number, text, err)?);
    }
    Ok(())
}

// a line of one byte past 127
fn wide(alloc: Global, sum: u16) -> Result<Vec<u8>, Fail> {
    let bytes = changed(alloc, 22, b"\xc8\n")?;
    summed(alloc, sum, &bytes)
}

// either sum is taken
#[test]
fn either_sum_is_accepted(rt: HostRuntime) -> Result<(), Fail> {
    for sum in [13106, 12850] {
        let file = wide(rt.alloc(), sum)?;
        assert!(rt; prints(rt.alloc(), &file, b"\xc8\nB\n")?);
    }
    let file = wide(rt.alloc(), 13107)?;
    let err = b"ERROR [s.b]: bad sum: stored 13107, computed 13106 (07)\n";
    assert!(rt; refuses(rt.alloc(), &file, err)?);
    Ok(())
}

// files that lack their first line, their last, or all
#[test]
fn short_files_are_refused(rt: HostRuntime) -> Result<(), Fail> {
    let cut = &BRANCHED[..BRANCHED.len() - 5];
    let summed = summed(rt.alloc(), 12842, &cut[8..])?;
    let rows: [(&[u8], &[u8]); 5] = [
        (b"\n", b"ERROR [s.b]: not an SCCS file (06)\n"),
        (b"\x01h13003", b"ERROR [s.b]: not an SCCS file (06)\n"),
        (b"", b"ERROR [s.b]: not an SCCS file (06)\n"),
        (
            cut,
            b"ERROR [s.b]: bad sum: stored 13003, computed 12842 (07)\n",
        ),
        (&summed, b"ERROR [s.b]: format error at line 32 (08)\n"),
    ];
    for (file, err) in rows {
        assert!(rt; refuses(rt.alloc(), file, err)?);
    }
    Ok(())
}
