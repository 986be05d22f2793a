use crate::tests::samples::{ADDED, Files, disk_of, holds};
use sccs_test_kit::samples::BRANCHED;
use sccs_test_kit::{CASE, Case, first_wrong};
use std::test::Fail;

// an edit with a list, whose delta leaves no keyword
const LISTED: [Case<'static>; 3] = [
    Case {
        line: b"get -e -g -s -r1.2 -i1.1.1.1 s.a",
        time: b"05:11:00",
        ..CASE
    },
    Case {
        line: b"delta s.a",
        time: b"05:12:00",
        input: b"2,3c\nD\n.\n0a\nfirst\n.\n",
        out: b"1.3\n2 inserted\n2 deleted\n1 unchanged\n",
        err: b"WARNING [s.a]: no id keywords\n",
        ..CASE
    },
    Case {
        line: b"get -k -p -s s.a",
        time: b"05:12:00",
        out: b"first\na\nD\n",
        ..CASE
    },
];

#[test]
fn lists_are_taken_over(rt: HostRuntime) -> Result<(), Fail> {
    let files = Files {
        s_file: BRANCHED,
        ..ADDED
    };
    let texts: [&[u8]; 1] = [b"\n\x01d D 1.3 21/03/04 05:12:00 ann 4 2\n\x01i 3\n\x01c \n\x01e\n"];
    let mut disk = disk_of(rt.alloc(), &files)?;
    let wrong = first_wrong(rt.alloc(), &mut disk, &LISTED)?;
    assert!(rt; wrong == None && holds(&disk, &texts)?);
    Ok(())
}
