use crate::tests::rows::silent;
use sccs_test_kit::samples::{BRANCHED, TWO_LINES};
use sccs_test_kit::{Answer, CASE, Case, File, Given, PLAIN, disk_with, first_wrong};
use std::alloc::Global;
use std::test::Fail;

// two s-files and a file beside them, made in no order
const FILES: [File<'static>; 3] = [
    File {
        name: b"s.b",
        bytes: Some(BRANCHED),
    },
    File {
        name: b"x",
        bytes: Some(b"text"),
    },
    File {
        name: b"s.a",
        bytes: Some(TWO_LINES),
    },
];

fn first_wrong_of(alloc: Global, cases: &[Case]) -> Result<Option<usize>, Fail> {
    let mut disk = disk_with(alloc, &[], &FILES)?;
    first_wrong(alloc, &mut disk, cases)
}

const HEADINGS: [Case<'static>; 4] = [
    Case {
        line: b"get -e -g .",
        out: b"\ns.a:\n1.1\nnew delta 1.2\n\ns.b:\n1.2\nnew delta 1.3\n",
        ..CASE
    },
    Case {
        line: b"sact -",
        input: b"s.b\nx\n\n.\ns.c",
        status: 1,
        out: b"\ns.b:\n1.2 1.3 ann 21/03/04 05:06:07\n",
        err: b"ERROR [s.c]: no such file (03)\n",
        ..CASE
    },
    Case {
        line: b"unget -",
        input: b"s.a\n",
        out: b"\ns.a:\n1.2\n",
        ..CASE
    },
    Case {
        line: b"unget -s .",
        status: 1,
        err: b"ERROR [s.a]: no edit is pending (13)\n",
        ..CASE
    },
];

const DOTS: [Case<'static>; 4] = [
    Case {
        line: b"get -kps .",
        out: b"one\ntwo %I%\na\nB\n",
        ..CASE
    },
    Case {
        line: b"get -kps -r1.2 . s.b",
        status: 1,
        out: b"a\nB\na\nB\n",
        err: b"ERROR [s.a]: no such SID (15)\n",
        ..CASE
    },
    Case {
        line: b"recover .",
        out: b"s.a: clean\ns.b: clean\n",
        ..CASE
    },
    // it stands for the files that are there when its turn comes
    Case {
        line: b"admin -n s.c .",
        status: 1,
        err: b"ERROR [s.a]: already exists (04)\nERROR [s.b]: already exists (04)\nERROR [s.c]: already exists (04)\n",
        ..CASE
    },
];

#[test]
fn a_dot_is_all_sfiles(rt: HostRuntime) -> Result<(), Fail> {
    assert_eq!(rt; first_wrong_of(rt.alloc(), &DOTS)?, None);
    Ok(())
}

#[test]
fn a_heading_stands_before_each_name(rt: HostRuntime) -> Result<(), Fail> {
    assert_eq!(rt; first_wrong_of(rt.alloc(), &HEADINGS)?, None);
    Ok(())
}

#[test]
fn names_may_fail(rt: HostRuntime) -> Result<(), Fail> {
    let alloc = rt.alloc();
    let cut = Given {
        input: b"s.a\n",
        failing_input: &[1],
        ..PLAIN
    };
    assert_eq!(rt;
        silent(alloc, b"get -kps .", &PLAIN, &[1], &FILES)?,
        Some(Answer::DiskFault)
    );
    assert_eq!(rt;
        silent(alloc, b"get -kps -", &cut, &[], &FILES)?,
        Some(Answer::ReadFault)
    );
    Ok(())
}
