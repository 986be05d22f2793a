use crate::tests::rows::{Row, silent, wrong_row};
use sccs_test_kit::samples::{BRANCHED, SECOND, TWO_LINES};
use sccs_test_kit::{Answer, File, Given, PLAIN};
use std::test::Fail;

const ONE_FILE: [File<'static>; 1] = [File {
    name: b"s.a",
    bytes: Some(SECOND),
}];

#[test]
fn faults_have_causes(rt: HostRuntime) -> Result<(), Fail> {
    let alloc = rt.alloc();
    let cut = Given {
        failing_out: &[1],
        ..PLAIN
    };
    let deaf = Given {
        failing_err: &[1],
        ..PLAIN
    };
    let line = b"get -k -p -s s.a";
    assert_eq!(rt;
        silent(alloc, line, &cut, &[], &ONE_FILE)?,
        Some(Answer::WriteFault)
    );
    assert_eq!(rt;
        silent(alloc, line, &PLAIN, &[1], &ONE_FILE)?,
        Some(Answer::DiskFault)
    );
    let line = b"get -k -p -s s.c s.a";
    assert_eq!(rt;
        silent(alloc, line, &deaf, &[], &ONE_FILE)?,
        Some(Answer::WriteFault)
    );
    Ok(())
}

const IN_ORDER: [Row<'static>; 5] = [
    (b"get -kps s.c", 1, b"", b"ERROR [s.c]: no such file (03)\n"),
    (b"get -kps s.a s.b", 0, b"one\ntwo %I%\na\nB\n", b""),
    (
        b"get -kps -r1.1.1.1 s.b s.a s.b",
        1,
        b"a\nb\nc\na\nb\nc\n",
        b"ERROR [s.a]: no such SID (15)\n",
    ),
    (
        b"get -kps x s.a . s.c s.a",
        1,
        b"one\ntwo %I%\none\ntwo %I%\na\nB\none\ntwo %I%\n",
        b"ERROR [x]: not a name of an s-file (01)\nERROR [s.c]: no such file (03)\n",
    ),
    (
        b"get -kps d/s.a s.b",
        1,
        b"a\nB\n",
        b"ERROR [d/s.a]: not a name of an s-file (01)\n",
    ),
];

#[test]
fn operands_come_in_order(rt: HostRuntime) -> Result<(), Fail> {
    assert_eq!(rt;
        wrong_row(rt.alloc(), TWO_LINES, BRANCHED, &IN_ORDER)?,
        None
    );
    Ok(())
}

const MARKED: &[u8] = b"x@(#)one\"y@(#)two\n@(#";

const MARKS: [Row<'static>; 9] = [
    (b"what s.b", 0, b"s.b:\n\tone\n\ttwo\n", b""),
    (b"what -s s.b", 0, b"s.b:\n\tone\n", b""),
    (b"what s.a", 1, b"s.a:\n", b""),
    (
        b"what s.a s.b s.a",
        0,
        b"s.a:\ns.b:\n\tone\n\ttwo\ns.a:\n",
        b"",
    ),
    (
        b"what x s.a",
        1,
        b"s.a:\n",
        b"ERROR [x]: no such file (03)\n",
    ),
    (
        b"what s.b x",
        0,
        b"s.b:\n\tone\n\ttwo\n",
        b"ERROR [x]: no such file (03)\n",
    ),
    (
        b"what d/x",
        1,
        b"",
        b"ERROR [d/x]: not a name of an s-file (01)\n",
    ),
    (b"what .", 0, b"s.a:\ns.b:\n\tone\n\ttwo\n", b""),
    (
        b"what x -",
        2,
        b"",
        b"USAGE: options exclude each other (word 3)\n",
    ),
];

#[test]
fn what_finds_marks_in_any_of_its_files(rt: HostRuntime) -> Result<(), Fail> {
    assert_eq!(rt; wrong_row(rt.alloc(), TWO_LINES, MARKED, &MARKS)?, None);
    Ok(())
}

const PRINTED: [Row<'static>; 4] = [
    (b"prs -d:I: s.b s.a", 0, b"1.1.1.1\n1.1\n", b""),
    (
        b"prs -e -r1.2 -d:I:\\t:P: x .",
        1,
        b"1.2\tann\n1.1\tann\n",
        b"ERROR [x]: not a name of an s-file (01)\nERROR [s.a]: no such SID (15)\n",
    ),
    (
        b"prs s.a",
        0,
        b"s.a:\n\nD 1.1 21/03/04 05:06:07 ann 1 0\t00002/00000/00000\nMRs:\nCOMMENTS:\n\
            date and time created 21/03/04 05:06:07 by ann\n\n",
        b"",
    ),
    (b"prs s.c", 1, b"", b"ERROR [s.c]: no such file (03)\n"),
];

#[test]
fn prs_prints_deltas_of_each_operand(rt: HostRuntime) -> Result<(), Fail> {
    assert_eq!(rt; wrong_row(rt.alloc(), TWO_LINES, BRANCHED, &PRINTED)?, None);
    Ok(())
}

const REFUSED: [Row<'static>; 2] = [
    (
        b"rmdel -r1.1 x s.a -",
        2,
        b"",
        b"USAGE: options exclude each other (word 5)\n",
    ),
    (
        b"rmdel -r1.1 x s.a .",
        1,
        b"",
        b"ERROR [x]: not a name of an s-file (01)\nERROR [s.a]: not the newest delta of its branch (31)\n\
            ERROR [s.a]: not the newest delta of its branch (31)\n\
            ERROR [s.b]: not the newest delta of its branch (31)\n",
    ),
];

#[test]
fn refused_removals_keep_no_operand_back(rt: HostRuntime) -> Result<(), Fail> {
    assert_eq!(rt; wrong_row(rt.alloc(), TWO_LINES, BRANCHED, &REFUSED)?, None);
    Ok(())
}
