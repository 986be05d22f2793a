use crate::tests::rows::{Row, wrong_row};
use sccs_test_kit::samples::{BRANCHED, DEFAULT, EMPTY, LISTED, SECOND, TWO_LINES};
use std::test::Fail;

const BRANCHES: [Row<'static>; 10] = [
    (b"get -k -p -s s.b", 0, b"a\nB\n", b""),
    (b"get -k -p -s -r1.1 s.b", 0, b"a\nb\n", b""),
    (b"get -k -p -s -r1.2 s.b", 0, b"a\nB\n", b""),
    (b"get -k -p -s -r1.1.1.1 s.b", 0, b"a\nb\nc\n", b""),
    (b"get -k -p -s -t s.b", 0, b"a\nb\nc\n", b""),
    (b"get -k -p -s -r1.2 -i1.1.1.1 s.b", 0, b"a\nB\nc\n", b""),
    (b"get -k -p -s -r1.2 -x1.2 s.b", 0, b"a\nb\n", b""),
    (b"get -k -p -s -r1.2 -c7502 s.b", 0, b"a\nb\n", b""),
    (
        b"get -k -p -s -r9.9 s.b",
        1,
        b"",
        b"ERROR [s.b]: no such SID (15)\n",
    ),
    (
        b"get -k -p -s -i1.2 -x1.2 s.b",
        1,
        b"",
        b"ERROR [s.b]: bad list at 1.2 (16)\n",
    ),
];

const SMALL: [(&[u8], Row<'static>); 9] = [
    (EMPTY, (b"get -k -p -s s.a", 0, b"", b"")),
    (TWO_LINES, (b"get -spk s.a", 0, b"one\ntwo %I%\n", b"")),
    (
        SECOND,
        (b"get -k -p -s s.a", 0, b"one\nmid\ntwo %I%\n", b""),
    ),
    (SECOND, (b"get -kps -r1.1 s.a", 0, b"one\ntwo %I%\n", b"")),
    (DEFAULT, (b"get -kps s.a", 0, b"one\ntwo %I%\n", b"")),
    (
        DEFAULT,
        (b"get -kps -r1.2 s.a", 0, b"one\nmid\ntwo %I%\n", b""),
    ),
    (LISTED, (b"get -kps s.a", 0, b"1.1\n1.2\n1.3\n", b"")),
    (
        LISTED,
        (b"get -kps -r1.2.1.1 s.a", 0, b"1.1\n1.2.1.1\n", b""),
    ),
    (
        LISTED,
        (b"get -kps -i1.2.1.1 s.a", 0, b"1.1\n1.2.1.1\n1.3\n", b""),
    ),
];

#[test]
fn small_files(rt: HostRuntime) -> Result<(), Fail> {
    for (file, row) in SMALL {
        assert!(rt; wrong_row(rt.alloc(), file, BRANCHED, &[row])? == None);
    }
    Ok(())
}

#[test]
fn branched_versions(rt: HostRuntime) -> Result<(), Fail> {
    assert_eq!(rt;
        wrong_row(rt.alloc(), TWO_LINES, BRANCHED, &BRANCHES)?,
        None
    );
    Ok(())
}
