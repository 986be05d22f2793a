use crate::tests::rows::{Row, wrong_row};
use sccs_test_kit::samples::{BRANCHED, TWO_LINES};
use std::test::Fail;

const FAULTS: [Row<'static>; 10] = [
    (b"get -q s.a", 2, b"", b"USAGE: unknown option (word 2)\n"),
    (b"get", 2, b"", b"USAGE: no operand (word 2)\n"),
    (
        b"get -e -c75 s.a",
        2,
        b"",
        b"USAGE: options exclude each other (word 3)\n",
    ),
    (
        b"get -r1.2. s.a",
        2,
        b"",
        b"USAGE: malformed value (word 2)\n",
    ),
    (b"rmdel s.a", 2, b"", b"USAGE: option needed (word 3)\n"),
    (b"vc", 2, b"", b"USAGE: unknown utility (word 1)\n"),
    (b"", 2, b"", b"USAGE: unknown utility (word 1)\n"),
    (
        b"get -k -k s.a",
        2,
        b"",
        b"USAGE: option given twice (word 3)\n",
    ),
    (
        b"delta s.a s.b",
        2,
        b"",
        b"USAGE: too many operands (word 4)\n",
    ),
    (b"get -c", 2, b"", b"USAGE: missing argument (word 2)\n"),
];

#[test]
fn usage_faults_name_their_word(rt: HostRuntime) -> Result<(), Fail> {
    assert_eq!(rt; wrong_row(rt.alloc(), TWO_LINES, BRANCHED, &FAULTS)?, None);
    Ok(())
}
