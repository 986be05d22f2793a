use crate::tests::rows::{Row, wrong_row};
use sccs_test_kit::samples::{BRANCHED, RELEASES};
use std::test::Fail;

const NO_SID: &[u8] = b"ERROR [s.a]: no such SID (15)\n";

// which version an option `-r`, with or without `-t`, gets
const RETRIEVED: [Row<'static>; 21] = [
    (b"get -kps s.a", 0, b"3.2\n", b""),
    (b"get -kps -r4 s.a", 0, b"3.2\n", b""),
    (b"get -kps -r3 s.a", 0, b"3.2\n", b""),
    (b"get -kps -r2 s.a", 0, b"1.2\n", b""),
    (b"get -kps -r1 s.a", 0, b"1.2\n", b""),
    (b"get -kps -r3.2 s.a", 0, b"3.2\n", b""),
    (b"get -kps -r1.1 s.a", 0, b"1.1\n", b""),
    (b"get -kps -r1.2.1 s.a", 0, b"1.2.1.2\n", b""),
    (b"get -kps -r1.2.1.2 s.a", 0, b"1.2.1.2\n", b""),
    (b"get -kps -r1.2.1.1 s.a", 0, b"1.2.1.1\n", b""),
    (b"get -kps -t s.a", 0, b"3.2\n", b""),
    (b"get -kps -t -r1 s.a", 0, b"1.2.2.1\n", b""),
    (b"get -kps -t -r1.2 s.a", 0, b"1.2.2.1\n", b""),
    (b"get -kps -t -r3.1 s.a", 0, b"3.1\n", b""),
    (b"get -kps -t -r1.2.1 s.a", 0, b"1.2.1.2\n", b""),
    (b"get -kps -r1.3 s.a", 1, b"", NO_SID),
    (b"get -kps -r2.1 s.a", 1, b"", NO_SID),
    (b"get -kps -r1.1.1 s.a", 1, b"", NO_SID),
    (b"get -kps -r1.2.1.3 s.a", 1, b"", NO_SID),
    (b"get -kps -t -r2 s.a", 1, b"", NO_SID),
    (b"get -kps -t -r4 s.a", 1, b"", NO_SID),
];

#[test]
fn retrieved_versions(rt: HostRuntime) -> Result<(), Fail> {
    assert_eq!(rt;
        wrong_row(rt.alloc(), RELEASES, BRANCHED, &RETRIEVED)?,
        None
    );
    Ok(())
}
