use crate::tests::rows::{Row, wrong_row};
use sccs_disk::MemoryDisk;
use sccs_test_kit::samples::{BRANCHED, TWO_LINES};
use sccs_test_kit::{Answer, CASE, Case, File, Given, PLAIN, answer_to, disk_with, ends};
use std::alloc::Global;
use std::test::Fail;

// what val says of whole files, of one that isn't there, and of its own words
const JUDGED: [Row<'static>; 8] = [
    (b"val s.b", 0, b"", b""),
    (
        b"val -r1 s.b",
        8,
        b"s.b: SID is invalid or ambiguous\n",
        b"",
    ),
    (
        b"val -r9.9 -mx s.b",
        5,
        b"s.b: SID does not exist\ns.b: %M%, -m mismatch\n",
        b"",
    ),
    (b"val -s -r9.9 -mx s.b", 5, b"", b""),
    (
        b"val s.zz",
        16,
        b"s.zz: cannot open file or file not SCCS\n",
        b"",
    ),
    (
        b"val s.b d/s.b -r9.9",
        16,
        b"d/s.b: cannot open file or file not SCCS\n-r9.9: cannot open file or file not SCCS\n",
        b"",
    ),
    (b"val", 128, b"val: missing file argument\n", b""),
    (
        b"val -z -r1.1 -r1.1 s.b",
        64,
        b"val: unknown or duplicate option\n",
        b"",
    ),
];

#[test]
fn files_are_judged(rt: HostRuntime) -> Result<(), Fail> {
    assert!(rt; wrong_row(rt.alloc(), TWO_LINES, BRANCHED, &JUDGED)? == None);
    Ok(())
}

// the bits of all operands, and of all lines
#[test]
fn bits_are_joined(rt: HostRuntime) -> Result<(), Fail> {
    let rows: [Row; 1] = [(
        b"val -r1.2 s.b s.a s.zz",
        20,
        b"s.a: SID does not exist\ns.zz: cannot open file or file not SCCS\n",
        b"",
    )];
    assert!(rt; wrong_row(rt.alloc(), TWO_LINES, BRANCHED, &rows)? == None);
    Ok(())
}

// a disk with the file s.b
fn one_file(alloc: Global) -> Result<MemoryDisk, Fail> {
    let file = File {
        name: b"s.b",
        bytes: Some(BRANCHED),
    };
    disk_with(alloc, &[], &[file])
}

// each line of the input is a command line of val; `-` in it is a name
#[test]
fn lines_are_judged(rt: HostRuntime) -> Result<(), Fail> {
    let mut disk = one_file(rt.alloc())?;
    let lines = Case {
        line: b"val -",
        input: b"s.b\n -r1 s.b \n-s -r9.9 s.b\n-\n\n-y",
        status: 0xdc,
        out: b" -r1 s.b :\ns.b: SID is invalid or ambiguous\n-:\n-: cannot open file or file not SCCS\n:\n\
            val: missing file argument\n-y:\nval: missing file argument\nval: unknown or duplicate option\n",
        ..CASE
    };
    assert!(rt; ends(rt.alloc(), &mut disk, &lines)?);
    Ok(())
}

// what a line answers whose input, output or disk fails at its first call
fn faulty(alloc: Global, line: &[u8], given: &Given, failing_disk: &[u64]) -> Result<Answer, Fail> {
    let file = File {
        name: b"s.b",
        bytes: Some(BRANCHED),
    };
    let mut disk = disk_with(alloc, failing_disk, &[file])?;
    Ok(answer_to(alloc, line, given, &mut disk)?.answer)
}

#[test]
fn faults_are_those_of_their_objects(rt: HostRuntime) -> Result<(), Fail> {
    let input = Given {
        failing_input: &[1],
        ..PLAIN
    };
    let out = Given {
        failing_out: &[1],
        ..PLAIN
    };
    assert!(rt; faulty(rt.alloc(), b"val -", &input, &[])? == Answer::ReadFault);
    assert!(rt; faulty(rt.alloc(), b"val s.b", &input, &[])? == Answer::Finished { status: 0 });
    assert!(rt; faulty(rt.alloc(), b"val s.zz", &out, &[])? == Answer::WriteFault);
    assert!(rt; faulty(rt.alloc(), b"val s.b", &PLAIN, &[1])? == Answer::DiskFault);
    Ok(())
}
