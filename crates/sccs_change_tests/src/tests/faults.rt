use sccs_test_kit::samples::EMPTY;
use sccs_test_kit::{Answer, Given, PLAIN, Seen, answer_to, disk_with, has_file};
use std::alloc::Global;
use std::test::Fail;

// two new files
const TWO_FILES: Given<'static> = Given {
    input: b"@ 21/03/04 05:06:07 ann 3 0\nadmin\n-n\ns.a\n@ 21/03/04 05:06:07 ann 3 0\nadmin\n-n\ns.b\n",
    ..PLAIN
};

// what a batch answers, and whether it left s.a and s.b
fn made(alloc: Global, given: &Given, failing: &[u64]) -> Result<(Seen, bool, bool), Fail> {
    let mut disk = disk_with(alloc, failing, &[])?;
    let seen = answer_to(alloc, b"batch", given, &mut disk)?;
    let first = has_file(&disk, b"s.a", Some(EMPTY))?;
    let second = has_file(&disk, b"s.b", Some(EMPTY))?;
    Ok((seen, first, second))
}

// whether the input's fault ends a batch before its first entry
fn input_fails(alloc: Global) -> Result<bool, Fail> {
    let given = Given {
        failing_input: &[1],
        ..TWO_FILES
    };
    let (seen, first, second) = made(alloc, &given, &[])?;
    Ok(seen.answer == Answer::ReadFault && !(first || second))
}

// whether a status that can't be written ends it behind the first entry
fn output_fails(alloc: Global) -> Result<bool, Fail> {
    let given = Given {
        failing_out: &[1],
        ..TWO_FILES
    };
    let (seen, first, second) = made(alloc, &given, &[])?;
    Ok(seen.answer == Answer::WriteFault && (first && !second))
}

// whether a disk that fails at once ends it before its first status
fn disk_fails(alloc: Global) -> Result<bool, Fail> {
    let (seen, first, second) = made(alloc, &TWO_FILES, &[1])?;
    Ok(seen.answer == Answer::DiskFault && (seen.out.bytes().is_empty() && !(first || second)))
}

#[test]
fn faults_end_a_batch(rt: HostRuntime) -> Result<(), Fail> {
    assert!(rt; input_fails(rt.alloc())?);
    assert!(rt; output_fails(rt.alloc())?);
    assert!(rt; disk_fails(rt.alloc())?);
    Ok(())
}
