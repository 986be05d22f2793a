use crate::cases::Case;
use crate::runs::{Given, PLAIN, answer_to};
use sccs_disk::Disk;
use std::alloc::Global;
use std::test::Fail;

// how many words a line has, which blanks part
fn count_words(line: &[u8]) -> usize {
    line.split(|byte| *byte == b' ')
        .filter(|word| !word.is_empty())
        .count()
}

// the first line of the entry that a case is
fn put_head(alloc: Global, batch: &mut Vec<u8>, case: &Case) -> Result<(), Fail> {
    let words = count_words(case.line);
    let lines = count_lines(case.input);
    let counts = format!(in alloc; " {words} {lines}\n")?;
    batch.extend_from_slice(b"@ 21/03/04 ")?;
    batch.extend_from_slice(case.time)?;
    batch.push(b' ')?;
    batch.extend_from_slice(case.login)?;
    batch.extend_from_slice(counts.as_bytes())?;
    Ok(())
}

// the words of the entry that a case is, a line each
fn put_words(batch: &mut Vec<u8>, line: &[u8]) -> Result<(), Fail> {
    for word in line.split(|byte| *byte == b' ') {
        if !word.is_empty() {
            batch.extend_from_slice(word)?;
            batch.push(b'\n')?;
        }
    }
    Ok(())
}

// the lines of an input, of which an entry has each with its LF
fn put_input(batch: &mut Vec<u8>, input: &[u8]) -> Result<(), Fail> {
    batch.extend_from_slice(input)?;
    if !input.is_empty() && !input.ends_with(b"\n") {
        batch.push(b'\n')?;
    }
    Ok(())
}

// how many lines an input has
fn count_lines(input: &[u8]) -> usize {
    let ends = input.iter().filter(|byte| **byte == b'\n').count();
    if input.is_empty() || input.ends_with(b"\n") {
        ends
    } else {
        ends.saturating_add(1)
    }
}

// the batch whose entries cases are
fn batch_of(alloc: Global, cases: &[Case]) -> Result<Vec<u8>, Fail> {
    let mut batch = Vec::new(alloc);
    for case in cases.iter().filter(|case| !case.line.is_empty()) {
        put_head(alloc, &mut batch, case)?;
        put_words(&mut batch, case.line)?;
        put_input(&mut batch, case.input)?;
    }
    Ok(batch)
}

// what a batch of cases gives to out: what each gives, and its status
fn out_of(alloc: Global, cases: &[Case]) -> Result<Vec<u8>, Fail> {
    let mut out = Vec::new(alloc);
    for case in cases.iter().filter(|case| !case.line.is_empty()) {
        let status = format!(in alloc; "= {}\n", case.status)?;
        out.extend_from_slice(case.out)?;
        out.extend_from_slice(status.as_bytes())?;
    }
    Ok(out)
}

// what it gives to err
fn err_of(alloc: Global, cases: &[Case]) -> Result<Vec<u8>, Fail> {
    let mut err = Vec::new(alloc);
    for case in cases.iter().filter(|case| !case.line.is_empty()) {
        err.extend_from_slice(case.err)?;
    }
    Ok(err)
}

/// Whether cases with words end as the entries of one batch as they do one by one, over a disk as it stands before
/// them.
pub fn ends_as_batch<D: Disk>(alloc: Global, disk: &mut D, cases: &[Case]) -> Result<bool, Fail> {
    let batch = batch_of(alloc, cases)?;
    let given = Given {
        input: &batch,
        ..PLAIN
    };
    let seen = answer_to(alloc, b"batch", &given, disk)?;
    let (out, err) = (out_of(alloc, cases)?, err_of(alloc, cases)?);
    Ok(seen.is(0, &out, &err))
}
