use std::alloc::Global;
use std::test::Fail;

/// The plain sum.
pub fn sum_of(bytes: &[u8]) -> u16 {
    let mut sum: u16 = 0;
    for byte in bytes {
        sum = sum.wrapping_add(u16::from(*byte));
    }
    sum
}

/// A file with that sum line.
pub fn summed(alloc: Global, sum: u16, bytes: &[u8]) -> Result<Vec<u8>, Fail> {
    let line = format!(in alloc; "\x01h{sum:05}\n")?;
    let mut file = line.as_bytes().to_vec(alloc)?;
    file.extend_from_slice(bytes)?;
    Ok(file)
}

/// A file with these flags in place of none.
pub fn flagged(alloc: Global, file: &[u8], flags: &[u8]) -> Result<Vec<u8>, Fail> {
    let mut rest = Vec::new(alloc);
    let mut is_first = true;
    for line in file.split(|byte| *byte == b'\n') {
        if !is_first && !line.is_empty() {
            if line == b"\x01t".as_slice() {
                rest.extend_from_slice(flags)?;
            }
            rest.extend_from_slice(line)?;
            rest.push(b'\n')?;
        }
        is_first = false;
    }
    summed(alloc, sum_of(&rest), &rest)
}
