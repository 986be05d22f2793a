use sccs_base::SteadySource;
use sccs_disk::SteadyDisk;
use sccs_test_kit::samples::{SECOND, TWO_LINES};
use sccs_test_kit::{CASE, Case, PLAIN, answer_over, disk_with, ends, has_file, name};
use std::alloc::Global;
use std::test::Fail;

// what a get prints over a disk that never fails, with an input without a byte
fn prints(alloc: Global, text: &[u8]) -> Result<bool, Fail> {
    let mut disk = SteadyDisk::new(alloc);
    disk.put(&name(b"s.a")?, SECOND, false)?;
    let mut input = SteadySource::new(alloc, b"")?;
    let seen = answer_over(alloc, b"get -k -p -s s.a", &PLAIN, &mut input, &mut disk)?;
    Ok(seen.is(0, text, b""))
}

#[test]
fn a_version_is_got_over_a_steady_disk(rt: HostRuntime) -> Result<(), Fail> {
    assert!(rt; prints(rt.alloc(), b"one\nmid\ntwo %I%\n")?);
    Ok(())
}

// whether a file is stored whose name is that of another one's working file
fn stores(alloc: Global) -> Result<bool, Fail> {
    let mut disk = disk_with(alloc, &[], &[])?;
    let made = Case {
        line: b"admin -i s.x.c",
        input: b"one\ntwo %I%",
        ..CASE
    };
    let is_made = ends(alloc, &mut disk, &made)?;
    let is_there = has_file(&disk, b"s.x.c", Some(TWO_LINES))?;
    Ok(is_made && is_there)
}

#[test]
fn a_name_like_that_of_a_working_file_is_stored(rt: HostRuntime) -> Result<(), Fail> {
    assert!(rt; stores(rt.alloc())?);
    Ok(())
}
