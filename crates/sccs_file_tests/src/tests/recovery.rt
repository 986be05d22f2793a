use sccs_base::Name;
use sccs_disk::{Fill, MemoryDisk};
use sccs_recovery::*;
use std::alloc::Global;
use std::test::Fail;

// the deltas 1.1 and 1.2
const S_FILE: &[u8] =
    b"\x01h12386\n\x01s 00001/00000/00002\n\x01d D 1.2 21/03/04 05:08:00 ann 2 1\n\x01c second\n\x01e\n\
        \x01s 00002/00000/00000\n\x01d D 1.1 21/03/04 05:06:07 ann 1 0\n\
        \x01c date and time created 21/03/04 05:06:07 by ann\n\x01e\n\x01u\n\x01U\n\x01t\n\x01T\n\x01I 1\none\n\
        \x01I 2\nmid\n\x01E 2\ntwo %I%\n\x01E 1\n";

// an entry whose delta is made, and one whose isn't
const P_FILE: &[u8] = b"1.1 1.2 ann 21/03/04 05:07:30\n1.1 1.1.1.1 bob 21/03/04 05:07:40\n";

const LEFT: &[u8] = b"1.1 1.1.1.1 bob 21/03/04 05:07:40\n";

fn name(letter: u8) -> Result<Name, Fail> {
    Ok(Name::read(&[letter, b'.', b'a']).ok_or("a name")?)
}

// a name on which a delta was stopped behind the change of its s-file
fn stopped(alloc: Global) -> Result<MemoryDisk, Fail> {
    let mut disk = MemoryDisk::new(alloc, 100, &[])?;
    disk.put(&name(b's')?, S_FILE, true)?;
    disk.put(&name(b'p')?, P_FILE, true)?;
    disk.put(&name(b'q')?, b"half", true)?;
    disk.put(&name(b'x')?, b"", true)?;
    disk.put(&name(b'z')?, b"", true)?;
    Ok(disk)
}

// how a name ends that is recovered: 1 where a step was stopped on it, 2 where none was, 0 else
fn recovered(alloc: Global, disk: &mut MemoryDisk) -> u8 {
    let Some(s_file) = Name::read_sfile(b"s.a") else {
        return 0;
    };
    match recover(alloc, disk, &s_file) {
        Ok(Recovered::Recovered) => 1,
        Ok(Recovered::Clean) => 2,
        Err(_) => 0,
    }
}

// whether the delta is finished
fn is_finished(disk: &MemoryDisk) -> Result<bool, Fail> {
    let (s, p) = (name(b's')?, name(b'p')?);
    let (q, x, z) = (name(b'q')?, name(b'x')?, name(b'z')?);
    Ok(
        disk.bytes(&s) == Some(S_FILE)
            && disk.bytes(&p) == Some(LEFT)
            && !(disk.has(&q) || disk.has(&x) || disk.has(&z)),
    )
}

#[test]
fn a_stopped_delta_is_finished(rt: HostRuntime) -> Result<(), Fail> {
    let alloc = rt.alloc();
    let mut disk = stopped(alloc)?;
    assert_eq!(rt; recovered(alloc, &mut disk), 1);
    assert!(rt; is_finished(&disk)?);
    assert_eq!(rt; recovered(alloc, &mut disk), 2, "once more");
    assert!(rt; is_finished(&disk)?);
    Ok(())
}

// stopped after each of its calls, with no, some and all name operations made, and files that weren't
// synced left empty, as they were written, or as junk
#[test]
fn recovery_may_be_stopped_and_run_again(rt: HostRuntime) -> Result<(), Fail> {
    let alloc = rt.alloc();
    let mut disk = stopped(alloc)?;
    assert_eq!(rt; recovered(alloc, &mut disk), 1);
    for calls in 0..32 {
        for names in 0..6 {
            for fill in [Fill::Empty, Fill::Written, Fill::Junk(b'?')] {
                let mut left = disk.crash(alloc, calls, names, fill)?;
                assert!(rt;
                    recovered(alloc, &mut left) > 0,
                    "after {calls} calls, {names} names"
                );
                assert!(rt; is_finished(&left)?, "after {calls} calls, {names} names");
            }
        }
    }
    Ok(())
}
