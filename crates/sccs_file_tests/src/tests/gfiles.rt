use crate::tests::samples::name;
use sccs_base::Name;
use sccs_disk::{Disk, Fill, MemoryDisk};
use sccs_store::*;
use std::alloc::Global;
use std::test::Fail;

const OLD: &[u8] = b"old\n";

const NEW: &[u8] = b"new line\n";

const S_FILE: &[u8] = b"the s-file\n";

const P_FILE: &[u8] = b"the p-file\n";

// a disk with an s-file and a p-file, and with a g-file where its bytes are given
fn folder(alloc: Global, g_file: Option<&[u8]>, failing: &[u64]) -> Result<MemoryDisk, Fail> {
    let mut disk = MemoryDisk::new(alloc, 60, failing)?;
    disk.put(&name(b"s.a")?, S_FILE, false)?;
    disk.put(&name(b"p.a")?, P_FILE, true)?;
    if let Some(bytes) = g_file {
        disk.put(&name(b"a")?, bytes, false)?;
    }
    Ok(disk)
}

// makes the y-file of `s.a`: 7 calls, one less where it stays writable
#[tactic(auto, using(sccs_disk::proofs::Sized::sized_there))]
fn make_y<D: Disk>(disk: &mut D, mode: Mode) -> bool {
    let Some(name) = Name::read_sfile(b"s.a") else {
        return false;
    };
    let y_name = name.sibling(b'y');
    if start(disk, &name, b'y').is_err() {
        return false;
    }
    let Ok(Some(_)) = disk.size(&y_name) else {
        return false;
    };
    if disk.append(&y_name, NEW).is_err() {
        return false;
    }
    let Ok(Some(_)) = disk.size(&y_name) else {
        return false;
    };
    finish_y(disk, &name, mode).is_ok()
}

// puts the y-file of `s.a` over its g-file: 3 calls
#[tactic(auto, using(sccs_disk::proofs::Sized::sized_there))]
fn put_over<D: Disk>(disk: &mut D) -> bool {
    let Some(name) = Name::read_sfile(b"s.a") else {
        return false;
    };
    let Ok(Some(_)) = disk.size(&name.sibling(b'y')) else {
        return false;
    };
    place_g(disk, &name).is_ok()
}

fn make_g<D: Disk>(disk: &mut D, mode: Mode) -> bool {
    make_y(disk, mode) && put_over(disk)
}

// whether the g-file of `s.a` may be written; None where the disk failed
fn may_write<D: Disk>(disk: &mut D) -> Option<bool> {
    let name = Name::read_sfile(b"s.a")?;
    is_writable_g(disk, &name).ok()
}

// whether s-file and p-file are as they were
fn keeps_files(disk: &MemoryDisk) -> Result<bool, Fail> {
    let (s_name, p_name) = (name(b"s.a")?, name(b"p.a")?);
    Ok(disk.bytes(&s_name) == Some(S_FILE) && disk.bytes(&p_name) == Some(P_FILE))
}

// whether the new g-file is there, with its mark, and no y-file
fn is_new(disk: &mut MemoryDisk, mode: Mode) -> Result<bool, Fail> {
    let (g_name, y_name) = (name(b"a")?, name(b"y.a")?);
    Ok(
        disk.bytes(&g_name) == Some(NEW)
            && !disk.has(&y_name)
            && disk.writable(&g_name) == Ok(Some(mode == Mode::Writable)),
    )
}

// whether the g-file is the old one, or isn't there where it wasn't
fn is_old(disk: &MemoryDisk, g_file: Option<&[u8]>) -> Result<bool, Fail> {
    let g_name = name(b"a")?;
    Ok(disk.bytes(&g_name) == g_file)
}

#[test]
fn a_g_file_is_made(rt: HostRuntime) -> Result<(), Fail> {
    let alloc = rt.alloc();
    for g_file in [None, Some(OLD)] {
        for mode in [Mode::Writable, Mode::Protected] {
            let mut disk = folder(alloc, g_file, &[])?;
            assert!(rt; make_g(&mut disk, mode), "{mode:?}");
            assert!(rt; is_new(&mut disk, mode)?, "{mode:?}");
            assert!(rt; keeps_files(&disk)?, "{mode:?}");
        }
    }
    Ok(())
}

// stopped after each call, with no, some and all name operations made, and files that weren't synced
// left empty, as they were written, or as junk
#[test]
fn a_stop_leaves_a_whole_g_file(rt: HostRuntime) -> Result<(), Fail> {
    let alloc = rt.alloc();
    for g_file in [None, Some(OLD)] {
        let mut disk = folder(alloc, g_file, &[])?;
        assert!(rt; make_g(&mut disk, Mode::Protected));
        for calls in 0..12 {
            for names in 0..3 {
                for fill in [Fill::Empty, Fill::Written, Fill::Junk(b'?')] {
                    let mut left = disk.crash(alloc, calls, names, fill)?;
                    let old = calls < 10 && is_old(&left, g_file)?;
                    assert!(rt;
                        old || is_new(&mut left, Mode::Protected)?,
                        "after {calls} calls, {names} names"
                    );
                    assert!(rt; keeps_files(&left)?, "after {calls} calls, {names} names");
                }
            }
        }
    }
    Ok(())
}

// a call that fails is told, and until the rename the old g-file is there
#[test]
fn a_failing_disk_is_told(rt: HostRuntime) -> Result<(), Fail> {
    let alloc = rt.alloc();
    for call in 1..11 {
        let mut disk = folder(alloc, Some(OLD), &[call])?;
        assert!(rt; !make_g(&mut disk, Mode::Protected), "call {call}");
        let placed = call == 10 && is_new(&mut disk, Mode::Protected)?;
        assert!(rt; placed || is_old(&disk, Some(OLD))?, "call {call}");
        assert!(rt; keeps_files(&disk)?, "call {call}");
    }
    Ok(())
}

#[test]
fn a_writable_g_file_is_seen(rt: HostRuntime) -> Result<(), Fail> {
    let alloc = rt.alloc();
    let mut disk = folder(alloc, None, &[2])?;
    assert_eq!(rt; may_write(&mut disk), Some(false));
    assert_eq!(rt; may_write(&mut disk), None, "the disk fails");
    let mut kept = folder(alloc, Some(OLD), &[])?;
    assert_eq!(rt; may_write(&mut kept), Some(false));
    for mode in [Mode::Writable, Mode::Protected] {
        let mut made = folder(alloc, Some(OLD), &[])?;
        assert!(rt; make_g(&mut made, mode), "{mode:?}");
        assert_eq!(rt;
            may_write(&mut made),
            Some(mode == Mode::Writable),
            "{mode:?}"
        );
    }
    Ok(())
}
