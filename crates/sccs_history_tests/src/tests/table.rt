use sccs_base::Name;
use sccs_disk::MemoryDisk;
use sccs_grammar::FileFault;
use sccs_table::*;
use std::alloc::Global;
use std::test::Fail;

const FILE: &[u8] =
    b"\x01h06178\n\x01s 00002/00000/00000\n\x01d D 1.1 21/03/04 05:06:07 ann 1 0\n\x01c one\n\x01e\n\x01u\nann\n\x01U\n\
        \x01f q a b\n\x01t\nabout\n\x01T\n\x01I 1\none\ntwo\n\x01E 1\n";

// a blank behind the statistics
const BLANK: &[u8] =
    b"\x01h05854\n\x01s 00002/00000/00000 \n\x01d D 1.1 21/03/04 05:06:07 ann 1 0\n\x01c one\n\x01e\n\x01u\nann\n\
        \x01U\n\x01f q a b\n\x01t\nabout\n\x01T\n\x01I 1\none\n\x01E 1\n";

const ENCODED: &[u8] =
    b"\x01h05632\n\x01s 00002/00000/00000\n\x01d D 1.1 21/03/04 05:06:07 ann 1 0\n\x01c one\n\x01e\n\x01u\nann\n\x01U\n\
        \x01f e 1\n\x01t\nabout\n\x01T\n\x01I 1\none\n\x01E 1\n";

// SIDs that fall, and then those of a branch and of its trunk
const BRANCH: &[u8] =
    b"\x01h12747\n\x01s 00001/00000/00000\n\x01d D 1.3 21/03/04 05:06:07 ann 4 2\n\x01e\n\x01s 00001/00000/00000\n\
        \x01d D 1.1.1.1 21/03/04 05:06:07 ann 3 1\n\x01e\n\x01s 00001/00000/00000\n\
        \x01d D 1.2 21/03/04 05:06:07 ann 2 1\n\x01e\n\x01s 00001/00000/00000\n\x01d D 1.1 21/03/04 05:06:07 ann 1 0\n\
        \x01e\n\x01u\n\x01U\n\x01t\n\x01T\n\x01I 1\none\n\x01E 1\n";

// the same with 1.3 once more in place of 1.1
const TWICE_APART: &[u8] =
    b"\x01h12749\n\x01s 00001/00000/00000\n\x01d D 1.3 21/03/04 05:06:07 ann 4 2\n\x01e\n\x01s 00001/00000/00000\n\
        \x01d D 1.1.1.1 21/03/04 05:06:07 ann 3 1\n\x01e\n\x01s 00001/00000/00000\n\
        \x01d D 1.2 21/03/04 05:06:07 ann 2 1\n\x01e\n\x01s 00001/00000/00000\n\x01d D 1.3 21/03/04 05:06:07 ann 1 0\n\
        \x01e\n\x01u\n\x01U\n\x01t\n\x01T\n\x01I 1\none\n\x01E 1\n";

// two live deltas of one SID
const TWICE: &[u8] =
    b"\x01h09692\n\x01s 00001/00000/00000\n\x01d D 1.2 21/03/04 05:06:07 ann 3 2\n\x01e\n\x01s 00001/00000/00000\n\
        \x01d D 1.2 21/03/04 05:06:07 ann 2 1\n\x01e\n\x01s 00001/00000/00000\n\x01d D 1.1 21/03/04 05:06:07 ann 1 0\n\
        \x01e\n\x01u\n\x01U\n\x01t\n\x01T\n\x01I 1\none\n\x01E 1\n";

// the same where one is removed
const ONE_REMOVED: &[u8] =
    b"\x01h09705\n\x01s 00001/00000/00000\n\x01d D 1.2 21/03/04 05:06:07 ann 3 1\n\x01e\n\x01s 00001/00000/00000\n\
        \x01d R 1.2 21/03/04 05:06:07 ann 2 1\n\x01e\n\x01s 00001/00000/00000\n\x01d D 1.1 21/03/04 05:06:07 ann 1 0\n\
        \x01e\n\x01u\n\x01U\n\x01t\n\x01T\n\x01I 1\none\n\x01E 1\n";

// a disk with one file, which fails at the call of this number
fn disk_with(
    alloc: Global,
    name: &Name,
    bytes: &[u8],
    failing: &[u64],
) -> Result<MemoryDisk, Fail> {
    let mut disk = MemoryDisk::new(alloc, 1000, failing)?;
    disk.put(name, bytes, true)?;
    Ok(disk)
}

// whether this is what the file has before its body
fn is_front(front: &Front) -> bool {
    let body = front.body_line == 13 && front.body_from == 105;
    let whole = front.size == 123 && front.sum == 6178;
    body & whole & (front.header.records.items().len() == 1)
}

fn reads_front(alloc: Global, disk: &mut MemoryDisk, name: &Name) -> bool {
    match read_header(alloc, disk, name) {
        Ok(front) => is_front(&front),
        Err(_) => false,
    }
}

#[test]
fn a_header_is_read(rt: HostRuntime) -> Result<(), Fail> {
    let name = Name::read(b"s.a").ok_or("a name")?;
    let mut disk = disk_with(rt.alloc(), &name, FILE, &[])?;
    assert!(rt; reads_front(rt.alloc(), &mut disk, &name));
    Ok(())
}

// the fault of the header; None where it is read
fn fault_on(alloc: Global, disk: &mut MemoryDisk, name: &Name) -> Option<FileFault> {
    match read_header(alloc, disk, name) {
        Ok(_) => None,
        Err(fault) => Some(fault),
    }
}

// the fault of these bytes, on a disk that fails at the calls of these numbers
fn fault_of(
    alloc: Global,
    name: &Name,
    bytes: &[u8],
    failing: &[u64],
) -> Result<Option<FileFault>, Fail> {
    let mut disk = disk_with(alloc, name, bytes, failing)?;
    Ok(fault_on(alloc, &mut disk, name))
}

#[test]
fn faults_of_headers(rt: HostRuntime) -> Result<(), Fail> {
    let name = Name::read(b"s.a").ok_or("a name")?;
    let rows: [(&[u8], FileFault); 6] = [
        (b"", FileFault::NotSccs),
        (b"\x01h00009\nab\n", FileFault::BadSum(9, 205)),
        (BLANK, FileFault::BadFormat(2)),
        (ENCODED, FileFault::Encoded),
        (TWICE, FileFault::BadFormat(6)),
        (TWICE_APART, FileFault::BadFormat(12)),
    ];
    for (bytes, wanted) in rows {
        let fault = fault_of(rt.alloc(), &name, bytes, &[])?;
        assert_eq!(rt; fault, Some(wanted));
    }
    Ok(())
}

#[test]
fn a_failing_disk(rt: HostRuntime) -> Result<(), Fail> {
    let name = Name::read(b"s.a").ok_or("a name")?;
    let fault = fault_of(rt.alloc(), &name, FILE, &[2])?;
    assert_eq!(rt; fault, Some(FileFault::Failed));
    Ok(())
}

#[test]
fn tables_are_read(rt: HostRuntime) -> Result<(), Fail> {
    let name = Name::read(b"s.a").ok_or("a name")?;
    let rows: [&[u8]; 2] = [BRANCH, ONE_REMOVED];
    for bytes in rows {
        let fault = fault_of(rt.alloc(), &name, bytes, &[])?;
        assert_eq!(rt; fault, None);
    }
    Ok(())
}
