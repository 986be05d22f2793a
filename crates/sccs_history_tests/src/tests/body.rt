use sccs_base::Name;
use sccs_body::*;
use sccs_disk::{Disk, MemoryDisk};
use sccs_grammar::FileFault;
use sccs_table::Front;
use std::alloc::Global;
use std::test::Fail;

const FILE: &[u8] =
    b"\x01h06178\n\x01s 00002/00000/00000\n\x01d D 1.1 21/03/04 05:06:07 ann 1 0\n\x01c one\n\x01e\n\x01u\nann\n\x01U\n\
        \x01f q a b\n\x01t\nabout\n\x01T\n\x01I 1\none\ntwo\n\x01E 1\n";

// the same with more blanks and zeros in the control lines
const PADDED: &[u8] =
    b"\x01h06370\n\x01s 00002/00000/00000\n\x01d D 1.1 21/03/04 05:06:07 ann 1 0\n\x01c one\n\x01e\n\x01u\nann\n\x01U\n\
        \x01f q a b\n\x01t\nabout\n\x01T\n\x01I  001\none\ntwo\n\x01E   1\n";

// a byte past 127, and the signed sum; the plain one is 6310
const SIGNED: &[u8] =
    b"\x01h06054\n\x01s 00002/00000/00000\n\x01d D 1.1 21/03/04 05:06:07 ann 1 0\n\x01c one\n\x01e\n\x01u\nann\n\x01U\n\
        \x01f q a b\n\x01t\nabout\n\x01T\n\x01I 1\non\xe9\ntwo\n\x01E 1\n";

// the first of these with another byte, and with a line more
const OTHER_BYTE: &[u8] =
    b"\x01h06178\n\x01s 00002/00000/00000\n\x01d D 1.1 21/03/04 05:06:07 ann 1 0\n\x01c one\n\x01e\n\x01u\nann\n\x01U\n\
        \x01f q a b\n\x01t\nabout\n\x01T\n\x01I 1\none\ntwp\n\x01E 1\n";

const LONGER: &[u8] =
    b"\x01h06178\n\x01s 00002/00000/00000\n\x01d D 1.1 21/03/04 05:06:07 ann 1 0\n\x01c one\n\x01e\n\x01u\nann\n\x01U\n\
        \x01f q a b\n\x01t\nabout\n\x01T\n\x01I 1\none\ntwo\n\x01E 1\nend\n";

fn s_file() -> Result<Name, Fail> {
    Ok(Name::read(b"s.a").ok_or("a name")?)
}

fn disk_with(alloc: Global, name: &Name, bytes: &[u8]) -> Result<MemoryDisk, Fail> {
    let mut disk = MemoryDisk::new(alloc, 1000, &[])?;
    disk.put(name, bytes, true)?;
    Ok(disk)
}

// what is read of an s-file first
fn front_of(alloc: Global, disk: &mut MemoryDisk, name: &Name) -> Result<Front, Fail> {
    match inspect(alloc, disk, name) {
        Ok(front) => Ok(front),
        Err(_) => Err("an s-file".into()),
    }
}

// a reader of the items of an s-file
fn reader_of(alloc: Global, disk: &mut MemoryDisk, name: &Name) -> Result<ItemReader, Fail> {
    let front = front_of(alloc, disk, name)?;
    Ok(ItemReader::new(alloc, name, &front)?)
}

// why an s-file is none
fn fault_on(alloc: Global, disk: &mut MemoryDisk, name: &Name) -> Option<FileFault> {
    match inspect(alloc, disk, name) {
        Ok(_) => None,
        Err(fault) => Some(fault),
    }
}

// the same of bytes
fn fault_of(alloc: Global, name: &Name, bytes: &[u8]) -> Result<Option<FileFault>, Fail> {
    let mut disk = disk_with(alloc, name, bytes)?;
    Ok(fault_on(alloc, &mut disk, name))
}

// whether the next item opens region 1
fn opens(disk: &mut MemoryDisk, reader: &mut ItemReader) -> bool {
    matches!(reader.next(disk), Ok(Some(Item::Insert(1))))
}

// whether the next item ends it
fn ends(disk: &mut MemoryDisk, reader: &mut ItemReader) -> bool {
    matches!(reader.next(disk), Ok(Some(Item::End(1))))
}

// whether the next item is this line
fn gives_line(disk: &mut MemoryDisk, reader: &mut ItemReader, text: &[u8]) -> bool {
    match reader.next(disk) {
        Ok(Some(Item::Text(line))) => line.bytes() == text,
        _ => false,
    }
}

// whether the body's first line comes behind its first region's begin
fn reads_a_line(alloc: Global, disk: &mut MemoryDisk, name: &Name) -> Result<bool, Fail> {
    let mut reader = reader_of(alloc, disk, name)?;
    let opened = opens(disk, &mut reader);
    Ok(opened & gives_line(disk, &mut reader, b"one"))
}

#[test]
fn a_body_is_read(rt: HostRuntime) -> Result<(), Fail> {
    let name = s_file()?;
    let mut disk = disk_with(rt.alloc(), &name, FILE)?;
    assert!(rt; reads_a_line(rt.alloc(), &mut disk, &name)?);
    Ok(())
}

// whether both text lines are held, and none once they are passed over
fn passes_lines(disk: &mut MemoryDisk, reader: &mut ItemReader) -> bool {
    let opened = opens(disk, reader);
    let held = reader.texts() == b"one\ntwo\n".as_slice();
    let count = reader.texts().len();
    reader.pass(count);
    let ended = ends(disk, reader);
    opened & held & ended & reader.texts().is_empty()
}

fn passes_over(alloc: Global, disk: &mut MemoryDisk, name: &Name) -> Result<bool, Fail> {
    let mut reader = reader_of(alloc, disk, name)?;
    Ok(passes_lines(disk, &mut reader))
}

#[test]
fn text_lines_are_passed_over(rt: HostRuntime) -> Result<(), Fail> {
    let name = s_file()?;
    let mut disk = disk_with(rt.alloc(), &name, FILE)?;
    assert!(rt; passes_over(rt.alloc(), &mut disk, &name)?);
    Ok(())
}

#[test]
fn faults_of_files(rt: HostRuntime) -> Result<(), Fail> {
    let name = s_file()?;
    let rows: [(&[u8], FileFault); 7] = [
        (
            b"\x01h05824\n\x01s 00002/00000/00000\n\x01d D 1.1 21/03/04 05:06:07 ann 1 0\n\x01c one\n\x01e\n\x01u\n\
                ann\n\x01U\n\x01f q a b\n\x01t\nabout\n\x01T\n\x01I 2\none\n\x01E 2\n",
            FileFault::BadFormat(13),
        ),
        (
            b"\x01h06178\n\x01s 00002/00000/00000\n\x01d D 1.1 21/03/04 05:06:07 ann 1 0\n\x01c one\n\x01e\n\x01u\n\
                ann\n\x01U\n\x01f q a b\n\x01t\nabout\n\x01T\n\x01I 1\none\n\x01E 1\ntwo\n",
            FileFault::BadFormat(16),
        ),
        (
            b"\x01h05661\n\x01s 00002/00000/00000\n\x01d D 1.1 21/03/04 05:06:07 ann 1 0\n\x01c one\n\x01e\n\x01u\n\
                ann\n\x01U\n\x01f q a b\n\x01t\nabout\n\x01T\n\x01I 1\none\n",
            FileFault::BadFormat(15),
        ),
        (
            b"\x01h05942\n\x01s 00002/00000/00000\n\x01d D 1.1 21/03/04 05:06:07 ann 1 0\n\x01c one\n\x01e\n\x01u\n\
                ann\n\x01U\n\x01f q a b\n\x01t\nabout\n\x01T\n\x01I 1\none\n\x01E 1\nx",
            FileFault::BadFormat(16),
        ),
        (
            b"\x01h05632\n\x01s 00002/00000/00000\n\x01d D 1.1 21/03/04 05:06:07 ann 1 0\n\x01c one\n\x01e\n\x01u\n\
                ann\n\x01U\n\x01f e 1\n\x01t\nabout\n\x01T\n\x01I 1\none\n\x01E 1\n",
            FileFault::Encoded,
        ),
        // encoded, and with a serial that is not there
        (
            b"\x01h05633\n\x01s 00002/00000/00000\n\x01d D 1.1 21/03/04 05:06:07 ann 1 0\n\x01c one\n\x01e\n\x01u\n\
                ann\n\x01U\n\x01f e 1\n\x01t\nabout\n\x01T\n\x01I 2\none\n\x01E 1\n",
            FileFault::BadFormat(13),
        ),
        // a stored sum that is one more than the signed one
        (
            b"\x01h06055\n\x01s 00002/00000/00000\n\x01d D 1.1 21/03/04 05:06:07 ann 1 0\n\x01c one\n\x01e\n\x01u\n\
                ann\n\x01U\n\x01f q a b\n\x01t\nabout\n\x01T\n\x01I 1\non\xe9\ntwo\n\x01E 1\n",
            FileFault::BadSum(6055, 6310),
        ),
    ];
    for (bytes, wanted) in rows {
        assert!(rt; fault_of(rt.alloc(), &name, bytes)? == Some(wanted));
    }
    Ok(())
}

// how many text lines the body of an s-file has, as another program would count them
fn count_lines<D: Disk>(alloc: Global, disk: &mut D, name: &Name) -> Result<u64, FileFault> {
    let front = inspect(alloc, disk, name)?;
    let mut items = ItemReader::new(alloc, name, &front)?;
    let mut count: u64 = 0;
    for _ in 0..front.size {
        match items.next(disk) {
            Ok(Some(Item::Text(_))) => count = count.saturating_add(1),
            Ok(Some(_)) => {}
            Ok(None) => return Ok(count),
            Err(fault) => return Err(fault),
        }
    }
    Ok(count)
}

// whether the body of an s-file has two lines
fn has_two_lines(alloc: Global, name: &Name, bytes: &[u8]) -> Result<bool, Fail> {
    let mut disk = disk_with(alloc, name, bytes)?;
    Ok(count_lines(alloc, &mut disk, name) == Ok(2))
}

#[test]
fn lines_are_counted(rt: HostRuntime) -> Result<(), Fail> {
    let name = s_file()?;
    for bytes in [FILE, PADDED, SIGNED] {
        assert!(rt; has_two_lines(rt.alloc(), &name, bytes)?);
    }
    Ok(())
}

// an s-file of about 45,000 bytes: the header of FILE, 3,000 text lines, and these bytes at the end;
// its sum line is right where `off` is 0
fn long_file(alloc: Global, end: &[u8], off: u16) -> Result<Vec<u8>, Fail> {
    let mut rest = Vec::new(alloc);
    rest.extend_from_slice(&FILE[8..110])?;
    for _ in 0..3000 {
        rest.extend_from_slice(b"a line of text\n")?;
    }
    rest.extend_from_slice(end)?;
    let mut sum: u16 = off;
    for byte in &rest {
        sum = sum.wrapping_add(u16::from(*byte));
    }
    let mut file = Vec::new(alloc);
    let line = format!(in alloc; "\x01h{sum:05}\n")?;
    file.extend_from_slice(line.as_bytes())?;
    file.extend_from_slice(rest.as_slice())?;
    Ok(file)
}

// whether an s-file is read in so many calls
fn is_read_within(alloc: Global, name: &Name, file: &[u8], calls: u64) -> Result<bool, Fail> {
    let mut disk = MemoryDisk::new(alloc, calls, &[])?;
    disk.put(name, file, true)?;
    match inspect(alloc, &mut disk, name) {
        Ok(front) => Ok(front.size == file.len() as u64),
        Err(_) => Ok(false),
    }
}

// 16 calls: the length, 12 pieces, the end of the body twice (where no line is held, and where the
// next one is asked for), and the end of the sum
#[test]
fn a_file_is_read_once(rt: HostRuntime) -> Result<(), Fail> {
    let name = s_file()?;
    let file = long_file(rt.alloc(), b"\x01E 1\n", 0)?;
    assert!(rt; is_read_within(rt.alloc(), &name, &file, 16)?);
    Ok(())
}

// why a long file is none
fn long_fault(alloc: Global, name: &Name, end: &[u8], off: u16) -> Result<Option<FileFault>, Fail> {
    let file = long_file(alloc, end, off)?;
    fault_of(alloc, name, &file)
}

// a wrong sum comes before a wrong line, wherever the line stands
#[test]
fn faults_of_long_files(rt: HostRuntime) -> Result<(), Fail> {
    let name = s_file()?;
    let rows: [(&[u8], u16, Option<u64>); 4] = [
        (b"\x01E 1\n", 1, None),
        (b"\x01E 2\n", 1, None),
        (b"\x01E 2\n", 0, Some(3014)),
        (b"\x01E 1\n\x01E 1\n\x01E 1\n", 0, Some(3015)),
    ];
    for (end, off, line) in rows {
        let is_wanted = match (long_fault(rt.alloc(), &name, end, off)?, line) {
            (Some(FileFault::BadFormat(found)), Some(wanted)) => found == wanted,
            (Some(FileFault::BadSum(_, _)), None) => true,
            _ => false,
        };
        assert!(rt; is_wanted);
    }
    Ok(())
}

// whether reading an s-file fails where one call does
fn fails_at(alloc: Global, name: &Name, bytes: &[u8], call: u64) -> Result<bool, Fail> {
    let mut disk = MemoryDisk::new(alloc, 1000, &[call])?;
    disk.put(name, bytes, true)?;
    Ok(fault_on(alloc, &mut disk, name) == Some(FileFault::Failed))
}

// whether it does for each of so many calls
fn each_fails(alloc: Global, name: &Name, bytes: &[u8], calls: u64) -> Result<bool, Fail> {
    for call in 1..=calls {
        if !fails_at(alloc, name, bytes, call)? {
            return Ok(false);
        }
    }
    Ok(true)
}

#[test]
fn each_call_may_fail(rt: HostRuntime) -> Result<(), Fail> {
    let name = s_file()?;
    let file = long_file(rt.alloc(), b"\x01E 1\n", 0)?;
    let long = each_fails(rt.alloc(), &name, &file, 15)?;
    assert!(rt; long & each_fails(rt.alloc(), &name, SIGNED, 6)?);
    Ok(())
}

// how a reader ends over a disk, of a front that was read before
fn end_of<D: Disk>(
    alloc: Global,
    disk: &mut D,
    name: &Name,
    front: &Front,
) -> Result<(), FileFault> {
    let mut items = ItemReader::new(alloc, name, front)?;
    for _ in 0..100 {
        if items.next(disk)?.is_none() {
            return Ok(());
        }
    }
    Ok(())
}

// the front of FILE
fn first_front(alloc: Global, name: &Name) -> Result<Front, Fail> {
    let mut disk = disk_with(alloc, name, FILE)?;
    front_of(alloc, &mut disk, name)
}

// how a reader of FILE ends where these bytes stand under its name
fn later_end(
    alloc: Global,
    name: &Name,
    front: &Front,
    bytes: &[u8],
) -> Result<Result<(), FileFault>, Fail> {
    let mut disk = disk_with(alloc, name, bytes)?;
    Ok(end_of(alloc, &mut disk, name, front))
}

// how it ends where nothing does
fn missing_end(alloc: Global, name: &Name, front: &Front) -> Result<Result<(), FileFault>, Fail> {
    let mut empty = MemoryDisk::new(alloc, 1000, &[])?;
    Ok(end_of(alloc, &mut empty, name, front))
}

// whether each change of FILE is noticed, with its size and sum
fn are_noticed(alloc: Global, name: &Name, front: &Front) -> Result<bool, Fail> {
    let rows: [(&[u8], u64, u16); 4] = [
        (OTHER_BYTE, 123, 6179),
        (LONGER, 127, 6499),
        (&FILE[..118], 118, 6017),
        (&FILE[..20], 20, 581),
    ];
    for (bytes, size, sum) in rows {
        if later_end(alloc, name, front, bytes)? != Err(FileFault::Changed(123, 6178, size, sum)) {
            return Ok(false);
        }
    }
    Ok(true)
}

// another byte, more bytes, fewer bytes, fewer than the header has, and no file
#[test]
fn files_that_were_changed(rt: HostRuntime) -> Result<(), Fail> {
    let name = s_file()?;
    let front = first_front(rt.alloc(), &name)?;
    let same = later_end(rt.alloc(), &name, &front, FILE)? == Ok(());
    let missing = Err(FileFault::Changed(123, 6178, 0, 0));
    let gone = missing_end(rt.alloc(), &name, &front)? == missing;
    assert!(rt; same & gone & are_noticed(rt.alloc(), &name, &front)?);
    Ok(())
}
