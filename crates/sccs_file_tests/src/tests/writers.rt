use sccs_base::{Line, Name};
use sccs_disk::{Disk, DiskRefusal, FickleDisk, MemoryDisk};
use sccs_history::Item;
use sccs_table::Sum;
use sccs_writers::*;
use std::alloc::Global;
use std::test::Fail;

// a disk with one file, which is empty; it tells nothing, and no byte of that file changes
fn disk_with(alloc: Global, name: &Name) -> Result<FickleDisk, Fail> {
    let other = Name::read(b"s.a").ok_or("a name")?;
    let mut disk = MemoryDisk::new(alloc, 1000, &[])?;
    disk.put(name, b"", true)?;
    Ok(FickleDisk::new(disk, other, 0))
}

// whether each of the items is put
fn are_put(writer: &mut ItemWriter, disk: &mut FickleDisk, items: &[Item]) -> bool {
    for item in items {
        if writer.put(disk, item).is_err() {
            return false;
        }
    }
    true
}

// whether a short and a long line are put, with the regions around them
fn lines_are_put(
    alloc: Global,
    writer: &mut ItemWriter,
    disk: &mut FickleDisk,
) -> Result<bool, Fail> {
    let one = Line::new(alloc, b"one")?;
    let long = Line::new(alloc, &[b'x'; 5000])?;
    let items = [
        Item::Insert(1),
        Item::Text(one),
        Item::Delete(12),
        Item::Text(long),
        Item::End(12),
        Item::End(1),
    ];
    Ok(are_put(writer, disk, &items))
}

#[test]
fn items_are_written_in_pieces(rt: HostRuntime) -> Result<(), Fail> {
    let alloc = rt.alloc();
    let name = Name::read(b"x.a").ok_or("a name")?;
    let mut disk = disk_with(alloc, &name)?;
    let mut writer = ItemWriter::new(alloc, &name, Sum::new())?;
    assert!(rt; lines_are_put(alloc, &mut writer, &mut disk)?);
    assert_eq!(rt; writer.flush(&mut disk), Ok(()));
    assert_eq!(rt; disk.size(&name), Ok(Some(5027)));
    assert_eq!(rt; writer.sum().plain(), 11265);
    Ok(())
}

#[test]
fn a_failing_disk_is_answered(rt: HostRuntime) -> Result<(), Fail> {
    let alloc = rt.alloc();
    let name = Name::read(b"x.a").ok_or("a name")?;
    let mut disk = MemoryDisk::new(alloc, 1000, &[1])?;
    disk.put(&name, b"", true)?;
    let mut writer = ItemWriter::new(alloc, &name, Sum::new())?;
    assert_eq!(rt; writer.put(&mut disk, &Item::Insert(1)), Ok(()));
    assert_eq!(rt; writer.flush(&mut disk), Err(DiskRefusal::Failed));
    assert_eq!(rt; disk.size(&name), Ok(Some(0)));
    Ok(())
}
