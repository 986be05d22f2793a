use crate::tests::samples::name;
use sccs_base::{Failed, Name};
use sccs_disk::{Creation, Disk, DiskRefusal};
use sccs_folder::*;
use std::alloc::Global;
use std::rt::Files;
use std::test::Fail;

// the names of a test are its own, since tests share a folder whether a file is new, and has these bytes then
fn put(disk: &mut FolderDisk<HostRuntime>, name: &Name, bytes: &[u8]) -> bool {
    let _ = disk.remove(name);
    let created = disk.create(name) == Ok(Creation::Created);
    let appended = disk.append(name, bytes).is_ok();
    created & appended
}

// whether a file has these bytes from a place on, and no more within a piece of so many
fn has(
    disk: &mut FolderDisk<HostRuntime>,
    name: &Name,
    from: u64,
    room: usize,
    wanted: &[u8],
) -> bool {
    let mut piece = [0; 20];
    match disk.read_at(name, from, &mut piece[..room.min(20)]) {
        Ok(Some(count)) => piece.get(..count) == Some(wanted),
        _ => false,
    }
}

// whether each call on a file that is there does what it is to do
fn changes(disk: &mut FolderDisk<HostRuntime>, name: &Name) -> bool {
    let exists = disk.create(name) == Ok(Creation::Exists);
    let appended = disk.append(name, b" two").is_ok();
    let read = has(disk, name, 0, 9, b"one two");
    let written = disk.write_at(name, 4, b"TWO").is_ok();
    let part = has(disk, name, 2, 3, b"e T");
    let writable = disk.writable(name) == Ok(Some(true));
    let protected = disk.protect(name).is_ok();
    let marked = disk.writable(name) == Ok(Some(false));
    let synced = disk.sync(name).is_ok();
    exists & appended & read & written & part & writable & protected & marked & synced
}

// whether a name is in the listing
fn lists(alloc: Global, disk: &mut FolderDisk<HostRuntime>, name: &Name) -> bool {
    match disk.list(alloc) {
        Ok(names) => names.items().iter().any(|n| n.is(name)),
        Err(_) => false,
    }
}

// whether calls on two files do what they are to do, and leave neither
fn calls_on(alloc: Global, disk: &mut FolderDisk<HostRuntime>, old: &Name, new: &Name) -> bool {
    let changed = put(disk, old, b"one") & changes(disk, old);
    let renamed = put(disk, new, b"new") & disk.rename(new, old).is_ok();
    let synced = disk.sync_names().is_ok();
    let read = has(disk, old, 0, 9, b"new");
    let listed = lists(alloc, disk, old) & !lists(alloc, disk, new);
    let removed = disk.remove(old).is_ok();
    let gone = disk.size(old) == Ok(None);
    changed & renamed & synced & read & listed & removed & gone
}

#[test]
fn each_call_on_files_that_are_there(rt: HostRuntime) -> Result<(), Fail> {
    let (old, new) = (name(b"s.calls")?, name(b"x.calls")?);
    let mut disk = FolderDisk::new(rt.alloc(), rt)?;
    assert!(rt; calls_on(rt.alloc(), &mut disk, &old, &new));
    Ok(())
}

// whether each call that changes a file is a fault
fn fails(disk: &mut FolderDisk<HostRuntime>, name: &Name, other: &Name) -> bool {
    let append = disk.append(name, b"a") == Err(DiskRefusal::Failed);
    let write = disk.write_at(name, 0, b"a") == Err(DiskRefusal::Failed);
    let protect = disk.protect(name) == Err(Failed);
    let sync = disk.sync(name) == Err(Failed);
    let rename = disk.rename(other, name) == Err(Failed);
    let remove = disk.remove(name) == Err(Failed);
    append & write & protect & sync & rename & remove
}

// whether a name has no file
fn is_missing(disk: &mut FolderDisk<HostRuntime>, name: &Name) -> bool {
    let no_size = disk.size(name) == Ok(None);
    let no_mark = disk.writable(name) == Ok(None);
    let no_bytes = disk.read_at(name, 0, &mut [0; 2]) == Ok(None);
    no_size & no_mark & no_bytes
}

#[test]
fn calls_on_a_name_that_is_not_there(rt: HostRuntime) -> Result<(), Fail> {
    let (missing, other) = (name(b"s.missing")?, name(b"s.other missing")?);
    let mut disk = FolderDisk::new(rt.alloc(), rt)?;
    assert!(rt; fails(&mut disk, &missing, &other) & is_missing(&mut disk, &missing));
    Ok(())
}

// whether only a regular file is read, written and listed
fn is_regular(
    alloc: Global,
    disk: &mut FolderDisk<HostRuntime>,
    file: &Name,
    folder: &Name,
    link: &Name,
) -> bool {
    let refused = put(disk, file, b"abc") & fails(disk, folder, file);
    let no_size = disk.size(folder) == Err(Failed);
    let too_long = disk.write_at(file, 2, b"cd") == Err(DiskRefusal::Failed);
    let there = disk.create(link) == Ok(Creation::Exists);
    let listed = lists(alloc, disk, file) & !lists(alloc, disk, folder);
    let not_listed = !lists(alloc, disk, link);
    let removed = disk.remove(link).is_ok() & disk.remove(file).is_ok();
    refused & no_size & too_long & there & listed & not_listed & removed
}

#[test]
fn calls_on_what_may_not_be_written(rt: HostRuntime) -> Result<(), Fail> {
    let (file, folder, link) = (name(b"s.short")?, name(b"s.folder")?, name(b"s.link")?);
    let _ = rt.create_dir("s.folder");
    let _ = rt.symlink("nowhere", "s.link");
    let mut disk = FolderDisk::new(rt.alloc(), rt)?;
    assert!(rt; is_regular(rt.alloc(), &mut disk, &file, &folder, &link));
    Ok(())
}

// whether a file that was read goes, and another comes under its name
fn is_replaced(disk: &mut FolderDisk<HostRuntime>, first: &Name, second: &Name) -> bool {
    let made = put(disk, first, b"first") & put(disk, second, b"second");
    let read = has(disk, first, 0, 3, b"fir");
    let renamed = disk.rename(second, first).is_ok();
    let read_again = has(disk, first, 3, 3, b"ond");
    let removed = disk.remove(first).is_ok();
    made & read & renamed & read_again & removed
}

#[test]
fn a_name_has_another_file(rt: HostRuntime) -> Result<(), Fail> {
    let (first, second) = (name(b"s.first")?, name(b"s.second")?);
    let mut disk = FolderDisk::new(rt.alloc(), rt)?;
    assert!(rt; is_replaced(&mut disk, &first, &second));
    Ok(())
}

// appends so many numbered lines of 14 bytes to two files in turn
fn append_lines(
    alloc: Global,
    disk: &mut FolderDisk<HostRuntime>,
    long: &Name,
    other: &Name,
) -> Result<(), Fail> {
    for number in 0..7000_u32 {
        let line = format!(in alloc; "line {number:08}\n")?;
        if disk.append(long, line.as_bytes()).is_err()
            || disk.append(other, b"other line\n").is_err()
        {
            return Err("appended".into());
        }
    }
    Ok(())
}

// whether what is read ahead ends with the file, belongs to one file, and begins at one place
fn are_read(disk: &mut FolderDisk<HostRuntime>, long: &Name, other: &Name) -> bool {
    let rows: [(&Name, u64, usize, &[u8]); 8] = [
        (long, 0, 14, b"line 00000000\n"),
        (long, 14, 14, b"line 00000001\n"),
        (other, 22, 11, b"other line\n"),
        (long, 65_534, 14, b"line 00004681\n"),
        (long, 65_520, 14, b"line 00004680\n"),
        (long, 97_986, 20, b"line 00006999\n"),
        (long, 98_000, 20, b""),
        (long, 1_000_000, 20, b""),
    ];
    let mut all = true;
    for (name, from, room, wanted) in rows {
        all &= has(disk, name, from, room, wanted);
    }
    all
}

// whether more is read behind what was read ahead, once it is there
fn is_read_on(disk: &mut FolderDisk<HostRuntime>, long: &Name) -> bool {
    let appended = disk.append(long, b"more").is_ok();
    let read = has(disk, long, 98_000, 20, b"more");
    appended & read
}

// whether two long files are read
fn reads_ahead(
    alloc: Global,
    disk: &mut FolderDisk<HostRuntime>,
    long: &Name,
    other: &Name,
) -> Result<bool, Fail> {
    let made = put(disk, long, b"") & put(disk, other, b"");
    append_lines(alloc, disk, long, other)?;
    let read = are_read(disk, long, other) & is_read_on(disk, long);
    let removed = disk.remove(long).is_ok() & disk.remove(other).is_ok();
    Ok(made & read & removed)
}

#[test]
fn readings_ahead(rt: HostRuntime) -> Result<(), Fail> {
    let (long, other) = (name(b"s.long")?, name(b"s.wide")?);
    let mut disk = FolderDisk::new(rt.alloc(), rt)?;
    assert!(rt; reads_ahead(rt.alloc(), &mut disk, &long, &other)?);
    Ok(())
}

// whether 1,000 appends, of which a call of the system writes many, are all made
fn appends(disk: &mut FolderDisk<HostRuntime>, file: &Name) -> bool {
    let made = put(disk, file, b"");
    let bytes = [b'a'; 100];
    let mut all = true;
    for _ in 0..1000 {
        all &= disk.append(file, &bytes).is_ok();
    }
    let synced = disk.sync(file).is_ok();
    let size = disk.size(file) == Ok(Some(100_000));
    let last = has(disk, file, 99_998, 9, b"aa");
    let removed = disk.remove(file).is_ok();
    made & all & synced & size & last & removed
}

#[test]
fn many_appends(rt: HostRuntime) -> Result<(), Fail> {
    let file = name(b"x.many")?;
    let mut disk = FolderDisk::new(rt.alloc(), rt)?;
    assert!(rt; appends(&mut disk, &file));
    Ok(())
}
