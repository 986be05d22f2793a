use crate::tests::samples::name;
use sccs_base::{Failed, Name};
use sccs_disk::*;
use std::alloc::Global;
use std::test::Fail;

// what a call changes of a file: three bytes more, another second byte
#[derive(Clone, Copy)]
enum FileChange {
    Append,
    WriteOver,
    Protect,
    Sync,
}

// a call that changes files
#[derive(Clone, Copy)]
enum Change {
    Create(Name),
    File(Name, FileChange),
    Rename(Name, Name),
    SyncNames,
}

// A file of three bytes is made, written over, protected and synced, and then takes the place of
// another one.
fn replacement() -> Result<[Change; 7], Fail> {
    let (old, new) = (name(b"s.a")?, name(b"x.a")?);
    Ok([
        Change::Create(new),
        Change::File(new, FileChange::Append),
        Change::File(new, FileChange::WriteOver),
        Change::File(new, FileChange::Protect),
        Change::File(new, FileChange::Sync),
        Change::Rename(new, old),
        Change::SyncNames,
    ])
}

// whether a change of a file was made by calls: its length is asked for first
#[tactic(auto, using(sccs_disk::proofs::Sized::sized_there, sccs_disk::proofs::Sized::sized_range))]
fn change_file<D: Disk>(disk: &mut D, name: &Name, change: &FileChange) -> bool {
    let Ok(Some(size)) = disk.size(name) else {
        return false;
    };
    match change {
        FileChange::Append => disk.append(name, b"abc").is_ok(),
        FileChange::WriteOver => size >= 2 && disk.write_at(name, 1, b"B").is_ok(),
        FileChange::Protect => disk.protect(name).is_ok(),
        FileChange::Sync => disk.sync(name).is_ok(),
    }
}

// whether a change was made by calls
#[tactic(auto, using(sccs_disk::proofs::Sized::sized_there))]
fn make<D: Disk>(disk: &mut D, change: &Change) -> bool {
    match change {
        Change::Create(name) => disk.create(name) == Ok(Creation::Created),
        Change::File(name, change) => change_file(disk, name, change),
        Change::Rename(from, to) => matches!(disk.size(from), Ok(Some(_)))
            && disk.rename(from, to).is_ok(),
        Change::SyncNames => disk.sync_names().is_ok(),
    }
}

// how many of the changes were made, until one failed
fn make_all<D: Disk>(disk: &mut D, changes: &[Change]) -> usize {
    for (made, change) in changes.iter().enumerate() {
        if !make(disk, change) {
            return made;
        }
    }
    changes.len()
}

// the files `s.a` and `x.a`, in one line: each that is there by its name, `=`, its bytes, and `!`
// where they may not be written
fn show<D: Disk>(alloc: Global, disk: &mut D) -> Result<Vec<u8>, Fail> {
    let mut line = Vec::new(alloc);
    for letter in *b"sx" {
        let name = name(&[letter, b'.', b'a'])?;
        let mut piece = [0; 8];
        if let Ok(Some(count)) = disk.read_at(&name, 0, &mut piece) {
            line.extend_from_slice(&[letter, b'='])?;
            line.extend_from_slice(&piece[..count])?;
            if disk.writable(&name) == Ok(Some(false)) {
                line.push(b'!')?;
            }
        }
    }
    Ok(line)
}

fn memory_disk(alloc: Global, room: u64, failing: &[u64]) -> Result<MemoryDisk, Fail> {
    let mut disk = MemoryDisk::new(alloc, room, failing)?;
    if disk.put(&name(b"s.a")?, b"one", true).is_err() {
        return Err(Fail::from("memory"));
    }
    Ok(disk)
}

// whether all changes are made, and leave one file
fn are_made<D: Disk>(alloc: Global, disk: &mut D, changes: &[Change]) -> Result<bool, Fail> {
    let made = make_all(disk, changes) == 7;
    let shown = show(alloc, disk)?;
    Ok(made & (shown.as_slice() == b"s=aBc!".as_slice()))
}

fn change_memory(alloc: Global, changes: &[Change]) -> Result<bool, Fail> {
    let mut disk = memory_disk(alloc, 50, &[])?;
    are_made(alloc, &mut disk, changes)
}

fn change_steady(alloc: Global, changes: &[Change]) -> Result<bool, Fail> {
    let mut disk = SteadyDisk::new(alloc);
    disk.put(&name(b"s.a")?, b"one", true)?;
    let made = are_made(alloc, &mut disk, changes)?;
    let names = disk.list(alloc)?;
    Ok(made & (names.len() == 1))
}

#[test]
fn calls_change_files(rt: HostRuntime) -> Result<(), Fail> {
    let changes = replacement()?;
    let memory = change_memory(rt.alloc(), &changes)?;
    assert!(rt; memory & change_steady(rt.alloc(), &changes)?);
    Ok(())
}

// whether the second call fails, and each behind a stop after three
fn answers_by_plan(disk: &mut MemoryDisk, name: &Name) -> bool {
    let first = disk.size(name) == Ok(Some(3));
    let planned = disk.size(name) == Err(Failed);
    let third = disk.size(name) == Ok(Some(3));
    disk.stop_after(3);
    let stopped = disk.size(name) == Err(Failed);
    let again = disk.size(name) == Err(Failed);
    first & planned & third & stopped & again
}

fn fails_by_plan(alloc: Global, name: &Name) -> Result<bool, Fail> {
    let mut disk = memory_disk(alloc, 5, &[2])?;
    let by_plan = answers_by_plan(&mut disk, name);
    Ok(by_plan & (disk.bytes(name) == Some(b"one".as_slice())))
}

fn fails_past_the_room(alloc: Global, name: &Name) -> Result<bool, Fail> {
    let mut disk = memory_disk(alloc, 1, &[])?;
    let first = disk.size(name) == Ok(Some(3));
    Ok(first & (disk.size(name) == Err(Failed)))
}

// a call fails by plan, past the room, and past a stop
#[test]
fn memory_disk_fails_by_plan(rt: HostRuntime) -> Result<(), Fail> {
    let name = name(b"s.a")?;
    let by_plan = fails_by_plan(rt.alloc(), &name)?;
    assert!(rt; by_plan & fails_past_the_room(rt.alloc(), &name)?);
    Ok(())
}

// whether a stop leaves these files
fn leaves(
    alloc: Global,
    disk: &MemoryDisk,
    calls: u64,
    names: u64,
    fill: Fill,
    left: &[u8],
) -> Result<bool, Fail> {
    let mut crashed = disk.crash(alloc, calls, names, fill)?;
    let shown = show(alloc, &mut crashed)?;
    Ok(shown.as_slice() == left)
}

// the first of these stops, by the calls before it, the name operations that it makes, and its
// filling, that leaves other files
fn first_wrong(alloc: Global, disk: &MemoryDisk) -> Result<Option<(u64, u64)>, Fail> {
    let rows: [(u64, u64, Fill, &[u8]); 12] = [
        (0, 9, Fill::Empty, b"s=one"),
        (3, 0, Fill::Written, b"s=one"),
        (3, 1, Fill::Empty, b"s=onex="),
        (3, 1, Fill::Written, b"s=onex=abc"),
        (3, 1, Fill::Junk(b'?'), b"s=onex=???"),
        (5, 1, Fill::Written, b"s=onex=aBc"),
        (7, 1, Fill::Empty, b"s=onex=!"),
        (9, 1, Fill::Empty, b"s=onex=aBc!"),
        (11, 0, Fill::Empty, b"s=one"),
        (11, 1, Fill::Empty, b"s=onex=aBc!"),
        (11, 2, Fill::Empty, b"s=aBc!"),
        (99, 0, Fill::Junk(0), b"s=aBc!"),
    ];
    for (calls, names, fill, left) in rows {
        if !leaves(alloc, disk, calls, names, fill, left)? {
            return Ok(Some((calls, names)));
        }
    }
    Ok(None)
}

// a disk on which all changes were made
fn changed_disk(alloc: Global) -> Result<MemoryDisk, Fail> {
    let changes = replacement()?;
    let mut disk = memory_disk(alloc, 50, &[])?;
    make_all(&mut disk, &changes);
    Ok(disk)
}

#[test]
fn a_stop_leaves_what_is_firm(rt: HostRuntime) -> Result<(), Fail> {
    let disk = changed_disk(rt.alloc())?;
    assert_eq!(rt; first_wrong(rt.alloc(), &disk)?, None);
    Ok(())
}

// whether a reading of the first three bytes gives these
fn reads(disk: &mut FickleDisk, name: &Name, bytes: &[u8]) -> bool {
    let mut piece = [0; 3];
    let read = disk.read_at(name, 0, &mut piece) == Ok(Some(3));
    read & (piece.as_slice() == bytes)
}

// whether a byte is another from the second reading of it on
fn changes_a_byte(disk: &mut FickleDisk, name: &Name) -> bool {
    let behind = disk.read_at(name, 2, &mut [0; 3]) == Ok(Some(1));
    let first = reads(disk, name, b"one");
    let second = reads(disk, name, b"ooe");
    behind & first & second & reads(disk, name, b"ooe")
}

// whether calls on what isn't there are faults
fn refuses(disk: &mut FickleDisk, name: &Name, absent: &Name) -> bool {
    let append = disk.append(absent, b"a") == Err(DiskRefusal::Failed);
    let write = disk.write_at(name, 2, b"ab") == Err(DiskRefusal::Failed);
    let protect = disk.protect(absent) == Err(Failed);
    let sync = disk.sync(absent) == Err(Failed);
    let rename = disk.rename(absent, name) == Err(Failed);
    let remove = disk.remove(absent) == Err(Failed);
    append & write & protect & sync & rename & remove
}

// whether calls on what is there are made; under its new name the file reads as at first
fn passes_on(disk: &mut FickleDisk, name: &Name, absent: &Name) -> bool {
    let appended = disk.append(name, b"s") == Ok(());
    let written = disk.write_at(name, 3, b"!") == Ok(());
    let size = disk.size(name) == Ok(Some(4));
    let renamed = disk.rename(name, absent) == Ok(());
    appended & written & size & renamed & reads(disk, absent, b"one")
}

#[test]
fn fickle_disk_changes_a_byte(rt: HostRuntime) -> Result<(), Fail> {
    let (name, absent) = (name(b"s.a")?, name(b"x.a")?);
    let mut disk = FickleDisk::new(memory_disk(rt.alloc(), 50, &[])?, name, 1);
    let changed = changes_a_byte(&mut disk, &name) & refuses(&mut disk, &name, &absent);
    assert!(rt; changed & passes_on(&mut disk, &name, &absent));
    Ok(())
}
