ghost use Rattle.std.specs.Prelude.{◌≡◌, IfOk, length};
ghost use Rattle.sccs_disk.specs.declared.memory_disk.MemoryDisk.{MemoryDisk};
ghost use Rattle.sccs_group.specs.Members.{AreMembers};

use sccs_base::Name;
use sccs_disk::{DiskRefusal, Fill, MemoryDisk};
use sccs_group::*;
use sccs_intents::{Fate, IntentEntry};
use sccs_sid::{Refusal, StepFault};
use std::alloc::Global;
use std::test::Fail;

fn name(bytes: &[u8]) -> Result<Name, Fail> {
    Ok(Name::read(bytes).ok_or("a name")?)
}

// two members: a new p-file for s.a, whose g-file goes, and none for s.c
fn two_members(alloc: Global) -> Result<Members, Fail>
    ensures are { IfOk result (λ members. AreMembers members) }
    ensures count { IfOk result (λ members. length members ≡ 2) }
{
    let Some(first) = Name::read(b"s.a") else {
        return Err("a name".into());
    };
    let Some(second) = Name::read(b"s.c") else {
        return Err("a name".into());
    };
    let mut members = Members::empty(alloc);
    members.push(Member {
        entry: IntentEntry {
            name: first,
            fate: Fate::Replaced,
        },
        removes_g: true,
    })?;
    members.push(Member {
        entry: IntentEntry {
            name: second,
            fate: Fate::Removed,
        },
        removes_g: false,
    })?;
    Ok(members)
}

// a disk on which both members are prepared
fn prepared(alloc: Global) -> Result<MemoryDisk, Fail>
    ensures { IfOk result (λ (disk : MemoryDisk). disk.calls ≡ 0) }
{
    let mut disk = MemoryDisk::new(alloc, 100, &[])?;
    disk.put(&name(b"s.a")?, b"old a", false)?;
    disk.put(&name(b"p.a")?, b"two entries", true)?;
    disk.put(&name(b"x.a")?, b"new a", false)?;
    disk.put(&name(b"q.a")?, b"one entry", true)?;
    disk.put(&name(b"z.a")?, b"", true)?;
    disk.put(&name(b"a")?, b"text", true)?;
    disk.put(&name(b"s.c")?, b"old c", false)?;
    disk.put(&name(b"p.c")?, b"an entry", true)?;
    disk.put(&name(b"x.c")?, b"new c", false)?;
    disk.put(&name(b"z.c")?, b"", true)?;
    Ok(disk)
}

// whether a file has these bytes
fn holds(disk: &MemoryDisk, file: &[u8], bytes: &[u8]) -> Result<bool, Fail> {
    Ok(disk.bytes(&name(file)?) == Some(bytes))
}

// whether a file is there
fn has(disk: &MemoryDisk, file: &[u8]) -> Result<bool, Fail> {
    Ok(disk.has(&name(file)?))
}

// whether neither intent nor plan is there
fn is_done(disk: &MemoryDisk) -> bool {
    !(disk.has(&intent_name()) || disk.has(&plan_name()))
}

// whether both members have their new files; a z-file may be left, which recovery of the name takes away
fn is_new(disk: &MemoryDisk) -> Result<bool, Fail> {
    let first = holds(disk, b"s.a", b"new a")? && holds(disk, b"p.a", b"one entry")?;
    let second = holds(disk, b"s.c", b"new c")? && !has(disk, b"p.c")?;
    let left = has(disk, b"x.a")? || has(disk, b"q.a")? || has(disk, b"x.c")?;
    Ok(first && second && !left && is_done(disk))
}

// whether no name is locked
fn is_free(disk: &MemoryDisk) -> Result<bool, Fail> {
    Ok(!(has(disk, b"z.a")? || has(disk, b"z.c")?))
}

// whether both have their old s-file and p-file
fn is_old(disk: &MemoryDisk) -> Result<bool, Fail> {
    let first = holds(disk, b"s.a", b"old a")? && holds(disk, b"p.a", b"two entries")?;
    let second = holds(disk, b"s.c", b"old c")? && holds(disk, b"p.c", b"an entry")?;
    Ok(first && second && is_done(disk))
}

// whether the group is committed
fn commits(alloc: Global, disk: &mut MemoryDisk) -> Result<bool, Fail> {
    let members = two_members(alloc)?;
    Ok(commit_group(alloc, &members, disk).is_ok())
}

// how a group ends that is finished: 1 where an intent was there, 2 where none was, 0 else
fn finished(alloc: Global, disk: &mut MemoryDisk) -> u8 {
    match finish_group(alloc, disk) {
        Ok(true) => 1,
        Ok(false) => 2,
        Err(_) => 0,
    }
}

#[test]
fn group_is_committed(rt: HostRuntime) -> Result<(), Fail> {
    let alloc = rt.alloc();
    let mut disk = prepared(alloc)?;
    assert!(rt; commits(alloc, &mut disk)?);
    assert!(rt; is_new(&disk)? && is_free(&disk)? && !has(&disk, b"a")?);
    assert_eq!(rt; finished(alloc, &mut disk), 2);
    Ok(())
}

// whether a commit that was stopped here is finished to the new files of both members, or to the old ones
fn is_whole(
    alloc: Global,
    disk: &MemoryDisk,
    calls: u64,
    names: u64,
    fill: Fill,
) -> Result<bool, Fail> {
    let mut left = disk.crash(alloc, calls, names, fill)?;
    let way = finished(alloc, &mut left);
    Ok((way == 1 && is_new(&left)?) || (way == 2 && (is_old(&left)? || is_new(&left)?)))
}

// stopped after each of its calls, with no, some and all name operations made, and files that weren't
// synced left empty, as they were written, or as junk
#[test]
fn commit_may_be_stopped_anywhere(rt: HostRuntime) -> Result<(), Fail> {
    let alloc = rt.alloc();
    let mut disk = prepared(alloc)?;
    assert!(rt; commits(alloc, &mut disk)?);
    for calls in 0..40 {
        for names in 0..14 {
            for fill in [Fill::Empty, Fill::Written, Fill::Junk(b'?')] {
                assert!(rt;
                    is_whole(alloc, &disk, calls, names, fill)?,
                    "after {calls} calls, {names} names"
                );
            }
        }
    }
    Ok(())
}

// an intent behind which the group was stopped before any of its files took its place
fn stopped(alloc: Global) -> Result<MemoryDisk, Fail> {
    let mut disk = prepared(alloc)?;
    disk.put(&intent_name(), b"sccs group 1\nr s.a\nd s.c\nend\n", true)?;
    Ok(disk)
}

// whether finishing that was stopped here is finished once more
fn is_finished(
    alloc: Global,
    disk: &MemoryDisk,
    calls: u64,
    names: u64,
    fill: Fill,
) -> Result<bool, Fail> {
    let mut left = disk.crash(alloc, calls, names, fill)?;
    Ok(finished(alloc, &mut left) > 0 && is_new(&left)?)
}

#[test]
fn finishing_may_be_stopped_and_run_again(rt: HostRuntime) -> Result<(), Fail> {
    let alloc = rt.alloc();
    let mut disk = stopped(alloc)?;
    assert_eq!(rt; finished(alloc, &mut disk), 1);
    assert!(rt; is_new(&disk)? && is_free(&disk)? && has(&disk, b"a")?);
    for calls in 0..32 {
        for names in 0..12 {
            assert!(rt;
                is_finished(alloc, &disk, calls, names, Fill::Empty)?,
                "after {calls} calls, {names} names"
            );
        }
    }
    Ok(())
}

#[test]
fn bad_intent_stays(rt: HostRuntime) -> Result<(), Fail> {
    let alloc = rt.alloc();
    let mut disk = prepared(alloc)?;
    disk.put(&intent_name(), b"oops\n", true)?;
    let fault = finish_group(alloc, &mut disk);
    assert!(rt; fault == Err(StepFault::Refused(Refusal::BadIntent(1))));
    assert!(rt; disk.has(&intent_name()) && holds(&disk, b"s.a", b"old a")?);
    Ok(())
}

#[test]
fn failing_disk_fails_the_commit(rt: HostRuntime) -> Result<(), Fail> {
    let alloc = rt.alloc();
    let mut disk = MemoryDisk::new(alloc, 100, &[4])?;
    disk.put(&name(b"s.a")?, b"old a", false)?;
    disk.put(&name(b"z.a")?, b"", true)?;
    let members = two_members(alloc)?;
    let answer = commit_group(alloc, &members, &mut disk);
    assert!(rt; answer == Err(DiskRefusal::Failed));
    Ok(())
}
