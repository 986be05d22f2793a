ghost use Rattle.std.specs.Prelude.{◌≡◌, ◌≤◌, ◌||◌, true, length, IfOk, IfSome, IsErrOf, OnErr};
ghost use Rattle.sccs_base.specs.Stream.{Rose};
ghost use Rattle.sccs_disk.specs.Told.{Nothing, seen};

use crate::disks::{Creation, Disk, DiskRefusal};
use crate::memory_disk::MemoryDisk;
use sccs_base::{Failed, Name, Names, one_more};
use std::alloc::Global;

/// A disk in memory of which one byte of one file changes after it was read for the first time: it
/// is one greater then, modulo 256. It tells nothing. A call on a name or a range that isn't there
/// is a fault that changes nothing.
#[derive(Drop)]
pub struct FickleDisk {
    disk: MemoryDisk,
    name: Name,
    at: u64,
    was_read: bool,
    faults: u64,
}

impl FickleDisk {
    ghost use Rattle.sccs_disk.specs.FickleDisks.{covers, read_again};

    /// The byte at a place of the file of that name changes, counted from 0.
    pub fn new(disk: MemoryDisk, name: Name, at: u64) -> FickleDisk
        ensures { result.faults ≡ 0 }
    {
        FickleDisk {
            disk,
            name,
            at,
            was_read: false,
            faults: 0,
        }
    }

    // counts a fault where a call failed
    fn count(&mut self, failed: bool)
        ensures later { self.old.faults ≤ self.new.faults }
        ensures rose { failed ≡ true → Rose self.old.faults self.new.faults }
    {
        if failed {
            self.faults = one_more(self.faults);
        }
    }

    // whether a reading of so many bytes from a place on covers the byte
    fn covers(&self, name: &Name, from: u64, count: usize) -> bool
        ensures { result ≡ covers self.now name.now from count }
    {
        name.is(&self.name) && from <= self.at && self.at - from < count as u64
    }

    // changes the byte in what was read, from the second time on
    fn change(&mut self, name: &Name, from: u64, count: usize, into: &mut [u8])
        requires { count ≤ length into.old }
        ensures bytes { into.new ≡ read_again self.old name.now from count into.old }
        ensures read { self.new.was_read ≡ (self.old.was_read || covers self.old name.now from count) }
        ensures faults { self.new.faults ≡ self.old.faults }
    {
        if !self.covers(name, from, count) {
            return;
        }
        if self.was_read {
            let place = (self.at - from) as usize;
            into[place] = into[place].wrapping_add(1);
        }
        self.was_read = true;
    }
}

impl Disk for FickleDisk {
    ghost use Rattle.sccs_disk.specs.FolderTold.{never_tells, never_shows};

    ghost told = { λ _. Nothing };

    ghost faults = { λ d. d.faults };

    ghost sane = { never_tells };

    ghost finite = { never_shows };

    fn size(&mut self, name: &Name) -> Result<Option<u64>, Failed> {
        let answer = self.disk.size(name);
        self.count(answer.is_err());
        answer
    }

    fn read_at(
        &mut self,
        name: &Name,
        from: u64,
        into: &mut [u8],
    ) -> Result<Option<usize>, Failed> {
        let answer = self.disk.read_at(name, from, into);
        if let Ok(Some(count)) = answer {
            self.change(name, from, count, into);
        }
        self.count(answer.is_err());
        answer
    }

    fn writable(&mut self, name: &Name) -> Result<Option<bool>, Failed> {
        let answer = self.disk.writable(name);
        self.count(answer.is_err());
        answer
    }

    fn create(&mut self, name: &Name) -> Result<Creation, DiskRefusal> {
        let answer = self.disk.create(name);
        self.count(answer == Err(DiskRefusal::Failed));
        answer
    }

    fn append(&mut self, name: &Name, bytes: &[u8]) -> Result<(), DiskRefusal> {
        if !self.disk.has(name) {
            self.count(true);
            return Err(DiskRefusal::Failed);
        }
        let answer = self.disk.append(name, bytes);
        self.count(answer == Err(DiskRefusal::Failed));
        answer
    }

    fn write_at(&mut self, name: &Name, from: u64, bytes: &[u8]) -> Result<(), DiskRefusal> {
        if !self.disk.has_range(name, from, bytes.len()) {
            self.count(true);
            return Err(DiskRefusal::Failed);
        }
        let answer = self.disk.write_at(name, from, bytes);
        self.count(answer == Err(DiskRefusal::Failed));
        answer
    }

    fn protect(&mut self, name: &Name) -> Result<(), Failed> {
        if !self.disk.has(name) {
            self.count(true);
            return Err(Failed);
        }
        let answer = self.disk.protect(name);
        self.count(answer.is_err());
        answer
    }

    fn sync(&mut self, name: &Name) -> Result<(), Failed> {
        if !self.disk.has(name) {
            self.count(true);
            return Err(Failed);
        }
        let answer = self.disk.sync(name);
        self.count(answer.is_err());
        answer
    }

    fn rename(&mut self, from: &Name, to: &Name) -> Result<(), Failed> {
        if !self.disk.has(from) {
            self.count(true);
            return Err(Failed);
        }
        let answer = self.disk.rename(from, to);
        self.count(answer.is_err());
        answer
    }

    fn remove(&mut self, name: &Name) -> Result<(), Failed> {
        if !self.disk.has(name) {
            self.count(true);
            return Err(Failed);
        }
        let answer = self.disk.remove(name);
        self.count(answer.is_err());
        answer
    }

    fn sync_names(&mut self) -> Result<(), Failed> {
        let answer = self.disk.sync_names();
        self.count(answer.is_err());
        answer
    }

    fn list(&mut self, alloc: Global) -> Result<Names, DiskRefusal> {
        let answer = self.disk.list(alloc);
        if let Err(DiskRefusal::Failed) = answer {
            self.count(true);
        }
        answer
    }
}
