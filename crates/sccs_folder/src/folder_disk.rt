ghost use Rattle.std.specs.Prelude.{◌≡◌, ◌≤◌, IfOk, OnErr, IsErrOf};
ghost use Rattle.sccs_base.specs.Stream.{Rose};
ghost use Rattle.sccs_disk.specs.Told.{Nothing};

use crate::folder_turns::Turn;
use crate::folders::Folder;
use sccs_base::{Failed, Memory, Name, Names, one_more};
use sccs_disk::{Creation, Disk, DiskRefusal};
use std::alloc::Global;
use std::rt::Files;

/// The current folder as a disk; the stored files may stand in one of their own. It tells nothing of its files, and
/// counts
/// its failures.
#[derive(Drop)]
pub struct FolderDisk<R: Files> {
    folder: Folder<R>,
    faults: u64,
}

impl<R: Files> FolderDisk<R>
where
    R::File: Turn + Drop,
{
    /// All files stand in the current folder. It has not failed yet.
    pub fn new(alloc: Global, rt: R) -> Result<FolderDisk<R>, Memory>
    where
        R: Drop,
        ensures { IfOk result (λ d. d.faults ≡ 0) }
    {
        FolderDisk::with_stored(alloc, rt, &[])
    }

    /// The stored files stand in the folder of a path, all others in the current one. It has not failed yet.
    pub fn with_stored(alloc: Global, rt: R, path: &[u8]) -> Result<FolderDisk<R>, Memory>
    where
        R: Drop,
        ensures { IfOk result (λ d. d.faults ≡ 0) }
    {
        Ok(FolderDisk {
            folder: Folder::new(alloc, rt, path)?,
            faults: 0,
        })
    }

    // counts a failure; what was begun and not yet committed goes
    fn fail(&mut self)
        ensures later { self.old.faults ≤ self.new.faults }
        ensures rose { Rose self.old.faults self.new.faults }
    {
        self.folder.give_up();
        self.faults = one_more(self.faults);
    }

    // the answer of a call; where it failed, the failure is counted
    fn counted<T>(&mut self, made: Result<T, Failed>) -> Result<T, Failed>
        ensures later { self.old.faults ≤ self.new.faults }
        ensures cause { OnErr result (Rose self.old.faults self.new.faults) }
    {
        if made.is_err() {
            self.fail();
        }
        made
    }

    // the same of a call that takes memory
    fn counted_refusal<T>(&mut self, made: Result<T, DiskRefusal>) -> Result<T, DiskRefusal>
        ensures later { self.old.faults ≤ self.new.faults }
        ensures cause { result ≡ Err DiskRefusal.Failed → Rose self.old.faults self.new.faults }
    {
        if let Err(DiskRefusal::Failed) = made {
            self.fail();
        }
        made
    }
}

impl<R: Files + Clone + Drop> Disk for FolderDisk<R>
where
    R::File: Turn + Drop,
{
    ghost use Rattle.sccs_disk.specs.FolderTold.{never_tells, never_shows};

    ghost told = { λ _. Nothing };

    ghost faults = { λ d. d.faults };

    ghost sane = { never_tells };

    ghost finite = { never_shows };

    fn size(&mut self, name: &Name) -> Result<Option<u64>, Failed> {
        let made = self.folder.size(name);
        self.counted(made)
    }

    fn read_at(
        &mut self,
        name: &Name,
        from: u64,
        into: &mut [u8],
    ) -> Result<Option<usize>, Failed> {
        match self.folder.read_at(name, from, into) {
            Ok(count) => Ok(count),
            Err(Failed) => {
                self.fail();
                Err(Failed)
            }
        }
    }

    fn writable(&mut self, name: &Name) -> Result<Option<bool>, Failed> {
        let made = self.folder.writable(name);
        self.counted(made)
    }

    fn create(&mut self, name: &Name) -> Result<Creation, DiskRefusal> {
        let made = self.folder.create(name);
        self.counted_refusal(made)
    }

    fn append(&mut self, name: &Name, bytes: &[u8]) -> Result<(), DiskRefusal> {
        let made = self.folder.append(name, bytes);
        Ok(self.counted(made)?)
    }

    fn write_at(&mut self, name: &Name, from: u64, bytes: &[u8]) -> Result<(), DiskRefusal> {
        let made = self.folder.write_at(name, from, bytes);
        Ok(self.counted(made)?)
    }

    fn protect(&mut self, name: &Name) -> Result<(), Failed> {
        let made = self.folder.protect(name);
        self.counted(made)
    }

    fn sync(&mut self, name: &Name) -> Result<(), Failed> {
        let made = self.folder.sync(name);
        self.counted(made)
    }

    fn rename(&mut self, from: &Name, to: &Name) -> Result<(), Failed> {
        let made = self.folder.rename(from, to);
        self.counted(made)
    }

    fn remove(&mut self, name: &Name) -> Result<(), Failed> {
        let made = self.folder.remove(name);
        self.counted(made)
    }

    fn sync_names(&mut self) -> Result<(), Failed> {
        let made = self.folder.sync_names();
        self.counted(made)
    }

    fn list(&mut self, alloc: Global) -> Result<Names, DiskRefusal> {
        let listed = self.folder.list(alloc);
        self.counted_refusal(listed)
    }
}
