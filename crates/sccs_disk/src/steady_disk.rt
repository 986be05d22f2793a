ghost use Rattle.std.specs.Prelude.{◌≡◌, false, Some, option_map, IsOk, IfOk, IfErr, OnOk, OnErr};
ghost use Rattle.sccs_disk.specs.Files.{Content, put};
ghost use Rattle.sccs_disk.specs.Told.{Shows, seen};

use crate::changes::{Change, FileChange, StoredFile};
use crate::directories::Directory;
use crate::disks::{Creation, Disk, DiskRefusal};
use sccs_base::{Failed, Memory, Name, Names};
use std::alloc::Global;

/// A disk in memory that never fails. It tells its view alone.
#[derive(Drop)]
pub struct SteadyDisk {
    directory: Directory,
    alloc: Global,
}

impl SteadyDisk {
    ghost use Rattle.sccs_disk.specs.Calls.{Done};
    ghost use Rattle.sccs_disk.specs.SteadyDisks.{steady_view, empty_view};
    ghost use Rattle.sccs_disk.specs.States.{change_effect, takes_memory};

    /// A disk without files.
    pub fn new(alloc: Global) -> SteadyDisk
        ensures { steady_view result ≡ empty_view }
    {
        SteadyDisk {
            directory: Directory::new(alloc),
            alloc,
        }
    }

    /// Places a file.
    pub fn put(&mut self, name: &Name, bytes: &[u8], writable: bool) -> Result<(), Memory>
        ensures ok { OnOk result (steady_view self.new ≡ put (steady_view self.old) name.now
            (Some (record { bytes = bytes.now; writable = writable }))) }
        ensures err { OnErr result (steady_view self.new ≡ steady_view self.old) }
    {
        let file = StoredFile::firm(self.alloc, bytes, writable)?;
        self.directory.reserve()?;
        self.directory.put(name, file);
        Ok(())
    }

    /// The bytes of a file.
    pub fn bytes(&self, name: &Name) -> Option<&[u8]>
        ensures { option_map (λ (b : _). b.now) result
            ≡ option_map (λ (c : Content). c.bytes) (steady_view self.now name.now) }
    {
        self.directory.bytes(name)
    }

    // makes a change
    fn make(&mut self, change: &Change) -> Result<(), DiskRefusal>
        ensures done { OnOk result (Done (change_effect change.now) (Shows (steady_view self.old))
            (Shows (steady_view self.new))) }
        ensures err { OnErr result (steady_view self.new ≡ steady_view self.old) }
        ensures memory { IfErr result (λ e. e ≡ DiskRefusal.Memory) }
        ensures sure { takes_memory change.now ≡ false → IsOk result }
    {
        match self.directory.make(change) {
            Ok(()) => Ok(()),
            Err(_) => Err(DiskRefusal::Memory),
        }
    }

    // makes a change that takes no memory
    fn make_surely(&mut self, change: &Change)
        requires { takes_memory change.now ≡ false }
        ensures { Done (change_effect change.now) (Shows (steady_view self.old)) (Shows (steady_view self.new)) }
    {
        match self.make(change) {
            Ok(()) => (),
            Err(_) => unreachable!(),
        }
    }
}

impl Disk for SteadyDisk {
    ghost use Rattle.sccs_disk.specs.SteadyDisks.{steady_view, never_tells, steady_finite};

    ghost told = { λ d. Shows (steady_view d) };

    ghost faults = { λ _. 0 };

    ghost sane = { never_tells };

    ghost finite = { steady_finite };

    fn size(&mut self, name: &Name) -> Result<Option<u64>, Failed> {
        Ok(self.directory.size(name))
    }

    fn read_at(
        &mut self,
        name: &Name,
        from: u64,
        into: &mut [u8],
    ) -> Result<Option<usize>, Failed> {
        Ok(self.directory.read_at(name, from, into))
    }

    fn writable(&mut self, name: &Name) -> Result<Option<bool>, Failed> {
        Ok(self.directory.writable(name))
    }

    fn create(&mut self, name: &Name) -> Result<Creation, DiskRefusal> {
        if self.directory.has(name) {
            return Ok(Creation::Exists);
        }
        if self.make(&Change::Create(*name)).is_err() {
            return Err(DiskRefusal::Memory);
        }
        Ok(Creation::Created)
    }

    fn append(&mut self, name: &Name, bytes: &[u8]) -> Result<(), DiskRefusal> {
        let Ok(bytes) = bytes.to_vec(self.alloc) else {
            return Err(DiskRefusal::Memory);
        };
        self.make(&Change::File(*name, FileChange::Append(bytes)))
    }

    fn write_at(&mut self, name: &Name, from: u64, bytes: &[u8]) -> Result<(), DiskRefusal> {
        let Ok(bytes) = bytes.to_vec(self.alloc) else {
            return Err(DiskRefusal::Memory);
        };
        self.make(&Change::File(*name, FileChange::WriteAt(from, bytes)))
    }

    fn protect(&mut self, name: &Name) -> Result<(), Failed> {
        self.make_surely(&Change::File(*name, FileChange::Protect));
        Ok(())
    }

    fn sync(&mut self, _name: &Name) -> Result<(), Failed> {
        Ok(())
    }

    fn rename(&mut self, from: &Name, to: &Name) -> Result<(), Failed> {
        self.directory.rename(from, to);
        Ok(())
    }

    fn remove(&mut self, name: &Name) -> Result<(), Failed> {
        self.directory.discard(name);
        Ok(())
    }

    fn sync_names(&mut self) -> Result<(), Failed> {
        Ok(())
    }

    fn list(&mut self, alloc: Global) -> Result<Names, DiskRefusal> {
        let Ok(names) = self.directory.list(alloc) else {
            return Err(DiskRefusal::Memory);
        };
        Ok(names)
    }
}
