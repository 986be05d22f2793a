ghost use Rattle.std.specs.Prelude.{◌≡◌, ℕ, ◌≤◌, List, Some, length, IfOk, IfSome, OnErr, IsErrOf};
ghost use Rattle.sccs_base.specs.Stream.{Rose};
ghost use Rattle.sccs_disk.specs.Calls.{Changes, Writes, Half, Creates, FindsName, IsThere, HasRange};
ghost use Rattle.sccs_disk.specs.Effects.{creating, appending, overwriting, protecting, syncing, renaming, removing};
ghost use Rattle.sccs_disk.specs.Effects.{syncing_names};
ghost use Rattle.sccs_disk.specs.Files.{View, Model, IsSane, IsFinite};
ghost use Rattle.sccs_disk.specs.Told.{Told, Tells, seen};
ghost use Rattle.sccs_disk.specs.Reads.{Measures, Reads, Marks, Lists};

use sccs_base::{Failed, Memory, Name, Names};
use std::alloc::{AllocError, AllocFailed, Global};

/// Whether a file was made.
#[derive(Clone, Copy, Debug, PartialEq, Eq)]
pub enum Creation {
    Created,
    Exists,
}

/// Why a call that takes memory was not made.
#[derive(Clone, Copy, Debug, PartialEq, Eq)]
pub enum DiskRefusal {
    Failed,
    Memory,
}

impl From<Failed> for DiskRefusal {
    fn from(_fault: Failed) -> DiskRefusal
        ensures { result ≡ DiskRefusal.Failed }
    {
        DiskRefusal::Failed
    }
}

impl From<Memory> for DiskRefusal {
    fn from(_want: Memory) -> DiskRefusal
        ensures { result ≡ DiskRefusal.Memory }
    {
        DiskRefusal::Memory
    }
}

impl From<AllocError> for DiskRefusal {
    fn from(_error: AllocError) -> DiskRefusal
        ensures { result ≡ DiskRefusal.Memory }
    {
        DiskRefusal::Memory
    }
}

impl<T: Drop> From<AllocFailed<T>> for DiskRefusal {
    fn from(_error: AllocFailed<T>) -> DiskRefusal
        ensures { result ≡ DiskRefusal.Memory }
    {
        DiskRefusal::Memory
    }
}

/// A folder of files. A call fails only where the disk's count of faults rose, and answers want of
/// memory only where nothing changed. Calls that read change nothing.
pub trait Disk {
    /// What the disk tells of its files, and of those that it had.
    ghost told: { Self → Told };

    /// How often the disk has failed.
    ghost faults: { Self → ℕ };

    /// The length of a file in bytes; None where the name isn't there.
    fn size(&mut self, name: &Name) -> Result<Option<u64>, Failed>
        ensures ok { IfOk result (Measures (seen (told self.old)) name.now) }
        ensures same { told self.new ≡ told self.old }
        ensures later { faults self.old ≤ faults self.new }
        ensures cause { OnErr result (Rose (faults self.old) (faults self.new)) };

    /// Reads a file from a place on, counted from 0, into the front of a slice: as much as is there
    /// and fits. Answers how many bytes that is; None where the name isn't there.
    fn read_at(&mut self, name: &Name, from: u64, into: &mut [u8]) -> Result<Option<usize>, Failed>
        ensures bound { IfOk result (λ r. IfSome r (λ n. n ≤ length into.old)) }
        ensures ok { IfOk result (Reads (seen (told self.old)) name.now from into.old into.new) }
        ensures same { told self.new ≡ told self.old }
        ensures later { faults self.old ≤ faults self.new }
        ensures cause { OnErr result (Rose (faults self.old) (faults self.new)) };

    /// Whether a file may be written; None where the name isn't there.
    fn writable(&mut self, name: &Name) -> Result<Option<bool>, Failed>
        ensures ok { IfOk result (Marks (seen (told self.old)) name.now) }
        ensures same { told self.new ≡ told self.old }
        ensures later { faults self.old ≤ faults self.new }
        ensures cause { OnErr result (Rose (faults self.old) (faults self.new)) };

    /// Makes an empty file that may be written, unless the name is there. A stop may leave the file
    /// with any bytes, or without its name.
    fn create(&mut self, name: &Name) -> Result<Creation, DiskRefusal>
        ensures ok { IfOk result (Creates name.now (told self.old) (told self.new)) }
        ensures exact { IfOk result (FindsName (seen (told self.old)) name.now) }
        ensures half { IsErrOf result DiskRefusal.Failed
            → Half (creating name.now) (told self.old) (told self.new) }
        ensures memory { IsErrOf result DiskRefusal.Memory → told self.new ≡ told self.old }
        ensures later { faults self.old ≤ faults self.new }
        ensures cause { IsErrOf result DiskRefusal.Failed → Rose (faults self.old) (faults self.new) };

    /// Adds bytes at the end of a file that is there. Until the file is synced a stop may leave it
    /// with any bytes.
    fn append(&mut self, name: &Name, bytes: &[u8]) -> Result<(), DiskRefusal>
        requires { IsThere name.now (told self.old) }
        ensures { Writes (appending name.now bytes.now) (told self.old) (told self.new)
            (faults self.old) (faults self.new) result };

    /// Writes bytes over as many that are there, from a place on, counted from 0. Until the file is
    /// synced a stop may leave it with any bytes.
    fn write_at(&mut self, name: &Name, from: u64, bytes: &[u8]) -> Result<(), DiskRefusal>
        requires { HasRange name.now from (length bytes.now) (told self.old) }
        ensures { Writes (overwriting name.now from bytes.now) (told self.old) (told self.new)
            (faults self.old) (faults self.new) result };

    /// Takes from a file that is there the mark that it may be written. Until the file is synced a
    /// stop may leave it with any bytes.
    fn protect(&mut self, name: &Name) -> Result<(), Failed>
        requires { IsThere name.now (told self.old) }
        ensures { Changes (protecting name.now) (told self.old) (told self.new)
            (faults self.old) (faults self.new) result };

    /// After it, a stop leaves the bytes and the mark of a file as they are.
    fn sync(&mut self, name: &Name) -> Result<(), Failed>
        requires { IsThere name.now (told self.old) }
        ensures { Changes (syncing name.now) (told self.old) (told self.new)
            (faults self.old) (faults self.new) result };

    /// Gives a file that is there another name. A file under that name goes away. A stop may leave
    /// the names as they were.
    fn rename(&mut self, from: &Name, to: &Name) -> Result<(), Failed>
        requires { IsThere from.now (told self.old) }
        ensures { Changes (renaming from.now to.now) (told self.old) (told self.new)
            (faults self.old) (faults self.new) result };

    /// Removes a file that is there. A stop may leave it.
    fn remove(&mut self, name: &Name) -> Result<(), Failed>
        requires { IsThere name.now (told self.old) }
        ensures { Changes (removing name.now) (told self.old) (told self.new)
            (faults self.old) (faults self.new) result };

    /// After it, a stop leaves the names as they are.
    fn sync_names(&mut self) -> Result<(), Failed>
        ensures { Changes syncing_names (told self.old) (told self.new)
            (faults self.old) (faults self.new) result };

    /// The names that are there, each once, in any order.
    fn list(&mut self, alloc: Global) -> Result<Names, DiskRefusal>
        ensures ok { IfOk result (Lists (seen (told self.old))) }
        ensures same { told self.new ≡ told self.old }
        ensures later { faults self.old ≤ faults self.new }
        ensures cause { IsErrOf result DiskRefusal.Failed → Rose (faults self.old) (faults self.new) };

    /// A told model leads each name to a file of its own.
    ghost sane: { (disk : Self) (m : Model) (past : List Model) → told disk ≡ Tells m past → IsSane m };

    /// A told view is that of some folder.
    ghost finite: { (disk : Self) (v : View) → seen (told disk) ≡ Some v → IsFinite v };
}
