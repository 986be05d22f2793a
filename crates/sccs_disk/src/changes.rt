ghost use Rattle.std.specs.Prelude.{◌≡◌, ◌+◌, false, [], length, IsOk, IfOk, OnOk, OnErr};
ghost use Rattle.sccs_disk.specs.Effects.{firm, overwritten};
ghost use Rattle.sccs_disk.specs.MemoryFiles.{filled};
ghost use Rattle.sccs_disk.specs.States.{stored, file_changed, takes_memory};

use crate::fills::Fill;
use sccs_base::{Memory, Name};
use std::alloc::Global;

/// A file in memory, and whether a stop leaves it as it is.
#[derive(Drop)]
pub struct StoredFile {
    pub bytes: Vec<u8>,
    pub writable: bool,
    pub firm: bool,
}

/// A change of a file.
#[derive(Drop)]
pub enum FileChange {
    Append(Vec<u8>),
    WriteAt(u64, Vec<u8>),
    Protect,
    Sync,
}

/// A change that a call made.
#[derive(Drop)]
pub enum Change {
    Create(Name),
    File(Name, FileChange),
    Rename(Name, Name),
    Remove(Name),
    SyncNames,
}

// writes over as many bytes from a place on; behind the end it adds them
fn write_over(bytes: &mut Vec<u8>, from: u64, with: &[u8]) -> Result<(), Memory>
    ensures ok { OnOk result
        (bytes.new.items ≡ (overwritten from with.now (record { bytes = bytes.old.items; writable = false })).bytes) }
    ensures err { OnErr result (bytes.new.items ≡ bytes.old.items) }
{
    let len = bytes.len() as u64;
    if from <= len && with.len() as u64 <= len - from {
        let start = from as usize;
        bytes[start..start + with.len()].copy_from_slice(with);
        return Ok(());
    }
    let start = if from <= len {
        from as usize
    } else {
        bytes.len()
    };
    bytes.reserve(with.len())?;
    bytes.truncate(start);
    match bytes.extend_from_slice(with) {
        Ok(()) => Ok(()),
        Err(_) => unreachable!(),
    }
}

impl StoredFile {
    /// A firm file with these bytes.
    pub fn firm(alloc: Global, bytes: &[u8], writable: bool) -> Result<StoredFile, Memory>
        ensures { IfOk result (λ f. stored f ≡ firm (record { bytes = bytes.now; writable = writable })) }
    {
        let bytes = bytes.to_vec(alloc)?;
        Ok(StoredFile {
            bytes,
            writable,
            firm: true,
        })
    }

    /// The same file.
    pub fn copy(&self, alloc: Global) -> Result<StoredFile, Memory>
        ensures { IfOk result (λ file. stored file ≡ stored self.now) }
    {
        let bytes = self.bytes.to_vec(alloc)?;
        Ok(StoredFile {
            bytes,
            writable: self.writable,
            firm: self.firm,
        })
    }

    /// The file as a stop leaves it.
    pub fn left(&self, alloc: Global, fill: Fill) -> Result<StoredFile, Memory>
        ensures { IfOk result (λ file. stored file ≡ firm (filled fill (stored self.now))) }
    {
        let bytes = if self.firm {
            self.bytes.to_vec(alloc)?
        } else {
            match fill {
                Fill::Empty => Vec::new(alloc),
                Fill::Written => self.bytes.to_vec(alloc)?,
                Fill::Junk(byte) => vec![in alloc; byte; self.bytes.len()]?,
            }
        };
        Ok(StoredFile {
            bytes,
            writable: self.writable,
            firm: true,
        })
    }

    /// At want of memory nothing changes.
    pub fn change(&mut self, change: &FileChange) -> Result<(), Memory>
        ensures ok { OnOk result (stored self.new ≡ file_changed change.now (stored self.old)) }
        ensures err { OnErr result (stored self.new ≡ stored self.old) }
        ensures sure { takes_memory (Change.File [] change.now) ≡ false → IsOk result }
    {
        match change {
            FileChange::Append(bytes) => {
                self.bytes.extend_from_slice(bytes)?;
                self.firm = false;
            }
            FileChange::WriteAt(from, bytes) => {
                write_over(&mut self.bytes, *from, bytes)?;
                self.firm = false;
            }
            FileChange::Protect => {
                self.writable = false;
                self.firm = false;
            }
            FileChange::Sync => self.firm = true,
        }
        Ok(())
    }
}
