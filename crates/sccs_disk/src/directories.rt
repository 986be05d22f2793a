ghost use Rattle.std.specs.Prelude.{◌≡◌, ◌<◌, ◌≤◌, false, Some, length, drop, option_map, is_some, IsTrue, ◌↔◌};
ghost use Rattle.std.specs.Prelude.{vec_len, vec_capacity, IsOk, IfOk, IfSome, OnOk, OnErr};
ghost use Rattle.sccs_disk.specs.Calls.{HasBytes};
ghost use Rattle.sccs_disk.specs.Effects.{renamed};
ghost use Rattle.sccs_disk.specs.Files.{Content, file_at, put};
ghost use Rattle.sccs_disk.specs.MemoryFiles.{left_files};
ghost use Rattle.sccs_disk.specs.Reads.{Measures, Marks, Reads, IsListing};
ghost use Rattle.sccs_disk.specs.States.{stored, shown, made, takes_memory, empty_state, state_put};

use crate::changes::{Change, FileChange, StoredFile};
use crate::fills::Fill;
use crate::name_table::NameTable;
use sccs_base::{Memory, Name, Names, copy_front};
use std::alloc::Global;

/// Files in memory, and the names that lead to them.
#[derive(Drop)]
pub struct Directory {
    files: Vec<StoredFile>,
    names: NameTable,
    ghost paired: { length names.names.items ≡ length files.items },
}

impl Directory {
    ghost use Rattle.sccs_disk.specs.DirectoryStates.{state_of};

    pub fn new(alloc: Global) -> Directory
        ensures { state_of result ≡ empty_state }
    {
        Directory {
            files: Vec::new(alloc),
            names: NameTable::new(alloc),
        }
    }

    /// The file under a name.
    pub fn find(&self, name: &Name) -> Option<&StoredFile>
        ensures { option_map (λ (f : _). stored f.now) result ≡ file_at (state_of self.now).files
            ((state_of self.now).names name.now) }
    {
        let place = self.names.place(name)?;
        Some(&self.files[place])
    }

    /// Takes room for one file more.
    pub fn reserve(&mut self) -> Result<(), Memory>
        ensures same { state_of self.new ≡ state_of self.old }
        ensures files { OnOk result (vec_len self.new.files < vec_capacity self.new.files) }
        ensures names { OnOk result (vec_len self.new.names.names < vec_capacity self.new.names.names) }
    {
        self.files.reserve(1)?;
        self.names.reserve()
    }

    /// Puts a file under a name.
    pub fn put(&mut self, name: &Name, file: StoredFile)
        requires files { vec_len self.old.files < vec_capacity self.old.files }
        requires names { vec_len self.old.names.names < vec_capacity self.old.names.names }
        ensures { state_of self.new ≡ state_put name.now (stored file) (state_of self.old) }
    {
        self.names.push(name);
        match self.files.push(file) {
            Ok(()) => (),
            Err(_) => unreachable!(),
        }
    }

    // makes an empty file
    fn create(&mut self, name: &Name) -> Result<(), Memory>
        ensures ok { OnOk result (state_of self.new ≡ made (Change.Create name.now) (state_of self.old)) }
        ensures err { OnErr result (state_of self.new ≡ state_of self.old) }
    {
        self.reserve()?;
        let empty = StoredFile {
            bytes: Vec::new(*self.files.allocator()),
            writable: true,
            firm: false,
        };
        self.put(name, empty);
        Ok(())
    }

    fn change_file(&mut self, name: &Name, change: &FileChange) -> Result<(), Memory>
        ensures ok { OnOk result (state_of self.new ≡ made (Change.File name.now change.now) (state_of self.old)) }
        ensures err { OnErr result (state_of self.new ≡ state_of self.old) }
        ensures sure { takes_memory (Change.File name.now change.now) ≡ false → IsOk result }
    {
        match self.names.place(name) {
            Some(place) => self.files[place].change(change),
            None => Ok(()),
        }
    }

    /// Takes a file out with its name.
    pub fn discard(&mut self, name: &Name)
        ensures { shown (state_of self.new) ≡ put (shown (state_of self.old)) name.now None }
    {
        if let Some(place) = self.names.place(name) {
            self.names.take_out(place);
            self.files.remove(place);
        }
    }

    /// Gives a file another name. A file under that name is taken out.
    pub fn rename(&mut self, from: &Name, to: &Name)
        ensures { shown (state_of self.new) ≡ renamed from.now to.now (shown (state_of self.old)) }
    {
        if from.is(to) {
            return;
        }
        self.discard(to);
        self.names.rename(from, to);
    }

    /// Makes a change. At want of memory nothing changes.
    pub fn make(&mut self, change: &Change) -> Result<(), Memory>
        ensures ok { OnOk result (state_of self.new ≡ made change.now (state_of self.old)) }
        ensures err { OnErr result (state_of self.new ≡ state_of self.old) }
        ensures sure { takes_memory change.now ≡ false → IsOk result }
    {
        match change {
            Change::Create(name) => self.create(name),
            Change::File(name, change) => self.change_file(name, change),
            Change::Rename(from, to) => {
                self.names.rename(from, to);
                Ok(())
            }
            Change::Remove(name) => {
                self.names.remove(name);
                Ok(())
            }
            Change::SyncNames => Ok(()),
        }
    }

    /// The same files and names.
    pub fn copy(&self, alloc: Global) -> Result<Directory, Memory>
        ensures { IfOk result (λ directory. state_of directory ≡ state_of self.now) }
    {
        let mut files = Vec::with_capacity(alloc, self.files.len())?;
        for file in &self.files {
            files.push(file.copy(alloc)?)?;
        }
        let names = self.names.copy(alloc)?;
        Ok(Directory { files, names })
    }

    /// The files as a stop leaves them, under the names of another directory.
    pub fn left(&self, alloc: Global, named: &Directory, fill: Fill) -> Result<Directory, Memory>
        requires { length named.now.files.items ≤ length self.now.files.items }
        ensures files { IfOk result (λ d. (state_of d).files ≡ left_files fill (length named.now.files.items)
            (state_of self.now).files) }
        ensures names { IfOk result (λ d. (state_of d).names ≡ (state_of named.now).names) }
    {
        let count = named.files.len();
        let mut files = Vec::with_capacity(alloc, count)?;
        for file in &self.files[..count] {
            files.push(file.left(alloc, fill)?)?;
        }
        let names = named.names.copy(alloc)?;
        Ok(Directory { files, names })
    }

    /// Whether a name is there.
    pub fn has(&self, name: &Name) -> bool
        ensures { result ≡ is_some (shown (state_of self.now) name.now) }
    {
        self.find(name).is_some()
    }

    /// Whether the file of a name has so many bytes from a place on.
    pub fn has_range(&self, name: &Name, from: u64, count: usize) -> bool
        ensures { IsTrue result ↔ HasBytes (shown (state_of self.now) name.now) from count }
    {
        match self.find(name) {
            Some(file) => {
                let len = file.bytes.len() as u64;
                from <= len && count as u64 <= len - from
            }
            None => false,
        }
    }

    /// The bytes of a file.
    pub fn bytes(&self, name: &Name) -> Option<&[u8]>
        ensures { option_map (λ (b : _). b.now) result ≡ option_map (λ (c : Content). c.bytes)
            (shown (state_of self.now) name.now) }
    {
        let file = self.find(name)?;
        Some(file.bytes.as_slice())
    }

    /// The length of a file in bytes.
    pub fn size(&self, name: &Name) -> Option<u64>
        ensures { Measures (Some (shown (state_of self.now))) name.now result }
    {
        let file = self.find(name)?;
        Some(file.bytes.len() as u64)
    }

    /// Whether a file may be written.
    pub fn writable(&self, name: &Name) -> Option<bool>
        ensures { Marks (Some (shown (state_of self.now))) name.now result }
    {
        let file = self.find(name)?;
        Some(file.writable)
    }

    /// Reads from a place on.
    pub fn read_at(&self, name: &Name, from: u64, into: &mut [u8]) -> Option<usize>
        ensures bound { IfSome result (λ n. n ≤ length into.old) }
        ensures reads { Reads (Some (shown (state_of self.now))) name.now from into.old into.new result }
    {
        let file = self.find(name)?;
        Some(copy_front(rest_of(&file.bytes, from), into))
    }

    /// The names that are there.
    pub fn list(&self, alloc: Global) -> Result<Names, Memory>
        ensures { IfOk result (IsListing (shown (state_of self.now))) }
    {
        self.names.list(alloc)
    }
}

// the bytes from a place on, none past the end
fn rest_of(bytes: &[u8], from: u64) -> &[u8]
    ensures { result.now ≡ drop from bytes.now }
{
    if from < bytes.len() as u64 {
        &bytes[from as usize..]
    } else {
        &bytes[bytes.len()..]
    }
}
