//! The files of a folder, or of two, by calls of the system.
ghost use Rattle.std.specs.Prelude.{◌≤◌, length, IfOk, IfSome};

use crate::folder_order::FolderOrder;
use crate::folder_places::{
    Places, Role, has_letter, is_ambiguous, is_stored, role_of, with_letter,
};
use crate::folder_reading::{FolderReader, is_at, open_to_read, regular, standing};
use crate::folder_turns::{Attempt, Claims, TRIES, Turn, stands, wait_for};
use crate::folder_writing::{FolderWriter, take_rights};
use sccs_base::{Failed, Memory, Name, Names};
use sccs_disk::{Creation, DiskRefusal};
use std::alloc::Global;
use std::fs::{DirEntry, OpenFile, OpenOptions};
use std::io::ErrorKind;
use std::os::unix::fs::{MetadataExt, OpenOptionsExt, PermissionsExt};
use std::rt::Files;
use std::{fs, io};

// the rights of a new file, as far as the mask of the process leaves them; those that its owner has; those to write it;
// and those to run it
const ALL_RIGHTS: u32 = 0o666;

const OWNER_RIGHTS: u32 = 0o600;

const WRITE_RIGHTS: u32 = 0o222;

const RUN_RIGHTS: u32 = 0o111;

/// The current folder, and that of stored files. The two files that were read last are kept open and read ahead. The
/// file
/// that was made or written last is kept open, and what is appended is held back until it is long, or another call
/// needs
/// it written. What a command makes for its turn it holds until it is gone or has another name.
#[derive(Drop)]
pub struct Folder<R: Files> {
    rt: R,
    places: Places,
    // the same, for the second of two names
    targets: Places,
    reader: FolderReader<R::File>,
    writer: FolderWriter<R::File>,
    claims: Claims<R::File>,
    order: FolderOrder<R::File>,
    // whether an s-, p- or g-file was changed since the last step ended
    begun: bool,
}

// what the system answered, without the kind of its failure
fn made<T>(answer: io::Result<T>) -> Result<T, Failed> {
    match answer {
        Ok(value) => Ok(value),
        Err(_) => Err(Failed),
    }
}

// why a call that takes memory failed
fn refusal_of(error: &io::Error) -> DiskRefusal {
    if error.kind() == ErrorKind::OutOfMemory {
        DiskRefusal::Memory
    } else {
        DiskRefusal::Failed
    }
}

// makes an empty file, exclusively and not through a link; None where one is there
fn make_file<R: Files>(rt: &R, path: &str, rights: u32) -> Result<Option<R::File>, Failed> {
    let mut how = OpenOptions::new();
    how.write(true).create_new(true).mode(rights);
    match how.open(rt, path) {
        Ok(file) => Ok(Some(file)),
        Err(error) => {
            if error.kind() == ErrorKind::AlreadyExists {
                Ok(None)
            } else {
                Err(Failed)
            }
        }
    }
}

// the rights of a new file of a name whose s-file has this mode: an x-file has none for group and others, nor to run
// it,
// that its s-file hasn't, and a g-file may be run by whom its s-file may be
fn rights_of(name: &Name, mode: u32) -> u32 {
    if has_letter(name, b'x') {
        (ALL_RIGHTS | RUN_RIGHTS) & (mode | OWNER_RIGHTS)
    } else {
        ALL_RIGHTS | (mode & RUN_RIGHTS)
    }
}

impl<R: Files> Folder<R>
where
    R::File: Turn + Drop,
{
    /// No file is open. The path is that of the folder of stored files; without bytes they stand in the current one.
    pub fn new(alloc: Global, rt: R, stored: &[u8]) -> Result<Folder<R>, Memory>
    where
        R: Drop,
    {
        Ok(Folder {
            rt,
            places: Places::new(alloc, stored)?,
            targets: Places::new(alloc, stored)?,
            reader: FolderReader::new(alloc)?,
            writer: FolderWriter::new(alloc)?,
            claims: Claims::new(alloc),
            order: FolderOrder::new(alloc),
            begun: false,
        })
    }

    // removes a file, whatever becomes of it
    fn drop_file(&mut self, name: &Name) {
        if let Ok(path) = self.places.of(name) {
            let _ = fs::remove_file(&self.rt, path);
        }
    }

    /// Closes the files that are open behind a failure, which changes no other file: what is held back is written.
    /// Where no
    /// s-, p- or g-file has changed yet, what this command made is taken away, the z-files last.
    pub fn give_up(&mut self) {
        self.reader.close();
        let made = self.writer.made();
        let _ = self.writer.flush();
        self.writer.close();
        if self.begun {
            return;
        }
        if let Some(name) = made {
            self.drop_file(&name);
        }
        for _ in 0..u64::MAX {
            let Some(lock) = self.claims.made() else {
                return;
            };
            for letter in [b'x', b'q', b'z'] {
                if let Some(name) = with_letter(&lock, letter) {
                    self.drop_file(&name);
                }
            }
            self.claims.release(&lock);
        }
    }

    // whether the file of a name is this command's by its turn
    fn is_ours(&self, name: &Name) -> bool {
        self.writer.holds(name) || self.claims.holds(name)
    }

    // writes what is held back from a file
    fn settle_file(&mut self, name: &Name) -> Result<(), Failed> {
        if self.writer.holds(name) {
            self.writer.flush()
        } else {
            Ok(())
        }
    }

    // the length of a lock that nobody holds, which is this command's from now on; None where another command holds it
    fn find_lock(&mut self, name: &Name) -> Result<Option<u64>, Failed> {
        let path = self.places.of(name)?;
        let Some(file) = open_to_read(&self.rt, path)? else {
            return Ok(None);
        };
        let there = match file.attempt() {
            Attempt::Ours => stands(&self.rt, path, &file),
            Attempt::Theirs => false,
            Attempt::Unable => true,
        };
        if !there {
            return Ok(None);
        }
        self.take_up(name, file)
    }

    // the length of the intent that a group left that was stopped
    fn find_intent(&mut self, name: &Name) -> Result<Option<u64>, Failed> {
        let path = self.places.of(name)?;
        let Some(file) = wait_for(&self.rt, path)? else {
            return Ok(None);
        };
        let length = self.take_up(name, file)?;
        self.order.groups(&self.rt, &mut self.places, true)?;
        Ok(length)
    }

    // holds what a command left that was stopped; its length
    fn take_up(&mut self, name: &Name, file: R::File) -> Result<Option<u64>, Failed> {
        let length = made(file.metadata())?.len();
        if self.claims.make_room().is_err() {
            return Err(Failed);
        }
        self.claims.take(name, file, false);
        self.order.takes_up();
        Ok(Some(length))
    }

    // the length of a y-file or a plan that nobody makes any more
    fn find_left(&mut self, name: &Name) -> Result<Option<u64>, Failed> {
        match wait_for(&self.rt, self.places.of(name)?)? {
            Some(file) => Ok(Some(made(file.metadata())?.len())),
            None => Ok(None),
        }
    }

    // the length of a file that need not be read
    fn length_of(&mut self, name: &Name) -> Result<Option<u64>, Failed> {
        match standing(&self.rt, self.places.of(name)?)? {
            Some(metadata) => Ok(Some(metadata.len())),
            None => Ok(None),
        }
    }

    /// The length of a file. That of a z-file which a command at work holds isn't there; what one command at a time
    /// makes
    /// is waited for.
    pub fn size(&mut self, name: &Name) -> Result<Option<u64>, Failed> {
        self.settle_file(name)?;
        if self.is_ours(name) {
            return self.length_of(name);
        }
        match role_of(name) {
            Role::Lock => self.find_lock(name),
            Role::Intent => self.find_intent(name),
            Role::Turn => self.find_left(name),
            Role::Working => self.length_of(name),
            Role::Other => {
                let path = self.places.of(name)?;
                match self.reader.open(&self.rt, path, name)? {
                    Some(metadata) => Ok(Some(metadata.len())),
                    None => Ok(None),
                }
            }
        }
    }

    pub fn read_at(
        &mut self,
        name: &Name,
        from: u64,
        into: &mut [u8],
    ) -> Result<Option<usize>, Failed>
        ensures { IfOk result (λ r. IfSome r (λ n. n ≤ length into.old)) }
    {
        self.settle_file(name)?;
        let path = self.places.of(name)?;
        self.reader.read_at(&self.rt, path, name, from, into)
    }

    pub fn writable(&mut self, name: &Name) -> Result<Option<bool>, Failed> {
        match regular(&self.rt, self.places.of(name)?)? {
            Some(metadata) => Ok(Some(!metadata.permissions().readonly())),
            None => Ok(None),
        }
    }

    // opens the s-file of a lock that is to be made, where it is there. One that can't be read, or that has a second
    // name,
    // which nobody would keep in step, fails.
    fn open_history(&mut self, history: &Name) -> Result<(), Failed> {
        self.reader.close();
        let path = self.places.of(history)?;
        match self.reader.open(&self.rt, path, history)? {
            Some(metadata) if metadata.nlink() > 1 => Err(Failed),
            _ => Ok(()),
        }
    }

    // closes an s-file that was opened before its lock was made, where another stands there by now
    fn check_history(&mut self, history: &Name) -> Result<(), Failed> {
        let path = self.places.of(history)?;
        let there = regular(&self.rt, path)?;
        let same = match (self.reader.open(&self.rt, path, history)?, there) {
            (Some(held), Some(there)) => is_at(&there, held),
            (None, None) => true,
            _ => false,
        };
        if !same {
            self.reader.close();
        }
        Ok(())
    }

    // makes a z-file, which is this command's as long as it lives; another's, and one that recovery has taken up before
    // it
    // was held, is there
    fn create_lock(&mut self, name: &Name) -> Result<Creation, DiskRefusal> {
        let Some(history) = with_letter(name, b's') else {
            return Err(DiskRefusal::Failed);
        };
        self.open_history(&history)?;
        self.claims.release_left();
        self.claims.make_room()?;
        let path = self.places.of(name)?;
        let Some(file) = make_file(&self.rt, path, ALL_RIGHTS)? else {
            return Ok(Creation::Exists);
        };
        let taken = match file.attempt() {
            Attempt::Ours => !stands(&self.rt, path, &file),
            Attempt::Theirs => true,
            Attempt::Unable => false,
        };
        if taken {
            return Ok(Creation::Exists);
        }
        self.claims.take(name, file, true);
        self.order.changed(&self.places, name);
        self.check_history(&history)?;
        Ok(Creation::Created)
    }

    // whether a y-file or a plan was made and is held
    fn make_in_turn(&mut self, name: &Name, rights: u32) -> Result<bool, Failed> {
        let path = self.places.of(name)?;
        let Some(file) = make_file(&self.rt, path, rights)? else {
            // what was left is held while it is removed
            let left = wait_for(&self.rt, path)?;
            if left.is_some() {
                made(fs::remove_file(&self.rt, path))?;
            }
            return Ok(false);
        };
        let kept = match file.attempt() {
            Attempt::Ours => stands(&self.rt, path, &file),
            Attempt::Theirs => false,
            Attempt::Unable => true,
        };
        if kept {
            self.writer.begin(name, file);
        }
        Ok(kept)
    }

    // makes a y-file or a plan, once no other command has it; what a command left there that was stopped goes
    fn create_in_turn(&mut self, name: &Name) -> Result<Creation, DiskRefusal> {
        let rights = self.rights_for(name)?;
        for _ in 0..TRIES {
            if self.make_in_turn(name, rights)? {
                self.order.changed(&self.places, name);
                return Ok(Creation::Created);
            }
        }
        Err(DiskRefusal::Failed)
    }

    // the rights of a new file of a name: by those of the s-file, where there is one
    fn rights_for(&mut self, name: &Name) -> Result<u32, Failed> {
        let history = match role_of(name) {
            Role::Working | Role::Turn => with_letter(name, b's'),
            _ => None,
        };
        let Some(history) = history else {
            return Ok(ALL_RIGHTS);
        };
        let path = self.places.of(&history)?;
        let mode = match self.reader.mode(&history) {
            Some(mode) => Some(mode),
            None => match regular(&self.rt, path)? {
                Some(metadata) => Some(metadata.mode()),
                None => None,
            },
        };
        match mode {
            Some(mode) => Ok(rights_of(name, mode)),
            None => Ok(ALL_RIGHTS),
        }
    }

    /// Makes an empty file; it isn't made through a link. In two folders the locks and y-files of a module whose g-file
    /// has the name of a stored file can't be made.
    pub fn create(&mut self, name: &Name) -> Result<Creation, DiskRefusal> {
        self.writer.settle()?;
        self.reader.close_name(name);
        if self.places.are_two() && is_ambiguous(name) {
            return Err(DiskRefusal::Failed);
        }
        match role_of(name) {
            Role::Lock => return self.create_lock(name),
            Role::Turn => return self.create_in_turn(name),
            _ => {}
        }
        let rights = self.rights_for(name)?;
        self.order
            .before_making(&self.rt, &mut self.places, &self.claims, name)?;
        let Some(file) = make_file(&self.rt, self.places.of(name)?, rights)? else {
            return Ok(Creation::Exists);
        };
        self.writer.begin(name, file);
        self.order.changed(&self.places, name);
        Ok(Creation::Created)
    }

    pub fn append(&mut self, name: &Name, bytes: &[u8]) -> Result<(), Failed> {
        self.reader.close_name(name);
        let path = self.places.of(name)?;
        self.writer.append(&self.rt, path, name, bytes)
    }

    pub fn write_at(&mut self, name: &Name, from: u64, bytes: &[u8]) -> Result<(), Failed> {
        self.reader.close_name(name);
        let path = self.places.of(name)?;
        self.writer.write_at(&self.rt, path, name, from, bytes)
    }

    pub fn protect(&mut self, name: &Name) -> Result<(), Failed> {
        self.settle_file(name)?;
        if let Some(file) = self.writer.file(name) {
            return take_rights(file, WRITE_RIGHTS);
        }
        match open_to_read(&self.rt, self.places.of(name)?)? {
            Some(file) => take_rights(&file, WRITE_RIGHTS),
            None => Err(Failed),
        }
    }

    pub fn sync(&mut self, name: &Name) -> Result<(), Failed> {
        self.settle_file(name)?;
        if let Some(file) = self.writer.file(name) {
            return made(file.sync_all());
        }
        match open_to_read(&self.rt, self.places.of(name)?)? {
            Some(file) => made(file.sync_all()),
            None => Err(Failed),
        }
    }

    // waits until the intent of another group is gone; one that is left is never written over
    fn free_intent(&mut self, to: &Name) -> Result<(), Failed> {
        if role_of(to) != Role::Intent {
            return Ok(());
        }
        match wait_for(&self.rt, self.places.of(to)?)? {
            Some(_left) => Err(Failed),
            None => Ok(()),
        }
    }

    // what becomes of the file that had a name: the intent of a group stays this command's, another one's turn is over
    fn hand_over(&mut self, from: &Name, to: &Name) -> Result<(), Failed> {
        if role_of(to) != Role::Intent {
            if self.writer.holds(from) {
                self.writer.close();
            }
            return Ok(());
        }
        if let Some(file) = self.writer.take(from) {
            if self.claims.make_room().is_err() {
                return Err(Failed);
            }
            self.claims.take(to, file, false);
        }
        self.order.groups(&self.rt, &mut self.places, true)
    }

    /// Puts a file in the place of another, which may be there. An l-file has no rights to run it.
    pub fn rename(&mut self, from: &Name, to: &Name) -> Result<(), Failed> {
        self.writer.flush()?;
        self.reader.close();
        self.free_intent(to)?;
        if has_letter(to, b'l') {
            if let Some(file) = self.writer.file(from) {
                take_rights(file, RUN_RIGHTS)?;
            }
        }
        self.order.before(&self.rt, &mut self.places, to)?;
        self.begun = true;
        let source = self.places.of(from)?;
        let target = self.targets.of(to)?;
        made(fs::rename(&self.rt, source, target))?;
        self.order.changed(&self.places, from);
        self.order.changed(&self.places, to);
        self.hand_over(from, to)
    }

    // holds a file that is to be removed, so that no other command makes it its own meanwhile; None where another
    // command
    // has removed it
    fn hold(&mut self, name: &Name) -> Result<Option<R::File>, Failed> {
        let path = self.places.of(name)?;
        match role_of(name) {
            Role::Turn | Role::Intent => wait_for(&self.rt, path),
            _ => match open_to_read(&self.rt, path)? {
                Some(file) if file.attempt() == Attempt::Theirs => Err(Failed),
                there => Ok(there),
            },
        }
    }

    // removes the file of a name, which is this command's, or nobody's by its turn
    fn unlink(&mut self, name: &Name) -> Result<(), Failed> {
        self.order.before(&self.rt, &mut self.places, name)?;
        made(fs::remove_file(&self.rt, self.places.of(name)?))?;
        self.claims.release(name);
        if self.writer.holds(name) {
            self.writer.close();
        }
        if role_of(name) == Role::Lock {
            self.order.unlocked();
        } else {
            self.order.changed(&self.places, name);
        }
        if role_of(name) == Role::Intent {
            self.order.groups(&self.rt, &mut self.places, false)?;
        }
        Ok(())
    }

    /// Removes a file. A lock that another command holds isn't removed; what one command at a time makes is waited for,
    /// and
    /// may be gone then.
    pub fn remove(&mut self, name: &Name) -> Result<(), Failed> {
        self.settle_file(name)?;
        self.reader.close();
        let role = role_of(name);
        self.begun |= role == Role::Other;
        if role == Role::Other || role == Role::Working || self.is_ours(name) {
            return self.unlink(name);
        }
        match self.hold(name)? {
            Some(_held) => self.unlink(name),
            None if role == Role::Turn => Ok(()),
            None => Err(Failed),
        }
    }

    /// Syncs the names of each folder in which some have changed.
    pub fn sync_names(&mut self) -> Result<(), Failed> {
        self.writer.flush()?;
        self.reader.close();
        self.order.sync(&self.rt, &mut self.places)?;
        if self.claims.made().is_none() {
            self.begun = false;
        }
        Ok(())
    }

    // the name of an entry of the folder of stored files; None where it is no name, or no regular file has it. That
    // what
    // stands under the name of an s-file can't be told is a failure, so that none is passed over in silence.
    fn listed<S: Files>(&mut self, entry: &DirEntry<S, Global>) -> Result<Option<Name>, Failed> {
        let Some(name) = Name::read(entry.file_name().as_bytes()) else {
            return Ok(None);
        };
        if self.places.are_two() && !is_stored(name.bytes()) {
            return Ok(None);
        }
        match fs::metadata(&self.rt, self.places.of(&name)?) {
            Ok(metadata) => Ok(if metadata.is_file() { Some(name) } else { None }),
            Err(error) => {
                if name.is_sfile() && error.kind() != ErrorKind::NotFound {
                    Err(Failed)
                } else {
                    Ok(None)
                }
            }
        }
    }

    /// The names of the regular files in the folder of stored files; what has no name that is one is passed over. An
    /// s-file's name of which can't be told what stands there fails.
    pub fn list(&mut self, alloc: Global) -> Result<Names, DiskRefusal>
    where
        R: Clone + Drop,
    {
        self.writer.flush()?;
        let mut names = Names::empty(alloc);
        let rt = self.rt.clone()?;
        let entries = match fs::read_dir(&(rt, alloc), self.places.stored()?) {
            Ok(entries) => entries,
            Err(error) => return Err(refusal_of(&error)),
        };
        for entry in entries {
            match entry {
                Ok(entry) => {
                    if let Some(name) = self.listed(&entry)? {
                        names.push(name)?;
                    }
                }
                Err(error) => {
                    if error.kind() != ErrorKind::InvalidFilename {
                        return Err(refusal_of(&error));
                    }
                }
            }
        }
        Ok(names)
    }
}
