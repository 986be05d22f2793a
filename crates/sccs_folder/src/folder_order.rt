//! The order in which changed names come to the disk. Where the file system keeps it, one sync of the folder at the end
//! of a step is enough, as the model of a disk has it; where it doesn't, or nobody can tell, the folder is synced
//between.
use crate::folder_places::{HERE, Places, Role, has_letter, is_stored, role_of};
use crate::folder_turns::Claims;
use bstr::ByteSlice;
use sccs_base::{Failed, Name};
use std::alloc::Global;
use std::fs;
use std::fs::OpenFile;
use std::os::unix::fs::MetadataExt;
use std::rt::Files;

/// Which names have changed since the folders were synced, and the folders, once they are open.
#[derive(Drop)]
pub struct FolderOrder<F> {
    alloc: Global,
    stored: Option<F>,
    here: Option<F>,
    // whether the file system keeps the order of changes, once that was asked
    ordered: Option<bool>,
    // whether names changed in the folder of stored files, and in the current one where it is another
    stored_changed: bool,
    here_changed: bool,
    // whether changes are to come to the disk before what follows: all but those of z-files that went
    ahead: bool,
    // whether a z-file is among them, behind which x- and q-files come
    locked: bool,
    // whether an s-file is among them, behind which p- and g-files come
    placed: bool,
    // whether the intent of a group is on the disk, by which its changes are made again in any order; a command that
    // makes a
    // lock behind it is none of the group's
    group: bool,
}

// the number of a device in its two parts, as makedev(3) has it
fn parts_of(device: u64) -> (u64, u64) {
    let major = ((device >> 32) & 0xffff_f000) | ((device >> 8) & 0xfff);
    let minor = ((device >> 12) & 0xffff_ff00) | (device & 0xff);
    (major, minor)
}

// whether the file system of a device keeps the order in which names change; None where that can't be told. The system
// knows the device by a name, under which ext4 tells its options, only with a journal one for data among them, and
// under
// which xfs has a folder. What has no device of its own doesn't keep it.
fn keeps_order<R: Files>(rt: &R, alloc: Global, device: u64) -> Option<bool> {
    let (major, minor) = parts_of(device);
    if major == 0 {
        return Some(false);
    }
    let link = format!(in alloc; "/sys/dev/block/{major}:{minor}").ok()?;
    let target = fs::read_link(&(rt, alloc), link.as_str()).ok()?;
    let name = target.file_name()?;
    let path = format!(in alloc; "/proc/fs/ext4/{name}/options").ok()?;
    if let Ok(options) = fs::read(&(rt, alloc), path.as_str()) {
        let journal = options
            .as_slice()
            .lines()
            .any(|line| line.starts_with(b"data="));
        return Some(journal);
    }
    let path = format!(in alloc; "/sys/fs/xfs/{name}").ok()?;
    Some(fs::metadata(rt, path.as_str()).is_ok())
}

// whether names in a folder and in the current one come to the disk in the order in which they change
fn are_ordered<R: Files>(rt: &R, alloc: Global, stored: &str) -> bool {
    let (Ok(stored), Ok(here)) = (fs::metadata(rt, stored), fs::metadata(rt, HERE)) else {
        return false;
    };
    stored.dev() == here.dev() && keeps_order(rt, alloc, stored.dev()).unwrap_or(false)
}

// syncs a folder, which is opened once
fn sync_folder<R: Files>(rt: &R, path: &str, open: &mut Option<R::File>) -> Result<(), Failed>
where
    R::File: Drop,
{
    if open.is_none() {
        match fs::open(rt, path) {
            Ok(folder) => *open = Some(folder),
            Err(_) => return Err(Failed),
        }
    }
    match open {
        Some(folder) if folder.sync_all().is_ok() => Ok(()),
        _ => Err(Failed),
    }
}

impl<F: OpenFile + Drop> FolderOrder<F> {
    /// No name has changed.
    pub fn new(alloc: Global) -> FolderOrder<F> {
        FolderOrder {
            alloc,
            stored: None,
            here: None,
            ordered: None,
            stored_changed: false,
            here_changed: false,
            ahead: false,
            locked: false,
            placed: false,
            group: false,
        }
    }

    /// A name has another file, or none any more.
    pub fn changed(&mut self, places: &Places, name: &Name) {
        if places.are_two() && !is_stored(name.bytes()) {
            self.here_changed = true;
            return;
        }
        self.stored_changed = true;
        self.ahead = true;
        if role_of(name) == Role::Lock {
            self.locked = true;
            self.group = false;
        }
        self.placed |= has_letter(name, b's');
    }

    /// The name of a z-file has no file any more.
    pub fn unlocked(&mut self) {
        self.stored_changed = true;
    }

    /// What a command left that was stopped is taken up: its changes may not have come to the disk.
    pub fn takes_up(&mut self) {
        self.ahead = true;
        self.placed = true;
    }

    /// The intent of a group is there, and comes to the disk now; or it is gone.
    pub fn groups<R: Files<File = F>>(
        &mut self,
        rt: &R,
        places: &mut Places,
        there: bool,
    ) -> Result<(), Failed> {
        if there {
            self.wait(rt, places)?;
        }
        self.group = there;
        Ok(())
    }

    // whether changes of names come to the disk in their order
    fn is_kept<R: Files<File = F>>(&mut self, rt: &R, places: &mut Places) -> Result<bool, Failed> {
        let ordered = match self.ordered {
            Some(ordered) => ordered,
            None => are_ordered(rt, self.alloc, places.stored()?),
        };
        self.ordered = Some(ordered);
        Ok(ordered)
    }

    // has the changes come to the disk that are to be there before what follows
    fn wait<R: Files<File = F>>(&mut self, rt: &R, places: &mut Places) -> Result<(), Failed> {
        if !self.ahead {
            return Ok(());
        }
        if !self.is_kept(rt, places)? {
            sync_folder(rt, places.stored()?, &mut self.stored)?;
            self.stored_changed = false;
        }
        self.settled();
        Ok(())
    }

    // all changes have come to the disk
    fn settled(&mut self) {
        self.ahead = false;
        self.locked = false;
        self.placed = false;
    }

    /// Before a file is made: no x- or q-file comes to the disk without its z-file, whose name alone would be nothing
    /// there.
    pub fn before_making<R: Files<File = F>>(
        &mut self,
        rt: &R,
        places: &mut Places,
        claims: &Claims<F>,
        name: &Name,
    ) -> Result<(), Failed> {
        if !self.locked || role_of(name) != Role::Working {
            return Ok(());
        }
        if let Some(lock) = claims.newest() {
            if !self.is_kept(rt, places)? && lock.sync_all().is_err() {
                return Err(Failed);
            }
        }
        self.wait(rt, places)
    }

    /// Before a name gets another file, or none: what is to be on the disk before that comes there.
    pub fn before<R: Files<File = F>>(
        &mut self,
        rt: &R,
        places: &mut Places,
        name: &Name,
    ) -> Result<(), Failed> {
        let waits = match role_of(name) {
            Role::Lock | Role::Intent => true,
            Role::Other => self.placed && !self.group,
            Role::Turn | Role::Working => false,
        };
        if waits { self.wait(rt, places) } else { Ok(()) }
    }

    /// Syncs each folder whose names have changed, and that of stored files where none has.
    pub fn sync<R: Files<File = F>>(&mut self, rt: &R, places: &mut Places) -> Result<(), Failed> {
        if self.here_changed {
            sync_folder(rt, HERE, &mut self.here)?;
        }
        if self.stored_changed || !self.here_changed {
            sync_folder(rt, places.stored()?, &mut self.stored)?;
            self.settled();
        }
        self.stored_changed = false;
        self.here_changed = false;
        Ok(())
    }
}
