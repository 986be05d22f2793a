//! Turns of commands: a file that a command makes is held by the lock of its open file until it has another name, is
//gone,
//! or its process ends.
use crate::folder_reading::{is_at, open_to_read};
use sccs_base::{Failed, Memory, Name};
use std::alloc::Global;
use std::fs;
use std::fs::{File, OpenFile, TryLockError};
use std::rt::Files;

/// How often a file is looked for anew that other commands make and remove.
pub const TRIES: usize = 1000;

// how many files are held at most, since the system lets a process open no more than some; what is past them isn't held
const MOST: usize = 512;

/// Whether a file is held by this open file.
#[derive(Clone, Copy, Debug, PartialEq, Eq)]
pub enum Attempt {
    Ours,
    /// Another command holds it.
    Theirs,
    /// The system can't tell.
    Unable,
}

/// A file of the system that one command at a time can hold: flock(2).
pub trait Turn {
    fn attempt(&self) -> Attempt;

    /// Waits while another command holds it; where the system can't tell it doesn't wait.
    fn wait(&self);
}

// a file that was opened for reading alone can be held only shared on some file systems, which meets a whole lock all
// the same
impl Turn for File {
    fn attempt(&self) -> Attempt {
        match self.try_lock() {
            Ok(()) => Attempt::Ours,
            Err(TryLockError::WouldBlock) => Attempt::Theirs,
            Err(TryLockError::Error(_)) => match self.try_lock_shared() {
                Ok(()) => Attempt::Ours,
                Err(TryLockError::WouldBlock) => Attempt::Theirs,
                Err(TryLockError::Error(_)) => Attempt::Unable,
            },
        }
    }

    fn wait(&self) {
        if self.lock().is_err() {
            let _ = self.lock_shared();
        }
    }
}

/// Whether the file that is open stands at a path, and no link to it does.
pub fn stands<R: Files>(rt: &R, path: &str, file: &R::File) -> bool {
    match (fs::symlink_metadata(rt, path), file.metadata()) {
        (Ok(there), Ok(held)) => is_at(&there, &held),
        _ => false,
    }
}

// whether a path leads to the file that is open, also by a link
fn leads_to<R: Files>(rt: &R, path: &str, file: &R::File) -> bool {
    match (fs::metadata(rt, path), file.metadata()) {
        (Ok(there), Ok(held)) => is_at(&there, &held),
        _ => false,
    }
}

/// Waits while another command holds the file of a path. The file that stands there then, which nobody holds but this
/// command; None where none does.
pub fn wait_for<R: Files>(rt: &R, path: &str) -> Result<Option<R::File>, Failed>
where
    R::File: Turn + Drop,
{
    for _ in 0..TRIES {
        let Some(file) = open_to_read(rt, path)? else {
            return Ok(None);
        };
        file.wait();
        if leads_to(rt, path, &file) {
            return Ok(Some(file));
        }
    }
    Err(Failed)
}

// a file that is held
#[derive(Drop)]
struct Claim<F> {
    name: Name,
    file: F,
    // whether this command made it
    made: bool,
}

/// The z-files, and the intent of a group, that this command holds.
#[derive(Drop)]
pub struct Claims<F> {
    items: Vec<Claim<F>>,
}

impl<F: Drop> Claims<F> {
    /// None is held.
    pub fn new(alloc: Global) -> Claims<F> {
        Claims {
            items: Vec::new(alloc),
        }
    }

    /// Takes room for one more.
    pub fn make_room(&mut self) -> Result<(), Memory> {
        self.items.reserve(1)?;
        Ok(())
    }

    /// Holds a file, where there is room.
    pub fn take(&mut self, name: &Name, file: F, made: bool) {
        if self.items.len() < MOST {
            let _ = self.items.push(Claim {
                name: *name,
                file,
                made,
            });
        }
    }

    /// Whether the file of a name is held.
    pub fn holds(&self, name: &Name) -> bool {
        self.items.iter().any(|claim| claim.name.is(name))
    }

    /// Lets go of the file of a name.
    pub fn release(&mut self, name: &Name) {
        self.items.retain(|claim| !claim.name.is(name));
    }

    /// The file that was taken last.
    pub fn newest(&self) -> Option<&F> {
        match self.items.last() {
            Some(claim) => Some(&claim.file),
            None => None,
        }
    }

    /// Lets go of what other commands left, since a command that begins has only looked at it.
    pub fn release_left(&mut self) {
        self.items.retain(|claim| claim.made);
    }

    /// The name of a file that this command made, and holds.
    pub fn made(&self) -> Option<Name> {
        match self.items.iter().find(|claim| claim.made) {
            Some(claim) => Some(claim.name),
            None => None,
        }
    }
}
