//! Where the file of a name stands, in the folder of stored files or in the current one, and what its name is to other
//! commands.
use sccs_base::{Failed, Memory, Name, copy_front};
use std::alloc::Global;

// the most bytes that a name in a folder has: limits.h
const NAME_MAX: usize = 255;

/// The current folder's path.
pub const HERE: &str = ".";

/// What a file is to the commands that share a folder, by its name.
#[derive(Clone, Copy, Debug, PartialEq, Eq)]
pub enum Role {
    /// A z-file: the command that made it has the files of its name.
    Lock,
    /// A y-file, or the plan of a group, which one command at a time makes and others wait for.
    Turn,
    /// The intent of a group.
    Intent,
    /// An x- or q-file.
    Working,
    Other,
}

/// The folder of stored files, by its path with a slash at its end, and room for a name behind it. Without bytes it is
/// the current folder.
#[derive(Drop)]
pub struct Places {
    path: Vec<u8>,
    front: usize,
}

/// What the file of a name is.
pub fn role_of(name: &Name) -> Role {
    match name.bytes() {
        [b'z', b'.', ..] => Role::Lock,
        [b'y', b'.', ..] | b"sccs.plan" => Role::Turn,
        b"sccs.intent" => Role::Intent,
        [b'x' | b'q', b'.', ..] => Role::Working,
        _ => Role::Other,
    }
}

/// Whether the file of a name is stored: an s-, p-, x-, q- or z-file, or one of a group.
pub fn is_stored(name: &[u8]) -> bool {
    match name {
        [b's' | b'p' | b'x' | b'q' | b'z', b'.', ..] | b"sccs.plan" | b"sccs.intent" => true,
        _ => false,
    }
}

/// Whether the name of a z- or y-file is that of a module whose g-file has the name of a stored file.
pub fn is_ambiguous(name: &Name) -> bool {
    match name.bytes() {
        [b'z' | b'y', b'.', module @ ..] => is_stored(module),
        _ => false,
    }
}

/// Whether a name begins with this letter and a dot.
pub fn has_letter(name: &Name, letter: u8) -> bool {
    match name.bytes() {
        [first, b'.', ..] => *first == letter,
        _ => false,
    }
}

/// The name with another first letter.
pub fn with_letter(name: &Name, letter: u8) -> Option<Name> {
    let mut bytes = [letter; NAME_MAX];
    let count = copy_front(name.bytes(), &mut bytes);
    bytes[0] = letter;
    Name::read(&bytes[..count])
}

impl Places {
    /// The folder of stored files is that of a path, or the current one where the path is empty. Room for each name is
    /// taken at once.
    pub fn new(alloc: Global, stored: &[u8]) -> Result<Places, Memory> {
        let mut path = Vec::with_capacity(alloc, stored.len().saturating_add(NAME_MAX + 1))?;
        if !stored.is_empty() {
            path.extend_from_slice(stored)?;
            path.extend_from_slice(b"/")?;
        }
        let front = path.len();
        Ok(Places { path, front })
    }

    /// Whether the stored files have a folder of their own.
    pub fn are_two(&self) -> bool {
        self.front != 0
    }

    // the path with bytes behind it
    fn with(&mut self, name: &[u8]) -> Result<&str, Failed> {
        self.path.truncate(self.front);
        if self.path.extend_from_slice(name).is_err() {
            return Err(Failed);
        }
        match std::str::from_utf8(self.path.as_slice()) {
            Ok(path) => Ok(path),
            Err(_) => Err(Failed),
        }
    }

    /// The path of the folder of stored files.
    pub fn stored(&mut self) -> Result<&str, Failed> {
        if self.are_two() {
            self.with(&[])
        } else {
            Ok(HERE)
        }
    }

    /// The path of the file of a name.
    pub fn of<'a>(&'a mut self, name: &'a Name) -> Result<&'a str, Failed> {
        if self.are_two() && is_stored(name.bytes()) {
            self.with(name.bytes())
        } else {
            Ok(name.text())
        }
    }
}
