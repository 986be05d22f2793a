//! A file of the folder that is written: kept open from its making on, and written in long pieces.
ghost use Rattle.std.specs.Prelude.{◌≡◌, ◌≤◌, None};
ghost use Rattle.sccs_base.specs.Stream.{Rose};

use crate::folder_places::has_letter;
use crate::folder_reading::regular;
use sccs_base::{FILE_LIMIT, Failed, Memory, Name, NullSink, OutputBuffer, Sink, one_more};
use std::alloc::Global;
use std::fs::{OpenFile, OpenOptions};
use std::io::{Seek, SeekFrom, Write};
use std::os::unix::fs::PermissionsExt;
use std::rt::Files;

// a file as a sink. It tells no bytes, and counts its failures.
#[derive(Drop)]
struct FileSink<F> {
    file: F,
    faults: u64,
}

// a file that is open for writing, with its name
#[derive(Drop)]
struct OpenFor<F> {
    name: Name,
    sink: FileSink<F>,
    // whether this command made it
    made: bool,
    // how many bytes it has, with those that are held back
    length: u64,
}

/// The file that was made or written last, as long as it is open, and the bytes that are held back from it. What is
/// written goes to the file that is open, whatever stands under its name meanwhile.
#[derive(Drop)]
pub struct FolderWriter<F> {
    open: Option<OpenFor<F>>,
    held: OutputBuffer,
}

// how many bytes a file may have: an x-file at most as many as can be read again
fn limit_of(name: &Name) -> u64 {
    if has_letter(name, b'x') {
        FILE_LIMIT
    } else {
        u64::MAX
    }
}

// opens a regular file at its path, and stands at its end
fn open_to_write<R: Files>(rt: &R, path: &str, name: &Name) -> Result<OpenFor<R::File>, Failed> {
    let Some(metadata) = regular(rt, path)? else {
        return Err(Failed);
    };
    let mut how = OpenOptions::new();
    how.write(true);
    let Ok(mut file) = how.open(rt, path) else {
        return Err(Failed);
    };
    let length = metadata.len();
    seek(&mut file, length)?;
    Ok(OpenFor {
        name: *name,
        sink: FileSink { file, faults: 0 },
        made: false,
        length,
    })
}

// puts the place where is written next
fn seek<F: Seek>(file: &mut F, place: u64) -> Result<(), Failed> {
    match file.seek(SeekFrom::Start(place)) {
        Ok(_) => Ok(()),
        Err(_) => Err(Failed),
    }
}

/// Takes rights from a file that is open.
pub fn take_rights<F: OpenFile>(file: &F, rights: u32) -> Result<(), Failed> {
    let Ok(metadata) = file.metadata() else {
        return Err(Failed);
    };
    let mut permissions = metadata.permissions();
    let left = permissions.mode() & !rights;
    permissions.set_mode(left);
    match file.set_permissions(permissions) {
        Ok(()) => Ok(()),
        Err(_) => Err(Failed),
    }
}

impl<F: Write> Sink for FileSink<F> {
    ghost given = { λ _. None };

    ghost faults = { λ s. s.faults };

    fn give(&mut self, bytes: &[u8]) -> Result<(), Failed> {
        match self.file.write_all(bytes) {
            Ok(()) => Ok(()),
            Err(_) => {
                self.faults = one_more(self.faults);
                Err(Failed)
            }
        }
    }
}

impl<F: Write + Seek + OpenFile + Drop> FolderWriter<F> {
    /// No file is open.
    pub fn new(alloc: Global) -> Result<FolderWriter<F>, Memory> {
        Ok(FolderWriter {
            open: None,
            held: OutputBuffer::new(alloc)?,
        })
    }

    /// Takes a file that was just made, in the place of the one that is open.
    pub fn begin(&mut self, name: &Name, file: F) {
        self.close();
        self.open = Some(OpenFor {
            name: *name,
            sink: FileSink { file, faults: 0 },
            made: true,
            length: 0,
        });
    }

    /// Whether the file of a name is open.
    pub fn holds(&self, name: &Name) -> bool {
        match &self.open {
            Some(open) => open.name.is(name),
            None => false,
        }
    }

    /// The file of a name, where it is open.
    pub fn file(&self, name: &Name) -> Option<&F> {
        match &self.open {
            Some(open) if open.name.is(name) => Some(&open.sink.file),
            _ => None,
        }
    }

    /// The name of the file that is open, where this command made it.
    pub fn made(&self) -> Option<Name> {
        match &self.open {
            Some(open) if open.made => Some(open.name),
            _ => None,
        }
    }

    /// Closes the file, and drops what is held back from it.
    pub fn close(&mut self) {
        self.open = None;
        let _ = self.held.flush(&mut NullSink);
    }

    /// Closes the file, and hands it over where it is that of a name.
    pub fn take(&mut self, name: &Name) -> Option<F> {
        match self.open.take() {
            Some(open) if open.name.is(name) => Some(open.sink.file),
            _ => None,
        }
    }

    /// Writes what is held back.
    pub fn flush(&mut self) -> Result<(), Failed> {
        match &mut self.open {
            Some(open) => self.held.flush(&mut open.sink),
            None => Ok(()),
        }
    }

    /// Writes what is held back, and closes the file.
    pub fn settle(&mut self) -> Result<(), Failed> {
        self.flush()?;
        self.open = None;
        Ok(())
    }

    // opens the file of a name, at its path, where that isn't the one that is open
    fn turn_to<R: Files<File = F>>(
        &mut self,
        rt: &R,
        path: &str,
        name: &Name,
    ) -> Result<(), Failed> {
        if self.holds(name) {
            return Ok(());
        }
        self.settle()?;
        self.open = Some(open_to_write(rt, path, name)?);
        Ok(())
    }

    /// Adds bytes at the end of a file that is there; an x-file that would be longer than can be read again fails.
    pub fn append<R: Files<File = F>>(
        &mut self,
        rt: &R,
        path: &str,
        name: &Name,
        bytes: &[u8],
    ) -> Result<(), Failed> {
        self.turn_to(rt, path, name)?;
        let Some(open) = &mut self.open else {
            return Err(Failed);
        };
        match open.length.checked_add(bytes.len() as u64) {
            Some(length) if length <= limit_of(name) => open.length = length,
            _ => return Err(Failed),
        }
        self.held.give(&mut open.sink, bytes)
    }

    /// Writes bytes over as many that are there, from a place on.
    pub fn write_at<R: Files<File = F>>(
        &mut self,
        rt: &R,
        path: &str,
        name: &Name,
        from: u64,
        bytes: &[u8],
    ) -> Result<(), Failed> {
        self.turn_to(rt, path, name)?;
        self.flush()?;
        let Some(open) = &mut self.open else {
            return Err(Failed);
        };
        match from.checked_add(bytes.len() as u64) {
            Some(end) if end <= open.length => {}
            _ => return Err(Failed),
        }
        seek(&mut open.sink.file, from)?;
        open.sink.give(bytes)?;
        seek(&mut open.sink.file, open.length)
    }
}
