//! Files of the folder that are read: the last two are kept open for a run of calls, and read ahead.
ghost use Rattle.std.specs.Prelude.{◌≡◌, ℕ, ◌≤◌, length, IfOk, IfSome};

use sccs_base::{Failed, Memory, Name, copy_front};
use std::alloc::Global;
use std::fs;
use std::fs::{Metadata, OpenFile};
use std::io::{ErrorKind, Read, Seek, SeekFrom};
use std::mem::swap;
use std::os::unix::fs::MetadataExt;
use std::rt::Files;

// how many bytes one read of the system asks for
const READ_AHEAD: usize = 131_072;

// a file that is open for reading, with its name
#[derive(Drop)]
struct OpenFor<F> {
    name: Name,
    file: F,
    // what it was when it was opened; it is read to the length that it had then
    metadata: Metadata,
    // where the file's next reading begins
    place: u64,
    // the place of the first byte that was read ahead, and how many were
    from: u64,
    count: usize,
}

// a file that is read, if one is open, and what was read ahead of it
#[derive(Drop)]
struct Reading<F> {
    open: Option<OpenFor<F>>,
    ahead: Vec<u8>,
}

/// The two files that were read last, as far as they are still open, and what was read ahead of them: a
/// delta looks at its s-file and its g-file in turns.
#[derive(Drop)]
pub struct FolderReader<F> {
    last: Reading<F>,
    other: Reading<F>,
}

/// Whether two pieces of metadata are of one file.
pub fn is_at(there: &Metadata, held: &Metadata) -> bool {
    there.dev() == held.dev() && there.ino() == held.ino()
}

/// What stands at a path, where that is a regular file; None where nothing does. What is no regular file has failed,
/// and
/// is never opened, since opening could wait for another program.
pub fn regular<R: Files>(rt: &R, path: &str) -> Result<Option<Metadata>, Failed> {
    match fs::metadata(rt, path) {
        Ok(metadata) => {
            if metadata.is_file() {
                Ok(Some(metadata))
            } else {
                Err(Failed)
            }
        }
        Err(error) => missing_or_failed(error.kind()),
    }
}

/// What stands at a path, as `regular` has it, but that a link that leads nowhere has failed.
pub fn standing<R: Files>(rt: &R, path: &str) -> Result<Option<Metadata>, Failed> {
    match fs::symlink_metadata(rt, path) {
        Ok(metadata) => {
            if metadata.is_symlink() {
                match regular(rt, path)? {
                    Some(metadata) => Ok(Some(metadata)),
                    None => Err(Failed),
                }
            } else if metadata.is_file() {
                Ok(Some(metadata))
            } else {
                Err(Failed)
            }
        }
        Err(error) => missing_or_failed(error.kind()),
    }
}

// a name that isn't there is no failure
fn missing_or_failed<T>(kind: ErrorKind) -> Result<Option<T>, Failed> {
    if kind == ErrorKind::NotFound {
        Ok(None)
    } else {
        Err(Failed)
    }
}

/// Opens a regular file for reading; None where the path leads to none.
pub fn open_to_read<R: Files>(rt: &R, path: &str) -> Result<Option<R::File>, Failed> {
    if standing(rt, path)?.is_none() {
        return Ok(None);
    }
    match fs::open(rt, path) {
        Ok(file) => Ok(Some(file)),
        Err(error) => missing_or_failed(error.kind()),
    }
}

// reads until the slice is full or the file ends
fn fill<F: Read>(file: &mut F, into: &mut [u8]) -> Option<usize>
    ensures { IfSome result (λ n. n ≤ length into.old) }
{
    let mut at = 0;
    for _ in 0..u64::MAX {
        if at == into.len() {
            return Some(at);
        }
        match file.read(&mut into[at..]) {
            Ok(0) => return Some(at),
            Ok(n) => at += n,
            Err(error) => {
                if error.kind() != ErrorKind::Interrupted {
                    return None;
                }
            }
        }
    }
    None
}

// reads from a place on; the file is sought there, where it doesn't stand there
fn read_from<F: Read + Seek>(
    file: &mut F,
    place: &mut u64,
    from: u64,
    into: &mut [u8],
) -> Option<usize>
    ensures { IfSome result (λ n. n ≤ length into.old) }
{
    if *place != from {
        *place = from;
        if file.seek(SeekFrom::Start(from)).is_err() {
            return None;
        }
    }
    let count = fill(file, into)?;
    *place = from.saturating_add(count as u64);
    Some(count)
}

// the bytes from a place on that were read ahead, none where the place isn't among them
fn ahead_from(ahead: &[u8], first: u64, count: usize, from: u64) -> &[u8] {
    let count = count.min(ahead.len());
    match from.checked_sub(first) {
        Some(skip) => {
            if skip < count as u64 {
                &ahead[skip as usize..count]
            } else {
                &[]
            }
        }
        None => &[],
    }
}

impl<F: Read + Seek + OpenFile + Drop> Reading<F> {
    // no file is open
    fn new(alloc: Global) -> Result<Reading<F>, Memory> {
        let ahead = vec![in alloc; 0; READ_AHEAD]?;
        Ok(Reading { open: None, ahead })
    }

    // whether the file of a name is open
    fn reads(&self, name: &Name) -> bool {
        match &self.open {
            Some(open) => open.name.is(name),
            None => false,
        }
    }

    // opens the file of a name, at its path, in the place of the one that is open; whether it is there
    fn open_file<R: Files<File = F>>(
        &mut self,
        rt: &R,
        path: &str,
        name: &Name,
    ) -> Result<bool, Failed> {
        if regular(rt, path)?.is_none() {
            return Ok(false);
        }
        let file = match fs::open(rt, path) {
            Ok(file) => file,
            Err(error) => return Ok(missing_or_failed::<()>(error.kind())?.is_some()),
        };
        let Ok(metadata) = file.metadata() else {
            return Err(Failed);
        };
        self.open = Some(OpenFor {
            name: *name,
            file,
            metadata,
            place: 0,
            from: 0,
            count: 0,
        });
        Ok(true)
    }

    // closes the file of a name
    fn close_name(&mut self, name: &Name) {
        if self.reads(name) {
            self.open = None;
        }
    }

    // reads the file that is open from a place on
    fn read_at(&mut self, from: u64, into: &mut [u8]) -> Result<Option<usize>, Failed>
        ensures { IfOk result (λ r. IfSome r (λ n. n ≤ length into.old)) }
    {
        let Some(open) = &mut self.open else {
            return Ok(None);
        };
        let ready = ahead_from(&self.ahead, open.from, open.count, from);
        let first = copy_front(ready, into);
        if first == into.len() {
            return Ok(Some(first));
        }
        let next = from.saturating_add(first as u64);
        let left = open.metadata.len().saturating_sub(next);
        if left == 0 {
            return Ok(Some(first));
        }
        let wanted = left.min(self.ahead.len() as u64) as usize;
        let piece = &mut self.ahead[..wanted];
        let Some(count) = read_from(&mut open.file, &mut open.place, next, piece) else {
            return Err(Failed);
        };
        open.from = next;
        open.count = count;
        let ready = ahead_from(&self.ahead, open.from, open.count, next);
        Ok(Some(first + copy_front(ready, &mut into[first..])))
    }
}

impl<F: Read + Seek + OpenFile + Drop> FolderReader<F> {
    /// No file is open.
    pub fn new(alloc: Global) -> Result<FolderReader<F>, Memory> {
        Ok(FolderReader {
            last: Reading::new(alloc)?,
            other: Reading::new(alloc)?,
        })
    }

    /// Closes the files, and lets go of what was read ahead.
    pub fn close(&mut self) {
        self.last.open = None;
        self.other.open = None;
    }

    /// Closes the file of a name.
    pub fn close_name(&mut self, name: &Name) {
        self.last.close_name(name);
        self.other.close_name(name);
    }

    /// The mode of the file of a name, where it is open.
    pub fn mode(&self, name: &Name) -> Option<u32> {
        for reading in [&self.last, &self.other] {
            if let Some(open) = &reading.open {
                if open.name.is(name) {
                    return Some(open.metadata.mode());
                }
            }
        }
        None
    }

    /// Makes the file of a name, at its path, the last one, and opens it where neither is it. What it was when it was
    /// opened; None where it isn't there.
    pub fn open<R: Files<File = F>>(
        &mut self,
        rt: &R,
        path: &str,
        name: &Name,
    ) -> Result<Option<&Metadata>, Failed> {
        if !self.last.reads(name) {
            if !self.other.reads(name) && !self.other.open_file(rt, path, name)? {
                return Ok(None);
            }
            swap(&mut self.last, &mut self.other);
        }
        match &self.last.open {
            Some(open) => Ok(Some(&open.metadata)),
            None => Ok(None),
        }
    }

    /// Reads a file, at its path, from a place on; None where it isn't there.
    pub fn read_at<R: Files<File = F>>(
        &mut self,
        rt: &R,
        path: &str,
        name: &Name,
        from: u64,
        into: &mut [u8],
    ) -> Result<Option<usize>, Failed>
        ensures { IfOk result (λ r. IfSome r (λ n. n ≤ length into.old)) }
    {
        if self.open(rt, path, name)?.is_none() {
            return Ok(None);
        }
        self.last.read_at(from, into)
    }
}
